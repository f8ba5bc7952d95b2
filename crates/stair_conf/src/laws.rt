//! Laws of the words, and of the geometry text.

ghost use Rattle.std.specs.Prelude.{◌≡◌, ◌≢◌, ◌↔◌, ℕ, List, All, Err, Result, Some, length, slice_index};
ghost use Rattle.std.specs.List.{AllPass};
ghost use Rattle.hex.specs.Hex.{is_hex_digit};
ghost use Rattle.toml.specs.Data.{Members, get_member, string};
ghost use Rattle.stair_model.specs.Geometry.{Geometry};
ghost use Rattle.stair_conf.specs.Config.{HasKey, TextReadsAs, name_of};
ghost use Rattle.stair_conf.specs.Words.{Spells};
ghost use Rattle.stair_conf.specs.declared.fault.ConfigFault.{ConfigFault};
ghost use Rattle.stair_conf.specs.declared.fault.ConfigFault.TheVariants as fault;
ghost use Rattle.stair_conf.specs.declared.job.Job.{Job};
ghost use Rattle.stair_conf.specs.declared.key.Key.TheVariants.{Id};

/// Words spell one job at most, and no word of a job begins with `-`. It does nothing.
pub fn words_laws()
    ensures one_job { (words : List (List ℕ)) (a b : Job) → Spells words a → Spells words b →
        a ≡ b }
    ensures no_hyphen { (words : List (List ℕ)) (job : Job) → Spells words job
        → All (λ word. slice_index word 0 ≢ 45) words }
{}

/// A text reads as one answer, and none reads as lack of memory. An identity is 32 hexadecimal digits. It does nothing.
pub fn config_laws()
    ensures one_answer { (text : List ℕ) (a b : Result Geometry ConfigFault) → TextReadsAs text a →
        TextReadsAs text b → a ≡ b }
    ensures no_memory { (text : List ℕ) → ¬ TextReadsAs text (Err fault.Memory) }
    ensures identity { (table : Members) → HasKey table Id ↔ ((digits : List ℕ)
        × (get_member (name_of Id) table ≡ Some (string digits)) × (length digits ≡ 32)
        × AllPass is_hex_digit digits) }
{}
