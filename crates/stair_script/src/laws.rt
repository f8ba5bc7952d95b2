//! Laws of the lines of a script.

ghost use Rattle.std.specs.Prelude.{◌≡◌, ◌⊎◌, ◌≤◌, ◌*◌, ◌↔◌, ℕ, List, All, length};
ghost use Rattle.std.specs.Int.{IsInRange};
ghost use Rattle.std.specs.List.{AllPass};
ghost use Rattle.hex.specs.Hex.{is_hex_digit};
ghost use Rattle.stair_model.specs.Stripe.{SECTOR};
ghost use Rattle.stair_script.specs.Line.{AreDigits, IsLine, SpellsLine, printed};
ghost use Rattle.stair_script.specs.declared.line.Line.{Line};

/// Bytes spell one line at most, and whether they spell one is decided. Each line that there is, and no other, is spelled by
/// some bytes, among them those as which it is printed. No line has more than 1,051 bytes, and each byte is a space or
/// printable, so none ends a line. The digits of a sector are 1,024 hexadecimal digits, in either case. It does nothing.
pub fn line_laws()
    ensures one_line { (bytes : List ℕ) (a b : Line) → SpellsLine bytes a → SpellsLine bytes b →
        a ≡ b }
    ensures decided { (bytes : List ℕ) → ((said : Line) × SpellsLine bytes said)
        ⊎ ((said : Line) → ¬ SpellsLine bytes said) }
    ensures printing { (said : Line) → IsLine said → SpellsLine (printed said) said }
    ensures range { (bytes : List ℕ) (said : Line) → SpellsLine bytes said → IsLine said }
    ensures longest { (bytes : List ℕ) (said : Line) → SpellsLine bytes said → length bytes ≤ 1051 }
    ensures printable { (bytes : List ℕ) (said : Line) → SpellsLine bytes said →
        All (IsInRange 32 126) bytes }
    ensures digits { (digits : List ℕ) → ((contents : List ℕ) × AreDigits digits contents)
        ↔ ((length digits ≡ 2 * SECTOR) × AllPass is_hex_digit digits) }
{}
