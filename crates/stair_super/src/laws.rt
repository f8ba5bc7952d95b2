//! Laws of the spelling of superblocks, and of their order.

ghost use Rattle.std.specs.Prelude.{◌≡◌, ◌↔◌, ◌⊎◌, ℕ, List, IsTrue, codes, length, take};
ghost use Rattle.stair_model.specs.Geometry.{IsSmall};
ghost use Rattle.stair_model.specs.Stripe.{SECTOR};
ghost use Rattle.stair_super.specs.declared.version.Version.{Version};
ghost use Rattle.stair_super.specs.Superblock.{Superblock, IsSuperblock};
ghost use Rattle.stair_super.specs.declared.version.Version.TheVariants.{Two};
ghost use Rattle.stair_super.specs.Spelling.{SpellsSuperblock, spelled, spelled_in};
ghost use Rattle.stair_super.specs.Newer.{IsOlder, is_older};

/// In each version a superblock has 512 bytes, and one spelling. No bytes are those of two superblocks, in whichever
/// versions, nor of two versions, and whether they are those of one is decided. The superblock of a small array is
/// written in version 2, and that of a large one has no other spelling than that of version 3. The test which of two
/// superblocks is older is right. It does nothing.
pub fn super_laws()
    ensures sector { (version : Version) (s : Superblock) → IsSuperblock s →
        length (spelled_in version s) ≡ SECTOR }
    ensures spelling { (bytes other : List ℕ) (s : Superblock) (a : SpellsSuperblock bytes s)
        (b : SpellsSuperblock other s) → a.version ≡ b.version → bytes ≡ other }
    ensures once { (bytes : List ℕ) (s t : Superblock) → SpellsSuperblock bytes s →
        SpellsSuperblock bytes t → s ≡ t }
    ensures versions { (a b : Version) (s t : Superblock) → spelled_in a s ≡ spelled_in b t →
        a ≡ b }
    ensures decided { (bytes : List ℕ) → ((s : Superblock) × SpellsSuperblock bytes s)
        ⊎ ((s : Superblock) → ¬ SpellsSuperblock bytes s) }
    ensures two { (s : Superblock) → IsSmall s.array.geometry → spelled s ≡ spelled_in Two s }
    ensures large { (bytes : List ℕ) (s : Superblock) → SpellsSuperblock bytes s →
        ¬ IsSmall s.array.geometry →
        (bytes ≡ spelled s) × (take 8 bytes ≡ codes "STAIRSB3") }
    ensures older { (a b : Superblock) → IsTrue (is_older a b) ↔ IsOlder a b }
{}
