//! The laws of sealed sectors.

ghost use Rattle.std.specs.Prelude.{◌≡◌, ◌≢◌, ◌++◌, ℕ, List, length};
ghost use Rattle.stair_image.specs.Seal.{tag_of, sealed, payload_in, IsSealed};

/// What the tag gives, of any digest: that two payloads have different tags is nothing that a law can say. It does
/// nothing.
pub fn seal_laws()
    // what was sealed is sealed, and unseals as its payload
    ensures unseals { (number : ℕ) (payload : List ℕ) → length payload ≡ 512 →
        IsSealed number (sealed number payload) × (payload_in (sealed number payload) ≡ payload) }
    // nothing else is sealed
    ensures only { (number : ℕ) (sector : List ℕ) → IsSealed number sector →
        sector ≡ sealed number (payload_in sector) }
    // any other tag after a payload is refused
    ensures other_tag { (number : ℕ) (payload tag : List ℕ) → length payload ≡ 512 →
        tag ≢ tag_of number payload → ¬ IsSealed number (payload ++ tag) }
{}
