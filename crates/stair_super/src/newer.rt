ghost use Rattle.std.specs.Prelude.{◌≡◌, ◌↔◌, IsTrue};
ghost use Rattle.stair_super.specs.Superblock.{Superblock};
ghost use Rattle.stair_super.specs.Newer.{IsOlder, is_older, newer_super};

use crate::block::Super;

/// Whether a is older than b: its draw is the lesser one, or the draws are the same and its epoch is the lesser one.
pub fn is_older(a: &Super, b: &Super) -> bool
    ensures value { result ≡ is_older a.now b.now }
    ensures older { IsTrue result ↔ IsOlder a.now b.now }
{
    a.draw() < b.draw() || (a.draw() == b.draw() && a.epoch() < b.epoch())
}

/// The superblock with the greater draw, and of two with one draw that of the greater epoch. Where both are equal it is
/// the first one. None is answered exactly where both are None.
pub fn newer_of(a: Option<Super>, b: Option<Super>) -> Option<Super>
    ensures value { result ≡ newer_super a b }
    ensures none { (result ≡ None) ↔ ((a ≡ None) × (b ≡ None)) }
    ensures first_alone { b ≡ None → result ≡ a }
    ensures second_alone { a ≡ None → result ≡ b }
    ensures second { (x y : Superblock) → a ≡ Some x → b ≡ Some y → IsOlder x y → result ≡ Some y }
    ensures first { (x y : Superblock) → a ≡ Some x → b ≡ Some y → ¬ IsOlder x y → result ≡ Some x }
{
    match a {
        None => b,
        Some(first) => match b {
            None => Some(first),
            Some(second) => {
                if is_older(&first, &second) {
                    Some(second)
                } else {
                    Some(first)
                }
            }
        },
    }
}
