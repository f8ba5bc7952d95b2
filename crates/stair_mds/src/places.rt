ghost use Rattle.std.specs.Prelude.{◌≡◌, ℕ, ◌+◌, ◌<◌, ◌≤◌, length, slice_index};

/// The most places of a code of an array: 32 chunks and 32 intermediate ones, or 32 rows and as many
/// virtual ones.
pub const MAX_PLACES: usize = 64;

/// The numbers from this one on, as many as a code has places at most.
pub fn numbers_from(first: u16) -> [u16; MAX_PLACES]
    requires { first ≤ 64 }
    ensures count { length result ≡ 64 }
    ensures each { (k : ℕ) → k < 64 → slice_index result k ≡ first + k }
{
    let mut numbers = [0; MAX_PLACES];
    for k in 0..MAX_PLACES {
        numbers[k] = first + k as u16;
    }
    numbers
}
