//! The coefficients of a pattern, by Lagrange's formula: each is the part of its known place times the part of its wanted
//! place over the sum of the two places.

ghost use Rattle.std.specs.Prelude.{◌≡◌, ℕ, ◌+◌, ◌*◌, ◌<◌, ◌≤◌, Contains, length, slice_index, vec_len};
ghost use Rattle.std.specs.Vec.{vec_capacity};
ghost use Rattle.stair_model.specs.CauchyCode.{AreKnownPlaces};
ghost use Rattle.stair_mds.specs.Lagrange.{known_part as known_part_of, solving, wanted_part as wanted_part_of};
ghost use Rattle.stair_mds.specs.Weights.{HasWeights};

use crate::distances::distances;
use stair_gf::{Factor, inv, mul};

/// The most symbols that a code holds.
pub(crate) const MAX_HELD: usize = 32;

/// The part of each known place: its weight over its distances to the other known ones.
pub(crate) fn known_parts(weights: &[u8], known: &[u16]) -> [u8; MAX_HELD]
    requires weights { HasWeights (length known.now) weights.now }
    requires known { AreKnownPlaces (length known.now) (length weights.now) known.now }
    requires few { length known.now ≤ 32 }
    ensures count { length result ≡ 32 }
    ensures each { (i : ℕ) → i < length known.now →
        slice_index result i ≡ known_part_of (length known.now) known.now i }
{
    let mut parts = [0; MAX_HELD];
    for i in 0..known.len() {
        let apart = distances(known, i, known[i]);
        parts[i] = mul(weights[usize::from(known[i])], inv(apart));
    }
    parts
}

/// The part of a wanted place: its distances to all known ones over its weight.
pub(crate) fn wanted_part(weights: &[u8], known: &[u16], wanted: u16) -> u8
    requires weights { HasWeights (length known.now) weights.now }
    requires known { AreKnownPlaces (length known.now) (length weights.now) known.now }
    requires wanted { wanted < length weights.now }
    ensures { result ≡ wanted_part_of (length known.now) known.now wanted }
{
    let apart = distances(known, known.len(), wanted);
    mul(apart, inv(weights[usize::from(wanted)]))
}

/// Appends what each known place contributes to a wanted one, by their parts. There is room for it.
pub(crate) fn push_coefficients(
    coefficients: &mut Vec<Factor>,
    known: &[u16],
    parts: &[u8; MAX_HELD],
    wanted: u16,
    part: u8,
)
    requires room { vec_len coefficients.old + length known.now ≤ vec_capacity coefficients.old }
    requires few { length known.now ≤ 32 }
    requires known { AreKnownPlaces (length known.now) 256 known.now }
    requires wanted { wanted < 256 }
    requires unknown { Contains known.now wanted → ⊥ }
    requires parts { (i : ℕ) → i < length known.now →
        slice_index parts.now i ≡ known_part_of (length known.now) known.now i }
    requires part { part ≡ wanted_part_of (length known.now) known.now wanted }
    ensures count { vec_len coefficients.new ≡ vec_len coefficients.old + length known.now }
    ensures kept { (k : ℕ) → k < vec_len coefficients.old →
        slice_index coefficients.new.items k ≡ slice_index coefficients.old.items k }
    ensures added { (i : ℕ) → i < length known.now →
        slice_index coefficients.new.items (vec_len coefficients.old + i)
        ≡ solving (length known.now) known.now i wanted }
    ensures capacity { vec_capacity coefficients.old ≤ vec_capacity coefficients.new }
{
    for (i, place) in known.iter().enumerate() {
        let between = inv((wanted ^ *place) as u8);
        let _ = coefficients.push(Factor::new(mul(mul(parts[i], part), between)));
    }
}
