ghost use Rattle.std.specs.Prelude.{◌≡◌, ◌<◌, ◌≤◌, IfOk, All, length};
ghost use Rattle.stair_model.specs.CellSet.{IsInStripe};
ghost use Rattle.stair_model.specs.Stripe.{IsStripeOf};

use crate::check::check_of_stripe;
use crate::encoding::{BEFORE, varied_stripe};
use stair_base::{CellSet, Geometry, Stripe, StripeCode};
use stair_codec::{By, Codec};
use stair_gf::Steps;
use std::alloc::{AllocError, Global};
use std::sync::ledger::{Blank, Ledger};

/// Restores an encoded stripe so many times, from so many patterns in turn. Returns a check of all its cells, or 0 if a
/// pattern wasn't covered.
pub(crate) fn check_of_restoring<L: Ledger>(
    alloc: Global,
    geometry: &Geometry,
    patterns: u8,
    rounds: u32,
    blank: Blank,
) -> Result<u64, AllocError>
    requires some_patterns { 0 < patterns }
    requires patterns { patterns ≤ geometry.now.n }
    requires name { blank.name ≡ L.name }
    requires parts { blank.parts ≡ L.parts }
    requires some { 0 < L.parts }
{
    let patterns = worst_patterns(alloc, geometry, patterns)?;
    check_of_patterns::<L>(alloc, geometry, &patterns, rounds, blank)
}

/// The same from these patterns.
fn check_of_patterns<L: Ledger>(
    alloc: Global,
    geometry: &Geometry,
    patterns: &[CellSet],
    rounds: u32,
    blank: Blank,
) -> Result<u64, AllocError>
    requires name { blank.name ≡ L.name }
    requires parts { blank.parts ≡ L.parts }
    requires some { 0 < L.parts }
    requires patterns { 0 < length patterns.now }
    requires in_stripe { All (IsInStripe geometry.now) patterns.now }
{
    let mut stripe = varied_stripe(alloc, geometry)?;
    let mut code = Codec::new(alloc, geometry, By::Upstairs)?;
    let are_covered = restore_rounds::<L, Codec>(
        geometry,
        &mut code,
        &mut stripe,
        patterns,
        rounds,
        blank,
    );
    Ok(if are_covered {
        check_of_stripe(geometry, &stripe)
    } else {
        0
    })
}

/// Encodes this stripe, and restores it so many times, from these patterns in turn. Returns whether all were covered.
fn restore_rounds<L: Ledger, C: StripeCode>(
    geometry: &Geometry,
    code: &mut C,
    stripe: &mut Stripe,
    patterns: &[CellSet],
    rounds: u32,
    blank: Blank,
) -> bool
    requires name { blank.name ≡ L.name }
    requires parts { blank.parts ≡ L.parts }
    requires some { 0 < L.parts }
    requires shape { C.shape code.old ≡ geometry.now }
    requires of { IsStripeOf geometry.now stripe.old }
    requires patterns { 0 < length patterns.now }
    requires in_stripe { All (IsInStripe geometry.now) patterns.now }
    ensures { IsStripeOf geometry.now stripe.new }
{
    code.encode(stripe, &mut Steps::<L>::new(blank));
    erase(geometry, &patterns[0], stripe);
    let mut are_covered = true;
    for round in 0..rounds {
        let pattern = &patterns[round as usize % patterns.len()];
        are_covered = code.restore(stripe, pattern).is_ok() && are_covered;
    }
    are_covered
}

/// Returns the worst patterns whose whole chunks begin at the first so many slots.
fn worst_patterns(alloc: Global, geometry: &Geometry, count: u8) -> Result<Vec<CellSet>, AllocError>
    requires { count ≤ geometry.now.n }
    ensures count { IfOk result (λ patterns. length patterns.items ≡ count) }
    ensures in_stripe { IfOk result (λ patterns. All (IsInStripe geometry.now) patterns.items) }
{
    let mut patterns = Vec::with_capacity(alloc, usize::from(count))?;
    for first in 0..count {
        patterns.push(worst_pattern(geometry, first))?;
    }
    Ok(patterns)
}

/// Returns the covered pattern that takes the most steps: m whole chunks from this one on, and in the chunks after them as many
/// last sectors as the coverage vector says.
pub(crate) fn worst_pattern(geometry: &Geometry, first: u8) -> CellSet
    requires { first < geometry.now.n }
    ensures { IsInStripe geometry.now result }
{
    let mut pattern = CellSet::empty();
    for chunk in 0..geometry.m() {
        add_sectors(geometry, &mut pattern, (first + chunk) % geometry.n(), 0);
    }
    for class in 0..geometry.classes() {
        let slot = (first + geometry.m() + class) % geometry.n();
        add_sectors(
            geometry,
            &mut pattern,
            slot,
            geometry.r() - geometry.coverage(class),
        );
    }
    pattern
}

/// Adds the sectors of this slot's chunk from this row on.
fn add_sectors(geometry: &Geometry, pattern: &mut CellSet, slot: u8, from: u8)
    requires slot { slot < geometry.now.n }
    requires in_stripe { IsInStripe geometry.now pattern.old }
    ensures { IsInStripe geometry.now pattern.new }
{
    for row in from..geometry.r() {
        pattern.add(row, slot);
    }
}

/// Overwrites the cells of the pattern.
pub(crate) fn erase(geometry: &Geometry, pattern: &CellSet, stripe: &mut Stripe)
    requires { IsStripeOf geometry.now stripe.old }
    ensures { IsStripeOf geometry.now stripe.new }
{
    for row in 0..geometry.r() {
        for slot in 0..geometry.n() {
            if pattern.has(row, slot) {
                stripe.put(row, slot, &BEFORE);
            }
        }
    }
}
