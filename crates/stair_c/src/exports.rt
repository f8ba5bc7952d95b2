ghost use Rattle.std.specs.Prelude.{◌≡◌, ◌<◌, ◌≤◌, IfErr, IfNone, IfOk, IfSome, replicate};
ghost use Rattle.stair_model.specs.Geometry.{IsFirstBrokenLimit, IsWithinLimits, geometry_of};
ghost use Rattle.stair_c.specs.Statuses.{Checks, Counts, Encodes, Places};
ghost use Rattle.stair_c.specs.Costs.{plan_of};

use crate::encoders::prepare;
use crate::stripes::{encode_each, first_broken_stripe, stripe_count};
use stair_base::{Geometry, SECTOR, Stripe};
use stair_codec::By;
use stair_plan::plan;
use std::alloc::Global;
use std::marker::Brand;
use std::sync::ledger::Blank;

const OK: u32 = 0;

const SIZE: u32 = 9;

const METHOD: u32 = 10;

const BROKEN: u32 = 12;

const MEMORY: u32 = 13;

/// What the code of a geometry costs, for each stripe.
#[repr(C)]
#[derive(Clone, Copy, Debug, PartialEq, Eq)]
pub struct Cost {
    /// Blocks of a stripe: at least 1.
    pub blocks: u64,
    /// Cells of a stripe, n·r.
    pub cells: u64,
    /// Multiply-adds of encoding a stripe upstairs.
    pub up: u64,
    /// Multiply-adds of encoding a stripe downstairs.
    pub down: u64,
    /// Multiply-adds of standard encoding of a stripe.
    pub standard: u64,
    /// The least number of other cells that change with a block.
    pub least: u64,
    /// The greatest number of other cells that change with a block.
    pub greatest: u64,
}

/// Encodes the stripes in place, by method 0 (standard), 1 (upstairs), 2 (downstairs) or 3 (fewest multiply-adds).
///
/// Memory is n chunks in order; each has r sectors of 512 bytes of each stripe, stripe after stripe. All memory that the call
/// needs is allocated before the first write. Each status but 0 leaves the sectors as they were:
///
/// - 0: each stripe is the codeword of its data cells, which are as they were.
/// - 1 to 8: the first broken limit of the geometry.
/// - 9: the sectors aren't whole stripes.
/// - 10: the method is none of the four.
/// - 13: out of memory.
#[unsafe(no_mangle)]
pub extern "C" fn stair_encode(
    alloc: Global,
    n: u64,
    m: u64,
    r: u64,
    e: &[u64],
    method: u32,
    sectors: &mut [[u8; SECTOR]],
) -> u32
    ensures { Encodes (geometry_of n m r e.now 1 (replicate 16 0)) method sectors.old sectors.new
        result }
{
    let geometry = match geometry_within(n, m, r, e) {
        Ok(geometry) => geometry,
        Err(limit) => return limit,
    };
    let Some(by) = by_number(method) else {
        return METHOD;
    };
    let Some(count) = stripe_count(&geometry, sectors.len()) else {
        return SIZE;
    };
    let Ok(mut prepared) = prepare(alloc, &geometry, by) else {
        return MEMORY;
    };
    let Ok(mut stripe) = Stripe::new(alloc, &geometry) else {
        return MEMORY;
    };
    encode_each::<Brand>(
        Blank::new(1),
        &mut prepared,
        &geometry,
        &mut stripe,
        count,
        sectors,
    );
    OK
}

/// Tests whether each stripe is a codeword. Memory is laid out as [`stair_encode`] has it.
///
/// - 0: all are.
/// - 1 to 8: the first broken limit of the geometry.
/// - 9: the sectors aren't whole stripes.
/// - 12: one isn't, and `broken` is the number of the first that isn't.
/// - 13: out of memory.
///
/// `broken` changes at status 12 only.
#[unsafe(no_mangle)]
pub extern "C" fn stair_check(
    alloc: Global,
    n: u64,
    m: u64,
    r: u64,
    e: &[u64],
    sectors: &[[u8; SECTOR]],
    broken: &mut u64,
) -> u32
    ensures { Checks (geometry_of n m r e.now 1 (replicate 16 0)) sectors.now broken.old broken.new
        result }
{
    let geometry = match geometry_within(n, m, r, e) {
        Ok(geometry) => geometry,
        Err(limit) => return limit,
    };
    let Some(count) = stripe_count(&geometry, sectors.len()) else {
        return SIZE;
    };
    let Ok(mut stripe) = Stripe::new(alloc, &geometry) else {
        return MEMORY;
    };
    match first_broken_stripe(&geometry, &mut stripe, count, sectors) {
        None => OK,
        Some(number) => {
            *broken = number as u64;
            BROKEN
        }
    }
}

/// Sets `slot` and `sector` to where a block lies in the chunks of so many stripes: in chunk `slot`, at sector `sector` of it.
///
/// - 0: both are set.
/// - 1 to 8: the first broken limit of the geometry.
/// - 9: the block's number isn't below that of the blocks of all stripes.
#[unsafe(no_mangle)]
pub extern "C" fn stair_place(
    n: u64,
    m: u64,
    r: u64,
    e: &[u64],
    stripes: u64,
    block: u64,
    slot: &mut u64,
    sector: &mut u64,
) -> u32
    ensures { Places (geometry_of n m r e.now stripes (replicate 16 0)) block slot.old slot.new
        sector.old sector.new result }
{
    let geometry = match Geometry::large(n, m, r, e, stripes, [0; 16]) {
        Ok(geometry) => geometry,
        Err(fault) => return u32::from(fault.limit),
    };
    if block >= geometry.blocks() {
        return SIZE;
    }
    let place = geometry.place_of(block);
    *slot = u64::from(place.slot);
    *sector = u64::from(place.stripe) * u64::from(geometry.r()) + u64::from(place.row);
    OK
}

/// Sets `cost` to what the code of a geometry costs, for each stripe.
///
/// - 0: it is set.
/// - 1 to 8: the first broken limit of the geometry.
/// - 13: out of memory.
#[unsafe(no_mangle)]
pub extern "C" fn stair_cost(
    alloc: Global,
    n: u64,
    m: u64,
    r: u64,
    e: &[u64],
    cost: &mut Cost,
) -> u32
    ensures { Counts (geometry_of n m r e.now 1 (replicate 16 0)) (plan_of cost.old)
        (plan_of cost.new) result }
{
    let geometry = match geometry_within(n, m, r, e) {
        Ok(geometry) => geometry,
        Err(limit) => return limit,
    };
    let Ok(plan) = plan(alloc, &geometry) else {
        return MEMORY;
    };
    *cost = Cost {
        blocks: plan.blocks,
        cells: plan.cells,
        up: plan.up,
        down: plan.down,
        standard: plan.standard,
        least: plan.least,
        greatest: plan.greatest,
    };
    OK
}

/// The geometry with these numbers, of one stripe, or the number of the first limit that it breaks.
pub(crate) fn geometry_within(n: u64, m: u64, r: u64, e: &[u64]) -> Result<Geometry, u32>
    ensures ok { IfOk result (λ geometry. geometry ≡ geometry_of n m r e.now 1 (replicate 16 0)) }
    ensures within { IfOk result (λ geometry. IsWithinLimits geometry) }
    ensures err { IfErr result (IsFirstBrokenLimit (geometry_of n m r e.now 1 (replicate 16 0))) }
{
    match Geometry::large(n, m, r, e, 1, [0; 16]) {
        Ok(geometry) => Ok(geometry),
        Err(fault) => Err(u32::from(fault.limit)),
    }
}

/// The way of encoding with this number, or None where there is none.
fn by_number(method: u32) -> Option<By>
    ensures some { IfSome result (λ _. method < 4) }
    ensures none { IfNone result (4 ≤ method) }
{
    match method {
        0 => Some(By::Standard),
        1 => Some(By::Upstairs),
        2 => Some(By::Downstairs),
        3 => Some(By::Fewest),
        _ => None,
    }
}
