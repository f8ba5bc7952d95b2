//! What is done for the devices of an open array, step by step: its stripes are scrubbed, its devices are replaced, and the slots of new
//! devices are rebuilt.
//!
//! Each step is a call of [`Array`], and no call takes memory. Between two steps the array may be read and written.
#![tactic(auto)]

pub mod laws;
mod rebuilding;
mod replacing;

ghost use Rattle.std.specs.Prelude.{◌≡◌, ◌≤◌, Err, None, Some};
ghost use Rattle.stair_rack.specs.RackCounts.{RisesAtMost};
ghost use Rattle.stair_rack.specs.Told.{told};
ghost use Rattle.stair_member.specs.declared.fault.FenceFault.{FenceFault as Fault};
ghost use Rattle.stair_invariant.specs.Effects.{snapshot};
ghost use Rattle.stair_array.specs.Arrays.{cells_of, outcome, rebuilt_as, replaced_as, state_of};
ghost use Rattle.stair_array.specs.Faults.{array_fault, rebuild_fault, replace_fault};
ghost use Rattle.stair_array.specs.Machine.{RebuildNext, ReplaceSlot, ScrubStripe};
ghost use Rattle.stair_array.specs.Mends.{Rebuilds, Replaces, Scrubs};
ghost use Rattle.stair_array.specs.News.{AddsNews};
ghost use Rattle.stair_array.specs.Promise.{Keeps, KeepsRebuild, rebuild_after, rebuild_then};

use crate::rebuilding::{fault_of, is_next, promote};
use crate::replacing::{is_free, prepare_slot};
pub use stair_array::{Progress, RebuildFault, ReplaceFault};
use stair_array::{Array, ArrayFault};
use stair_base::StripeCode;
use stair_rack::Rack;

/// Scrubs one stripe: what can't be read of it on a live slot is restored and written anew. How many cells that is.
///
/// - `OutOfRange`: the array has no such stripe. No call is made.
/// - `Lost`: the cells of the stripe that couldn't be had aren't covered. Nothing is changed, and the array goes on.
/// - `TooFew`, `EpochsSpent`: an epoch without slots that were gone was refused. The array is stopped.
pub fn scrub_step<R: Rack, C: StripeCode>(
    array: &mut Array<C>,
    rack: &mut R,
    stripe: u32,
) -> Result<u16, ArrayFault>
    ensures does { array.old.stopped ≡ None → Scrubs stripe (outcome result)
        (snapshot array.old.member (told R.Rack rack.old))
        (snapshot array.new.member (told R.Rack rack.new)) }
    ensures kept { array.old.stopped ≡ None → Keeps (outcome result) array.new.stopped }
    ensures stopped { (fault : Fault) → array.old.stopped ≡ Some fault →
        (result ≡ Err (array_fault fault)) × (rack.new ≡ rack.old) × (array.new ≡ array.old) }
    ensures past { array.old.member.array.geometry.stripes ≤ stripe → rack.new ≡ rack.old }
    ensures rebuild { array.new.rebuild ≡ rebuild_after array.new.member array.old.rebuild }
    ensures remembers { array.old.stopped ≡ None → array.new.remembered ≡ None }
    ensures news { AddsNews (ScrubStripe stripe) (outcome result) array.old.member.array
        array.new.member.array array.old.news array.new.news }
    ensures reads { RisesAtMost (cells_of array.old.member.array.geometry) (R.reads rack.old)
        (R.reads rack.new) }
{
    array.mend_stripe(rack, stripe)
}

/// Replaces a slot that is Down: admits the device in it, which is rebuilt from then on. An earlier medium of this array may be
/// admitted again. Its chunks are left as they are until they are rebuilt.
///
/// They are refused in this order:
///
/// - `OutOfRange`: the array has no such slot. No call is made.
/// - `SlotBusy`: the slot isn't Down. No call is made.
/// - `Gone`: the slot was gone. It is Down, and of its device nothing but the journal was written unless it was gone to the epoch.
/// - `SmallDevice`: its device has fewer sectors than the array needs. Nothing was written.
/// - `AlreadyArray`: its medium holds a superblock of another array. Nothing was written.
/// - `TooFew`, `EpochsSpent`: the epoch was refused. The array is stopped.
pub fn replace<R: Rack, C: StripeCode>(
    array: &mut Array<C>,
    rack: &mut R,
    slot: u8,
) -> Result<(), ReplaceFault>
    ensures does { array.old.stopped ≡ None → Replaces slot (replaced_as result)
        (snapshot array.old.member (told R.Rack rack.old))
        (snapshot array.new.member (told R.Rack rack.new)) }
    ensures kept { array.old.stopped ≡ None → Keeps (replaced_as result) array.new.stopped }
    ensures stopped { (fault : Fault) → array.old.stopped ≡ Some fault →
        (result ≡ Err (replace_fault fault)) × (rack.new ≡ rack.old) × (array.new ≡ array.old) }
    ensures past { array.old.member.array.geometry.n ≤ slot → rack.new ≡ rack.old }
    ensures rebuild { array.new.rebuild ≡ rebuild_after array.new.member array.old.rebuild }
    ensures remembers { array.old.stopped ≡ None → array.new.remembered ≡ None }
    ensures goes_on { array.old.stopped ≡ None → KeepsRebuild (ReplaceSlot slot) (replaced_as result)
        (state_of array.old) (state_of array.new) }
    ensures news { AddsNews (ReplaceSlot slot) (replaced_as result) array.old.member.array
        array.new.member.array array.old.news array.new.news }
    ensures reads { RisesAtMost 2 (R.reads rack.old) (R.reads rack.new) }
{
    // by whose rules a rebuild that is under way is of a slot that is rebuilt
    let _ = array.geometry();
    if let Some(fault) = array.stopped() {
        return Err(ReplaceFault::from(fault));
    }
    array.forget();
    is_free(array, slot)?;
    prepare_slot(array, rack, slot)?;
    array.admit_slot(rack, slot)?;
    Ok(())
}

/// Makes one step of a rebuild: the next chunk of the slot that is under way, or else of the lowest one that is Rebuilding, from its
/// first stripe on. The step that writes the last chunk makes the slot Live.
///
/// A chunk is written without a sync and without the journal: until the slot is Live nobody reads it. Each session begins a rebuild
/// anew.
///
/// - `Lost`: the cells of the stripe that couldn't be had aren't covered. Nothing is changed, the array goes on, and the same chunk
///   comes next.
/// - `TooFew`, `EpochsSpent`: an epoch was refused. The array is stopped.
pub fn rebuild_step<R: Rack, C: StripeCode>(
    array: &mut Array<C>,
    rack: &mut R,
) -> Result<Progress, RebuildFault>
    ensures does { array.old.stopped ≡ None → Rebuilds (state_of array.old) (rebuilt_as result)
        (snapshot array.old.member (told R.Rack rack.old))
        (snapshot array.new.member (told R.Rack rack.new)) }
    ensures kept { array.old.stopped ≡ None → Keeps (rebuilt_as result) array.new.stopped }
    ensures stopped { (fault : Fault) → array.old.stopped ≡ Some fault →
        (result ≡ Err (rebuild_fault fault)) × (rack.new ≡ rack.old) × (array.new ≡ array.old) }
    ensures rebuild { array.old.stopped ≡ None → array.new.rebuild ≡
        rebuild_then (rebuilt_as result) array.new.member array.old.rebuild }
    ensures remembers { array.old.stopped ≡ None → array.new.remembered ≡ None }
    ensures goes_on { array.old.stopped ≡ None → KeepsRebuild RebuildNext (rebuilt_as result)
        (state_of array.old) (state_of array.new) }
    ensures news { AddsNews RebuildNext (rebuilt_as result) array.old.member.array
        array.new.member.array array.old.news array.new.news }
    ensures reads { RisesAtMost (cells_of array.old.member.array.geometry) (R.reads rack.old)
        (R.reads rack.new) }
{
    if let Some(fault) = array.stopped() {
        return Err(RebuildFault::from(fault));
    }
    let stripes = array.geometry().stripes();
    let Some((slot, stripe)) = array.next_chunk() else {
        array.forget();
        return Ok(Progress::Nothing);
    };
    if stripe >= stripes {
        return promote(array, rack, slot);
    }
    if let Err(fault) = array.chunk_to(rack, stripe, slot) {
        return Err(fault_of(fault));
    }
    if !is_next(array, slot, stripe + 1) {
        return Ok(Progress::Dropped { slot });
    }
    if stripe + 1 < stripes {
        return Ok(Progress::Chunk { slot, stripe });
    }
    promote(array, rack, slot)
}
