// The parts of a step of a rebuild.
ghost use Rattle.std.specs.Prelude.{◌≡◌, ◌<◌, MatchBool, None, Some};
ghost use Rattle.stair_rack.specs.Told.{told};
ghost use Rattle.stair_invariant.specs.Effects.{snapshot};
ghost use Rattle.stair_array.specs.Arrays.{rebuilt_as, state_of};
ghost use Rattle.stair_array.specs.Causes.{IsNextChunk};
ghost use Rattle.stair_array.specs.Faults.{IsOfLoading, rebuild_refusal, refusal_for};
ghost use Rattle.stair_array.specs.Machine.{RebuildNext};
ghost use Rattle.stair_array.specs.MendingCalls.{promotion_as};
ghost use Rattle.stair_array.specs.Mends.{Promotes};
ghost use Rattle.stair_array.specs.News.{AddsNews, StayDown};
ghost use Rattle.stair_array.specs.Promise.{Keeps};

use stair_array::{Array, ArrayFault, Progress, RebuildFault};
use stair_base::StripeCode;
use stair_member::AdmitFault;
use stair_rack::Rack;

// Whether the next chunk of a rebuild is this one, which isn't its first.
pub(crate) fn is_next<C: StripeCode>(array: &Array<C>, slot: u8, stripe: u32) -> bool
    requires { 0 < stripe }
    ensures { MatchBool result (IsNextChunk (state_of array.now) slot stripe)
        (¬ IsNextChunk (state_of array.now) slot stripe) }
{
    // by whose rules a rebuild that is under way is of a slot that is rebuilt
    let _ = array.geometry();
    match array.next_chunk() {
        Some((at, to)) => at == slot && to == stripe,
        None => false,
    }
}

// Promotes the slot of a rebuild all of whose chunks were written.
pub(crate) fn promote<R: Rack, C: StripeCode>(
    array: &mut Array<C>,
    rack: &mut R,
    slot: u8,
) -> Result<Progress, RebuildFault>
    requires written { array.old.rebuild ≡
        Some (record { slot = slot; stripe = array.old.member.array.geometry.stripes }) }
    requires going { array.old.stopped ≡ None }
    ensures does { Promotes slot (rebuilt_as result) (snapshot array.old.member (told R.Rack rack.old))
        (snapshot array.new.member (told R.Rack rack.new)) }
    ensures kept { Keeps (rebuilt_as result) array.new.stopped }
    ensures rebuild { array.new.rebuild ≡ None }
    ensures remembers { array.new.remembered ≡ None }
    ensures stays { StayDown array.old.member.array array.new.member.array }
    ensures news { AddsNews RebuildNext (rebuilt_as result) array.old.member.array
        array.new.member.array array.old.news array.new.news }
    ensures reads { R.reads rack.new ≡ R.reads rack.old }
{
    progress_of(slot, array.promote_slot(rack, slot))
}

// What a step came to that ended with a promotion: a slot that was gone to it was dropped.
fn progress_of(slot: u8, promoted: Result<(), AdmitFault>) -> Result<Progress, RebuildFault>
    ensures { rebuilt_as result ≡ promotion_as slot promoted }
{
    match promoted {
        Ok(()) => Ok(Progress::Promoted { slot }),
        Err(AdmitFault::Gone(_)) => Ok(Progress::Dropped { slot }),
        Err(AdmitFault::TooFew(whys)) => Err(RebuildFault::TooFew(whys)),
        Err(AdmitFault::EpochsSpent) => Err(RebuildFault::EpochsSpent),
    }
}

// Why a chunk wasn't written, as a fault of its step.
pub(crate) fn fault_of(fault: ArrayFault) -> RebuildFault
    requires { IsOfLoading fault }
    ensures { rebuild_refusal result ≡ refusal_for fault }
{
    match fault {
        ArrayFault::Lost { stripe, counts } => RebuildFault::Lost { stripe, counts },
        ArrayFault::TooFew(whys) => RebuildFault::TooFew(whys),
        ArrayFault::EpochsSpent => RebuildFault::EpochsSpent,
        ArrayFault::OutOfRange { .. } | ArrayFault::Frozen => unreachable!(),
    }
}
