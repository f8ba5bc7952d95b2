// What is looked at in a slot.
ghost use Rattle.std.specs.Prelude.{◌≡◌, ◌<◌, ◌⊎◌, ◌↔◌, ℕ, IsTrue};
ghost use Rattle.stair_model.specs.Device.{first_place, second_place};
ghost use Rattle.stair_rack.specs.Answers.{IsHistory};
ghost use Rattle.stair_rack.specs.RackCounts.{NoneFalls, RisesAtMost};
ghost use Rattle.stair_rack.specs.Sector.{Cell};
ghost use Rattle.stair_member.specs.Asked.{AsksSlot};
ghost use Rattle.stair_member.specs.JudgeSteps.{IsNewest, IsSight};
ghost use Rattle.stair_member.specs.Probing.{block_in};
ghost use Rattle.stair_member.specs.Superblocks.{HoldsThis};
ghost use Rattle.stair_member.specs.Survey.{IsNextPlace};
ghost use Rattle.stair_rack.specs.Told.{told};

use crate::probe::{PlaceProbe, probe_slot};
use stair_base::{FIRST_PLACE, SECOND_PLACE};
use stair_rack::{Rack, Reply};
use stair_super::{Super, is_older, newer_of};

// What was found of a slot.
#[derive(Clone, Copy, Drop)]
pub(crate) struct Sight {
    /// The superblock of its medium.
    pub(crate) newest: Option<Super>,
    /// The place that doesn't hold it.
    pub(crate) next: u32,
    /// The slot was gone to a call.
    pub(crate) gone: bool,
}

/// Attaches the slot, and reads its two superblock places once each where it is there.
pub(crate) fn look_at<R: Rack>(rack: &mut R, slot: u8) -> Sight
    requires { slot < 32 }
    ensures began { IsTrue R.is_honest → IsHistory (R.history rack.old) }
    ensures asked { IsTrue R.is_honest →
        AsksSlot slot (R.history rack.old) (R.history rack.new) }
    ensures does { IsSight slot (told R.Rack rack.old) (told R.Rack rack.new)
        result.newest result.next result.gone }
    ensures counts { NoneFalls (R.bads rack.old) (R.bads rack.new) (R.gones rack.old)
        (R.gones rack.new) }
    ensures reads { RisesAtMost 2 (R.reads rack.old) (R.reads rack.new) }
{
    if rack.attach(slot) == Reply::Gone {
        return Sight {
            newest: None,
            next: FIRST_PLACE,
            gone: true,
        };
    }
    let probe = probe_slot(rack, slot);
    sight_of(probe.first, probe.second)
}

fn sight_of(first: PlaceProbe, second: PlaceProbe) -> Sight
    ensures newest { (cell : ℕ → Cell) → HoldsThis (cell first_place) (block_in first) →
        HoldsThis (cell second_place) (block_in second) → IsNewest cell result.newest }
    ensures next { (cell : ℕ → Cell) → HoldsThis (cell first_place) (block_in first) →
        HoldsThis (cell second_place) (block_in second) → IsNextPlace cell result.next }
    ensures gone { IsTrue result.gone ↔ ((first ≡ PlaceProbe.Gone) ⊎ (second ≡ PlaceProbe.Gone)) }
{
    let one = first.block();
    let other = second.block();
    Sight {
        newest: newer_of(one, other),
        next: next_place(one, other),
        gone: first.is_gone() || second.is_gone(),
    }
}

// The place that doesn't hold the newer one of these; the second where both are equal.
pub(crate) fn next_place(first: Option<Super>, second: Option<Super>) -> u32
    ensures place { (cell : ℕ → Cell) → HoldsThis (cell first_place) first →
        HoldsThis (cell second_place) second → IsNextPlace cell result }
    ensures below { result < 2 }
{
    match (first, second) {
        (Some(first), Some(second)) => {
            if is_older(&first, &second) {
                FIRST_PLACE
            } else {
                SECOND_PLACE
            }
        }
        (Some(_), None) => SECOND_PLACE,
        (None, _) => FIRST_PLACE,
    }
}
