// One call on each slot of a set.
ghost use Rattle.std.specs.Prelude.{◌≡◌, ◌<◌, ℕ, IsTrue};
ghost use Rattle.stair_model.specs.Slots.{HasSlot, IsSlotSet};
ghost use Rattle.stair_rack.specs.Count.{Rose};
ghost use Rattle.stair_rack.specs.RackCounts.{NoneFalls};
ghost use Rattle.stair_rack.specs.Answers.{Calls};
ghost use Rattle.stair_rack.specs.Passes.{Turns, call_of};

use crate::rack::{Rack, Reply};
use stair_base::{SECTOR, Slots};

// What a pass does on each slot.
#[derive(Clone, Copy, Debug, Drop)]
pub(crate) enum Pass {
    Write(u32, [u8; SECTOR]),
    Sync,
}

// Does it on each slot of `to`, in rising order, also after one that was gone, and answers those that were gone.
pub(crate) fn pass_over<R: Rack>(rack: &mut R, to: Slots, pass: Pass) -> Slots
    ensures turns { IsTrue R.is_honest →
        Turns (call_of pass) to result 32 (R.history rack.old) (R.history rack.new) }
    ensures gone { (j : ℕ) → HasSlot result j →
        HasSlot to j × Rose (R.gones rack.old j) (R.gones rack.new j) }
    ensures counts { NoneFalls (R.bads rack.old) (R.bads rack.new) (R.gones rack.old)
        (R.gones rack.new) }
    ensures reads { R.reads rack.new ≡ R.reads rack.old }
    ensures well_formed { IsSlotSet result }
    ensures well_formed_to { IsSlotSet to }
{
    let mut gone = Slots::empty();
    for slot in 0..32u8 {
        if to.has(slot) && turn(rack, slot, &pass) == Reply::Gone {
            gone.add(slot);
        }
    }
    gone
}

// Does it on one slot.
fn turn<R: Rack>(rack: &mut R, slot: u8, pass: &Pass) -> Reply
    requires { slot < 32 }
    ensures does { IsTrue R.is_honest →
        Calls (R.history rack.old) (R.history rack.new) slot (call_of pass.now result) }
    ensures counts { NoneFalls (R.bads rack.old) (R.bads rack.new) (R.gones rack.old)
        (R.gones rack.new) }
    ensures gone { result ≡ Reply.Gone → Rose (R.gones rack.old slot) (R.gones rack.new slot) }
    ensures reads { R.reads rack.new ≡ R.reads rack.old }
{
    match pass {
        Pass::Write(sector, from) => rack.write(slot, *sector, from),
        Pass::Sync => rack.sync(slot),
    }
}
