// A sync of each slot of a set.
ghost use Rattle.std.specs.Prelude.{◌≡◌, ℕ, IsTrue};
ghost use Rattle.stair_model.specs.Slots.{HasSlot, IsSlotSet};
ghost use Rattle.stair_rack.specs.Count.{Rose};
ghost use Rattle.stair_rack.specs.RackCounts.{NoneFalls};
ghost use Rattle.stair_rack.specs.Passes.{Settled};

use crate::pass::{Pass, pass_over};
use crate::rack::Rack;
use stair_base::Slots;

/// Syncs the device of each slot of `to`, in rising order, and answers those that were gone.
///
/// A slot that is gone doesn't end the pass. On a slot that isn't answered a crash leaves all that was written so far.
pub fn sync_all<R: Rack>(rack: &mut R, to: Slots) -> Slots
    ensures does { IsTrue R.is_honest →
        Settled to result (R.history rack.old) (R.history rack.new) }
    ensures gone { (j : ℕ) → HasSlot result j →
        HasSlot to j × Rose (R.gones rack.old j) (R.gones rack.new j) }
    ensures counts { NoneFalls (R.bads rack.old) (R.bads rack.new) (R.gones rack.old)
        (R.gones rack.new) }
    ensures reads { R.reads rack.new ≡ R.reads rack.old }
    ensures well_formed { IsSlotSet result }
{
    pass_over(rack, to, Pass::Sync)
}
