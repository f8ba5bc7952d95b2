// The end of a phase.
ghost use Rattle.std.specs.Prelude.{◌≡◌, ◌⊎◌, ℕ, IsTrue};
ghost use Rattle.stair_model.specs.Slots.{HasSlot, IsSlotSet};
ghost use Rattle.stair_rack.specs.Count.{Rose};
ghost use Rattle.stair_rack.specs.RackCounts.{NoneFalls};
ghost use Rattle.stair_rack.specs.Placed.{EndsPhase};

use crate::rack::Rack;
use crate::sync::sync_all;
use stair_base::Slots;

/// Ends a phase some of whose slots, those of `gone`, were gone to their writes: syncs the others of `to`, in rising
/// order, and answers all that were gone.
pub fn sync_rest<R: Rack>(rack: &mut R, to: Slots, gone: Slots) -> Slots
    ensures does { IsTrue R.is_honest →
        EndsPhase to gone result (R.history rack.old) (R.history rack.new) }
    ensures gone { (j : ℕ) → HasSlot result j →
        HasSlot gone j ⊎ (HasSlot to j × Rose (R.gones rack.old j) (R.gones rack.new j)) }
    ensures counts { NoneFalls (R.bads rack.old) (R.bads rack.new) (R.gones rack.old)
        (R.gones rack.new) }
    ensures reads { R.reads rack.new ≡ R.reads rack.old }
    ensures well_formed { IsSlotSet result }
{
    let last = sync_all(rack, to.difference(&gone));
    gone.union(&last)
}
