// A write of one sector on each slot of a set.
ghost use Rattle.std.specs.Prelude.{◌≡◌, ℕ, IsTrue};
ghost use Rattle.stair_model.specs.Slots.{HasSlot, IsSlotSet};
ghost use Rattle.stair_rack.specs.Count.{Rose};
ghost use Rattle.stair_rack.specs.RackCounts.{NoneFalls};
ghost use Rattle.stair_rack.specs.Passes.{Wrote};

use crate::pass::{Pass, pass_over};
use crate::rack::Rack;
use stair_base::{SECTOR, Slots};

/// Writes a sector on each slot of `to`, in rising order, and answers those that were gone.
///
/// A slot that is gone doesn't end the pass. On a slot that isn't answered the sector reads as `from`; it is safe from
/// a crash once the slot was synced. On one that is answered nothing was written.
pub fn write_all<R: Rack>(rack: &mut R, to: Slots, sector: u32, from: &[u8; SECTOR]) -> Slots
    ensures does { IsTrue R.is_honest →
        Wrote to result sector from.now (R.history rack.old) (R.history rack.new) }
    ensures gone { (j : ℕ) → HasSlot result j →
        HasSlot to j × Rose (R.gones rack.old j) (R.gones rack.new j) }
    ensures counts { NoneFalls (R.bads rack.old) (R.bads rack.new) (R.gones rack.old)
        (R.gones rack.new) }
    ensures reads { R.reads rack.new ≡ R.reads rack.old }
    ensures well_formed { IsSlotSet result }
{
    pass_over(rack, to, Pass::Write(sector, *from))
}
