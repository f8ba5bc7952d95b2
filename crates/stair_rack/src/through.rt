// A write of one sector of one slot, on the disk.
ghost use Rattle.std.specs.Prelude.{◌≡◌, ◌<◌, IsTrue};
ghost use Rattle.stair_rack.specs.Answers.{IsHistory};
ghost use Rattle.stair_rack.specs.Count.{Rose};
ghost use Rattle.stair_rack.specs.RackCounts.{NoneFalls};
ghost use Rattle.stair_rack.specs.Placed.{Placed, IsSlot, IsGoneSlot, one_write};

use crate::rack::{Rack, Reply};
use stair_base::SECTOR;

/// Writes a sector of a slot and syncs the slot.
///
/// - `Done`: a crash leaves `from` there.
/// - `Gone`: the write was gone, and there was no sync; or the sync was gone, and the sector may be left as it was, as
///   `from` or torn.
pub fn write_through<R: Rack>(rack: &mut R, slot: u8, sector: u32, from: &[u8; SECTOR]) -> Reply
    requires { slot < 32 }
    ensures began { IsTrue R.is_honest → IsHistory (R.history rack.old) }
    ensures does { IsTrue R.is_honest →
        Placed (one_write slot sector from.now) (IsSlot slot) (IsGoneSlot slot result)
        (R.history rack.old) (R.history rack.new) }
    ensures counts { NoneFalls (R.bads rack.old) (R.bads rack.new) (R.gones rack.old)
        (R.gones rack.new) }
    ensures gone { result ≡ Reply.Gone → Rose (R.gones rack.old slot) (R.gones rack.new slot) }
    ensures reads { R.reads rack.new ≡ R.reads rack.old }
{
    if rack.write(slot, sector, from) == Reply::Gone {
        return Reply::Gone;
    }
    rack.sync(slot)
}
