// What the gates of a rack say.
ghost use Rattle.std.specs.Prelude.{◌<◌, IsTrue};
ghost use Rattle.stair_model.specs.Slots.{slot_count};
ghost use Rattle.stair_rack.specs.RackCounts.{NoneFalls, RisesAtMost};
ghost use Rattle.stair_rack.specs.Told.{told};
ghost use Rattle.stair_journal.specs.GatesSteps.{IsNoted, IsReadOnce, IsSeen};
ghost use Rattle.stair_journal.specs.Gates.{ReadsGates};
ghost use Rattle.stair_journal.specs.Reads.{ReadsGatesInTurn};

use crate::gate::read_gate;
use crate::redo::Redo;
use stair_base::{GATE_SECTOR, Geometry, SECTOR, Slots};
use stair_rack::{Got, Rack};

/// What the live gates were found to say.
#[derive(Clone, Copy, Debug, Drop)]
pub struct Gates {
    /// The redo with which the lowest live gate is open that reads open; `None` where all read closed.
    pub redo: Option<Redo>,
    /// The slots whose gate is open with it.
    pub opened: Slots,
    /// The slots that were gone. Nothing is known of their gates.
    pub gone: Slots,
}

// What a gate was seen to say.
#[derive(Clone, Copy, Drop)]
enum Seen {
    /// It is open with this redo.
    Open(Redo),
    /// It reads as closed.
    Closed,
    /// Its slot was gone.
    Gone,
}

/// Reads the gate of every live slot once, in rising order, and calls nothing else.
///
/// A gate that can't be read reads as closed.
pub fn read_gates<R: Rack>(rack: &mut R, geometry: &Geometry, live: Slots) -> Gates
    ensures does { ReadsGates geometry.now live result (told R.Rack rack.old)
        (told R.Rack rack.new) }
    ensures in_turn { IsTrue R.is_honest →
        ReadsGatesInTurn live result.gone (R.history rack.old) (R.history rack.new) }
    ensures reads { RisesAtMost (slot_count live) (R.reads rack.old) (R.reads rack.new) }
{
    // The limits of the geometry are known from here on.
    let _ = geometry.n();
    let mut gates = Gates {
        redo: None,
        opened: Slots::empty(),
        gone: Slots::empty(),
    };
    for slot in 0..32 {
        if live.has(slot) {
            let seen = look_at(rack, geometry, slot);
            note(&mut gates, slot, seen);
        }
    }
    gates
}

// Reads the gate of one slot.
fn look_at<R: Rack>(rack: &mut R, geometry: &Geometry, slot: u8) -> Seen
    requires { slot < 32 }
    ensures does { IsSeen geometry.now slot (told R.Rack rack.old) (told R.Rack rack.new) result }
    ensures once { IsTrue R.is_honest →
        IsReadOnce slot result (R.history rack.old) (R.history rack.new) }
    ensures counts { NoneFalls (R.bads rack.old) (R.bads rack.new) (R.gones rack.old)
        (R.gones rack.new) }
    ensures reads { RisesAtMost 1 (R.reads rack.old) (R.reads rack.new) }
{
    let mut bytes = [0; SECTOR];
    match rack.read(slot, GATE_SECTOR, &mut bytes) {
        Got::Good => match read_gate(geometry, &bytes) {
            Some(redo) => Seen::Open(redo),
            None => Seen::Closed,
        },
        Got::Bad => Seen::Closed,
        Got::Gone => Seen::Gone,
    }
}

// Notes what was seen of the gate of this slot, all lower ones being noted.
fn note(gates: &mut Gates, slot: u8, seen: Seen)
    requires { slot < 32 }
    ensures { IsNoted slot seen gates.old gates.new }
{
    match seen {
        Seen::Open(redo) => {
            let first = gates.redo.unwrap_or(redo);
            gates.redo = Some(first);
            if first == redo {
                gates.opened.add(slot);
            }
        }
        Seen::Closed => {}
        Seen::Gone => gates.gone.add(slot),
    }
}
