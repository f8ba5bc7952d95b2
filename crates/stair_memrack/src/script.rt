// What the outside does before a call.
ghost use Rattle.std.specs.Prelude.{◌≡◌, ◌+◌, List, ◌||◌, vec_len};
ghost use Rattle.stair_rack.specs.History.{Happening};
ghost use Rattle.stair_memrack.specs.Script.{after_acts};
ghost use Rattle.stair_memrack.specs.Shelf.{IsShelfOf, HasRoom, AreBlanks, acts_from, performed, is_stop};

use crate::act::{Act, What};
use crate::disk::{Disk, Settling};
use crate::place::Place;

// Does this act, where it applies. The medium that it may put in is taken from `blank`.
fn perform(what: What, blank: &mut Option<Disk>, places: &mut Vec<Place>, stopped: &mut bool)
    requires count { vec_len places.old ≡ 32 }
    requires room { HasRoom places.old.items 1 }
    ensures places { places.new.items ≡ performed what blank.old places.old.items }
    ensures stopped { stopped.new ≡ (stopped.old || is_stop what) }
{
    match what {
        What::Pull { slot } if slot < 32 => places[slot as usize].pull(Settling::AsRead),
        What::PullLosing { slot } if slot < 32 => places[slot as usize].pull(Settling::AsSynced),
        What::InsertBlank { slot, .. } if slot < 32 => places[slot as usize].insert(blank),
        What::InsertOld { slot, index } if slot < 32 => places[slot as usize].insert_old(index),
        What::Damage { slot, sector } if slot < 32 => places[slot as usize].damage(sector),
        What::Stop => *stopped = true,
        _ => {}
    }
}

/// Does the acts before the call numbered `call`, in the order of the list. Each may put in the medium of `blanks` that
/// has its index.
pub(crate) fn act_before(
    call: u32,
    acts: &Vec<Act>,
    blanks: &mut Vec<Option<Disk>>,
    places: &mut Vec<Place>,
    stopped: &mut bool,
)
    requires count { vec_len places.old ≡ 32 }
    requires room { HasRoom places.old.items (acts_from call acts.now.items) }
    requires blanks { AreBlanks call 0 acts.now.items blanks.old.items }
    ensures shelf { (h : List Happening) → IsShelfOf places.old.items stopped.old h →
        IsShelfOf places.new.items stopped.new (after_acts call acts.now.items h) }
    ensures room { HasRoom places.new.items (acts_from (call + 1) acts.now.items) }
    ensures blanks { AreBlanks (call + 1) 0 acts.now.items blanks.new.items }
{
    for index in 0..acts.len() {
        let act = acts[index];
        if act.at == call {
            perform(act.what, &mut blanks[index], places, stopped);
        }
    }
}
