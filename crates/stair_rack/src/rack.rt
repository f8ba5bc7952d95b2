// Racks of devices.
ghost use Rattle.std.specs.Prelude.{◌≡◌, ◌≢◌, ◌<◌, ℕ, Bool, IsTrue, List, Option};
ghost use Rattle.stair_rack.specs.Count.{Rose};
ghost use Rattle.stair_rack.specs.Sector.{Good, content};
ghost use Rattle.stair_rack.specs.History.{Happening, Attach, Sectors, Read, Write, Sync, slot_state};
ghost use Rattle.stair_rack.specs.Answers.{Calls, IsHistory};
ghost use Rattle.stair_rack.specs.RackCounts.{NoneFalls, CountsRead};

use stair_base::SECTOR;

/// What a slot answers to a call that gives nothing back.
#[derive(Clone, Copy, Debug, PartialEq, Eq, Drop)]
pub enum Reply {
    /// The slot did it.
    Done,
    /// The slot is gone, and its count rose. What a slot is gone for stands with each call.
    Gone,
}

/// What a slot answers to a read.
#[derive(Clone, Copy, Debug, PartialEq, Eq, Drop)]
pub enum Got {
    /// The bytes of the sector were read.
    Good,
    /// The sector can't be read: it is damaged, a write to it was cut, it was never written, or it lies past the end.
    /// The count of bad sectors rose.
    Bad,
    /// The slot is gone, and its count rose.
    Gone,
}

/// A rack of 32 slots, each with a medium of 512-byte sectors or with none. Slots and sectors are counted from 0.
///
/// Media may be pulled, put in and damaged, and the rack may be stopped for good; contracts tell this as happening at
/// the beginning of a call. A slot is used once [`attach`](Rack::attach) has found its medium; where the medium is
/// pulled the slot is gone until it is attached anew, so that a change of media is never overlooked. What is written is
/// safe from a crash once the slot was synced.
///
/// Every rack keeps its counts and leaves the buffer of a read that wasn't good. A rack may be honest: then it tells
/// contracts everything that happened to it, and answers as its media are. Of one that isn't, contracts know no more
/// than the counts.
pub trait Rack {
    // Whether the rack is honest.
    ghost is_honest: { Bool };

    // What happened to it, the newest first. Clauses read it of an honest rack alone, whose history began with `Made`.
    ghost history: { Self → List Happening };

    // How often a sector read as bad. A count that is kept in a `u64` stands still at `u64::MAX`.
    ghost bads: { Self → ℕ };

    // How often each slot was gone.
    ghost gones: { Self → ℕ → ℕ };

    // How many reads there were, where the rack tells it.
    ghost reads: { Self → Option ℕ };

    /// Looks at the slot anew.
    ///
    /// - `Done`: a medium is in the slot, which is attached to it from now on.
    /// - `Gone`: the slot holds no medium, or the rack was stopped. The slot isn't attached.
    fn attach(&mut self, slot: u8) -> Reply
        requires { slot < 32 }
        ensures began { IsTrue is_honest → IsHistory (history self.old) }
        ensures does { IsTrue is_honest →
            Calls (history self.old) (history self.new) slot (Attach result) }
        ensures counts { NoneFalls (bads self.old) (bads self.new) (gones self.old)
            (gones self.new) }
        ensures gone { result ≡ Reply.Gone → Rose (gones self.old slot) (gones self.new slot) }
        ensures reads { reads self.new ≡ reads self.old };

    /// The number of sectors of the medium that the slot's last attach found, also where it was pulled since; 0 where
    /// that attach answered `Gone` or there was none.
    fn sectors(&mut self, slot: u8) -> u32
        requires { slot < 32 }
        ensures began { IsTrue is_honest → IsHistory (history self.old) }
        ensures does { IsTrue is_honest →
            Calls (history self.old) (history self.new) slot (Sectors result) }
        ensures counts { NoneFalls (bads self.old) (bads self.new) (gones self.old)
            (gones self.new) }
        ensures reads { reads self.new ≡ reads self.old };

    /// Reads a sector into `into`.
    ///
    /// - `Good`: `into` has its bytes.
    /// - `Bad`: the sector can't be read, or lies at or past the end of the medium. `into` is unchanged.
    /// - `Gone`: the slot isn't attached, its medium was pulled since, or the rack was stopped. `into` is unchanged.
    fn read(&mut self, slot: u8, sector: u32, into: &mut [u8; SECTOR]) -> Got
        requires { slot < 32 }
        ensures began { IsTrue is_honest → IsHistory (history self.old) }
        ensures does { IsTrue is_honest →
            Calls (history self.old) (history self.new) slot (Read sector result) }
        ensures good { IsTrue is_honest → result ≡ Got.Good →
            content ((slot_state (history self.new) slot).sector sector) ≡ Good into.new }
        ensures unread { result ≢ Got.Good → into.new ≡ into.old }
        ensures counts { NoneFalls (bads self.old) (bads self.new) (gones self.old)
            (gones self.new) }
        ensures bad { result ≡ Got.Bad → Rose (bads self.old) (bads self.new) }
        ensures gone { result ≡ Got.Gone → Rose (gones self.old slot) (gones self.new slot) }
        ensures reads { CountsRead result (reads self.old) (reads self.new) };

    /// Writes a sector.
    ///
    /// - `Done`: the sector reads as `from`, also where it was bad before. Until the slot is synced, a crash may leave
    ///   what was there at the last sync, any bytes written since, or a sector that reads as bad.
    /// - `Gone`: the slot isn't attached, its medium was pulled since, or the rack was stopped; or the sector lies at
    ///   or past the end of the medium, and then the slot stays attached. Nothing was written.
    fn write(&mut self, slot: u8, sector: u32, from: &[u8; SECTOR]) -> Reply
        requires { slot < 32 }
        ensures began { IsTrue is_honest → IsHistory (history self.old) }
        ensures does { IsTrue is_honest →
            Calls (history self.old) (history self.new) slot (Write sector from.now result) }
        ensures counts { NoneFalls (bads self.old) (bads self.new) (gones self.old)
            (gones self.new) }
        ensures gone { result ≡ Reply.Gone → Rose (gones self.old slot) (gones self.new slot) }
        ensures reads { reads self.new ≡ reads self.old };

    /// Syncs the slot's device.
    ///
    /// - `Done`: a crash leaves all that was written to it so far.
    /// - `Gone`: the slot isn't attached, its medium was pulled since, or the rack was stopped. What was written since
    ///   the last sync may be lost.
    fn sync(&mut self, slot: u8) -> Reply
        requires { slot < 32 }
        ensures began { IsTrue is_honest → IsHistory (history self.old) }
        ensures does { IsTrue is_honest →
            Calls (history self.old) (history self.new) slot (Sync result) }
        ensures counts { NoneFalls (bads self.old) (bads self.new) (gones self.old)
            (gones self.new) }
        ensures gone { result ≡ Reply.Gone → Rose (gones self.old slot) (gones self.new slot) }
        ensures reads { reads self.new ≡ reads self.old };
}
