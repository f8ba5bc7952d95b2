// A rack over image files.
ghost use Rattle.std.specs.Prelude.{◌≡◌, ◌≢◌, ◌≤◌, ◌<◌, ℕ, false, [], Option, None, IfErr, IfOk, IsSome, IsSomeAnd, string_bytes};
ghost use Rattle.stair_rack.specs.Count.{Rose};
ghost use Rattle.stair_rack.specs.RackCounts.{IsLaterCount, NoneFalls};
ghost use Rattle.stair_filerack.specs.Reason.{IsCallers, KeepsReason};
ghost use Rattle.stair_filerack.specs.Files.{CountsSectors, ReadsSector, ReadsBadSector, WritesSector, AfterPending, SyncsAll, GoesOn, IsPutOut};
ghost use Rattle.stair_filerack.specs.Slot.{HeldFile, untouched, detached, nothing_read, path_of, attached_as, gone_once_more, read_as, written_as, synced_as};
ghost use Rattle.stair_filerack.specs.FileRack.{slot_at, gones_of, with_slot, bads_after, IsDetached};
ghost use Rattle.stair_filerack.specs.Finish.{FinishesAll};

use crate::access::Access;
use crate::lock::Lock;
use crate::reason::Reason;
use crate::slot::Slot;
use stair_image::Seals;
use stair_rack::{Got, Rack, Reply};
use std::alloc::{AllocError, Global};
use std::fs::Files;
use std::marker::Model;

// How many slots a rack has.
const SLOTS: u8 = 32;

/// A rack over the image files of a folder: slot J is the file `devJJ.img`, JJ being two decimal digits. What a path leads
/// to may be a file or a block device.
///
/// Sector T of a file is the 544 bytes from byte 544·T on, sealed as `stair_image` says. A file has as many sectors as
/// it has whole ones up to its end when it is attached, and at most 4,294,967,295.
///
/// Following sectors of a slot that are written are gathered, up to 128 of them, and go to the file in one call of the system. They
/// are pending until a sync, a read or an attach of the slot, a write of another sector, or [`FileRack::finish`].
///
/// An attached slot holds its file open, with its lock where the rack is to write: that the file was removed, or another put
/// in its place, is noticed when the slot is attached anew. A file that is open never grows past what was attached. A sync
/// is one of the file's data (`OpenFile::sync_data`). For each slot the rack keeps the first reason for which it was gone.
///
/// The rack isn't honest in the sense of [`Rack`]: it tells contracts no image, and of its files what their type tells.
#[derive(Drop)]
pub struct FileRack<F: Files> {
    runtime: F,
    access: Access,
    slots: Vec<Slot<F::File>>,
    // The sectors that were written last, of whatever slot.
    seals: Seals,
    bads: u64,
}

impl<F: Files> Model for FileRack<F> {
    ghost use Rattle.std.specs.Prelude.{◌≡◌, vec_len};
    ghost use Rattle.stair_filerack.specs.FileRack.{FileRackState};

    ghost Value = { FileRackState F.File };

    ghost view = { λ s. record { access = s.access; bads = s.bads; slots = s.slots.items } };

    ghost invariant = { λ s. vec_len s.slots ≡ 32 };
}

/// A device that can't be had for a reason of the caller's.
#[derive(Clone, Copy, Debug, Drop)]
pub struct Refused {
    /// Its slot.
    pub slot: u8,
    /// The reason.
    pub reason: Reason,
}

impl<F: Files + Drop> FileRack<F>
where
    F::File: Lock,
{
    /// A rack over the image files of this folder. It makes their 32 paths and room for sealed sectors, and opens nothing.
    pub fn at(rt: F, alloc: Global, folder: &str, access: Access) -> Result<FileRack<F>, AllocError>
        ensures access { IfOk result (λ rack. rack.access ≡ access) }
        ensures bads { IfOk result (λ rack. rack.bads ≡ 0) }
        ensures gones { IfOk result (λ rack. (j : ℕ) → gones_of rack j ≡ 0) }
        ensures slots { IfOk result (λ rack. (j : ℕ) → j < 32 →
            slot_at rack j ≡ untouched (path_of folder.now j)) }
    {
        let mut slots = Vec::with_capacity(alloc, usize::from(SLOTS))?;
        for slot in 0..SLOTS {
            slots.push(Slot::new(alloc, path_of(alloc, folder, slot)?)?)?;
        }
        Ok(FileRack {
            runtime: rt,
            access,
            slots,
            seals: Seals::new(alloc)?,
            bads: 0,
        })
    }

    /// Opens all devices that are there, each as an attach would, so that all are open at once, and releases them again.
    /// Nothing is read or written, and no count rises. What is pending is lost.
    ///
    /// `Refused`: the first device that can't be had for a reason of the caller's ([`Reason::is_callers`]). A device that
    /// fails otherwise, or isn't there, is passed over.
    pub fn probe(&mut self) -> Result<(), Refused>
        ensures refused { IfErr result (λ refused. (refused.slot < 32) × IsCallers refused.reason) }
        ensures after { IsDetached self.old self.new }
    {
        let refused = self.open_all();
        for slot in self.slots.iter_mut() {
            slot.detach();
        }
        refused
    }

    // Opens all devices that are there, up to the first that is refused.
    fn open_all(&mut self) -> Result<(), Refused>
        ensures refused { IfErr result (λ refused. (refused.slot < 32) × IsCallers refused.reason) }
        ensures access { self.new.access ≡ self.old.access }
        ensures bads { self.new.bads ≡ self.old.bads }
        ensures slots { (j : ℕ) → j < 32 →
            detached (slot_at self.new j) ≡ detached (slot_at self.old j) }
    {
        for slot in 0..SLOTS {
            let place = &mut self.slots[usize::from(slot)];
            if let Err(reason) = place.probe(&self.runtime, self.access) {
                return Err(Refused { slot, reason });
            }
        }
        Ok(())
    }

    /// Writes to the files all that is pending. It is the last call on a rack that was written to: what is pending when the rack is
    /// dropped is lost.
    ///
    /// A slot whose file fails is gone, as by a sync, and keeps the reason.
    pub fn finish(&mut self)
        ensures counts { NoneFalls self.old.bads self.new.bads (gones_of self.old)
            (gones_of self.new) }
        ensures after { FinishesAll F.File.contents self.old self.new }
    {
        for slot in self.slots.iter_mut() {
            slot.finish();
        }
    }

    /// The first reason for which this slot was gone to a call, but that there was no file.
    pub fn reason(&self, slot: u8) -> Option<Reason>
        requires { slot < 32 }
        ensures { result ≡ (slot_at self.now slot).reason }
    {
        self.slots[usize::from(slot)].reason()
    }
}

// The path of a slot's image file.
fn path_of(alloc: Global, folder: &str, slot: u8) -> Result<String, AllocError>
    ensures { IfOk result (λ path. string_bytes path ≡ path_of folder.now slot) }
{
    let tens = slot / 10;
    let ones = slot % 10;
    format!(in alloc; "{folder}/dev{tens}{ones}.img")
}

// The count of bad sectors after a read with this answer.
fn bads_after(got: Got, bads: u64) -> u64
    ensures after { result ≡ bads_after got bads }
    ensures count { IsLaterCount bads result }
    ensures bad { got ≡ Got.Bad → Rose bads result }
{
    match got {
        Got::Bad => bads.saturating_add(1),
        Got::Good | Got::Gone => bads,
    }
}

impl<F: Files + Drop> Rack for FileRack<F>
where
    F::File: Lock,
{
    ghost is_honest = { false };

    ghost history = { λ _. [] };

    ghost bads = { λ s. s.bads };

    ghost gones = { gones_of };

    ghost reads = { λ _. None };

    fn attach(&mut self, slot: u8) -> Reply
        requires { slot < 32 }
        ensures counts { NoneFalls self.old.bads self.new.bads (gones_of self.old)
            (gones_of self.new) }
        ensures gone { result ≡ Reply.Gone → Rose (gones_of self.old slot)
            (gones_of self.new slot) }

        // What the rack is afterwards: the slot holds some file open where it is attached, which wasn't read or written
        // yet. All that was pending went to the earlier one before that was closed. It has as many sectors as the new one has
        // up to its end.
        ensures attached { result ≡ Reply.Done →
            IsSomeAnd (slot_at self.new slot).file (λ held. held.image.next ≡ None) }
        ensures unread { result ≡ Reply.Done →
            IsSomeAnd (slot_at self.new slot).file (λ held. held.image.ahead ≡ nothing_read) }
        ensures earlier { result ≡ Reply.Done → (out : Option (HeldFile F.File))
            × IsPutOut F.File.contents (slot_at self.old slot).file out }
        ensures settled { result ≡ Reply.Done →
            IsSomeAnd (slot_at self.new slot).file (λ held. held.pending ≡ []) }
        ensures counted { result ≡ Reply.Done →
            IsSomeAnd (slot_at self.new slot).file (λ held. (before : F.File)
            × CountsSectors F.File.stream_position F.File.stream_bytes before held.image.file
            (slot_at self.new slot).sectors) }
        ensures after { self.new ≡
            with_slot slot (attached_as result (slot_at self.new slot).file
            (slot_at self.new slot).sectors (slot_at self.new slot).reason (slot_at self.old slot))
            self.old }
        ensures kept { KeepsReason (slot_at self.old slot).reason (slot_at self.new slot).reason }
    {
        self.slots[usize::from(slot)].attach(&self.runtime, self.access)
    }

    fn sectors(&mut self, slot: u8) -> u32
        requires { slot < 32 }
        ensures answer { result ≡ (slot_at self.old slot).sectors }
        ensures after { self.new ≡ self.old }
    {
        self.slots[usize::from(slot)].sectors()
    }

    fn read(&mut self, slot: u8, sector: u32, into: &mut [u8; 512]) -> Got
        requires { slot < 32 }
        ensures unread { result ≢ Got.Good → into.new ≡ into.old }
        ensures counts { NoneFalls self.old.bads self.new.bads (gones_of self.old)
            (gones_of self.new) }
        ensures bad { result ≡ Got.Bad → Rose self.old.bads self.new.bads }
        ensures gone { result ≡ Got.Gone → Rose (gones_of self.old slot) (gones_of self.new slot) }

        // A slot that isn't attached is gone. Past its end an attached one is bad, and its file isn't touched.
        ensures unattached { (slot_at self.old slot).file ≡ None → (result ≡ Got.Gone)
            × (self.new ≡ with_slot slot (gone_once_more (slot_at self.old slot)) self.old) }
        ensures past_end { IsSome (slot_at self.old slot).file →
            (slot_at self.old slot).sectors ≤ sector →
            (result ≡ Got.Bad) × (self.new.slots ≡ self.old.slots) }

        // What was read of a file that tells its place and its bytes, once all that was pending went to it.
        ensures sealed { result ≡ Got.Good →
            GoesOn (AfterPending F.File.contents
            (ReadsSector F.File.stream_position F.File.remaining sector into.new))
            (slot_at self.old slot).file (slot_at self.new slot).file }
        ensures unsealed { result ≡ Got.Bad → sector < (slot_at self.old slot).sectors →
            GoesOn (AfterPending F.File.contents
            (ReadsBadSector F.File.stream_position F.File.remaining sector))
            (slot_at self.old slot).file (slot_at self.new slot).file }

        // What the rack is afterwards.
        ensures bads { self.new.bads ≡ bads_after result self.old.bads }
        ensures after { self.new.slots ≡ (with_slot slot
            (read_as result (slot_at self.new slot).file (slot_at self.new slot).reason
            (slot_at self.old slot)) self.old).slots }
        ensures access { self.new.access ≡ self.old.access }

        // The first reason stays, and there is one where the file failed.
        ensures kept { KeepsReason (slot_at self.old slot).reason (slot_at self.new slot).reason }
        ensures reason { result ≡ Got.Gone → IsSome (slot_at self.old slot).file →
            IsSome (slot_at self.new slot).reason }
    {
        let got = self.slots[usize::from(slot)].read(sector, into);
        self.bads = bads_after(got, self.bads);
        got
    }

    fn write(&mut self, slot: u8, sector: u32, from: &[u8; 512]) -> Reply
        requires { slot < 32 }
        ensures counts { NoneFalls self.old.bads self.new.bads (gones_of self.old)
            (gones_of self.new) }
        ensures gone { result ≡ Reply.Gone → Rose (gones_of self.old slot)
            (gones_of self.new slot) }

        // Where files are open for reading alone all slots are gone. A slot that isn't attached is gone. So is one past its
        // end, and its file isn't touched.
        ensures reading { self.old.access ≡ Access.Reading → result ≡ Reply.Gone }
        ensures unattached { (slot_at self.old slot).file ≡ None → (result ≡ Reply.Gone)
            × (self.new ≡ with_slot slot (gone_once_more (slot_at self.old slot)) self.old) }
        ensures past_end { (slot_at self.old slot).sectors ≤ sector → (result ≡ Reply.Gone)
            × (self.new ≡ with_slot slot (gone_once_more (slot_at self.old slot)) self.old) }

        // What is pending of a file that tells its place and its bytes.
        ensures done { result ≡ Reply.Done →
            GoesOn (WritesSector F.File.stream_position F.File.contents sector from.now)
            (slot_at self.old slot).file (slot_at self.new slot).file }

        // What the rack is afterwards.
        ensures after { self.new ≡ with_slot slot
            (written_as sector result (slot_at self.new slot).file (slot_at self.new slot).reason
            (slot_at self.old slot)) self.old }
        ensures kept { KeepsReason (slot_at self.old slot).reason (slot_at self.new slot).reason }
        ensures reason { result ≡ Reply.Gone → IsSome (slot_at self.old slot).file →
            sector < (slot_at self.old slot).sectors → IsSome (slot_at self.new slot).reason }
    {
        self.slots[usize::from(slot)].write(self.access, sector, from, &mut self.seals)
    }

    fn sync(&mut self, slot: u8) -> Reply
        requires { slot < 32 }
        ensures counts { NoneFalls self.old.bads self.new.bads (gones_of self.old)
            (gones_of self.new) }
        ensures gone { result ≡ Reply.Gone → Rose (gones_of self.old slot)
            (gones_of self.new slot) }
        ensures reading { self.old.access ≡ Access.Reading → result ≡ Reply.Gone }
        ensures unattached { (slot_at self.old slot).file ≡ None → (result ≡ Reply.Gone)
            × (self.new ≡ with_slot slot (gone_once_more (slot_at self.old slot)) self.old) }

        // All that was pending went to a file that tells its place and its bytes.
        ensures done { result ≡ Reply.Done → GoesOn (SyncsAll F.File.contents)
            (slot_at self.old slot).file (slot_at self.new slot).file }

        // What the rack is afterwards.
        ensures after { self.new ≡ with_slot slot
            (synced_as result (slot_at self.new slot).file (slot_at self.new slot).reason
            (slot_at self.old slot)) self.old }
        ensures kept { KeepsReason (slot_at self.old slot).reason (slot_at self.new slot).reason }
        ensures reason { result ≡ Reply.Gone → IsSome (slot_at self.old slot).file →
            IsSome (slot_at self.new slot).reason }
    {
        self.slots[usize::from(slot)].sync(self.access)
    }
}
