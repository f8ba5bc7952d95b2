// A slot of the rack.
ghost use Rattle.std.specs.Prelude.{◌≡◌, ◌≢◌, ◌≤◌, ◌<◌, [], Option, None, Some, IfOk, IfErr, OnOk, IsSome, IsSomeAnd, SomeIff, string_bytes};
ghost use Rattle.stair_rack.specs.Count.{Rose};
ghost use Rattle.stair_rack.specs.RackCounts.{IsLaterCount};
ghost use Rattle.stair_filerack.specs.Reason.{IsCallers, IsNoFile, KeepsReason, first_reason};
ghost use Rattle.stair_filerack.specs.Files.{CountsSectors, ReadsSector, ReadsBadSector, WritesSector, AfterPending, SyncsAll, GoesOn, IsPutOut};
ghost use Rattle.stair_filerack.specs.Slot.{HeldFile, untouched, detached, opened, nothing_read, holding, attached_as, gone_once_more, read_as, written_as, synced_as};
ghost use Rattle.stair_filerack.specs.Finish.{Finishes};

use crate::access::Access;
use crate::file;
use crate::file::{Found, Held};
use crate::lock::Lock;
use crate::reason::{Reason, keep_first};
use stair_image::Seals;
use stair_rack::{Got, Reply};
use std::alloc::{AllocError, Global};
use std::fs::{Files, OpenFile};
use std::io;
use std::io::{Read, Seek, Write};
use std::marker::Model;

/// A slot: the path of its image file, the file while the slot is attached, what the last attach found, and the first reason
/// for which it was gone.
#[derive(Drop)]
pub(crate) struct Slot<T> {
    path: String,
    file: Held<T>,
    sectors: u32,
    gones: u64,
    reason: Option<Reason>,
}

impl<T> Model for Slot<T> {
    ghost use Rattle.std.specs.Prelude.{string_bytes};
    ghost use Rattle.stair_filerack.specs.Slot.{FileSlot};

    ghost Value = { FileSlot T };

    ghost view = { λ s. record {
      path = string_bytes s.path;
      file = s.file;
      sectors = s.sectors;
      gones = s.gones;
      reason = s.reason;
    } };
}

impl<T: Read + Write + Seek + OpenFile + Lock + Drop> Slot<T> {
    /// The slot of this image file, which isn't opened. It takes all memory here, and none later.
    pub(crate) fn new(alloc: Global, path: String) -> Result<Slot<T>, AllocError>
        ensures { IfOk result (λ slot. slot ≡ untouched (string_bytes path)) }
    {
        Ok(Slot {
            path,
            file: Held::new(alloc)?,
            sectors: 0,
            gones: 0,
            reason: None,
        })
    }

    /// The number of sectors that the last attach found.
    pub(crate) fn sectors(&self) -> u32
        ensures { result ≡ self.now.sectors }
    {
        self.sectors
    }

    /// The first reason for which it was gone, but that there was no file.
    pub(crate) fn reason(&self) -> Option<Reason>
        ensures { result ≡ self.now.reason }
    {
        self.reason
    }

    /// Opens the slot's file anew, and tells why where that fails for a reason of the caller's.
    pub(crate) fn probe<F: Files<File = T>>(
        &mut self,
        runtime: &F,
        access: Access,
    ) -> Result<(), Reason>
        ensures refused { IfErr result IsCallers }
        ensures after { detached self.new ≡ detached self.old }
    {
        self.detach();
        let found = file::open(runtime, access, self.path.as_str());
        if let Some(reason) = refusal(&found) {
            return Err(reason);
        }
        if let Ok(found) = found {
            self.file.hold(found.file);
        }
        Ok(())
    }

    /// Lets go of the file with what is pending, and forgets what the last attach found.
    pub(crate) fn detach(&mut self)
        ensures { self.new ≡ detached self.old }
    {
        self.file.close();
        self.sectors = 0;
    }

    /// Opens the slot's file anew.
    pub(crate) fn attach<F: Files<File = T>>(&mut self, runtime: &F, access: Access) -> Reply
        ensures after { self.new ≡
            attached_as result self.new.file self.new.sectors self.new.reason self.old }
        ensures attached { result ≡ Reply.Done →
            IsSomeAnd self.new.file (λ held. held.image.next ≡ None) }
        ensures unread { result ≡ Reply.Done →
            IsSomeAnd self.new.file (λ held. held.image.ahead ≡ nothing_read) }
        ensures earlier { result ≡ Reply.Done → (out : Option (HeldFile T))
            × IsPutOut T.contents self.old.file out }
        ensures settled { result ≡ Reply.Done →
            IsSomeAnd self.new.file (λ held. held.pending ≡ []) }
        ensures counted { result ≡ Reply.Done → IsSomeAnd self.new.file (λ held. (before : T)
            × CountsSectors T.stream_position T.stream_bytes before held.image.file self.new.sectors) }
        ensures kept { KeepsReason self.old.reason self.new.reason }
        ensures count { IsLaterCount self.old.gones self.new.gones }
        ensures gone { result ≡ Reply.Gone → Rose self.old.gones self.new.gones }
    {
        let found = self.reopen(runtime, access);
        self.hold(found)
    }

    // Opens the slot's file anew. What is pending of the earlier one goes out first, and it is closed before the path is opened again.
    fn reopen<F: Files<File = T>>(
        &mut self,
        runtime: &F,
        access: Access,
    ) -> Result<Found<T>, Reason>
        ensures after { self.new ≡ record self.old { file = None } }
        ensures earlier { OnOk result ((out : Option (HeldFile T))
            × IsPutOut T.contents self.old.file out) }
        ensures counted { IfOk result (λ found. (before : T)
            × CountsSectors T.stream_position T.stream_bytes before found.file found.sectors) }
    {
        file::put_out(&mut self.file)?;
        self.file.close();
        file::open(runtime, access, self.path.as_str())
    }

    /// Holds the file that was opened, and so many sectors; where none was, the slot is gone.
    pub(crate) fn hold(&mut self, found: Result<Found<T>, Reason>) -> Reply
        ensures done { IfOk found (λ found. (result ≡ Reply.Done)
            × (self.new ≡ holding (Some (opened found.file)) found.sectors self.old)) }
        ensures failed { IfErr found (λ _. (result ≡ Reply.Gone)
            × (self.new ≡ attached_as Reply.Gone None 0 self.new.reason self.old)) }
        ensures does { IfErr found (λ reason. (¬ IsNoFile reason) →
            self.new.reason ≡ first_reason self.old.reason reason) }
        ensures untold { IfErr found (λ reason. IsNoFile reason →
            self.new.reason ≡ self.old.reason) }
        ensures kept { KeepsReason self.old.reason self.new.reason }
        ensures count { IsLaterCount self.old.gones self.new.gones }
        ensures gone { result ≡ Reply.Gone → Rose self.old.gones self.new.gones }
    {
        match found {
            Ok(Found { file, sectors }) => {
                self.file.hold(file);
                self.sectors = sectors;
                Reply::Done
            }
            Err(reason) => {
                self.file.close();
                self.sectors = 0;
                self.gones = self.gones.saturating_add(1);
                if !reason.is_no_file() {
                    keep_first(&mut self.reason, reason);
                }
                Reply::Gone
            }
        }
    }

    /// Reads a sector, once all that is pending went to the file.
    pub(crate) fn read(&mut self, sector: u32, into: &mut [u8; 512]) -> Got
        ensures good { result ≡ Got.Good → GoesOn (AfterPending T.contents
            (ReadsSector T.stream_position T.remaining sector into.new))
            self.old.file self.new.file }
        ensures bad { result ≡ Got.Bad → sector < self.old.sectors →
            GoesOn (AfterPending T.contents
            (ReadsBadSector T.stream_position T.remaining sector))
            self.old.file self.new.file }
        ensures unread { result ≢ Got.Good → into.new ≡ into.old }
        ensures unattached { self.old.file ≡ None →
            (result ≡ Got.Gone) × (self.new ≡ gone_once_more self.old) }
        ensures past_end { IsSome self.old.file → self.old.sectors ≤ sector →
            (result ≡ Got.Bad) × (self.new ≡ self.old) }
        ensures after { self.new ≡ read_as result self.new.file self.new.reason self.old }
        ensures kept { KeepsReason self.old.reason self.new.reason }
        ensures does { result ≡ Got.Gone → IsSome self.old.file → IsSome self.new.reason }
        ensures count { IsLaterCount self.old.gones self.new.gones }
        ensures gone { result ≡ Got.Gone → Rose self.old.gones self.new.gones }
    {
        let got = file::read(&mut self.file, &mut self.reason, self.sectors, sector, into);
        if got == Got::Gone {
            self.gones = self.gones.saturating_add(1);
        }
        got
    }

    /// Writes a sector: sealed, it is pending until a later call.
    pub(crate) fn write(
        &mut self,
        access: Access,
        sector: u32,
        from: &[u8; 512],
        seals: &mut Seals,
    ) -> Reply
        ensures done { result ≡ Reply.Done →
            GoesOn (WritesSector T.stream_position T.contents sector from.now)
            self.old.file self.new.file }
        ensures reading { access ≡ Access.Reading → result ≡ Reply.Gone }
        ensures unattached { self.old.file ≡ None →
            (result ≡ Reply.Gone) × (self.new ≡ gone_once_more self.old) }
        ensures past_end { self.old.sectors ≤ sector →
            (result ≡ Reply.Gone) × (self.new ≡ gone_once_more self.old) }
        ensures after { self.new ≡ written_as sector result self.new.file self.new.reason self.old }
        ensures kept { KeepsReason self.old.reason self.new.reason }
        ensures does { result ≡ Reply.Gone → IsSome self.old.file → sector < self.old.sectors →
            IsSome self.new.reason }
        ensures count { IsLaterCount self.old.gones self.new.gones }
        ensures gone { result ≡ Reply.Gone → Rose self.old.gones self.new.gones }
    {
        let (file, reason) = (&mut self.file, &mut self.reason);
        let reply = file::write(file, reason, access, self.sectors, sector, from, seals);
        if reply == Reply::Gone {
            self.gones = self.gones.saturating_add(1);
        }
        reply
    }

    /// Syncs the data of the slot's file, once all that is pending went to it, and releases what was read ahead of it.
    pub(crate) fn sync(&mut self, access: Access) -> Reply
        ensures done { result ≡ Reply.Done →
            GoesOn (SyncsAll T.contents) self.old.file self.new.file }
        ensures reading { access ≡ Access.Reading → result ≡ Reply.Gone }
        ensures unattached { self.old.file ≡ None →
            (result ≡ Reply.Gone) × (self.new ≡ gone_once_more self.old) }
        ensures after { self.new ≡ synced_as result self.new.file self.new.reason self.old }
        ensures kept { KeepsReason self.old.reason self.new.reason }
        ensures does { result ≡ Reply.Gone → IsSome self.old.file → IsSome self.new.reason }
        ensures count { IsLaterCount self.old.gones self.new.gones }
        ensures gone { result ≡ Reply.Gone → Rose self.old.gones self.new.gones }
    {
        let reply = file::sync(&mut self.file, &mut self.reason, access);
        if reply == Reply::Gone {
            self.gones = self.gones.saturating_add(1);
        }
        reply
    }

    /// Writes all that is pending to the slot's file.
    pub(crate) fn finish(&mut self) -> Reply
        ensures after { Finishes T.contents result self.old self.new }
        ensures kept { KeepsReason self.old.reason self.new.reason }
        ensures count { IsLaterCount self.old.gones self.new.gones }
        ensures gone { result ≡ Reply.Gone → Rose self.old.gones self.new.gones }
    {
        match file::put_out(&mut self.file) {
            Ok(()) => Reply::Done,
            Err(reason) => {
                self.gones = self.gones.saturating_add(1);
                keep_first(&mut self.reason, reason);
                Reply::Gone
            }
        }
    }
}

// Why a device is refused whose file was asked for with this outcome: for a reason of the caller's.
fn refusal<T>(found: &Result<Found<T>, Reason>) -> Option<Reason>
    ensures opened { OnOk found.now (result ≡ None) }
    ensures failed { IfErr found.now (λ reason. SomeIff result (IsCallers reason) reason) }
{
    match found {
        Err(reason) if reason.is_callers() => Some(*reason),
        Ok(_) | Err(_) => None,
    }
}
