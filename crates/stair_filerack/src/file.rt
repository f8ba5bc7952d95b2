// An image file, which may be open.
ghost use Rattle.std.specs.Prelude.{◌≡◌, ◌≢◌, ◌≤◌, ◌<◌, true, false, take, length, ◌+◌, IsTrue, IsSome, None, Some, IfOk, IfErr, IfSome, OnErr, MatchOption, MatchResult, OnOk, ◌⊎◌};
ghost use Rattle.std.specs.Fs.{asks_read, asks_write, asks_append, asks_truncate, asks_create, asks_create_new};
ghost use Rattle.std.specs.Io.KnownBytes.{Consumes, Appends};
ghost use Rattle.std.specs.Io.Seek.{StaysAt};
ghost use Rattle.stair_image.specs.Seal.{sealed};
ghost use Rattle.stair_filerack.specs.Reason.{IsBadSector, KeepsReason, first_reason, had_of};
ghost use Rattle.stair_filerack.specs.Files.{CountsSectors, SeeksSector, FindsSector, ReadsAlone, ReadsSector, IsNoSector, ReadsNoSector, ReadsBadSector, ReadsFewer, FailsToRead, WritesSector, AfterPending, IsPutOut, IsUnchanged, MakesWay, SyncsAll, GoesAlone, GivesUnsealed, LacksSector, HoldsSector, IsHeld, IsNear, IsOfEight, MissesEight, ReadsEight, GoesOn, IsGotOf, buffer_after, reply_of, sectors_in};
ghost use Rattle.stair_filerack.specs.Slot.{file_after_write, held_as, nothing_read, opened, pending_bytes, released};

use crate::access::Access;
use crate::ahead;
use crate::ahead::Ahead;
use crate::full::read_full;
use crate::lock::{Lock, Locking};
use crate::pending::Pending;
use crate::reason::{Reason, is_bad_sector, keep_first};
use stair_image::{SEALED_SECTOR, Seals, unseal};
use stair_rack::{Got, Reply};
use std::alloc::{AllocError, Global};
use std::fs::{Files, Metadata, OpenFile, OpenOptions};
use std::io::{Read, Seek, SeekFrom, Write};
use std::marker::Model;
use std::os::unix::fs::FileTypeExt;
use std::{fs, io};

/// An image file that is open. `next` is the sector at whose first byte the file is once what is pending went to it, if the last
/// call was a read or write that ended there: a read or write of that sector needs no seek.
#[derive(Drop)]
pub(crate) struct Opened<T> {
    file: T,
    next: Option<u64>,
    ahead: Ahead,
}

impl<T> Model for Opened<T> {
    ghost use Rattle.stair_filerack.specs.Slot.{OpenFile};

    ghost Value = { OpenFile T };

    ghost view = { λ s. record { file = s.file; next = s.next; ahead = s.ahead } };
}

impl<T> Opened<T> {
    /// A file that was just opened.
    pub(crate) fn new(file: T) -> Opened<T>
        ensures { result ≡ record { file = file; next = None; ahead = nothing_read } }
    {
        Opened {
            file,
            next: None,
            ahead: Ahead::new(),
        }
    }
}

/// An image file, which may be open, and the sectors that are to go to it.
#[derive(Drop)]
pub(crate) struct Held<T> {
    image: Option<Opened<T>>,
    pending: Pending,
}

impl<T> Model for Held<T> {
    ghost use Rattle.std.specs.Prelude.{Option};
    ghost use Rattle.std.specs.Option.{option_map};
    ghost use Rattle.stair_filerack.specs.Slot.{HeldFile, held_as};

    ghost Value = { Option (HeldFile T) };

    ghost view = { λ s. option_map (held_as s.pending) s.image };
}

impl<T: Drop> Held<T> {
    /// Returns no open file, with room for the sectors that are to go to one. It takes the memory for them here, and none later.
    pub(crate) fn new(alloc: Global) -> Result<Held<T>, AllocError>
        ensures { IfOk result (λ file. file ≡ None) }
    {
        Ok(Held {
            image: None,
            pending: Pending::new(alloc)?,
        })
    }

    /// Closes the earlier file, and holds this one, which was just opened. What is pending is dropped.
    pub(crate) fn hold(&mut self, file: T)
        ensures { self.new ≡ Some (opened file) }
    {
        self.pending.clear();
        self.image = Some(Opened::new(file));
    }

    /// Closes the file. What is pending is dropped.
    pub(crate) fn close(&mut self)
        ensures { self.new ≡ None }
    {
        close_image(&mut self.image);
        self.pending.clear();
    }
}

// Closes an image file. An open file is large, and only this function makes room for one as it begins.
#[inline(never)]
fn close_image<T: Drop>(image: &mut Option<Opened<T>>)
    ensures { image.new ≡ None }
{
    *image = None;
}

/// An image file that was found, and the number of its sectors.
#[derive(Drop)]
pub(crate) struct Found<T> {
    pub(crate) file: T,
    pub(crate) sectors: u32,
}

/// Opens an image file, with its lock where it is to be written, and counts its sectors.
pub(crate) fn open<T: OpenFile + Seek + Lock + Drop, F: Files<File = T>>(
    runtime: &F,
    access: Access,
    path: &str,
) -> Result<Found<T>, Reason>
    ensures { IfOk result (λ found. (before : T)
        × CountsSectors T.stream_position T.stream_bytes before found.file found.sectors) }
{
    // A pipe is told before it is opened, since that may wait for another program.
    if !is_device(&fs::metadata(runtime, path)?) {
        return Err(Reason::NoDevice);
    }
    let file = image_options(access).open(runtime, path)?;
    if access == Access::Writing {
        had(file.take_lock())?;
    }
    Ok(counted(file)?)
}

// Whether this is a file or a block device.
fn is_device(metadata: &Metadata) -> bool {
    let kind = metadata.file_type();
    kind.is_file() || kind.is_block_device()
}

// Whether a file may be had, by what came of asking for its lock.
fn had(locking: Locking) -> Result<(), Reason>
    ensures { result ≡ had_of locking }
{
    match locking {
        Locking::Taken | Locking::NoLocks => Ok(()),
        Locking::InUse => Err(Reason::InUse),
    }
}

// How an image file is opened.
fn image_options(access: Access) -> OpenOptions
    ensures read { asks_read result ≡ true }
    ensures write { IsTrue (asks_write result) → access ≡ Access.Writing }
    ensures both { access ≡ Access.Writing → asks_write result ≡ true }
    ensures not_created { (asks_create result ≡ false) × (asks_create_new result ≡ false) }
    ensures not_cut { (asks_truncate result ≡ false) × (asks_append result ≡ false) }
{
    let mut options = OpenOptions::new();
    options.read(true);
    options.write(access == Access::Writing);
    options
}

/// The file with the number of its sectors, by its end as a seek finds it.
pub(crate) fn counted<T: Seek + Drop>(mut file: T) -> io::Result<Found<T>>
    ensures { IfOk result (λ found.
        CountsSectors T.stream_position T.stream_bytes file found.file found.sectors) }
{
    let end = file.seek(SeekFrom::End(0))?;
    let sectors = sectors_of(end);
    Ok(Found { file, sectors })
}

// The number of sectors of a file of so many bytes.
fn sectors_of(bytes: u64) -> u32
    ensures { result ≡ sectors_in bytes }
{
    u32::try_from(bytes / SEALED_SECTOR as u64).unwrap_or(u32::MAX)
}

/// Reads a sector of an open file of so many sectors, once all that is pending went to it. A file that fails is closed, and the
/// reason kept.
pub(crate) fn read<T: Read + Write + Seek + Drop>(
    file: &mut Held<T>,
    reason: &mut Option<Reason>,
    sectors: u32,
    sector: u32,
    into: &mut [u8; 512],
) -> Got
    ensures good { result ≡ Got.Good → GoesOn (AfterPending T.contents
        (ReadsSector T.stream_position T.remaining sector into.new)) file.old file.new }
    ensures bad { result ≡ Got.Bad → sector < sectors → GoesOn (AfterPending T.contents
        (ReadsBadSector T.stream_position T.remaining sector)) file.old file.new }
    ensures unread { result ≢ Got.Good → into.new ≡ into.old }
    ensures unattached { file.old ≡ None → (result ≡ Got.Gone) × (reason.new ≡ reason.old) }
    ensures past_end { IsSome file.old → sectors ≤ sector →
        (result ≡ Got.Bad) × (file.new ≡ file.old) }
    ensures closed { result ≡ Got.Gone → file.new ≡ None }
    ensures kept { KeepsReason reason.old reason.new }
    ensures does { result ≡ Got.Gone → IsSome file.old → IsSome reason.new }
    ensures untold { result ≢ Got.Gone → reason.new ≡ reason.old }
{
    let Some(image) = &mut file.image else {
        return Got::Gone;
    };
    if sector >= sectors {
        return Got::Bad;
    }
    let got = read_after(image, &mut file.pending, reason, sectors, sector, into);
    if got == Got::Gone {
        file.close();
    }
    got
}

// Reads a sector once all that is pending went to the file. If that fails the slot is gone, also by an error that makes a sector
// bad if a read fails by it.
fn read_after<T: Read + Write + Seek>(
    image: &mut Opened<T>,
    pending: &mut Pending,
    reason: &mut Option<Reason>,
    sectors: u32,
    sector: u32,
    into: &mut [u8; 512],
) -> Got
    ensures good { result ≡ Got.Good → AfterPending T.contents
        (ReadsSector T.stream_position T.remaining sector into.new)
        (held_as pending.old image.old) (held_as pending.new image.new) }
    ensures bad { result ≡ Got.Bad → AfterPending T.contents
        (ReadsBadSector T.stream_position T.remaining sector)
        (held_as pending.old image.old) (held_as pending.new image.new) }
    ensures unread { result ≢ Got.Good → into.new ≡ into.old }
    ensures kept { KeepsReason reason.old reason.new }
    ensures does { result ≡ Got.Gone → IsSome reason.new }
    ensures untold { result ≢ Got.Gone → reason.new ≡ reason.old }
{
    if let Err(error) = pending.put_out(&mut image.file) {
        keep_first(reason, Reason::Failed(error));
        return Got::Gone;
    }
    got_of(read_sector(image, sectors, sector), into, reason)
}

// What a read with this outcome answers, what the buffer holds then, and which reason is kept.
fn got_of(
    outcome: io::Result<Option<[u8; 512]>>,
    into: &mut [u8; 512],
    reason: &mut Option<Reason>,
) -> Got
    ensures got { IsGotOf outcome result }
    ensures buffer { into.new ≡ buffer_after outcome into.old }
    ensures kept { KeepsReason reason.old reason.new }
    ensures does { result ≡ Got.Gone → IsSome reason.new }
    ensures first { IfErr outcome (λ error. (¬ IsBadSector error) →
        reason.new ≡ first_reason reason.old (Reason.Failed error)) }
    ensures untold { result ≢ Got.Gone → reason.new ≡ reason.old }
{
    match outcome {
        Ok(Some(payload)) => {
            *into = payload;
            Got::Good
        }
        Ok(None) => Got::Bad,
        Err(error) if is_bad_sector(&error) => Got::Bad,
        Err(error) => {
            keep_first(reason, Reason::Failed(error));
            Got::Gone
        }
    }
}

/// Writes a sector of an open file of so many sectors, which never grows: it is pending until a later call. A file that fails is
/// closed, and the reason kept.
pub(crate) fn write<T: Write + Seek + Drop>(
    file: &mut Held<T>,
    reason: &mut Option<Reason>,
    access: Access,
    sectors: u32,
    sector: u32,
    from: &[u8; 512],
    seals: &mut Seals,
) -> Reply
    ensures done { result ≡ Reply.Done →
        GoesOn (WritesSector T.stream_position T.contents sector from.now) file.old file.new }
    ensures reading { access ≡ Access.Reading → result ≡ Reply.Gone }
    ensures unattached { file.old ≡ None → (result ≡ Reply.Gone) × (reason.new ≡ reason.old) }
    ensures past_end { sectors ≤ sector →
        (result ≡ Reply.Gone) × (file.new ≡ file.old) × (reason.new ≡ reason.old) }
    ensures after { file.new ≡ file_after_write result sectors sector file.new file.old }
    ensures kept { KeepsReason reason.old reason.new }
    ensures does { result ≡ Reply.Gone → IsSome file.old → sector < sectors → IsSome reason.new }
    ensures untold { result ≡ Reply.Done → reason.new ≡ reason.old }
{
    let Some(image) = &mut file.image else {
        return Reply::Gone;
    };
    if sectors <= sector {
        return Reply::Gone;
    }
    let outcome = write_sector(image, &mut file.pending, access, sector, from, seals);
    let reply = reply_of(outcome, reason);
    if reply == Reply::Gone {
        file.close();
    }
    reply
}

/// Syncs the data of an open file, once all that is pending went to it, and releases what was read ahead. A file that fails is
/// closed, and the reason kept.
pub(crate) fn sync<T: Write + OpenFile + Drop>(
    file: &mut Held<T>,
    reason: &mut Option<Reason>,
    access: Access,
) -> Reply
    ensures done { result ≡ Reply.Done → GoesOn (SyncsAll T.contents) file.old file.new }
    ensures reading { access ≡ Access.Reading → result ≡ Reply.Gone }
    ensures unattached { file.old ≡ None → (result ≡ Reply.Gone) × (reason.new ≡ reason.old) }
    ensures closed { result ≡ Reply.Gone → file.new ≡ None }
    ensures kept { KeepsReason reason.old reason.new }
    ensures does { result ≡ Reply.Gone → IsSome file.old → IsSome reason.new }
    ensures untold { result ≡ Reply.Done → reason.new ≡ reason.old }
{
    let Some(image) = &mut file.image else {
        return Reply::Gone;
    };
    let reply = reply_of(sync_data(image, &mut file.pending, access), reason);
    if reply == Reply::Gone {
        file.close();
    }
    reply
}

/// Writes all that is pending to the file, if one is open. A file that fails is closed.
pub(crate) fn put_out<T: Write + Drop>(file: &mut Held<T>) -> Result<(), Reason>
    ensures done { OnOk result (IsPutOut T.contents file.old file.new) }
    ensures failed { OnErr result (IsSome file.old × (file.new ≡ None)) }
{
    let Some(image) = &mut file.image else {
        return Ok(());
    };
    let outcome = put_out_all(image, &mut file.pending);
    if outcome.is_err() {
        file.close();
    }
    outcome
}

// Writes all that is pending to an open file.
fn put_out_all<T: Write>(image: &mut Opened<T>, pending: &mut Pending) -> Result<(), Reason>
    ensures { OnOk result (AfterPending T.contents IsUnchanged
        (held_as pending.old image.old) (held_as pending.new image.new)) }
{
    Ok(pending.put_out(&mut image.file)?)
}

// What a write or a sync with this outcome answers, and which reason is kept.
fn reply_of(outcome: Result<(), Reason>, reason: &mut Option<Reason>) -> Reply
    ensures reply { result ≡ reply_of outcome }
    ensures kept { KeepsReason reason.old reason.new }
    ensures does { result ≡ Reply.Gone → IsSome reason.new }
    ensures first { IfErr outcome (λ error. reason.new ≡ first_reason reason.old error) }
    ensures untold { result ≡ Reply.Done → reason.new ≡ reason.old }
{
    match outcome {
        Ok(()) => Reply::Done,
        Err(error) => {
            keep_first(reason, error);
            Reply::Gone
        }
    }
}

// Syncs the data of a file that was opened for writing, once all that is pending went to it, and releases what was read ahead.
fn sync_data<T: Write + OpenFile>(
    image: &mut Opened<T>,
    pending: &mut Pending,
    access: Access,
) -> Result<(), Reason>
    ensures done { OnOk result (SyncsAll T.contents
        (held_as pending.old image.old) (held_as pending.new image.new)) }
    ensures reading { access ≡ Access.Reading → result ≡ Err Reason.OpenForReading }
{
    if access == Access::Reading {
        return Err(Reason::OpenForReading);
    }
    put_out_all(image, pending)?;
    image.file.sync_data()?;
    image.ahead.release();
    Ok(())
}

// Reads a sector's payload: `None` where the file ends within the sector, or what is there isn't sealed.
fn read_sector<T: Read + Seek>(
    image: &mut Opened<T>,
    sectors: u32,
    sector: u32,
) -> io::Result<Option<[u8; 512]>>
    ensures found { IfOk result (λ found. MatchOption found
        (GivesUnsealed T.remaining sector image.old image.new ⊎ GoesAlone T.remaining sector
        (ReadsNoSector T.stream_position T.remaining sector) image.old image.new)
        (λ payload. ReadsSector T.stream_position T.remaining sector payload image.old image.new)) }
    ensures failed { OnErr result (GoesAlone T.remaining sector
        (FailsToRead T.stream_position T.remaining sector) image.old image.new) }
{
    if holds(image, sectors, sector) {
        return Ok(image.ahead.give(u64::from(sector)));
    }
    read_alone(image, sector)
}

// Returns whether this sector is held: it was, or it is one of eight that are read now.
fn holds<T: Read>(image: &mut Opened<T>, sectors: u32, sector: u32) -> bool
    ensures held { result ≡ true → HoldsSector T.remaining sector image.old image.new }
    ensures is_held { result ≡ true → IsHeld image.new.ahead sector }
    ensures none { result ≡ false → LacksSector T.remaining sector image.old image.new }
{
    if image.ahead.has(u64::from(sector)) {
        return true;
    }
    match start_of_eight(image, sectors, sector) {
        Some(start) => read_ahead(image, start, sector),
        None => false,
    }
}

// Returns the sector from which eight are to be read at once, which is where the file is: this sector is one of them, the file
// has them all, and the last try that read fewer wasn't near.
fn start_of_eight<T>(image: &Opened<T>, sectors: u32, sector: u32) -> Option<u64>
    ensures place { IfSome result (λ start. image.now.next ≡ Some start) }
    ensures among { IfSome result (λ start. IsOfEight start sector) }
    ensures far { IfSome result (λ start. ¬ IsNear image.now.ahead.missed start) }
{
    let number = u64::from(sector);
    let start = image.next?;
    if start > number || number - start >= ahead::SECTORS as u64 {
        return None;
    }
    if start + ahead::SECTORS as u64 > u64::from(sectors) || image.ahead.is_near_miss(start) {
        return None;
    }
    Some(start)
}

// Reads eight sectors at once from this one on, where the file is. Returns whether all eight were read.
fn read_ahead<T: Read>(image: &mut Opened<T>, start: u64, sector: u32) -> bool
    requires place { image.old.next ≡ Some start }
    requires among { IsOfEight start sector }
    requires far { ¬ IsNear image.old.ahead.missed start }
    ensures held { result ≡ true → ReadsEight T.remaining start sector image.old image.new }
    ensures missed { result ≡ false → MissesEight T.remaining start sector image.old image.new }
{
    if !image.ahead.fill(&mut image.file, start) {
        image.next = None;
        return false;
    }
    image.next = Some(start + ahead::SECTORS as u64);
    true
}

// Reads a sector that isn't held.
fn read_alone<T: Read + Seek>(image: &mut Opened<T>, sector: u32) -> io::Result<Option<[u8; 512]>>
    ensures found { IfOk result (λ found. MatchOption found
        (ReadsNoSector T.stream_position T.remaining sector image.old image.new)
        (λ payload. ReadsAlone T.stream_position T.remaining sector payload image.old image.new)) }
    ensures failed { OnErr result
        (FailsToRead T.stream_position T.remaining sector image.old image.new) }
{
    find_sector(image, sector)?;
    match read_here(&mut image.file, sector)? {
        Some(payload) => {
            image.next = Some(u64::from(sector) + 1);
            Ok(Some(payload))
        }
        None => Ok(None),
    }
}

// Seals a sector of a file that was opened for writing. It is pending after the others if it follows them and there is room; if
// not, these go out first.
fn write_sector<T: Write + Seek>(
    image: &mut Opened<T>,
    pending: &mut Pending,
    access: Access,
    sector: u32,
    from: &[u8; 512],
    seals: &mut Seals,
) -> Result<(), Reason>
    ensures done { OnOk result (WritesSector T.stream_position T.contents sector from.now
        (held_as pending.old image.old) (held_as pending.new image.new)) }
    ensures reading { access ≡ Access.Reading → result ≡ Err Reason.OpenForReading }
{
    if access == Access::Reading {
        return Err(Reason::OpenForReading);
    }
    make_way(image, pending, sector)?;
    find_sector(image, sector)?;
    pending.add(seals.seal(u64::from(sector), from));
    image.next = Some(u64::from(sector) + 1);
    Ok(())
}

// Writes all that is pending to an open file, unless this sector can be gathered with it.
fn make_way<T: Write>(
    image: &mut Opened<T>,
    pending: &mut Pending,
    sector: u32,
) -> Result<(), Reason>
    ensures way { OnOk result (MakesWay T.contents sector
        (held_as pending.old image.old) (held_as pending.new image.new)) }
    ensures room { OnOk result (length pending.new + 544 ≤ pending_bytes) }
{
    if image.next == Some(u64::from(sector)) && pending.has_room() {
        return Ok(());
    }
    put_out_all(image, pending)
}

// Brings a file to the place of a sector, by a seek unless the last read or write ended there, and releases what was read ahead.
fn find_sector<T: Seek>(image: &mut Opened<T>, sector: u32) -> io::Result<()>
    ensures next { image.new.next ≡ None }
    ensures ahead { image.new.ahead ≡ released image.old.ahead }
    ensures found { OnOk result (FindsSector T.stream_position sector image.old image.new.file) }
    ensures failed { OnErr result ((image.old.next ≢ Some sector)
        × StaysAt (T.stream_position image.old.file) (T.stream_position image.new.file)) }
{
    let follows = image.next == Some(u64::from(sector));
    image.next = None;
    image.ahead.release();
    if follows {
        return Ok(());
    }
    seek_to(&mut image.file, sector)
}

// Seeks the place of a sector.
fn seek_to<T: Seek>(file: &mut T, sector: u32) -> io::Result<()>
    ensures { MatchResult result
        (λ _. SeeksSector sector (T.stream_position file.old) (T.stream_position file.new))
        (λ _. StaysAt (T.stream_position file.old) (T.stream_position file.new)) }
{
    file.seek(SeekFrom::Start(SEALED_SECTOR as u64 * u64::from(sector)))?;
    Ok(())
}

// Reads the sector that lies at the file's place.
fn read_here<T: Read>(file: &mut T, sector: u32) -> io::Result<Option<[u8; 512]>>
    ensures found { IfOk result (λ found. MatchOption found
        (IsNoSector sector (T.remaining file.old) (T.remaining file.new))
        (λ payload. Consumes (T.remaining file.old) (T.remaining file.new)
        (sealed sector payload))) }
    ensures failed { OnErr result (ReadsFewer 544 (T.remaining file.old) (T.remaining file.new)) }
{
    let mut bytes = [0; SEALED_SECTOR];
    if read_full(file, &mut bytes)? < SEALED_SECTOR {
        return Ok(None);
    }
    Ok(unseal(u64::from(sector), &bytes))
}
