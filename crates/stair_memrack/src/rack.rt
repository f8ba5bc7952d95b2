// A rack in memory.
ghost use Rattle.std.specs.Prelude.{◌≡◌, ◌≢◌, ◌<◌, ◌≤◌, ◌+◌, ◌-◌, ◌^◌, ℕ, true, false, [], ◌∷◌, ◌++◌, Some, length, map, IfOk, vec_len, vec_capacity, slice_index, slice_set, if◌then◌else◌};
ghost use Rattle.stair_rack.specs.Count.{Rose, one_more};
ghost use Rattle.stair_rack.specs.Sector.{Good, content};
ghost use Rattle.stair_rack.specs.History.{Made, Attach, Sectors, Read, Write, Sync, slot_state};
ghost use Rattle.stair_rack.specs.Answers.{Calls, IsHistory, attach_answer, read_answer, write_answer, sync_answer};
ghost use Rattle.stair_rack.specs.RackCounts.{NoneFalls, CountsRead};
ghost use Rattle.stair_memrack.specs.declared.record.Call.TheVariants as Call;
ghost use Rattle.stair_memrack.specs.Shelf.{blank_for};
ghost use Rattle.stair_memrack.specs.Record.{blank_image, new_rack, history_of, moment, call_is_gone, call_is_bad, call_is_read, IsAnswerTo, after_call};
ghost use Rattle.stair_memrack.specs.RackSteps.{IsOneCall};
ghost use Rattle.stair_memrack.specs.Picks.{crash_image, HasPicks};
ghost use Rattle.stair_rack.specs.Crash.{CrashMayLeave};
ghost use Rattle.stair_rack.specs.Media.{Image};

use crate::act::{Act, What};
use crate::crash::left_of_slots;
use crate::disk::Disk;
use crate::origin::{Origin, blank_origins, places};
use crate::place::Place;
use crate::record::{Ask, Call, Recorded};
use crate::script::act_before;
use stair_rack::{Got, Rack, Reply};
use std::alloc::{AllocError, Global};
use std::marker::Model;

/// A rack in memory, which plays a script of what the outside does to it.
///
/// All five calls are numbered, `sectors` too, from 0 on. Before the call numbered `at` the acts of the script with that
/// number are done, in the order of the list; an act that doesn't apply does nothing. A medium that is pulled settles as
/// reads find it, or as at its last sync, by the act.
///
/// It records its calls, and has room for as many as it was made for. A call that finds no room stops it for good.
#[derive(Drop)]
pub struct MemRack {
    // What each slot held when it was made.
    made: Vec<Origin>,
    script: Vec<Act>,
    // The medium that an act of the script puts in, by the act's index, until it is done.
    blanks: Vec<Option<Disk>>,
    places: Vec<Place>,
    // The script stopped the rack, or its record is spent.
    stopped: bool,
    // For how many calls the record has room, and the calls that it holds.
    room: u32,
    log: Vec<Recorded>,
    // A call came after the record was spent.
    spent: bool,
    // The slots that were attached then, of each the first attach that releases what was found before.
    late: Vec<u8>,
    bads: u64,
    gones: Vec<u64>,
    reads: u32,
}

impl Model for MemRack {
    ghost use Rattle.stair_memrack.specs.Record.{MemRackState};

    ghost Value = { MemRackState };

    ghost use Rattle.stair_memrack.specs.Sound.{state_of, IsSound};

    ghost view = { state_of };

    ghost invariant = { IsSound };
}

impl MemRack {
    /// A rack with blank media of so many sectors in its first `media` slots, and none in the others.
    ///
    /// It takes all memory here, and none later: the record of so many calls, every medium that the script puts in, and
    /// the drawers.
    pub fn new(
        alloc: Global,
        media: u8,
        sectors: u32,
        script: &[Act],
        calls: u32,
    ) -> Result<MemRack, AllocError>
        requires { media ≤ 32 }
        ensures made { IfOk result (λ s. history_of s ≡ Made (blank_image media sectors) ∷ []) }
        ensures state { IfOk result (λ s. s ≡ new_rack s.made script.now calls) }
    {
        MemRack::over(alloc, blank_origins(alloc, media, sectors)?, script, calls)
    }

    /// A rack over what a crash leaves of this one: an image that the crash may leave, by these picks.
    ///
    /// There is a pick for each sector to which something was written since its device's last sync, by slot and then by
    /// sector: 0 leaves what the sector held then, n the n-th content written since, and any other number a torn cell. A
    /// missing pick is 0. Media that were pulled stay in their drawers, as they settled.
    ///
    /// It takes all memory here, and none later, as [`MemRack::new`] does. Where there is none the old rack is gone too.
    pub fn after_crash(
        self,
        alloc: Global,
        picks: &[u32],
        script: &[Act],
        calls: u32,
    ) -> Result<MemRack, AllocError>
        ensures made { IfOk result (λ s. history_of s ≡
            Made (crash_image picks.now (history_of self)) ∷ []) }
        ensures left { CrashMayLeave (history_of self) (crash_image picks.now (history_of self)) }
        // for each image that a crash may leave there are picks that give it
        ensures each { (image : Image) → CrashMayLeave (history_of self) image →
            HasPicks (history_of self) (length self.calls) image }
        ensures state { IfOk result (λ s. s ≡ new_rack s.made script.now calls) }
    {
        let made = left_of_slots(alloc, &self.places, &self.log, picks)?;
        MemRack::over(alloc, made, script, calls)
    }

    // A rack over these slots. It takes all memory here, and none later.
    fn over(
        alloc: Global,
        made: Vec<Origin>,
        script: &[Act],
        calls: u32,
    ) -> Result<MemRack, AllocError>
        requires { vec_len made ≡ 32 }
        ensures { IfOk result (λ s. s ≡ new_rack made.items script.now calls) }
    {
        Ok(MemRack {
            script: script.to_vec(alloc)?,
            blanks: blanks(alloc, script)?,
            places: places(alloc, &made, script.len())?,
            made,
            stopped: false,
            room: calls,
            log: Vec::with_capacity(alloc, calls as usize)?,
            spent: false,
            late: Vec::with_capacity(alloc, 32)?,
            bads: 0,
            gones: vec![in alloc; 0; 32]?,
            reads: 0,
        })
    }

    /// The number of read calls so far: the number of reads that contracts over racks speak of.
    pub fn reads(&self) -> u64
        ensures { result ≡ self.now.reads }
    {
        u64::from(self.reads)
    }

    /// The number of calls so far, at most the number that it was made for.
    pub fn made(&self) -> u32
        ensures made { result ≡ length self.now.calls }
        ensures within { result ≤ self.now.room }
    {
        let made = self.log.len();
        made as u32
    }

    // The call that is asked of a slot, which is recorded where the record has room. A good read puts the bytes into
    // `into`, and one that isn't leaves it.
    fn call(&mut self, slot: u8, ask: &Ask, into: &mut [u8; 512]) -> Call
        requires { slot < 32 }
        ensures asked { IsAnswerTo ask.now result }
        ensures one { IsOneCall self.old self.new slot result }
        ensures good { (k : ℕ) → result ≡ Call.Read k Got.Good →
            content ((slot_state (history_of self.new) slot).sector k) ≡ Good into.new }
        ensures unread { (k : ℕ) (got : Got) → result ≡ Call.Read k got → got ≢ Got.Good →
            into.new ≡ into.old }
    {
        if self.log.len() >= self.room as usize {
            self.spent = true;
            self.stopped = true;
            let place = &mut self.places[slot as usize];
            let lets_go = place.asks_to_let_go(ask);
            let refusal = place.answer(true, ask, into);
            tell(lets_go, slot, &mut self.late);
            count(&refusal, slot, &mut self.bads, &mut self.gones);
            return refusal;
        }
        act_before(
            self.log.len() as u32,
            &self.script,
            &mut self.blanks,
            &mut self.places,
            &mut self.stopped,
        );
        let call = self.places[slot as usize].answer(self.stopped, ask, into);
        self.log.push_reserved(Recorded { slot, call });
        count(&call, slot, &mut self.bads, &mut self.gones);
        self.reads = reads_after(&call, self.reads);
        call
    }
}

impl Rack for MemRack {
    ghost is_honest = { true };

    ghost history = { history_of };

    ghost bads = { λ s. s.bads };

    ghost gones = { λ s. slice_index s.gones };

    ghost reads = { λ s. Some s.reads };

    fn attach(&mut self, slot: u8) -> Reply
        requires { slot < 32 }
        ensures began { IsHistory (history_of self.old) }
        ensures does { Calls (history_of self.old) (history_of self.new) slot (Attach result) }
        ensures counts { NoneFalls self.old.bads self.new.bads (slice_index self.old.gones)
            (slice_index self.new.gones) }
        ensures gone { result ≡ Reply.Gone →
            Rose (slice_index self.old.gones slot) (slice_index self.new.gones slot) }
        ensures reads { Some self.new.reads ≡ Some self.old.reads }

        // Exactly which answer comes, and what the rack is afterwards.
        ensures answer { result ≡ attach_answer (moment self.old) slot }
        ensures after { self.new ≡ after_call slot (Call.Attach result) self.old }
    {
        self.call(slot, &Ask::Attach, &mut [0; 512]).reply()
    }

    fn sectors(&mut self, slot: u8) -> u32
        requires { slot < 32 }
        ensures began { IsHistory (history_of self.old) }
        ensures does { Calls (history_of self.old) (history_of self.new) slot (Sectors result) }
        ensures counts { NoneFalls self.old.bads self.new.bads (slice_index self.old.gones)
            (slice_index self.new.gones) }
        ensures reads { Some self.new.reads ≡ Some self.old.reads }

        // Exactly which answer comes, and what the rack is afterwards.
        ensures answer { result ≡ (slot_state (moment self.old) slot).found }
        ensures after { self.new ≡ after_call slot (Call.Sectors result) self.old }
    {
        self.call(slot, &Ask::Sectors, &mut [0; 512]).number()
    }

    fn read(&mut self, slot: u8, sector: u32, into: &mut [u8; 512]) -> Got
        requires { slot < 32 }
        ensures began { IsHistory (history_of self.old) }
        ensures does { Calls (history_of self.old) (history_of self.new) slot (Read sector result) }
        ensures good { result ≡ Got.Good →
            content ((slot_state (history_of self.new) slot).sector sector) ≡ Good into.new }
        ensures unread { result ≢ Got.Good → into.new ≡ into.old }
        ensures counts { NoneFalls self.old.bads self.new.bads (slice_index self.old.gones)
            (slice_index self.new.gones) }
        ensures bad { result ≡ Got.Bad → Rose self.old.bads self.new.bads }
        ensures gone { result ≡ Got.Gone →
            Rose (slice_index self.old.gones slot) (slice_index self.new.gones slot) }
        ensures reads { CountsRead result (Some self.old.reads) (Some self.new.reads) }

        // Exactly which answer comes, and what the rack is afterwards.
        ensures answer { result ≡ read_answer (moment self.old) slot sector }
        ensures after { self.new ≡ after_call slot (Call.Read sector result) self.old }
    {
        self.call(slot, &Ask::Read(sector), into).got()
    }

    fn write(&mut self, slot: u8, sector: u32, from: &[u8; 512]) -> Reply
        requires { slot < 32 }
        ensures began { IsHistory (history_of self.old) }
        ensures does { Calls (history_of self.old) (history_of self.new) slot
            (Write sector from.now result) }
        ensures counts { NoneFalls self.old.bads self.new.bads (slice_index self.old.gones)
            (slice_index self.new.gones) }
        ensures gone { result ≡ Reply.Gone →
            Rose (slice_index self.old.gones slot) (slice_index self.new.gones slot) }
        ensures reads { Some self.new.reads ≡ Some self.old.reads }

        // Exactly which answer comes, and what the rack is afterwards.
        ensures answer { result ≡ write_answer (moment self.old) slot sector }
        ensures after { self.new ≡ after_call slot (Call.Write sector from.now result) self.old }
    {
        self.call(slot, &Ask::Write(sector, *from), &mut [0; 512])
            .reply()
    }

    fn sync(&mut self, slot: u8) -> Reply
        requires { slot < 32 }
        ensures began { IsHistory (history_of self.old) }
        ensures does { Calls (history_of self.old) (history_of self.new) slot (Sync result) }
        ensures counts { NoneFalls self.old.bads self.new.bads (slice_index self.old.gones)
            (slice_index self.new.gones) }
        ensures gone { result ≡ Reply.Gone →
            Rose (slice_index self.old.gones slot) (slice_index self.new.gones slot) }
        ensures reads { Some self.new.reads ≡ Some self.old.reads }

        // Exactly which answer comes, and what the rack is afterwards.
        ensures answer { result ≡ sync_answer (moment self.old) slot }
        ensures after { self.new ≡ after_call slot (Call.Sync result) self.old }
    {
        self.call(slot, &Ask::Sync, &mut [0; 512]).reply()
    }
}

// The media that the acts of a script put in, by index.
fn blanks(alloc: Global, script: &[Act]) -> Result<Vec<Option<Disk>>, AllocError>
    ensures { IfOk result (λ v. v.items ≡ map (λ act. blank_for act.what) script.now) }
{
    let mut blanks = Vec::with_capacity(alloc, script.len())?;
    for act in script {
        blanks.push(blank_for(alloc, act.what)?)?;
    }
    Ok(blanks)
}

// The medium that an act puts in.
fn blank_for(alloc: Global, what: What) -> Result<Option<Disk>, AllocError>
    ensures { IfOk result (λ medium. medium ≡ blank_for what) }
{
    match what {
        What::InsertBlank { sectors, .. } => Ok(Some(Disk::blank(alloc, sectors)?)),
        _ => Ok(None),
    }
}

// Tells an attach of a stopped rack, where it releases what was found before.
fn tell(lets_go: bool, slot: u8, late: &mut Vec<u8>)
    requires { lets_go ≡ true → vec_len late.old < vec_capacity late.old }
    ensures does { late.new.items ≡ (if lets_go then late.old.items ++ slot ∷ []
        else late.old.items) }
    ensures memory { vec_capacity late.new ≡ vec_capacity late.old }
{
    if lets_go {
        late.push_reserved(slot);
    }
}

/// Counts what this call was answered.
pub(crate) fn count(call: &Call, slot: u8, bads: &mut u64, gones: &mut Vec<u64>)
    requires { slot < vec_len gones.old }
    ensures bads { bads.new ≡ (if call_is_bad call.now then one_more bads.old else bads.old) }
    ensures gones { gones.new.items ≡ (if call_is_gone call.now
        then slice_set gones.old.items slot (one_more (slice_index gones.old.items slot))
        else gones.old.items) }
{
    if call.is_bad() {
        *bads = bads.saturating_add(1);
    }
    if call.is_gone() {
        gones[slot as usize] = gones[slot as usize].saturating_add(1);
    }
}

// The number of reads after a call.
fn reads_after(call: &Call, reads: u32) -> u32
    requires { reads < 2 ^ 32 - 1 }
    ensures { result ≡ (if call_is_read call.now then reads + 1 else reads) }
{
    if call.is_read() { reads + 1 } else { reads }
}
