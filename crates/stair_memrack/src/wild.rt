// A rack that isn't honest.
ghost use Rattle.std.specs.Prelude.{◌≡◌, ◌≢◌, ◌<◌, ◌≤◌, ◌+◌, ◌^◌, ℕ, false, [], None, length, replicate, IfOk, vec_len, slice_index};
ghost use Rattle.stair_rack.specs.Count.{Rose};
ghost use Rattle.stair_rack.specs.Sector.{Good, content};
ghost use Rattle.stair_rack.specs.History.{slot_state};
ghost use Rattle.stair_rack.specs.Answers.{attach_answer, read_answer, write_answer, sync_answer};
ghost use Rattle.stair_rack.specs.RackCounts.{NoneFalls, CountsRead};
ghost use Rattle.stair_memrack.specs.declared.record.Call.TheVariants as Call;
ghost use Rattle.stair_memrack.specs.declared.wild.Turn.TheVariants as Turn;
ghost use Rattle.stair_memrack.specs.Record.{history_of, moment, after_call};
ghost use Rattle.stair_memrack.specs.Wild.{turn_of, next_turn, following, reply_by, got_by, inner_after, wild_counted, wild_after};

use crate::rack::{MemRack, count};
use crate::record::Call;
use stair_rack::{Got, Rack, Reply};
use std::alloc::{AllocError, Global};
use std::marker::Model;

/// Who answers a call, and what.
#[derive(Clone, Copy, Debug, Drop)]
pub(crate) enum Turn {
    /// The inner rack answers.
    Inner,
    /// The slot is gone.
    Gone,
    /// A read is bad, and to every other call the slot is gone.
    Bad,
    /// A read is good with this byte at each place, and every other call is done; nothing of it is so.
    Wild(u8),
}

/// A rack that isn't honest, for tests of what stands on racks: its answers follow a list of bytes.
///
/// Each call but `sectors` takes the next byte, beginning again after the last. Below 200 the inner rack answers. From 200
/// on the slot is gone. From 220 on a read is bad, and to every other call the slot is gone. From 240 on a read is good
/// with that byte at each place, and every other call is done, of which the inner rack gets to know nothing. `sectors`
/// is always the inner rack's.
///
/// Its counts are its own, and rise where it, or the inner rack, answers so. It tells contracts nothing of its media.
#[derive(Drop)]
pub struct WildRack {
    inner: MemRack,
    answers: Vec<u8>,
    next: usize,
    bads: u64,
    gones: Vec<u64>,
}

impl Model for WildRack {
    ghost use Rattle.stair_memrack.specs.Wild.{WildState};

    ghost Value = { WildState };

    ghost view = { λ s. record {
      inner = s.inner;
      answers = s.answers.items;
      next = s.next;
      bads = s.bads;
      gones = s.gones.items;
    } };

    ghost use Rattle.stair_memrack.specs.WildSound.{IsSoundWild};

    ghost invariant = { IsSoundWild };
}

impl WildRack {
    /// A rack over this one, with these bytes.
    pub fn new(alloc: Global, inner: MemRack, answers: &[u8]) -> Result<WildRack, AllocError>
        requires { 0 < length answers.now }
        ensures { IfOk result (λ s. s ≡ record {
          inner = inner;
          answers = answers.now;
          next = 0;
          bads = 0;
          gones = replicate 32 0;
        }) }
    {
        Ok(WildRack {
            inner,
            answers: answers.to_vec(alloc)?,
            next: 0,
            bads: 0,
            gones: vec![in alloc; 0; 32]?,
        })
    }
}

impl Rack for WildRack {
    ghost is_honest = { false };

    ghost history = { λ s. [] };

    ghost bads = { λ s. s.bads };

    ghost gones = { λ s. slice_index s.gones };

    ghost reads = { λ s. None };

    fn attach(&mut self, slot: u8) -> Reply
        requires { slot < 32 }
        ensures counts { NoneFalls self.old.bads self.new.bads (slice_index self.old.gones)
            (slice_index self.new.gones) }
        ensures gone { result ≡ Reply.Gone →
            Rose (slice_index self.old.gones slot) (slice_index self.new.gones slot) }

        // Exactly which answer comes, and what the rack is afterwards.
        ensures answer { result ≡
            reply_by (next_turn self.old) (attach_answer (moment self.old.inner) slot) }
        ensures after { self.new ≡ wild_after slot (Call.Attach result) self.old }
    {
        let turn = take(&self.answers, &mut self.next);
        let reply = attach_by(turn, &mut self.inner, slot);
        count(&Call::Attach(reply), slot, &mut self.bads, &mut self.gones);
        reply
    }

    fn sectors(&mut self, slot: u8) -> u32
        requires { slot < 32 }
        ensures counts { NoneFalls self.old.bads self.new.bads (slice_index self.old.gones)
            (slice_index self.new.gones) }

        // Exactly which answer comes, and what the rack is afterwards.
        ensures answer { result ≡ (slot_state (moment self.old.inner) slot).found }
        ensures after { self.new ≡ record self.old {
          inner = after_call slot (Call.Sectors result) self.old.inner;
        } }
    {
        self.inner.sectors(slot)
    }

    fn read(&mut self, slot: u8, sector: u32, into: &mut [u8; 512]) -> Got
        requires { slot < 32 }
        ensures unread { result ≢ Got.Good → into.new ≡ into.old }
        ensures counts { NoneFalls self.old.bads self.new.bads (slice_index self.old.gones)
            (slice_index self.new.gones) }
        ensures bad { result ≡ Got.Bad → Rose self.old.bads self.new.bads }
        ensures gone { result ≡ Got.Gone →
            Rose (slice_index self.old.gones slot) (slice_index self.new.gones slot) }
        ensures reads { CountsRead result None None }

        // Exactly which answer comes, and what the rack is afterwards.
        ensures answer { result ≡
            got_by (next_turn self.old) (read_answer (moment self.old.inner) slot sector) }
        ensures after { self.new ≡ wild_after slot (Call.Read sector result) self.old }
        // what a good read gives
        ensures inner { next_turn self.old ≡ Turn.Inner → result ≡ Got.Good →
            content ((slot_state (history_of self.new.inner) slot).sector sector) ≡ Good into.new }
        ensures wild { (byte : ℕ) → next_turn self.old ≡ Turn.Wild byte →
            into.new ≡ replicate 512 byte }
    {
        let turn = take(&self.answers, &mut self.next);
        let got = read_by(turn, &mut self.inner, slot, sector, into);
        count(
            &Call::Read(sector, got),
            slot,
            &mut self.bads,
            &mut self.gones,
        );
        got
    }

    fn write(&mut self, slot: u8, sector: u32, from: &[u8; 512]) -> Reply
        requires { slot < 32 }
        ensures counts { NoneFalls self.old.bads self.new.bads (slice_index self.old.gones)
            (slice_index self.new.gones) }
        ensures gone { result ≡ Reply.Gone →
            Rose (slice_index self.old.gones slot) (slice_index self.new.gones slot) }

        // Exactly which answer comes, and what the rack is afterwards.
        ensures answer { result ≡
            reply_by (next_turn self.old) (write_answer (moment self.old.inner) slot sector) }
        ensures after { self.new ≡ wild_after slot (Call.Write sector from.now result) self.old }
    {
        let turn = take(&self.answers, &mut self.next);
        let reply = write_by(turn, &mut self.inner, slot, sector, from);
        count(
            &Call::Write(sector, *from, reply),
            slot,
            &mut self.bads,
            &mut self.gones,
        );
        reply
    }

    fn sync(&mut self, slot: u8) -> Reply
        requires { slot < 32 }
        ensures counts { NoneFalls self.old.bads self.new.bads (slice_index self.old.gones)
            (slice_index self.new.gones) }
        ensures gone { result ≡ Reply.Gone →
            Rose (slice_index self.old.gones slot) (slice_index self.new.gones slot) }

        // Exactly which answer comes, and what the rack is afterwards.
        ensures answer { result ≡
            reply_by (next_turn self.old) (sync_answer (moment self.old.inner) slot) }
        ensures after { self.new ≡ wild_after slot (Call.Sync result) self.old }
    {
        let turn = take(&self.answers, &mut self.next);
        let reply = sync_by(turn, &mut self.inner, slot);
        count(&Call::Sync(reply), slot, &mut self.bads, &mut self.gones);
        reply
    }
}

// Takes the next byte.
fn take(answers: &Vec<u8>, next: &mut usize) -> Turn
    requires { next.old < vec_len answers.now }
    ensures turn { result ≡ turn_of (slice_index answers.now.items next.old) }
    ensures next { next.new ≡ following (vec_len answers.now) next.old }
    ensures within { next.new < vec_len answers.now }
{
    let byte = answers[*next];
    *next = if *next + 1 == answers.len() {
        0
    } else {
        *next + 1
    };
    turn_of(byte)
}

// What the byte says of a call.
fn turn_of(byte: u8) -> Turn
    ensures { result ≡ turn_of byte }
{
    match byte {
        0..=199 => Turn::Inner,
        200..=219 => Turn::Gone,
        220..=239 => Turn::Bad,
        _ => Turn::Wild(byte),
    }
}

fn attach_by(turn: Turn, inner: &mut MemRack, slot: u8) -> Reply
    requires { slot < 32 }
    ensures answer { result ≡ reply_by turn (attach_answer (moment inner.old) slot) }
    ensures after { inner.new ≡ inner_after turn slot (Call.Attach result) inner.old }
{
    match turn {
        Turn::Inner => inner.attach(slot),
        Turn::Gone | Turn::Bad => Reply::Gone,
        Turn::Wild(_) => Reply::Done,
    }
}

fn read_by(turn: Turn, inner: &mut MemRack, slot: u8, sector: u32, into: &mut [u8; 512]) -> Got
    requires { slot < 32 }
    ensures answer { result ≡ got_by turn (read_answer (moment inner.old) slot sector) }
    ensures after { inner.new ≡ inner_after turn slot (Call.Read sector result) inner.old }
    ensures unread { result ≢ Got.Good → into.new ≡ into.old }
    ensures inner { turn ≡ Turn.Inner → result ≡ Got.Good →
        content ((slot_state (history_of inner.new) slot).sector sector) ≡ Good into.new }
    ensures wild { (byte : ℕ) → turn ≡ Turn.Wild byte → into.new ≡ replicate 512 byte }
{
    match turn {
        Turn::Inner => inner.read(slot, sector, into),
        Turn::Gone => Got::Gone,
        Turn::Bad => Got::Bad,
        Turn::Wild(byte) => {
            *into = [byte; 512];
            Got::Good
        }
    }
}

fn write_by(turn: Turn, inner: &mut MemRack, slot: u8, sector: u32, from: &[u8; 512]) -> Reply
    requires { slot < 32 }
    ensures answer { result ≡ reply_by turn (write_answer (moment inner.old) slot sector) }
    ensures after { inner.new ≡
        inner_after turn slot (Call.Write sector from.now result) inner.old }
{
    match turn {
        Turn::Inner => inner.write(slot, sector, from),
        Turn::Gone | Turn::Bad => Reply::Gone,
        Turn::Wild(_) => Reply::Done,
    }
}

fn sync_by(turn: Turn, inner: &mut MemRack, slot: u8) -> Reply
    requires { slot < 32 }
    ensures answer { result ≡ reply_by turn (sync_answer (moment inner.old) slot) }
    ensures after { inner.new ≡ inner_after turn slot (Call.Sync result) inner.old }
{
    match turn {
        Turn::Inner => inner.sync(slot),
        Turn::Gone | Turn::Bad => Reply::Gone,
        Turn::Wild(_) => Reply::Done,
    }
}
