// A watcher that keeps what it is told.
ghost use Rattle.std.specs.Prelude.{◌≡◌, ◌≤◌, IfOk, [], false, length};
ghost use Rattle.stair_watch.specs.Watchers.{kept_left, kept_view, no_counts, waits_on};

use crate::tally::Tally;
use stair_rack::{Counts, Event, Next, Watcher};
use std::alloc::{AllocError, Global};
use std::marker::Model;

/// A watcher that keeps the events, and leaves once it holds a chosen number of them.
#[derive(Debug, Drop)]
pub struct Kept {
    events: Vec<Event>,
    tally: Tally,
}

impl Model for Kept {
    ghost use Rattle.std.specs.Prelude.{◌≡◌, ◌≤◌, vec_len, vec_capacity};
    ghost use Rattle.stair_watch.specs.Watchers.{KeptState, sum_in};

    ghost Value = { KeptState };

    ghost view = { λ k. record {
      events = k.events.items;
      counts = k.tally.counts;
      room = k.tally.limit;
    } };

    ghost invariant = { λ k. (sum_in k.tally.counts ≡ vec_len k.events)
        × (k.tally.limit ≤ vec_capacity k.events) };
}

impl Kept {
    /// A watcher that holds no event and has room for `room` of them. It takes the memory for them here, and none later.
    pub fn new(alloc: Global, room: usize) -> Result<Kept, AllocError>
        requires { 1 ≤ room }
        ensures state { IfOk result (λ k. k ≡ record { events = []; counts = no_counts; room = room }) }
        ensures stays { IfOk result (λ k. kept_left k ≡ false) }
    {
        let events = Vec::with_capacity(alloc, room)?;
        Ok(Kept {
            events,
            tally: Tally::new(room as u64),
        })
    }
}

impl Watcher for Kept {
    ghost hears = { kept_view };

    ghost waits = { λ k. waits_on k.room (length k.events) };

    fn notice(&mut self, event: Event) -> Next {
        // There is room, so this takes no memory and can't fail.
        self.events.push(event).unwrap();
        self.tally.notice(event)
    }

    fn counts(&self) -> Counts {
        self.tally.counts()
    }

    fn kept(&self, at: u64) -> Option<Event> {
        self.events.get(at as usize).copied()
    }
}
