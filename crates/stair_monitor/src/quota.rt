// A watcher with a limit of events of one kind.
ghost use Rattle.std.specs.Prelude.{◌≡◌, ◌≢◌, ◌≤◌, ◌^◌, ◌-◌, ◌↔◌, IsTrue, false};
ghost use Rattle.stair_rack.specs.Watching.{HearsOne, kind_of};
ghost use Rattle.stair_rack.specs.declared.watcher.Next.{Next};
ghost use Rattle.stair_watch.specs.Lines.{Prints, event_line};
ghost use Rattle.stair_watch.specs.Watchers.{count_in, no_counts, sum_in};
ghost use Rattle.stair_monitor.specs.Quotas.{quota_left, quota_view, quota_waits};

use crate::printing::text_of;
use stair_rack::{Counts, Event, EventKind, Next, Sink, Watcher};
use stair_watch::{Tally, put_until_fault};
use std::marker::Model;

/// A watcher that prints the events of one kind to its sink, and leaves at a chosen number of them.
///
/// It counts the events of all kinds. It also leaves once 2^64 - 1 events in all were reported. If its sink fails, it
/// writes nothing more of that line, and still counts the event.
#[derive(Drop)]
pub struct Quota<K: Sink + Drop> {
    sink: K,
    kind: EventKind,
    limit: u64,
    tally: Tally,
}

impl<K: Sink + Drop> Model for Quota<K> {
    ghost use Rattle.std.specs.Prelude.{◌≡◌, ◌^◌, ◌-◌};
    ghost use Rattle.stair_monitor.specs.Quotas.{QuotaState};

    ghost Value = { QuotaState K };

    ghost view = { λ q. record {
      sink = q.sink;
      counts = q.tally.counts;
      kind = q.kind;
      limit = q.limit;
    } };

    ghost invariant = { λ q. q.tally.limit ≡ 2 ^ 64 - 1 };
}

impl<K: Sink + Drop> Quota<K> {
    /// Returns a watcher that has counted no event, and leaves at event number `limit` of this kind.
    pub fn new(kind: EventKind, limit: u64, sink: K) -> Quota<K>
        requires { 1 ≤ limit }
        ensures state { result ≡ record {
          sink = sink;
          counts = no_counts;
          kind = kind;
          limit = limit;
        } }
        ensures stays { quota_left result ≡ false }
    {
        Quota {
            sink,
            kind,
            limit,
            tally: Tally::new(u64::MAX),
        }
    }
}

impl<K: Sink + Drop> Watcher for Quota<K> {
    ghost hears = { quota_view };

    ghost waits = { quota_waits };

    fn notice(&mut self, event: Event) -> Next
        requires { quota_left self.old ≡ false }
        ensures left { (result ≡ Next.Leave) ↔ IsTrue (quota_left self.new) }
        ensures heard { HearsOne quota_view event self.old self.new }
        ensures full { 2 ^ 64 - 1 ≤ sum_in self.new.counts → result ≡ Next.Leave }
        ensures printed { kind_of event ≡ self.old.kind →
            Prints K.held K.faults (event_line event) self.old.sink self.new.sink }
        ensures silent { kind_of event ≢ self.old.kind → self.new.sink ≡ self.old.sink }
        ensures kind { self.new.kind ≡ self.old.kind }
        ensures limit { self.new.limit ≡ self.old.limit }
    {
        if event.kind() == self.kind {
            put_line(&mut self.sink, event);
        }
        match self.tally.notice(event) {
            Next::Stay if number_of(self.tally.counts(), self.kind) < self.limit => Next::Stay,
            _ => Next::Leave,
        }
    }

    fn counts(&self) -> Counts {
        self.tally.counts()
    }

    fn kept(&self, _at: u64) -> Option<Event> {
        None
    }
}

// Writes the line of an event to a sink, up to a fault.
fn put_line<K: Sink>(sink: &mut K, event: Event)
    ensures { Prints K.held K.faults (event_line event) sink.old sink.new }
{
    let mut line = text_of(event);
    line.push(b"\n");
    put_until_fault(sink, line.bytes());
}

// Returns the number of events of a kind.
fn number_of(counts: Counts, kind: EventKind) -> u64
    ensures { result ≡ count_in counts kind }
{
    match kind {
        EventKind::Fenced => counts.fenced,
        EventKind::Repaired => counts.repaired,
        EventKind::Admitted => counts.admitted,
        EventKind::Promoted => counts.promoted,
    }
}
