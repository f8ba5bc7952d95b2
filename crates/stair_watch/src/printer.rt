// A watcher that prints.
ghost use Rattle.std.specs.Prelude.{◌≡◌, ◌≤◌, ◌^◌, ◌-◌, ◌↔◌, IsTrue, false};
ghost use Rattle.stair_rack.specs.Watching.{HearsOne};
ghost use Rattle.stair_rack.specs.declared.watcher.Next.{Next};
ghost use Rattle.stair_watch.specs.Lines.{Prints, event_line};
ghost use Rattle.stair_watch.specs.Watchers.{
  no_counts,
  printer_left,
  printer_view,
  sum_in,
  waits_on,
};

use crate::line::Line;
use crate::put::put_until_fault;
use crate::tally::Tally;
use stair_rack::{Counts, Event, Next, Sink, Watcher};
use std::marker::Model;

/// A watcher that prints a line for each event to its sink, and leaves at event number 2^64 - 1.
///
/// Where its sink fails it writes nothing more of that line, and counts the event all the same.
#[derive(Drop)]
pub struct Printer<K: Sink + Drop> {
    sink: K,
    tally: Tally,
}

impl<K: Sink + Drop> Model for Printer<K> {
    ghost use Rattle.std.specs.Prelude.{◌≡◌, ◌^◌, ◌-◌};
    ghost use Rattle.stair_watch.specs.Watchers.{PrinterState};

    ghost Value = { PrinterState K };

    ghost view = { λ p. record { sink = p.sink; counts = p.tally.counts } };

    ghost invariant = { λ p. p.tally.limit ≡ 2 ^ 64 - 1 };
}

impl<K: Sink + Drop> Printer<K> {
    /// A watcher that was told of no event, and prints to this sink.
    pub fn new(sink: K) -> Printer<K>
        ensures state { result ≡ record { sink = sink; counts = no_counts } }
        ensures stays { printer_left result ≡ false }
    {
        Printer {
            sink,
            tally: Tally::new(u64::MAX),
        }
    }
}

impl<K: Sink + Drop> Watcher for Printer<K> {
    ghost hears = { printer_view };

    ghost waits = { λ p. waits_on (2 ^ 64 - 1) (sum_in p.counts) };

    fn notice(&mut self, event: Event) -> Next
        requires { printer_left self.old ≡ false }
        ensures left { (result ≡ Next.Leave) ↔ IsTrue (printer_left self.new) }
        ensures heard { HearsOne printer_view event self.old self.new }
        ensures full { 2 ^ 64 - 1 ≤ sum_in self.new.counts → result ≡ Next.Leave }
        ensures printed { Prints K.held K.faults (event_line event) self.old.sink self.new.sink }
    {
        put_until_fault(&mut self.sink, line_of(event).bytes());
        self.tally.notice(event)
    }

    fn counts(&self) -> Counts {
        self.tally.counts()
    }

    fn kept(&self, _at: u64) -> Option<Event> {
        None
    }
}

// The line that is printed for an event.
fn line_of(event: Event) -> Line
    ensures { result ≡ event_line event }
{
    let mut line = Line::new();
    match event {
        Event::Fenced { slot } => line.push_named(b"fenced ", u64::from(slot)),
        Event::Repaired { stripe, cells } => {
            line.push_named(b"repaired stripe ", u64::from(stripe));
            line.push_named(b" cells ", u64::from(cells));
        }
        Event::Admitted { slot } => line.push_named(b"admitted ", u64::from(slot)),
        Event::Promoted { slot } => line.push_named(b"promoted ", u64::from(slot)),
    }
    line.push(b"\n");
    line
}
