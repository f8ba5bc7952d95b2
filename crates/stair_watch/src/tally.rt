// A watcher that counts.
ghost use Rattle.std.specs.Prelude.{◌≡◌, ◌≤◌, ◌-◌, ◌^◌, ◌↔◌, IsTrue, false};
ghost use Rattle.stair_rack.specs.Watching.{HearsOne};
ghost use Rattle.stair_rack.specs.declared.watcher.Next.{Next};
ghost use Rattle.stair_watch.specs.Watchers.{
  no_counts,
  sum_in,
  tally_left,
  tally_view,
  waits_on,
};

use stair_rack::{Counts, Event, Next, Watcher};
use std::marker::Model;

/// A watcher that counts events of each kind, and leaves once it was told of a chosen number of them in all.
#[derive(Debug, Drop)]
pub struct Tally {
    counts: Counts,
    limit: u64,
}

impl Model for Tally {
    ghost use Rattle.std.specs.Prelude.{◌≤◌};
    ghost use Rattle.stair_watch.specs.Watchers.{TallyState, sum_in};

    ghost Value = { TallyState };

    ghost view = { λ t. record { counts = t.counts; limit = t.limit } };

    ghost invariant = { λ t. sum_in t.counts ≤ t.limit };
}

impl Tally {
    /// A watcher that was told of no event, and leaves at event number `limit`.
    pub fn new(limit: u64) -> Tally
        requires { 1 ≤ limit }
        ensures state { result ≡ record { counts = no_counts; limit = limit } }
        ensures stays { tally_left result ≡ false }
    {
        Tally {
            counts: Counts {
                fenced: 0,
                repaired: 0,
                admitted: 0,
                promoted: 0,
            },
            limit,
        }
    }
}

impl Watcher for Tally {
    ghost hears = { tally_view };

    ghost waits = { λ t. waits_on t.limit (sum_in t.counts) };

    fn notice(&mut self, event: Event) -> Next
        requires { tally_left self.old ≡ false }
        ensures left { (result ≡ Next.Leave) ↔ IsTrue (tally_left self.new) }
        ensures heard { HearsOne tally_view event self.old self.new }
        ensures full { 2 ^ 64 - 1 ≤ sum_in self.new.counts → result ≡ Next.Leave }
        ensures limit { self.new.limit ≡ self.old.limit }
    {
        let Counts {
            fenced,
            repaired,
            admitted,
            promoted,
        } = &mut self.counts;
        match event {
            Event::Fenced { .. } => *fenced += 1,
            Event::Repaired { .. } => *repaired += 1,
            Event::Admitted { .. } => *admitted += 1,
            Event::Promoted { .. } => *promoted += 1,
        }
        if *fenced + *repaired + *admitted + *promoted < self.limit {
            Next::Stay
        } else {
            Next::Leave
        }
    }

    fn counts(&self) -> Counts {
        self.counts
    }

    fn kept(&self, _at: u64) -> Option<Event> {
        None
    }
}
