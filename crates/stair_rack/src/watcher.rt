// What is told of an array as it changes, and who is told.
ghost use Rattle.std.specs.Prelude.{◌≡◌, ◌↔◌, ◌≤◌, ◌^◌, ◌-◌, IfSome, IsTrue, [], false};
ghost use Rattle.stair_rack.specs.Watching.{Heard, HearsOne, IsPatient, counts_of, event_at, sum_of_counts};

/// What was done to the slots of an array, or to the cells of a stripe.
#[derive(Clone, Copy, Debug, PartialEq, Eq, Drop)]
pub enum Event {
    /// The slot is down from now on.
    Fenced { slot: u8 },
    /// So many cells of the stripe were written anew.
    Repaired { stripe: u32, cells: u16 },
    /// A device was admitted to the slot, which is rebuilt from now on.
    Admitted { slot: u8 },
    /// The slot is live from now on.
    Promoted { slot: u8 },
}

/// The kinds of events.
#[derive(Clone, Copy, Debug, PartialEq, Eq, Drop)]
pub enum EventKind {
    Fenced,
    Repaired,
    Admitted,
    Promoted,
}

impl Event {
    ghost use Rattle.stair_rack.specs.Watching.{kind_of};

    /// Its kind.
    pub fn kind(&self) -> EventKind
        ensures { result ≡ kind_of self.now }
    {
        match self {
            Event::Fenced { .. } => EventKind::Fenced,
            Event::Repaired { .. } => EventKind::Repaired,
            Event::Admitted { .. } => EventKind::Admitted,
            Event::Promoted { .. } => EventKind::Promoted,
        }
    }
}

/// How many events of each kind a watcher was told.
#[derive(Clone, Copy, Debug, PartialEq, Eq, Drop)]
pub struct Counts {
    pub fenced: u64,
    pub repaired: u64,
    pub admitted: u64,
    pub promoted: u64,
}

/// Whether a watcher is told of further events.
#[derive(Clone, Copy, Debug, PartialEq, Eq, Drop)]
pub enum Next {
    /// It is.
    Stay,
    /// It isn't told of any more.
    Leave,
}

/// Someone who is told of events, one by one, until it leaves.
///
/// A watcher counts what it was told. It may tell contracts the list of these events, and its remaining quota: how many events more
/// it waits for, of all kinds and, where it waits for one kind besides, of that kind. It then leaves exactly at the event by
/// which one of these numbers is reached.
pub trait Watcher: Drop {
    // What it tells.
    ghost hears: { Self → Heard };

    /// Is told of an event. It takes no memory.
    ///
    /// - `Stay`: it is told of the next one too.
    /// - `Leave`: it has left, at the latest where it was told of 2^64 - 1 events in all.
    fn notice(&mut self, event: Event) -> Next
        requires { (hears self.old).left ≡ false }
        ensures left { (result ≡ Next.Leave) ↔ IsTrue (hears self.new).left }
        ensures heard { HearsOne hears event self.old self.new }
        ensures full { 2 ^ 64 - 1 ≤ sum_of_counts (hears self.new).count → result ≡ Next.Leave };

    /// How many events of each kind it was told.
    fn counts(&self) -> Counts
        ensures { result ≡ counts_of (hears self.now).count };

    /// Event number `at` of those that it tells, counted from 0, and `None` exactly where it tells none or has no such event.
    fn kept(&self, at: u64) -> Option<Event>
        ensures { result ≡ event_at (hears self.now).told at };

    // One that hasn't left waits for an event more at least.
    ghost waits: { (w : Self) → (hears w).left ≡ false → IfSome (hears w).remaining_quota (IsPatient []) };
}
