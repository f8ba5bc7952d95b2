// A rack whose writes and syncs are counted.
use stair_base::SECTOR;
use stair_rack::{Got, Rack, Reply};
use std::fmt;

/// How many calls that change a device were made.
#[derive(Clone, Copy, Drop)]
pub(crate) struct Calls {
    writes: u64,
    syncs: u64,
    /// Writes of a sector that isn't after the last one written to the same slot since it was synced.
    backward: u64,
}

impl Calls {
    /// Counts a write of this sector, after that one.
    fn add_write(&mut self, sector: u32, before: Option<u32>) {
        self.writes = self.writes.wrapping_add(1);
        if before.is_some_and(|before| sector <= before) {
            self.backward = self.backward.wrapping_add(1);
        }
    }
}

impl fmt::Display for Calls {
    fn fmt<W: fmt::Write>(&self, f: &mut fmt::Formatter<W>) -> fmt::Result {
        let Calls {
            writes,
            syncs,
            backward,
        } = *self;
        write!(f, "writes {writes} syncs {syncs} backward {backward}")
    }
}

/// A rack that counts these calls, and answers as its inner one.
#[derive(Drop)]
pub(crate) struct Counting<R: Rack> {
    rack: R,
    calls: Calls,
    // For each slot, the last sector written since it was synced.
    last: [Option<u32>; 32],
}

impl<R: Rack + Drop> Counting<R> {
    /// Counts from here on.
    pub(crate) fn new(rack: R) -> Counting<R> {
        Counting {
            rack,
            calls: Calls {
                writes: 0,
                syncs: 0,
                backward: 0,
            },
            last: [None; 32],
        }
    }

    pub(crate) fn calls(&self) -> Calls {
        self.calls
    }
}

impl<R: Rack + Drop> Rack for Counting<R> {
    ghost is_honest = { R.is_honest };

    ghost history = { λ s. R.history s.rack };

    ghost bads = { λ s. R.bads s.rack };

    ghost gones = { λ s. R.gones s.rack };

    ghost reads = { λ s. R.reads s.rack };

    fn attach(&mut self, slot: u8) -> Reply {
        self.rack.attach(slot)
    }

    fn sectors(&mut self, slot: u8) -> u32 {
        self.rack.sectors(slot)
    }

    fn read(&mut self, slot: u8, sector: u32, into: &mut [u8; SECTOR]) -> Got {
        self.rack.read(slot, sector, into)
    }

    fn write(&mut self, slot: u8, sector: u32, from: &[u8; SECTOR]) -> Reply {
        let before = self.last[usize::from(slot)].replace(sector);
        self.calls.add_write(sector, before);
        self.rack.write(slot, sector, from)
    }

    fn sync(&mut self, slot: u8) -> Reply {
        self.calls.syncs = self.calls.syncs.wrapping_add(1);
        self.last[usize::from(slot)] = None;
        self.rack.sync(slot)
    }
}
