// A medium in memory.
ghost use Rattle.std.specs.Prelude.{◌≡◌, ◌<◌, ◌-◌, ◌^◌, length, vec_len, map, replicate, IfOk, slice_set};
ghost use Rattle.stair_memrack.specs.declared.disk.StoredCell.TheVariants as StoredCell;
ghost use Rattle.stair_memrack.specs.Origin.{held};
ghost use Rattle.stair_memrack.specs.Left.{torn_over, now_of};
ghost use Rattle.stair_memrack.specs.Disk.{unwritten, kept_cell, settle, stored_at, written};

use std::alloc::{AllocError, Global};
use std::marker::Model;

/// What a sector holds: these bytes, or nothing that can be read.
#[derive(Clone, Copy, Debug, Drop)]
pub(crate) enum StoredCell {
    Good([u8; 512]),
    /// The outside damaged it, or it was never written.
    Damaged,
    /// A crash cut a write.
    Torn,
    /// A crash cut a write over a damaged or a worn cell.
    TornOverDamage,
}

/// How a medium settles: what stays of each of its sectors.
#[derive(Clone, Copy, Debug, Drop)]
pub(crate) enum Settling {
    /// What a read finds.
    AsRead,
    /// What it held at the last sync. What was written since is lost.
    AsSynced,
}

/// A sector of a medium.
#[derive(Clone, Copy, Debug, Drop)]
pub(crate) struct StoredSector {
    /// What it held at the last sync.
    pub(crate) base: StoredCell,
    /// What a read finds.
    pub(crate) now: StoredCell,
    /// How often it was written since. The record of the calls has the bytes.
    pub(crate) pending: u32,
}

const UNWRITTEN: StoredSector = StoredSector {
    base: StoredCell::Damaged,
    now: StoredCell::Damaged,
    pending: 0,
};

/// The cells of a medium that nothing was written to.
#[derive(Debug, Drop)]
pub(crate) struct Cells {
    cells: Vec<StoredCell>,
}

impl Model for Cells {
    ghost use Rattle.std.specs.Prelude.{List, ◌^◌, ◌<◌, vec_len};
    ghost use Rattle.stair_memrack.specs.declared.disk.StoredCell.{StoredCell};

    ghost Value = { List StoredCell };

    ghost view = { λ c. c.cells.items };

    ghost invariant = { λ c. vec_len c.cells < 2 ^ 32 };
}

impl StoredCell {
    /// What a crash leaves that cuts a write over it.
    pub(crate) fn torn_over(&self) -> StoredCell
        ensures { result ≡ torn_over self.now }
    {
        match self {
            StoredCell::Good(_) | StoredCell::Torn => StoredCell::Torn,
            StoredCell::Damaged | StoredCell::TornOverDamage => StoredCell::TornOverDamage,
        }
    }
}

impl StoredSector {
    // What stays of it where its medium settles so.
    fn kept_cell(self, how: Settling) -> StoredCell
        ensures { result ≡ kept_cell how self }
    {
        match how {
            Settling::AsRead => self.now,
            Settling::AsSynced => self.base,
        }
    }
}

impl Cells {
    /// These cells.
    pub(crate) fn new(cells: Vec<StoredCell>) -> Cells
        requires { vec_len cells < 2 ^ 32 }
        ensures { result ≡ cells.items }
    {
        Cells { cells }
    }

    /// The cells of a medium of so many sectors that was never written.
    pub(crate) fn blank(alloc: Global, size: u32) -> Result<Cells, AllocError>
        ensures { IfOk result (λ c. c ≡ replicate size StoredCell.Damaged) }
    {
        let cells = vec![in alloc; StoredCell::Damaged; size as usize]?;
        Ok(Cells { cells })
    }
}

/// A medium: its sectors.
#[derive(Debug, Drop)]
pub(crate) struct Disk {
    sectors: Vec<StoredSector>,
}

impl Model for Disk {
    ghost use Rattle.std.specs.Prelude.{List, ◌^◌, ◌<◌, vec_len};
    ghost use Rattle.stair_memrack.specs.declared.disk.StoredSector.{StoredSector};

    ghost Value = { List StoredSector };

    ghost view = { λ d. d.sectors.items };

    ghost invariant = { λ d. vec_len d.sectors < 2 ^ 32 };
}

impl Disk {
    /// A medium of so many sectors that was never written.
    pub(crate) fn blank(alloc: Global, size: u32) -> Result<Disk, AllocError>
        ensures { IfOk result (λ d. d ≡ replicate size unwritten) }
    {
        let sectors = vec![in alloc; UNWRITTEN; size as usize]?;
        Ok(Disk { sectors })
    }

    /// A medium that holds these cells.
    pub(crate) fn over(alloc: Global, cells: &Cells) -> Result<Disk, AllocError>
        ensures { IfOk result (λ d. d ≡ map held cells.now) }
    {
        let mut sectors = Vec::with_capacity(alloc, cells.cells.len())?;
        for cell in cells.cells.iter() {
            sectors.push(StoredSector {
                base: *cell,
                now: *cell,
                pending: 0,
            })?;
        }
        Ok(Disk { sectors })
    }

    /// The number of its sectors.
    pub(crate) fn size(&self) -> u32
        ensures { result ≡ length self.now }
    {
        self.sectors.len() as u32
    }

    /// A sector that the medium has.
    pub(crate) fn sector(&self, index: u32) -> StoredSector
        requires { index < length self.now }
        ensures { result ≡ stored_at self.now index }
    {
        self.sectors[index as usize]
    }

    /// What reads find.
    pub(crate) fn now(&self, alloc: Global) -> Result<Cells, AllocError>
        ensures { IfOk result (λ c. c ≡ map now_of self.now) }
    {
        let mut cells = Vec::with_capacity(alloc, self.sectors.len())?;
        for sector in self.sectors.iter() {
            cells.push(sector.now)?;
        }
        Ok(Cells { cells })
    }

    /// What a read of the sector finds. Nothing can be read past the end.
    pub(crate) fn read(&self, sector: u32) -> StoredCell
        ensures { result ≡ (stored_at self.now sector).now }
    {
        if (sector as usize) < self.sectors.len() {
            self.sectors[sector as usize].now
        } else {
            StoredCell::Damaged
        }
    }

    /// Writes the sector.
    pub(crate) fn write(&mut self, sector: u32, bytes: &[u8; 512])
        requires within { sector < length self.old }
        requires pending { (stored_at self.old sector).pending < 2 ^ 32 - 1 }
        ensures { self.new ≡ slice_set self.old sector
            (written bytes.now (stored_at self.old sector)) }
    {
        let StoredSector { base, pending, .. } = self.sectors[sector as usize];
        self.sectors[sector as usize] = StoredSector {
            base,
            now: StoredCell::Good(*bytes),
            pending: pending + 1,
        };
    }

    /// Damages the sector, where the medium has it.
    pub(crate) fn damage(&mut self, sector: u32)
        ensures { self.new ≡ slice_set self.old sector unwritten }
    {
        if (sector as usize) < self.sectors.len() {
            self.sectors[sector as usize] = UNWRITTEN;
        }
    }

    /// Settles each sector.
    pub(crate) fn settle(&mut self, how: Settling)
        ensures { self.new ≡ map (settle how) self.old }
    {
        for sector in self.sectors.iter_mut() {
            let cell = sector.kept_cell(how);
            *sector = StoredSector {
                base: cell,
                now: cell,
                pending: 0,
            };
        }
    }
}
