// Sectors that were written and didn't go to their file yet.
ghost use Rattle.std.specs.Prelude.{◌≡◌, ◌↔◌, ◌+◌, ◌++◌, ◌≤◌, [], IfOk, OnOk, IsTrue, length};
ghost use Rattle.std.specs.Io.KnownBytes.{Appends};
ghost use Rattle.stair_filerack.specs.Slot.{pending_bytes};

use stair_image::SEALED_SECTOR;
use std::alloc::{AllocError, Global};
use std::io;
use std::io::Write;
use std::marker::Model;

/// How many sectors go out together at most: 17 pages of 4 KiB, so a write of them that begins at a page reads none.
pub(crate) const SECTORS: usize = 128;

const BYTES: usize = SECTORS * SEALED_SECTOR;

/// Sealed sectors, one after the other, that go to a file in one call of the system.
#[derive(Drop)]
pub(crate) struct Pending {
    bytes: Vec<u8>,
}

impl Model for Pending {
    ghost use Rattle.std.specs.Prelude.{◌≤◌, ℕ, List, vec_len, vec_capacity};
    ghost use Rattle.stair_filerack.specs.Slot.{pending_bytes};

    ghost Value = { List ℕ };

    ghost view = { λ s. s.bytes.items };

    ghost invariant = { λ s. (vec_len s.bytes ≤ pending_bytes) × (pending_bytes ≤ vec_capacity s.bytes) };
}

impl Pending {
    /// Returns room for 128 sectors, with none pending. It takes the memory for them here, and none later.
    pub(crate) fn new(alloc: Global) -> Result<Pending, AllocError>
        ensures { IfOk result (λ pending. pending ≡ []) }
    {
        Ok(Pending {
            bytes: Vec::with_capacity(alloc, BYTES)?,
        })
    }

    /// Returns whether there is room for another sector.
    pub(crate) fn has_room(&self) -> bool
        ensures { IsTrue result ↔ (length self.now + 544 ≤ pending_bytes) }
    {
        self.bytes.len() + SEALED_SECTOR <= BYTES
    }

    /// Adds a sealed sector after the others.
    pub(crate) fn add(&mut self, sector: &[u8; 544])
        requires { length self.old + 544 ≤ pending_bytes }
        ensures { self.new ≡ self.old ++ sector.now }
    {
        // There is room, so this takes no memory and can't fail.
        self.bytes.extend_from_slice(sector).unwrap();
    }

    /// Writes all sectors that are pending to a file, from its place on. After an error fewer bytes may have been written, and
    /// all sectors are still pending.
    pub(crate) fn put_out<T: Write>(&mut self, file: &mut T) -> io::Result<()>
        ensures all { OnOk result (Appends (T.contents file.old) (T.contents file.new) self.old) }
        ensures none { self.old ≡ [] → file.new ≡ file.old }
        ensures empty { OnOk result (self.new ≡ []) }
    {
        if self.bytes.is_empty() {
            return Ok(());
        }
        file.write_all(&self.bytes)?;
        self.bytes.clear();
        Ok(())
    }

    /// Drops all sectors that are pending.
    pub(crate) fn clear(&mut self)
        ensures { self.new ≡ [] }
    {
        self.bytes.clear();
    }
}
