// Sectors of an image file that were read ahead.
ghost use Rattle.std.specs.Prelude.{◌≡◌, ◌↔◌, ◌+◌, ◌*◌, ◌^◌, ◌≤◌, ◌<◌, ℕ, List, [], ◌++◌, Some, IsTrue, true, false, length, take, drop, slice_index, slice_index_or};
ghost use Rattle.std.specs.Option.{SomeIff};
ghost use Rattle.std.specs.Io.KnownBytes.{Consumes};
ghost use Rattle.stair_image.specs.Seal.{payload_in, IsSealed};
ghost use Rattle.stair_filerack.specs.Files.{GivesSector, IsHeld, IsNear, ReadsFewer};
ghost use Rattle.stair_filerack.specs.Slot.{nothing_read, released, missed_at};

use crate::full::read_full;
use stair_image::{PAYLOAD_BYTES, SEALED_SECTOR};
use stair_tags::are_sealed;
use std::io::Read;
use std::marker::Model;

/// How many sectors are read at once.
pub(crate) const SECTORS: usize = 8;

const BYTES: usize = SECTORS * SEALED_SECTOR;

/// Eight sectors of an image file that were read at once, and which of them are sealed. The one that answered last and those
/// after it are held, and answer later reads.
#[derive(Drop)]
pub(crate) struct Ahead {
    bytes: [u8; 4352],
    sealed: [bool; 8],
    // How many of them are passed over.
    passed: usize,
    // The number of the first sector that is held.
    from: u64,
    // The sector from which eight were last to be read, and fewer were. They are read one by one, so that one sector that a
    // drive can't read costs one slow answer of it and not eight.
    missed: Option<u64>,
}

impl Model for Ahead {
    ghost use Rattle.std.specs.Prelude.{◌↔◌, ◌+◌, ◌-◌, ◌*◌, ◌^◌, ◌≤◌, ◌<◌, ℕ, IsTrue, false, take, drop, slice_index_or};
    ghost use Rattle.stair_image.specs.Seal.{IsSealed};
    ghost use Rattle.stair_filerack.specs.Slot.{ReadAhead};

    ghost Value = { ReadAhead };

    ghost view = { λ s. record {
      from = s.from;
      bytes = drop (544 * s.passed) s.bytes;
      missed = s.missed;
    } };

    ghost invariant = { λ s. (s.passed ≤ 8) × (s.from + 8 < 2 ^ 64 + s.passed)
        × ((j : ℕ) → s.passed ≤ j → j < 8 → IsTrue (slice_index_or s.sealed j false)
        ↔ IsSealed (s.from + (j - s.passed)) (take 544 (drop (544 * j) s.bytes))) };
}

impl Ahead {
    /// Returns a buffer that holds nothing.
    pub(crate) fn new() -> Ahead
        ensures { result ≡ nothing_read }
    {
        Ahead {
            bytes: [0; BYTES],
            sealed: [false; SECTORS],
            passed: SECTORS,
            from: 0,
            missed: None,
        }
    }

    /// Releases all sectors that are held.
    pub(crate) fn release(&mut self)
        ensures { self.new ≡ released self.old }
    {
        self.passed = SECTORS;
    }

    /// Returns whether this sector is held.
    pub(crate) fn has(&self, sector: u64) -> bool
        ensures { IsTrue result ↔ IsHeld self.now sector }
    {
        self.from <= sector && sector - self.from < (SECTORS - self.passed) as u64
    }

    /// Returns whether this sector is one of the eight that were last missed.
    pub(crate) fn is_near_miss(&self, sector: u64) -> bool
        ensures { IsTrue result ↔ IsNear self.now.missed sector }
    {
        match self.missed {
            Some(first) => first <= sector && sector - first < SECTORS as u64,
            None => false,
        }
    }

    /// Returns the payload of this sector, or `None` if it isn't sealed. It stays held, and those before it are released.
    pub(crate) fn give(&mut self, sector: u64) -> Option<[u8; 512]>
        requires { IsHeld self.old sector }
        ensures { (bytes : List ℕ) × GivesSector sector bytes self.old self.new
            × SomeIff result (IsSealed sector bytes) (payload_in bytes) }
    {
        let place = self.passed + (sector - self.from) as usize;
        self.passed = place;
        self.from = sector;
        if !self.sealed[place] {
            return None;
        }
        let mut payload = [0; PAYLOAD_BYTES];
        let start = SEALED_SECTOR * place;
        payload.copy_from_slice(&self.bytes[start..start + PAYLOAD_BYTES]);
        Some(payload)
    }

    /// Reads eight sectors, from the file's place on, and holds them. The first has this number. Returns whether all eight were
    /// read; if not, nothing is held.
    pub(crate) fn fill<T: Read>(&mut self, file: &mut T, sector: u64) -> bool
        requires { sector + 8 < 2 ^ 64 }
        ensures filled { result ≡ true →
            Consumes (T.remaining file.old) (T.remaining file.new) self.new.bytes }
        ensures whole { result ≡ true → length self.new.bytes ≡ 4352 }
        ensures from { result ≡ true → self.new.from ≡ sector }
        ensures same { result ≡ true → self.new.missed ≡ self.old.missed }
        ensures fewer { result ≡ false →
            ReadsFewer 4352 (T.remaining file.old) (T.remaining file.new) }
        ensures missed { result ≡ false → self.new ≡ missed_at sector self.old }
    {
        self.passed = SECTORS;
        if !matches!(read_full(file, &mut self.bytes), Ok(BYTES)) {
            self.missed = Some(sector);
            return false;
        }
        self.sealed = sealed_from(sector, &self.bytes);
        self.from = sector;
        self.passed = 0;
        true
    }
}

// Returns, for each of eight sectors, whether it is sealed. The first has this number.
fn sealed_from(first: u64, bytes: &[u8; 4352]) -> [bool; 8]
    requires { first + 8 < 2 ^ 64 }
    ensures { (j : ℕ) → j < 8 → IsTrue (slice_index_or result j false)
        ↔ IsSealed (first + j) (take 544 (drop (544 * j) bytes.now)) }
{
    match bytes.as_chunks().0.first_chunk() {
        Some(sectors) => are_sealed(&eight_from(first), sectors),
        None => [false; SECTORS],
    }
}

// Returns eight numbers in order, from this one on.
fn eight_from(first: u64) -> [u64; 8]
    requires { first + 8 < 2 ^ 64 }
    ensures { (j : ℕ) → j < 8 → slice_index result j ≡ first + j }
{
    [
        first,
        first + 1,
        first + 2,
        first + 3,
        first + 4,
        first + 5,
        first + 6,
        first + 7,
    ]
}
