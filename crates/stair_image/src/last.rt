// The sector that was sealed last.
ghost use Rattle.std.specs.Prelude.{◌≡◌};
ghost use Rattle.stair_image.specs.Seal.{sealed};

use crate::{PAYLOAD_BYTES, SEALED_SECTOR, seal};
use std::marker::Model;

/// A sealed sector that is sealed once for all writes of the same payload under the same number, as where each device of an
/// array gets the same sector: the tag takes far longer than a look at the payload.
#[derive(Clone, Drop)]
pub struct Sealed {
    number: u64,
    sector: [u8; 544],
}

impl Model for Sealed {
    ghost use Rattle.std.specs.Prelude.{◌≡◌, List, ℕ};
    ghost use Rattle.stair_image.specs.Seal.{sealed, payload_in};

    ghost Value = { List ℕ };

    ghost view = { λ s. s.sector };

    ghost invariant = { λ s. s.sector ≡ sealed s.number (payload_in s.sector) };
}

impl Sealed {
    /// Sector 0 with zeros.
    pub fn new() -> Sealed {
        Sealed {
            number: 0,
            sector: seal(0, &[0; PAYLOAD_BYTES]),
        }
    }

    /// Seals this payload under this number, unless it is what was sealed last.
    pub fn seal(&mut self, number: u64, payload: &[u8; 512])
        ensures { self.new ≡ sealed number payload.now }
    {
        let is_sealed = self.number == number && self.sector.starts_with(payload);
        if !is_sealed {
            self.number = number;
            self.sector = seal(number, payload);
        }
    }

    /// The sealed sector: the payload, and then its tag.
    pub fn sector(&self) -> &[u8; 544]
        ensures { result.now ≡ self.now }
    {
        &self.sector
    }
}
