// Sealed sectors that are kept.
ghost use Rattle.std.specs.Prelude.{◌≡◌, vec_len};
ghost use Rattle.stair_image.specs.Seal.{sealed};

use crate::last::Sealed;
use std::alloc::{AllocError, Global};

/// As many sectors as the body of a journal has at most.
const PLACES: usize = 1024;

/// Sealed sectors, each kept in the place of its number modulo 1,024. So sectors that follow each other, as the body of a journal,
/// are sealed once where each device gets them, one device after the other.
#[derive(Drop)]
pub struct Seals {
    places: Vec<Sealed>,
    ghost count: { vec_len places ≡ 1024 },
}

impl Seals {
    /// No sector but zeros. The error comes only for lack of memory.
    pub fn new(alloc: Global) -> Result<Seals, AllocError> {
        Ok(Seals {
            places: vec![in alloc; Sealed::new(); PLACES]?,
        })
    }

    /// This payload, sealed under this number: the payload, and then its tag. It is sealed unless it is what was sealed last of
    /// the numbers with its place.
    pub fn seal(&mut self, number: u64, payload: &[u8; 512]) -> &[u8; 544]
        ensures { result.now ≡ sealed number payload.now }
    {
        let place = &mut self.places[(number % PLACES as u64) as usize];
        place.seal(number, payload);
        place.sector()
    }
}
