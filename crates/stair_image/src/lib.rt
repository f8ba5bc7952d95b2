//! Sealed sectors: a sector of an image file is 512 bytes of payload and a tag of 32 bytes, by which a sector that was
//! damaged, torn or put in another place is told from a good one.
//!
//! The tag is SHA-256 (FIPS 180-4) over the sector's number as eight bytes, big-endian, followed by the payload. [`Seals::new`]
//! alone takes memory.
#![tactic(auto)]

mod last;
pub mod laws;
mod seals;

ghost use Rattle.std.specs.Prelude.{◌≡◌};
ghost use Rattle.std.specs.Option.{SomeIff};
ghost use Rattle.stair_image.specs.Seal.{tag_of, sealed, payload_in, IsSealed};

pub use last::Sealed;
pub use seals::Seals;
use sha2::{Digest, Sha256};

/// The bytes of a payload.
pub const PAYLOAD_BYTES: usize = 512;

/// The bytes of a sealed sector: its payload, and then a tag of 32 bytes.
pub const SEALED_SECTOR: usize = 544;

// The tag of this payload in the sector of this number.
fn tag(number: u64, payload: &[u8; 512]) -> [u8; 32]
    ensures { result ≡ tag_of number payload.now }
{
    let mut hasher = Sha256::new();
    hasher.update(number.to_be_bytes());
    hasher.update(payload);
    hasher.finalize()
}

/// The sector of this number with this payload: the payload, and then its tag.
pub fn seal(number: u64, payload: &[u8; 512]) -> [u8; 544]
    ensures { result ≡ sealed number payload.now }
{
    let mut sector = [0; SEALED_SECTOR];
    sector[..PAYLOAD_BYTES].copy_from_slice(payload);
    sector[PAYLOAD_BYTES..].copy_from_slice(&tag(number, payload));
    sector
}

/// The payload of the sector of this number: its first 512 bytes, or `None` exactly where its last 32 bytes aren't the
/// tag of these.
pub fn unseal(number: u64, sector: &[u8; 544]) -> Option<[u8; 512]>
    ensures { SomeIff result (IsSealed number sector.now) (payload_in sector.now) }
{
    let (payload, found) = sector.split_first_chunk()?;
    if found == tag(number, payload).as_slice() {
        Some(*payload)
    } else {
        None
    }
}
