ghost use Rattle.std.specs.Prelude.{◌<◌};

use stair_base::SECTOR;

/// Returns bytes that vary: byte q of number p is (31·p + 7·q + 1) mod 251.
pub(crate) fn varied(number: u16) -> [u8; SECTOR]
    requires { number < 1024 }
{
    let mut bytes = [0; SECTOR];
    for (q, byte) in bytes.iter_mut().enumerate() {
        *byte = ((31 * usize::from(number) + 7 * q + 1) % 251) as u8;
    }
    bytes
}
