ghost use Rattle.std.specs.Prelude.{◌≡◌, ◌+◌, ◌^◌, ◌<◌, ◌≤◌, length};
ghost use Rattle.stair_volume.specs.Page.{entry_bytes as entry_as_bytes, table_bytes, with_field};

use crate::extent::{Entry, Extent};
use crate::table::Table;
use stair_base::SECTOR;

/// The weight of the highest byte of a number of blocks.
pub(crate) const HIGH_PART: u64 = 1 << 32;

/// Returns the bytes of a table, which are block 0 of its array. Numbers are big-endian.
///
/// | bytes | field |
/// |---|---|
/// | 0 to 7 | `STAIRVT1` |
/// | 8 | the number of entries, at most 15 |
/// | 32 + 32·k | of entry k: the length of its name |
/// | 33 + 32·k to 48 + 32·k | its name, and zeros |
/// | 51 + 32·k | its number of blocks: the highest of five bytes |
/// | 52 + 32·k to 59 + 32·k | its first block |
/// | 60 + 32·k to 63 + 32·k | its number of blocks: the other four bytes |
///
/// All else is zero.
pub fn write_table(table: &Table) -> [u8; SECTOR]
    ensures { result ≡ table_bytes table.now.entries }
{
    let entries = table.entries();
    let mut bytes = [0; SECTOR];
    put(&mut bytes, 0, b"STAIRVT1");
    put(&mut bytes, 8, &[entries.len() as u8]);
    for (k, entry) in entries.iter().enumerate() {
        put(&mut bytes, 32 + 32 * k, &entry_bytes(entry));
    }
    bytes
}

fn entry_bytes(entry: &Entry) -> [u8; 32]
    requires { entry.now.extent.blocks < 2 ^ 40 }
    ensures { result ≡ entry_as_bytes entry.now }
{
    let name = entry.name.bytes();
    let Extent { first, blocks } = entry.extent;
    let mut bytes = [0; 32];
    put(&mut bytes, 0, &[name.len() as u8]);
    put(&mut bytes, 1, name);
    put(&mut bytes, 19, &[(blocks / HIGH_PART) as u8]);
    put(&mut bytes, 20, &first.to_be_bytes());
    put(&mut bytes, 28, &((blocks % HIGH_PART) as u32).to_be_bytes());
    bytes
}

// Writes a field over the bytes from a place on.
fn put(bytes: &mut [u8], at: usize, field: &[u8])
    requires { at + length field.now ≤ length bytes.old }
    ensures { bytes.new ≡ with_field bytes.old at field.now }
{
    bytes[at..at + field.len()].copy_from_slice(field);
}
