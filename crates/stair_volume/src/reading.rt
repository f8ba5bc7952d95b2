ghost use Rattle.std.specs.Prelude.{◌≡◌, ◌↔◌, ◌+◌, ◌^◌, ◌<◌, ◌≤◌, MatchOption, Some};
ghost use Rattle.stair_conf.specs.Name.{IsName};
ghost use Rattle.stair_volume.specs.Table.{Table as Volumes};
ghost use Rattle.stair_volume.specs.Page.{HasTable, HasEntries, HasNoName, entry_at as entry_in, long_at, number_at, table_of};

use crate::extent::{Entry, Extent};
use crate::table::{TABLE_LIMIT, Table, no_entries};
use crate::writing::{HIGH_PART, write_table};
use stair_base::SECTOR;
use stair_conf::{NAME_LIMIT, Name};

/// Returns the table that these bytes are, for an array of `blocks` blocks, or `None` if they are not a well-formed
/// table.
///
/// [`write_table`] gives the table of the bytes, and [`Table`] says when a table is well formed.
pub fn read_table(blocks: u64, bytes: &[u8; SECTOR]) -> Option<Table>
    requires { blocks < 2 ^ 37 }
    ensures value { result ≡ table_of blocks bytes.now }
    ensures exact { (table : Volumes) → (result ≡ Some table) ↔ HasTable blocks bytes.now table }
{
    let len = usize::from(bytes[8]);
    if len > TABLE_LIMIT {
        return None;
    }
    let entries = read_entries(bytes, len)?;
    let table = Table::new(blocks, entries, len)?;
    if write_table(&table) == *bytes {
        Some(table)
    } else {
        None
    }
}

// Returns the first `len` entries, or None if one has no name. It ignores the bytes between their fields.
fn read_entries(bytes: &[u8; SECTOR], len: usize) -> Option<[Entry; TABLE_LIMIT]>
    requires { len ≤ 15 }
    ensures { MatchOption result (HasNoName bytes.now len)
        (λ entries. HasEntries bytes.now len entries) }
{
    let mut entries = no_entries();
    for k in 0..len {
        entries[k] = read_entry(bytes, k)?;
    }
    Some(entries)
}

// Returns entry k, or None if it has no name.
fn read_entry(bytes: &[u8; SECTOR], k: usize) -> Option<Entry>
    requires { k < 15 }
    ensures { MatchOption result (¬ IsName (entry_in bytes.now k).name)
        (λ entry. entry ≡ entry_in bytes.now k) }
{
    let at = 32 + 32 * k;
    let len = usize::from(bytes[at]);
    if len > NAME_LIMIT {
        return None;
    }
    let name = Name::new(&bytes[at + 1..at + 1 + len])?;
    Some(Entry {
        name,
        extent: Extent {
            first: u64_at(bytes, at + 20),
            blocks: u64::from(bytes[at + 19]) * HIGH_PART + u64::from(u32_at(bytes, at + 28)),
        },
    })
}

fn u32_at(bytes: &[u8; SECTOR], at: usize) -> u32
    requires { at + 4 ≤ 512 }
    ensures { result ≡ number_at at bytes.now }
{
    u32::from_be_bytes([bytes[at], bytes[at + 1], bytes[at + 2], bytes[at + 3]])
}

fn u64_at(bytes: &[u8; SECTOR], at: usize) -> u64
    requires { at + 8 ≤ 512 }
    ensures { result ≡ long_at at bytes.now }
{
    u64::from_be_bytes([
        bytes[at],
        bytes[at + 1],
        bytes[at + 2],
        bytes[at + 3],
        bytes[at + 4],
        bytes[at + 5],
        bytes[at + 6],
        bytes[at + 7],
    ])
}
