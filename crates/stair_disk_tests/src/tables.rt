//! The table of volumes, with numbers past 32 bits.

use stair_base::SECTOR;
use stair_conf::Name;
use stair_volume::{Extent, Table, read_table, write_table};

// The volume `home`, of blocks 2^32 + 1 to 2^33 + 2, from the table of the format.
const HOME: [u8; 32] = [
    4, b'h', b'o', b'm', b'e', 0, 0, 0, 0, 0, 0, 0, 0, 0, 0, 0, 0, // its name
    0, 0, // always zero
    1, // the highest of five bytes of the number of blocks
    0, 0, 0, 1, 0, 0, 0, 1, // the first block
    0, 0, 0, 2, // the other four bytes
];

// As many blocks as an array has where `home` ends at its end: 2^33 + 3.
const BLOCKS: u64 = 8_589_934_595;

// The least number of blocks that no array has: 2^37.
const TOO_MANY: u64 = 137_438_953_472;

// The volume `a` of two blocks from block 2^64 - 1 on: in 64 bits the sum of both numbers is 1.
const LAST: [u8; 32] = [
    1, b'a', 0, 0, 0, 0, 0, 0, 0, 0, 0, 0, 0, 0, 0, 0, 0, // its name
    0, 0, // always zero
    0, // the highest of five bytes of the number of blocks
    0xFF, 0xFF, 0xFF, 0xFF, 0xFF, 0xFF, 0xFF, 0xFF, // the first block
    0, 0, 0, 2, // the other four bytes
];

fn one_entry(entry: &[u8; 32]) -> [u8; SECTOR] {
    let mut page = [0; SECTOR];
    page[..8].copy_from_slice(b"STAIRVT1");
    page[8] = 1;
    page[32..64].copy_from_slice(entry);
    page
}

fn two_entries(first: &[u8; 32], second: &[u8; 32]) -> [u8; SECTOR] {
    let mut page = one_entry(first);
    page[8] = 2;
    page[64..96].copy_from_slice(second);
    page
}

#[test]
fn a_volume_past_block_4294967296_is_read(rt: HostRuntime) {
    let page = one_entry(&HOME);
    let table = read_table(BLOCKS, &page).expect(&rt, "a table");
    assert_eq!(rt; table.entries().len(), 1);
    let extent = Extent {
        first: 4_294_967_297,
        blocks: 4_294_967_298,
    };
    let name = Name::new(b"home").expect(&rt, "a name");
    assert_eq!(rt; table.find(name), Some(extent));
    assert!(rt; write_table(&table) == page);
    assert!(rt; read_table(BLOCKS - 1, &page).is_none());
}

#[test]
fn a_volume_past_block_4294967296_is_written(rt: HostRuntime) {
    let before = Name::new(b"before").expect(&rt, "a name");
    let home = Name::new(b"home").expect(&rt, "a name");
    let table = Table::empty(BLOCKS).with(before, 4_294_967_296);
    let table = table.expect(&rt, "room").with(home, 4_294_967_298);
    let table = table.expect(&rt, "room").without(before);
    assert!(rt; write_table(&table.expect(&rt, "a volume")) == one_entry(&HOME));
}

#[test]
fn a_volume_that_begins_at_the_last_number_is_of_no_table(rt: HostRuntime) {
    let most = TOO_MANY - 1;
    assert!(rt; read_table(most, &one_entry(&LAST)).is_none());
    assert!(rt; read_table(most, &two_entries(&HOME, &LAST)).is_none());
    assert!(rt; read_table(most, &two_entries(&LAST, &HOME)).is_none());
}
