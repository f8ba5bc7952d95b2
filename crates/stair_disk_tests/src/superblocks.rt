//! Superblocks in which one byte is changed.

use stair_base::{Geometry, SECTOR};
use stair_super::{Mark, Super, read_super, write_super};

// Slot 2 of four devices with one row parity, two rows, one global parity and three stripes, in the first epoch, in
// version 1, as tests/tools/superblocks works it out from the table of the format. All bytes after these are zero.
const FIRST: [u8; 132] = [
    0x53, 0x54, 0x41, 0x49, 0x52, 0x53, 0x42, 0x31, // STAIRSB1
    0, 0, 0, 0, 0, 0, 0, 0, 0, 0, 0, 0, 0, 0, 0, 4, // id
    4, 1, 2, 1, // n, m, r, m'
    1, 0, 0, 0, 0, 0, 0, 0, 0, 0, 0, 0, 0, 0, 0, 0, // e
    0, 0, 0, 0, 0, 0, 0, 0, 0, 0, 0, 0, 0, 0, 0, 0, //
    0, 0, 0, 3, // stripes
    2, 0, 0, 0, 0, 0, 0, 0, // slot
    0, 0, 0, 0, 0, 0, 0, 1, // joined
    0, 0, 0, 0, 0, 0, 0, 1, // draw
    0, 0, 0, 0, 0, 0, 0, 1, // epoch
    1, 0, 0, 0, 0, 0, 0, 0, 1, // slot 0
    1, 0, 0, 0, 0, 0, 0, 0, 1, // slot 1
    1, 0, 0, 0, 0, 0, 0, 0, 1, // slot 2
    1, 0, 0, 0, 0, 0, 0, 0, 1, // slot 3
];

// What version 2 has from byte 384 on where the array is frozen and its label is `shelf 7`, as tests/tools/superblocks says.
const NOTES: [u8; 9] = [0x01, 0x07, 0x73, 0x68, 0x65, 0x6C, 0x66, 0x20, 0x37];

fn first_bytes() -> [u8; SECTOR] {
    let mut bytes = [0; SECTOR];
    bytes[..132].copy_from_slice(&FIRST);
    bytes
}

fn frozen_bytes() -> [u8; SECTOR] {
    let mut bytes = first_bytes();
    bytes[7] = b'2';
    bytes[384..393].copy_from_slice(&NOTES);
    bytes
}

// The same slot of an array of so many stripes of so many rows, in this version.
fn bytes_of(version: u8, rows: u8, stripes: u32) -> [u8; SECTOR] {
    let mut bytes = first_bytes();
    bytes[7] = version;
    bytes[26] = rows;
    bytes[60..64].copy_from_slice(&stripes.to_be_bytes());
    bytes
}

// Goes on with a hash (Fowler, Noll and Vo's FNV-1a, of 32 bits).
fn hash_on(hash: u32, bytes: &[u8]) -> u32 {
    let mut hash = hash;
    for byte in bytes {
        hash = (hash ^ u32::from(*byte)).wrapping_mul(0x0100_0193);
    }
    hash
}

fn hash_numbers(hash: u32, numbers: &[u64]) -> u32 {
    let mut hash = hash;
    for number in numbers {
        hash = hash_on(hash, &number.to_be_bytes());
    }
    hash
}

fn hash_geometry(hash: u32, geometry: &Geometry) -> u32 {
    let counts = [geometry.n(), geometry.m(), geometry.r(), geometry.classes()];
    let mut hash = hash_on(hash, &geometry.id());
    for count in counts {
        hash = hash_numbers(hash, &[u64::from(count)]);
    }
    for l in 0..geometry.classes() {
        hash = hash_numbers(hash, &[u64::from(geometry.coverage(l))]);
    }
    hash_numbers(hash, &[u64::from(geometry.stripes())])
}

fn hash_slots(hash: u32, block: &Super) -> u32 {
    let mut hash = hash;
    for (mark, joined) in block.marks().iter().zip(block.joins().iter()) {
        let code = match mark {
            Mark::Live => 1,
            Mark::Rebuilding => 2,
            Mark::Down => 3,
        };
        hash = hash_numbers(hash_on(hash, &[code]), &[*joined]);
    }
    hash
}

fn hash_block(hash: u32, block: &Super) -> u32 {
    let numbers = [
        u64::from(block.slot()),
        block.joined(),
        block.draw(),
        block.epoch(),
    ];
    let hash = hash_numbers(hash_geometry(hash, &block.geometry()), &numbers);
    let hash = hash_on(hash_slots(hash, block), &[u8::from(block.frozen())]);
    let label = block.label();
    hash_on(hash_on(hash, &[label.bytes().len() as u8]), label.bytes())
}

// How many of the sectors in which one byte is one more, or one less, are superblocks, and a hash of what all say.
fn each_byte_changed(bytes: &[u8; SECTOR]) -> (u32, u32) {
    let mut blocks: u32 = 0;
    let mut hash = 0x811C_9DC5;
    for at in 0..512 {
        for step in [1, 255] {
            let mut changed = *bytes;
            changed[at] = bytes[at].wrapping_add(step);
            match read_super(&changed) {
                None => hash = hash_on(hash, &[0]),
                Some(block) => {
                    blocks = blocks.wrapping_add(1);
                    hash = hash_block(hash_on(hash, &[1]), &block);
                }
            }
        }
    }
    (blocks, hash)
}

// tests/tools/superblocks works both out from the table of the format.
#[test]
fn a_changed_byte_is_refused_or_says_what_the_format_says(rt: HostRuntime) {
    assert_eq!(rt; each_byte_changed(&first_bytes()), (61, 0x401B_370F));
    assert_eq!(rt; each_byte_changed(&frozen_bytes()), (74, 0x9DA4_FC5D));
    let least = bytes_of(b'3', 2, 65_537);
    assert_eq!(rt; each_byte_changed(&least), (62, 0xA169_D79D));
    let largest = bytes_of(b'3', 1, 4_294_967_288);
    assert_eq!(rt; each_byte_changed(&largest), (61, 0xEA74_0A75));
}

#[test]
fn a_large_array_has_version_3_and_a_small_one_never(rt: HostRuntime) {
    for (version, stripes, read) in [
        (b'1', 65_536, true),
        (b'2', 65_536, true),
        (b'3', 65_536, false),
        (b'1', 65_537, false),
        (b'2', 65_537, false),
        (b'3', 65_537, true),
        (b'4', 65_537, false),
    ] {
        let bytes = bytes_of(version, 2, stripes);
        let block = read_super(&bytes);
        assert_eq!(rt; block.is_some(), read, "{version} {stripes}");
        if version > b'1'
            && let Some(block) = block
        {
            assert!(rt; write_super(&block) == bytes);
        }
    }
}
