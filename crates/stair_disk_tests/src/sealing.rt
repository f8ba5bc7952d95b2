//! The tags of sectors of image files.

use stair_image::{PAYLOAD_BYTES, seal, unseal};
use stair_tags::{are_sealed, seal_all, tags};

// The tags are those of the program sha256sum, over the bytes 00 to FF, twice.
#[test]
fn known_tags(rt: HostRuntime) {
    let mut payload = [0; PAYLOAD_BYTES];
    for (place, byte) in payload.iter_mut().enumerate() {
        *byte = (place % 256) as u8;
    }
    for (number, tag) in [
        (
            3,
            b"\xa9\x99\xd8\x15\xbd\xeb\xc1\x8b\x12\xf1\x88\x9a\x1e\xe1\xea\xb6\x41\xd7\x49\xbf\xd9\xa5\x56\xf7\xc1\x12\x2a\x98\x13\x5d\x98\x8e",
        ),
        (
            0x102030405060708,
            b"\x48\x3f\xf0\x73\x84\x79\x3f\x71\xfd\xb7\x56\x38\xd6\xb0\xc2\xa1\x04\xd6\x59\xbc\xaa\x5d\x97\x19\x2f\x05\xc8\xdf\xaa\xfe\x71\xaa",
        ),
    ] {
        let sector = seal(number, &payload);
        assert!(rt; sector.starts_with(&payload), "payload of {number}");
        assert!(rt; sector.ends_with(tag), "tag of {number}");
        assert!(rt;
            unseal(number, &sector) == Some(payload),
            "unsealed {number}"
        );
        assert_eq!(rt;
            tags(&[number; 8], &[payload; 8]),
            [*tag; 8],
            "lanes of {number}"
        );
    }
}

#[test]
fn damage_is_found_in_its_lane(rt: HostRuntime) {
    let numbers = [7, 0, 1, 2, 3, 0xFFFF_FFFF, 0x1_0000_0000, 9];
    let payloads = [1, 2, 3, 4, 5, 6, 7, 8].map(|byte| [byte; PAYLOAD_BYTES]);
    let sectors = seal_all(&numbers, &payloads);
    assert_eq!(rt; are_sealed(&numbers, &sectors), [true; 8]);
    for (lane, place) in [(0, 0), (3, 511), (5, 512), (7, 543), (2, 56), (4, 504)] {
        let mut damaged = sectors;
        damaged[lane][place] ^= 1;
        let mut sealed = [true; 8];
        sealed[lane] = false;
        assert_eq!(rt; are_sealed(&numbers, &damaged), sealed, "{lane} {place}");
        assert!(rt;
            unseal(numbers[lane], &damaged[lane]).is_none(),
            "{lane} {place}"
        );
    }
    assert_eq!(rt;
        are_sealed(&[7, 0, 1, 2, 3, 4, 0x1_0000_0000, 9], &sectors),
        [true, true, true, true, true, false, true, true]
    );
}
