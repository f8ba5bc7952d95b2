// Superblocks of a new array that are damaged, torn or changed.
use crate::contents::{holds, reads};
use crate::racks::{change, torn};
use crate::tally::{Extent, Part, Tally};
use stair_calls::{
    FILLINGS, FOUR, NOTHING_TOLD, WHOLE, act, call, created, fenced, make_older, restarted,
    with_blocks,
};
use stair_engine::Status;
use stair_member::Why;
use stair_memrack::{MemRack, What};
use std::alloc::{AllocError, Global};

// How superblocks become unreadable.
#[derive(Clone, Copy, PartialEq, Eq)]
enum Harm {
    Damaged,
    Torn,
}

// The array with blocks, whose superblocks at these places of slots are harmed.
fn harmed(alloc: Global, harm: Harm, places: &[(u8, u32)]) -> Result<MemRack, AllocError> {
    match harm {
        Harm::Damaged => {
            let mut acts = Vec::new(alloc);
            for (slot, sector) in places {
                let (slot, sector) = (*slot, *sector);
                acts.push(act(0, What::Damage { slot, sector }))?;
            }
            with_blocks(alloc, &acts)
        }
        Harm::Torn => torn(alloc, with_blocks(alloc, &[])?, places),
    }
}

// The words of a reason.
fn words_of(why: Why) -> &'static str {
    match why {
        Why::NoSuper => " no superblock",
        Why::OtherArray => " other array",
        Why::OtherSlot => " other slot",
        _ => "",
    }
}

// Whether `show` puts out the array in this epoch, each of whose slots is live since the first one, slot `other` by this reason not
// here.
fn is_shown(
    alloc: Global,
    rack: &mut MemRack,
    epoch: u8,
    other: u8,
    why: Why,
) -> Result<bool, AllocError> {
    let mut text = format!(in alloc;
        "array 00000000000000000000000000000004\ngeometry n 4 m 1 r 2 e 1 stripes 3 blocks 15\nepoch {epoch}\n"
    )?;
    for slot in 0..4u8 {
        let words = if slot == other { words_of(why) } else { "" };
        text.push_str(&format!(in alloc; "slot {slot} live 1{words}\n")?)?;
    }
    let came = call(alloc, rack, "show", &[], WHOLE)?;
    Ok(came.status == Status::Done && came.put.as_slice() == text.as_bytes())
}

// Whether the array is shown without this slot, or with it, and then opened so.
fn is_opened(
    alloc: Global,
    rack: MemRack,
    epoch: u8,
    other: u8,
    why: Why,
) -> Result<bool, AllocError> {
    let mut rack = rack;
    if !is_shown(alloc, &mut rack, epoch, other, why)? {
        return Ok(false);
    }
    let told = if why == Why::Here {
        NOTHING_TOLD
    } else {
        fenced(other)
    };
    if !reads(alloc, &mut rack, &FILLINGS, told)? {
        return Ok(false);
    }
    holds(alloc, restarted(alloc, rack, &[])?, &FILLINGS)
}

// Whether nothing is shown or read, by this status.
fn is_refused(alloc: Global, rack: MemRack, status: Status) -> Result<bool, AllocError> {
    let mut rack = rack;
    for line in ["show", "read 0 15", "write 0 1"] {
        let came = call(alloc, &mut rack, line, &[1; 512], WHOLE)?;
        if came.status != status || !came.put.is_empty() {
            return Ok(false);
        }
    }
    Ok(true)
}

// The status where these two slots have no superblock.
fn without(first: u8, second: u8) -> Status {
    let mut whys = [Why::Here; 32];
    for (slot, why) in whys.iter_mut().enumerate() {
        if slot == usize::from(first) || slot == usize::from(second) {
            *why = Why::NoSuper;
        }
    }
    Status::TooFew(whys)
}

/// One place of a slot can't be read, both, both of two slots, and both of three.
pub(crate) fn unreadable(alloc: Global) -> Result<Part, AllocError> {
    let mut tally = Tally::new();
    for harm in [Harm::Damaged, Harm::Torn] {
        for slot in 0..4u8 {
            let row = u32::from(slot);
            for place in 0..2 {
                let rack = harmed(alloc, harm, &[(slot, place)])?;
                tally.judge(is_opened(alloc, rack, 2, slot, Why::Here)?, row, place);
            }
            let rack = harmed(alloc, harm, &[(slot, 0), (slot, 1)])?;
            tally.judge(is_opened(alloc, rack, 2, slot, Why::NoSuper)?, row, 2);
            for other in 0..slot {
                let both = [(slot, 0), (slot, 1), (other, 0), (other, 1)];
                let rack = harmed(alloc, harm, &both)?;
                tally.judge(is_refused(alloc, rack, without(slot, other))?, row, 3);
            }
        }
        let three = [(0, 0), (0, 1), (1, 0), (1, 1), (3, 0), (3, 1)];
        let rack = harmed(alloc, harm, &three)?;
        tally.judge(is_refused(alloc, rack, Status::NoArray)?, 4, 4);
    }
    Ok(Part::over_cases("superblocks that can't be read", tally))
}

// The version that superblocks have.
#[derive(Clone, Copy, PartialEq, Eq)]
enum Version {
    First,
    Second,
}

// The slot whose superblocks are changed, and the byte at which the entry of slot 0 begins. Each entry has nine bytes: a mark, and the
// joined number, which is 1.
const CHANGED: u8 = 2;

const ENTRIES: usize = 96;

// The state of the slot once this byte of both its superblocks is changed to this other one. In addition to what is said of a
// field, slot 0 has the current superblock, which says that all slots are live. One slot alone is not enough for another array.
fn reason(version: Version, place: u32, byte: u8) -> Why {
    let other_array = |is_within: bool| if is_within {
        Why::OtherArray
    } else {
        Why::NoSuper
    };
    let here = |is_within: bool| if is_within { Why::Here } else { Why::NoSuper };
    match place {
        // the other version has the same fields, and neither a label nor a frozen mark is set
        7 => here(byte == b'1' || byte == b'2'),
        8..=23 => Why::OtherArray,
        // three devices have no fourth entry, more of them have no fifth one: n, and by it m, are what they are
        24 | 25 => Why::NoSuper,
        // r, within 1 to 32
        26 => other_array(byte >= 1 && byte <= 32),
        // one number of coverage is there
        27 => Why::NoSuper,
        // e_0, at least 1 and at most r
        28 => other_array(byte == 2),
        // stripes, at least 1 and at most 65,536
        62 => Why::OtherArray,
        63 => other_array(byte >= 1),
        64 => {
            if byte < 4 {
                Why::OtherSlot
            } else {
                Why::NoSuper
            }
        }
        // the draw, at least the epoch, which is 1
        80..=86 => Why::Here,
        87 => here(byte >= 1),
        // a mark Rebuilding has a joined number as Live has
        96 | 105 | 114 | 123 => here(byte == 2),
        384 => here(version == Version::Second && byte == 1),
        _ => Why::NoSuper,
    }
}

// A new array, with superblocks of this version.
fn new_array(alloc: Global, version: Version) -> Result<MemRack, AllocError> {
    let mut rack = created(alloc, &FOUR)?;
    if version == Version::First {
        make_older(&mut rack);
    }
    Ok(rack)
}

// What the byte at a place of a new superblock of slot 2 is: the example of the format.
fn byte_at(version: Version, place: u32) -> u8 {
    let magic = b"STAIRSB";
    match place {
        0..=6 => magic.get(place as usize).copied().unwrap_or(0),
        7 if version == Version::First => b'1',
        7 => b'2',
        23 => 4,
        24 => 4,
        25 | 27 | 28 => 1,
        26 => 2,
        63 => 3,
        64 => CHANGED,
        79 | 87 | 95 => 1,
        96 | 105 | 114 | 123 => 1,
        104 | 113 | 122 | 131 => 1,
        _ => 0,
    }
}

// The bytes that are put at a place.
fn others(byte: u8, extent: Extent) -> [u8; 255] {
    let mut others = [byte; 255];
    for (index, other) in others.iter_mut().enumerate() {
        let change = index as u8;
        if extent == Extent::Whole || change < 3 || change == 127 || change == 254 {
            *other = byte ^ change.wrapping_add(1);
        }
    }
    others
}

// Whether the array is shown as it should be once this place of both superblocks of a slot, which had another byte, has this one.
fn is_changed(
    alloc: Global,
    rack: &mut MemRack,
    version: Version,
    place: u32,
    byte: u8,
) -> Result<bool, AllocError> {
    let at = place as usize;
    let is_put = change(rack, CHANGED, 0, at, byte) && change(rack, CHANGED, 1, at, byte);
    Ok(is_put && is_shown(alloc, rack, 1, CHANGED, reason(version, place, byte))?)
}

// Whether the array is opened then as it should be: zeros are read, also in a second call.
fn is_read(alloc: Global, rack: MemRack, why: Why) -> Result<bool, AllocError> {
    let mut rack = restarted(alloc, rack, &[])?;
    let told = if why == Why::Here {
        NOTHING_TOLD
    } else {
        fenced(CHANGED)
    };
    if !reads(alloc, &mut rack, &[0; 15], told)? {
        return Ok(false);
    }
    holds(alloc, restarted(alloc, rack, &[])?, &[0; 15])
}

// The case of a place in which the array is opened. The other cases of the place are its bytes, by their numbers.
const OPENED: u32 = 1000;

// Tries other bytes at a place.
fn try_place(
    alloc: Global,
    version: Version,
    place: u32,
    extent: Extent,
    tally: &mut Tally,
) -> Result<(), AllocError> {
    let mut rack = new_array(alloc, version)?;
    let byte = byte_at(version, place);
    let mut last = byte;
    for other in others(byte, extent) {
        if other != byte {
            let is_right = is_changed(alloc, &mut rack, version, place, other)?;
            tally.judge(is_right, place, u32::from(other));
            // its record has room for some hundred calls of `show`
            rack = restarted(alloc, rack, &[])?;
            last = other;
        }
    }
    let is_right = is_read(alloc, rack, reason(version, place, last))?;
    tally.judge(is_right, place, OPENED);
    Ok(())
}

/// Other bytes at each place of both superblocks of slot 2 of a new array, in versions 1 and 2.
pub(crate) fn changed(alloc: Global, extent: Extent) -> Result<Part, AllocError> {
    let mut tally = Tally::new();
    for version in [Version::First, Version::Second] {
        for place in 0..512 {
            if place < 132 || place % 64 == 0 || extent == Extent::Whole {
                try_place(alloc, version, place, extent, &mut tally)?;
            }
        }
    }
    Ok(Part::over_cases("places of a superblock", tally))
}
