//! Racks in memory: media that are pulled, inserted and damaged, stops, and crashes.

ghost use Rattle.std.specs.Prelude.{◌<◌};

use crate::racks::{crashed, new_rack};
use stair_base::{SECTOR, Slots};
use stair_memrack::{Act, MemRack, What, WildRack};
use stair_rack::{Got, Rack, Reply, sync_all, write_all, write_through};
use std::process::Abort;

// The answer to a read, and the byte that all of the sector's places have where it is good.
fn read(rack: &mut MemRack, slot: u8, sector: u32) -> (Got, u8)
    requires { slot < 32 }
{
    let mut into = [0u8; SECTOR];
    let got = rack.read(slot, sector, &mut into);
    (got, into[511])
}

// The script that does these acts before the call of this number.
fn script_of<R: Abort + AllocGlobal>(rt: &R, at: u32, acts: &[What]) -> Vec<Act> {
    let mut script = Vec::new(rt.alloc());
    for what in acts {
        script.push(Act { at, what: *what }).expect(rt, "memory");
    }
    script
}

const PULL: What = What::Pull { slot: 0 };

const BLANK: What = What::InsertBlank {
    slot: 0,
    sectors: 2,
};

const OLD: What = What::InsertOld { slot: 0, index: 0 };

const SECOND: What = What::InsertOld { slot: 0, index: 1 };

// The medium that was pulled is put back before call 0.
const BACK: Act = Act { at: 0, what: OLD };

const DAMAGE: What = What::Damage { slot: 0, sector: 1 };

const PAST_END: What = What::Damage { slot: 0, sector: 4 };

const NO_SLOT: What = What::Damage {
    slot: 32,
    sector: 1,
};

// Acts before call 3, the answer to an attach of slot 0 then, and what a read of its sector 1 gives.
const ANSWERS: [(&[What], Reply, (Got, u8)); 10] = [
    (&[], Reply::Done, (Got::Good, 7)),
    (&[PULL], Reply::Gone, (Got::Gone, 0)),
    (&[PULL, BLANK], Reply::Done, (Got::Bad, 0)),
    (&[PULL, OLD], Reply::Done, (Got::Good, 7)),
    (&[DAMAGE], Reply::Done, (Got::Bad, 0)),
    (&[What::Stop], Reply::Gone, (Got::Gone, 0)),
    // None of these applies.
    (
        &[BLANK, OLD, PAST_END, NO_SLOT],
        Reply::Done,
        (Got::Good, 7),
    ),
    (&[PULL, SECOND], Reply::Gone, (Got::Gone, 0)),
    // The drawer holds the 7s and then the blank medium. After the 7s are reinserted and pulled again it is the other way
    // round.
    (&[PULL, BLANK, PULL, SECOND], Reply::Done, (Got::Bad, 0)),
    (
        &[PULL, BLANK, PULL, OLD, PULL, SECOND],
        Reply::Done,
        (Got::Good, 7),
    ),
];

// Slot 0 is attached, its sector 1 written with 7s and synced. Call 3 attaches it again, and call 4 reads the sector.
fn check_answers<R: Abort>(
    rt: &R,
    rack: &mut MemRack,
    acts: &[What],
    attached: Reply,
    expected: (Got, u8),
) {
    rack.attach(0);
    rack.write(0, 1, &[7; SECTOR]);
    rack.sync(0);
    let found = (rack.attach(0), read(rack, 0, 1));
    assert_eq!(rt; found, (attached, expected), "{acts:?}");
    // The record has no room for another call.
    assert!(rt; read(rack, 0, 1) == (Got::Gone, 0), "{acts:?}");
    assert!(rt; rack.made() == 5, "{acts:?}");
}

#[test]
fn what_a_slot_answers_after_these_acts(rt: HostRuntime) {
    for (acts, attached, expected) in ANSWERS {
        let script = script_of(&rt, 3, acts);
        let mut rack = new_rack(&rt, 1, 4, &script, 5);
        check_answers(&rt, &mut rack, acts, attached, expected);
    }
}

#[test]
fn of_the_slots_of_a_pass_the_one_that_is_pulled_in_it_is_gone(rt: HostRuntime) {
    // The calls 0 to 2 attach, 3 to 5 write.
    let pull = Act {
        at: 4,
        what: What::Pull { slot: 1 },
    };
    let mut rack = new_rack(&rt, 3, 4, &[pull], 40);
    let mut to = Slots::empty();
    for slot in 0..3 {
        to.add(slot);
        assert!(rt; rack.attach(slot) == Reply::Done);
    }
    let unwritten = write_all(&mut rack, to, 2, &[9; SECTOR]);
    let unsynced = sync_all(&mut rack, to);
    for (slot, gone, expected) in [
        (0, false, (Got::Good, 9)),
        (1, true, (Got::Gone, 0)),
        (2, false, (Got::Good, 9)),
    ] {
        let found = (
            unwritten.has(slot),
            unsynced.has(slot),
            read(&mut rack, slot, 2),
        );
        assert_eq!(rt; found, (gone, gone, expected));
    }
    assert!(rt; rack.made() == 12);
}

// The answer to a write through of sector 2 in a rack with this script, in which call 0 attaches, call 1 writes and call 2
// syncs. With it what is read of the sector in the rack that a crash leaves by this pick, with the medium back in its slot.
fn written_through<R: Abort + AllocGlobal>(
    rt: &R,
    script: &[Act],
    pick: u32,
) -> (Reply, (Got, u8)) {
    let mut rack = new_rack(rt, 1, 4, script, 9);
    assert!(rt; rack.attach(0) == Reply::Done);
    let answer = write_through(&mut rack, 0, 2, &[8; SECTOR]);
    let mut left = crashed(rt, rack, &[pick], &[BACK], 9);
    assert!(rt; left.attach(0) == Reply::Done);
    (answer, read(&mut left, 0, 2))
}

#[test]
fn what_a_crash_leaves_of_a_sector_that_was_written_through(rt: HostRuntime) {
    let (good, bad) = ((Got::Good, 8), (Got::Bad, 0));
    let pulled = [Act { at: 1, what: PULL }];
    // It settles as reads find it.
    let unsynced = [Act { at: 2, what: PULL }];
    let stopped = [Act {
        at: 2,
        what: What::Stop,
    }];
    let rows: [(&[Act], Reply, [(Got, u8); 3]); 4] = [
        (&[], Reply::Done, [good; 3]),
        (&pulled, Reply::Gone, [bad; 3]),
        (&unsynced, Reply::Gone, [good; 3]),
        (&stopped, Reply::Gone, [bad, good, bad]),
    ];
    for (script, answer, by_pick) in rows {
        for pick in 0..3u32 {
            let found = written_through(&rt, script, pick);
            assert_eq!(rt; found, (answer, by_pick[pick as usize]), "{script:?}");
        }
    }
}

// A rack with three pending sectors: sector 1 of slot 0, which held 1s at the sync and got 2s and then 3s, sector 2
// of slot 0, which got 4s, and sector 0 of slot 1, which got 5s. The last two were never written before. Then these
// acts are done.
fn pending_rack<R: Abort + AllocGlobal>(rt: &R, acts: &[What]) -> MemRack {
    let script = script_of(rt, 8, acts);
    let mut rack = new_rack(rt, 2, 4, &script, 20);
    rack.attach(0);
    rack.write(0, 1, &[1; SECTOR]);
    rack.sync(0);
    rack.write(0, 1, &[2; SECTOR]);
    rack.write(0, 2, &[4; SECTOR]);
    rack.write(0, 1, &[3; SECTOR]);
    rack.attach(1);
    rack.write(1, 0, &[5; SECTOR]);
    rack.sectors(1);
    rack
}

// What is read of the three sectors.
fn read_pending(rack: &mut MemRack) -> [(Got, u8); 3] {
    [read(rack, 0, 1), read(rack, 0, 2), read(rack, 1, 0)]
}

// What is read of the three sectors after a crash with these picks.
fn left_of_pending<R: Abort + AllocGlobal>(rt: &R, picks: &[u32]) -> [(Got, u8); 3] {
    let mut rack = crashed(rt, pending_rack(rt, &[]), picks, &[], 10);
    assert!(rt; rack.attach(0) == Reply::Done);
    assert!(rt; rack.attach(1) == Reply::Done);
    let found = read_pending(&mut rack);
    assert!(rt; rack.reads() == 3);
    found
}

#[test]
fn each_pick_leaves_its_content(rt: HostRuntime) {
    let bad = (Got::Bad, 0);
    let first = [(Got::Good, 1), (Got::Good, 2), (Got::Good, 3), bad];
    let second = [bad, (Got::Good, 4), bad];
    let third = [bad, (Got::Good, 5), bad];
    for a in 0..4u32 {
        for b in 0..3u32 {
            for c in 0..3u32 {
                let expected = [first[a as usize], second[b as usize], third[c as usize]];
                assert_eq!(rt; left_of_pending(&rt, &[a, b, c]), expected);
            }
        }
    }
}

// The medium of slot 0 is pulled and put back. By the way in which it is pulled, what its sectors 1 and 2 read as then.
#[test]
fn a_medium_that_is_pulled_keeps_what_was_not_synced_or_loses_it(rt: HostRuntime) {
    for (pull, first, second) in [
        (PULL, (Got::Good, 3), (Got::Good, 4)),
        (What::PullLosing { slot: 0 }, (Got::Good, 1), (Got::Bad, 0)),
    ] {
        let mut rack = pending_rack(&rt, &[pull, OLD]);
        assert!(rt; read(&mut rack, 0, 1) == (Got::Gone, 0), "{pull:?}");
        assert!(rt; rack.attach(0) == Reply::Done, "{pull:?}");
        let expected = [first, second, (Got::Good, 5)];
        assert_eq!(rt; read_pending(&mut rack), expected, "{pull:?}");
    }
}

// What a first crash leaves, which tears sector 0 of slot 1, over a sector that was never written, while the medium of slot
// 0 lies in the drawer.
fn torn_rack<R: Abort + AllocGlobal>(rt: &R) -> MemRack {
    let mut rack = crashed(rt, pending_rack(rt, &[PULL]), &[9], &[BACK], 20);
    assert!(rt; rack.attach(0) == Reply::Done);
    let (first, second) = (read(&mut rack, 0, 1), read(&mut rack, 0, 2));
    assert_eq!(rt; [first, second], [(Got::Good, 3), (Got::Good, 4)]);
    assert!(rt; rack.attach(1) == Reply::Done);
    assert!(rt; read(&mut rack, 1, 0) == (Got::Bad, 0));
    rack
}

// The torn sector is written again, and what a second crash leaves of it is read.
#[test]
fn a_crash_of_a_rack_that_a_crash_made(rt: HostRuntime) {
    for (pick, expected) in [(0, (Got::Bad, 0)), (1, (Got::Good, 6)), (2, (Got::Bad, 0))] {
        let mut rack = torn_rack(&rt);
        rack.write(1, 0, &[6; SECTOR]);
        let mut left = crashed(&rt, rack, &[pick], &[], 20);
        left.attach(0);
        left.attach(1);
        let found = (read(&mut left, 0, 2), read(&mut left, 1, 0));
        assert_eq!(rt; found, ((Got::Good, 4), expected));
    }
}

// The record has room only for the attach of a slot of 4 sectors. The next attach is gone, and `sectors` answers what it
// found.
#[test]
fn sectors_of_a_spent_record(rt: HostRuntime) {
    let mut rack = new_rack(&rt, 1, 4, &[], 1);
    assert!(rt; rack.attach(0) == Reply::Done);
    assert!(rt; rack.sectors(0) == 4);
    assert!(rt; rack.attach(0) == Reply::Gone);
    assert!(rt; rack.sectors(0) == 0);
    assert!(rt; rack.made() == 1);
}

// Slot 0 of the inner rack holds a medium of 4 sectors that was never written. A byte of 0 is the inner rack's turn.
fn check_classes<R: Abort>(rt: &R, rack: &mut WildRack) {
    let mut into = [0u8; SECTOR];
    assert!(rt; rack.attach(0) == Reply::Done);
    assert!(rt; rack.write(0, 9, &into) == Reply::Done);
    assert!(rt; rack.read(0, 9, &mut into) == Got::Good);
    assert!(rt; into[511] == 240);
    assert!(rt; rack.read(0, 1, &mut into) == Got::Bad);
    assert!(rt; rack.read(0, 1, &mut into) == Got::Gone);
    assert!(rt; rack.read(0, 1, &mut into) == Got::Bad);
    assert!(rt; rack.sectors(0) == 4);
    // From the first byte on again.
    assert!(rt; rack.sync(0) == Reply::Done);
    assert!(rt; rack.sync(1) == Reply::Done);
}

#[test]
fn each_class_of_bytes_over_a_rack_that_is_not_honest(rt: HostRuntime) {
    let inner = new_rack(&rt, 1, 4, &[], 9);
    let answers = [0, 240, 240, 220, 200, 0];
    let mut rack = WildRack::new(rt.alloc(), inner, &answers).expect(&rt, "memory");
    check_classes(&rt, &mut rack);
}
