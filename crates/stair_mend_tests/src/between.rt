//! Slots that are rebuilt with other steps between their chunks.

use crate::scene::{Scene, damage, swap};

#[test]
fn reads_and_writes_between_the_chunks_of_a_slot(rt: HostRuntime) {
    let mut scene = Scene::new(&rt, &[]);
    scene.chunk(&rt, 1, 0);
    scene.check(&rt);
    scene.chunk(&rt, 1, 1);
    // all blocks of stripe 0, whose chunk was written, and two of stripe 2, whose chunk wasn't
    for (block, byte) in [
        (0, 31),
        (1, 32),
        (2, 33),
        (3, 34),
        (4, 35),
        (10, 36),
        (12, 37),
    ] {
        scene.put(&rt, block, byte);
    }
    scene.chunk(&rt, 1, 2);
    scene.put(&rt, 7, 38);
    scene.promote(&rt, 1);
    scene.check_lasting(&rt);
}

// Row 0 of slot 2 and row 1 of slot 3 are damaged in stripe 1. With the slot that is rebuilt four cells of it are erased.
#[test]
fn scrubs_between_the_chunks_of_a_slot(rt: HostRuntime) {
    let damages = [damage(2, 15), damage(3, 16)];
    let mut scene = Scene::new(&rt, &damages);
    scene.chunk(&rt, 1, 0);
    scene.scrub(&rt, 1, 2);
    scene.scrub(&rt, 0, 0);
    scene.chunk(&rt, 1, 1);
    scene.scrub(&rt, 1, 0);
    scene.chunk(&rt, 1, 2);
    scene.promote(&rt, 1);
    scene.check_lasting(&rt);
}

// Slot 0 is lost too. It is admitted after the first chunk of slot 1, which stays the one that is under way.
#[test]
fn another_slot_is_admitted_between_the_chunks_of_a_slot(rt: HostRuntime) {
    let mut scene = Scene::new(&rt, &swap(0));
    scene.chunk(&rt, 1, 0);
    scene.admit(&rt, 0);
    scene.chunk(&rt, 1, 1);
    scene.put(&rt, 0, 41);
    scene.chunk(&rt, 1, 2);
    scene.promote(&rt, 1);
    for stripe in 0..3 {
        scene.chunk(&rt, 0, stripe);
        scene.put(&rt, 5, 42);
    }
    scene.promote(&rt, 0);
    scene.check_lasting(&rt);
}
