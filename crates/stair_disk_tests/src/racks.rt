//! Racks in memory for tests. A test that lacks the memory for one ends.

ghost use Rattle.std.specs.Prelude.{◌≤◌};

use stair_memrack::{Act, MemRack};
use std::process::Abort;

/// A rack with blank media of so many sectors in its first `media` slots, and room for so many calls.
pub fn new_rack<R: Abort + AllocGlobal>(
    rt: &R,
    media: u8,
    sectors: u32,
    script: &[Act],
    calls: u32,
) -> MemRack
    requires { media ≤ 32 }
{
    MemRack::new(rt.alloc(), media, sectors, script, calls).expect(rt, "memory")
}

/// The rack that a crash leaves by these picks, with room for so many calls.
pub fn crashed<R: Abort + AllocGlobal>(
    rt: &R,
    rack: MemRack,
    picks: &[u32],
    script: &[Act],
    calls: u32,
) -> MemRack {
    rack.after_crash(rt.alloc(), picks, script, calls)
        .expect(rt, "memory")
}
