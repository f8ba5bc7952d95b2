//! An array whose slot 1 was lost and is rebuilt, and what was written to it.
//!
//! It has five devices, of which two may be lost, and 15 blocks, five in each of three stripes. On a device sector 2 is the
//! gate, sectors 3 to 12 are the body, and row i of stripe t lies in sector 13 + 2·t + i.

ghost use Rattle.std.specs.Prelude.{◌≡◌, ◌<◌, IsTrue};
ghost use Rattle.stair_array.specs.Arrays.{state_of};
ghost use Rattle.stair_array.specs.Causes.{IsFree, IsNextChunk};

use stair_array::{Array, create};
use stair_base::{Geometry, SECTOR};
use stair_codec::{By, Codec};
use stair_journal::closed_gate;
use stair_member::{AdmitFault, survey};
use stair_memrack::{Act, MemRack, What};
use stair_mend::scrub_step;
use stair_rack::{Rack, Reply};
use stair_super::Mark;
use std::process::Abort;

// Media are pulled before this call of the rack.
const PULLED: u32 = 3000;

// Blank media are put in before this one.
const INSERTED: u32 = 4000;

// Slots 2 and 3 are pulled before this one, for good.
const LOST: u32 = 6000;

/// The medium of a slot is pulled while the array is open, and later a blank one is put in.
pub fn swap(slot: u8) -> [Act; 2] {
    let blank = What::InsertBlank { slot, sectors: 19 };
    [
        Act {
            at: PULLED,
            what: What::Pull { slot },
        },
        Act {
            at: INSERTED,
            what: blank,
        },
    ]
}

/// A sector is damaged as the blank medium is put in.
pub fn damage(slot: u8, sector: u32) -> Act {
    Act {
        at: INSERTED,
        what: What::Damage { slot, sector },
    }
}

/// An open array on its rack.
#[derive(Drop)]
pub struct Scene {
    rack: MemRack,
    array: Array<Codec>,
    // with which byte each block was filled last
    bytes: [u8; 15],
}

impl Scene {
    /// An array all of whose blocks were written. Its slot 1 was lost, and a blank medium in it was admitted.
    pub fn new<R: Abort + AllocGlobal>(rt: &R, more: &[Act]) -> Scene {
        let mut acts = Vec::new(rt.alloc());
        acts.extend_from_slice(&swap(1)).expect(rt, "memory");
        acts.extend_from_slice(more).expect(rt, "memory");
        for slot in [2, 3] {
            acts.push(Act {
                at: LOST,
                what: What::Pull { slot },
            })
            .expect(rt, "memory");
        }
        let mut rack = MemRack::new(rt.alloc(), 5, 19, &acts, 8000).expect(rt, "memory");
        let geometry = Geometry::new(5, 2, 2, &[1], 3, [0; 16]).expect(rt, "a geometry");
        assert_eq!(rt; create(&mut rack, &geometry), Ok(()));
        let array = opened(rt, &mut rack);
        let mut scene = Scene {
            rack,
            array,
            bytes: [0; 15],
        };
        for block in 0..15 {
            scene.put(rt, block, block + 1);
        }
        scene.wait(rt, PULLED);
        scene.check(rt);
        scene.wait(rt, INSERTED);
        scene.admit(rt, 1);
        scene
    }

    // Makes calls that change nothing, up to the one with this number.
    fn wait<R: Abort>(&mut self, rt: &R, call: u32) {
        let made = self.rack.made();
        assert!(rt; made <= call, "{made} calls");
        for _ in made..call {
            self.rack.sectors(0);
        }
    }

    /// Fills a block with this byte.
    pub fn put<R: Abort>(&mut self, rt: &R, block: u8, byte: u8) {
        assert!(rt; block < 15);
        self.bytes[usize::from(block)] = byte;
        let written = self
            .array
            .write(&mut self.rack, u64::from(block), &[byte; SECTOR]);
        assert_eq!(rt; written, Ok(()), "block {block}");
    }

    /// Each block reads as it was written last.
    pub fn check<R: Abort>(&mut self, rt: &R) {
        for block in 0..15u8 {
            let mut into = [0; SECTOR];
            let read = self.array.read(&mut self.rack, u64::from(block), &mut into);
            assert_eq!(rt; read, Ok(()), "block {block}");
            let byte = self.bytes[usize::from(block)];
            assert!(rt; into == [byte; SECTOR], "block {block}");
        }
    }

    /// So many cells of a stripe are restored.
    pub fn scrub<R: Abort>(&mut self, rt: &R, stripe: u32, cells: u16) {
        let scrubbed = scrub_step(&mut self.array, &mut self.rack, stripe);
        assert_eq!(rt; scrubbed, Ok(cells), "stripe {stripe}");
    }

    /// Admits the blank medium in a slot that is Down, on which it lays out a journal first.
    pub fn admit<R: Abort>(&mut self, rt: &R, slot: u8)
        requires { slot < 32 }
    {
        assert!(rt; self.rack.attach(slot) == Reply::Done);
        assert!(rt; self.rack.write(slot, 2, &closed_gate()) == Reply::Done);
        for sector in 3..13 {
            assert!(rt; self.rack.write(slot, sector, &[0; SECTOR]) == Reply::Done);
        }
        assert!(rt; self.rack.sync(slot) == Reply::Done);
        assert!(rt; is_down(&self.array, slot));
        self.array.note_medium(slot, None, None);
        assert!(rt; is_down(&self.array, slot));
        assert_eq!(rt; self.array.admit_slot(&mut self.rack, slot), Ok(()));
        self.check_mark(rt, slot, Mark::Rebuilding);
    }

    /// Writes the chunk that comes next, which is that of this slot and stripe.
    pub fn chunk<R: Abort>(&mut self, rt: &R, slot: u8, stripe: u32) {
        let Some((at, next)) = self.array.next_chunk() else {
            panic!(rt; "no slot is rebuilt");
        };
        assert_eq!(rt; (at, next), (slot, stripe));
        let stripes = self.array.geometry().stripes();
        assert!(rt; next < stripes);
        assert_eq!(rt; self.array.chunk_to(&mut self.rack, next, at), Ok(()));
    }

    /// Promotes this slot, whose three chunks were written. It is Live then.
    pub fn promote<R: Abort>(&mut self, rt: &R, slot: u8)
        requires { slot < 32 }
    {
        let Some((at, next)) = self.array.next_chunk() else {
            panic!(rt; "no slot is rebuilt");
        };
        assert_eq!(rt; (at, next), (slot, 3));
        let stripes = self.array.geometry().stripes();
        assert!(rt; next == 3 && next == stripes);
        let promoted = promote_at(&mut self.array, &mut self.rack, at, next);
        assert_eq!(rt; promoted, Ok(()));
        self.check_mark(rt, slot, Mark::Live);
    }

    fn check_mark<R: Abort>(&self, rt: &R, slot: u8, mark: Mark)
        requires { slot < 32 }
    {
        let marks = self.array.marks();
        assert_eq!(rt; marks[usize::from(slot)], mark, "slot {slot}");
    }

    /// Each block reads as it was written last: now, once the array is opened again, and also without slots 2 and 3.
    pub fn check_lasting<R: Abort + AllocGlobal>(&mut self, rt: &R) {
        self.check(rt);
        self.array = opened(rt, &mut self.rack);
        self.check(rt);
        self.wait(rt, LOST);
        self.check(rt);
        self.array = opened(rt, &mut self.rack);
        self.check(rt);
        for (slot, mark) in [(1, Mark::Live), (2, Mark::Down), (3, Mark::Down)] {
            self.check_mark(rt, slot, mark);
        }
    }
}

// Opens the array of a rack.
fn opened<R: Abort + AllocGlobal>(rt: &R, rack: &mut MemRack) -> Array<Codec> {
    let member = survey(rack).expect(rt, "an array");
    let code = Codec::new(rt.alloc(), &member.geometry(), By::Fewest).expect(rt, "memory");
    Array::recover(rt.alloc(), rack, member, code).expect(rt, "an array")
}

// Promotes the slot of a rebuild whose next chunk would be past the last stripe.
fn promote_at(
    array: &mut Array<Codec>,
    rack: &mut MemRack,
    slot: u8,
    stripe: u32,
) -> Result<(), AdmitFault>
    requires next { IsNextChunk (state_of array.old) slot stripe }
    requires some { 0 < stripe }
    requires end { stripe ≡ array.old.member.array.geometry.stripes }
{
    array.promote_slot(rack, slot)
}

// Whether the slot is one of the array, and is Down.
fn is_down(array: &Array<Codec>, slot: u8) -> bool
    ensures { IsTrue result → IsFree array.now.member slot }
{
    if slot >= array.geometry().n() {
        return false;
    }
    let marks = array.marks();
    marks[usize::from(slot)] == Mark::Down
}
