//! Cells of stripe 2 on a rack of the four devices. Cell (i, j) lies on slot j in sector 15 + i.

ghost use Rattle.std.specs.Prelude.{◌≡◌};

use crate::racks::{crashed, new_rack};
use crate::stripes::{cells, geometry, numbered, redo_of};
use stair_base::{Geometry, SECTOR, Slots, Stripe};
use stair_memrack::{Act, MemRack, What};
use stair_rack::{Got, Rack};
use stair_stripes::{gather, gather_cells, place};
use std::process::Abort;

// The cells that are placed, cell 0 always, a slot that isn't live, the cells that are wanted, and the call before
// which slot 2 is pulled: the cells that are erased, and whether slot 2 was gone. Calls 4 to 11 read, slot by slot.
const ROWS: [(u8, u8, u8, u32, u8, bool); 9] = [
    (0b1111_1111, 9, 0b1111_1111, 99, 0, false),
    (0b1111_1111, 1, 0b1111_1111, 99, 0b0010_0010, false),
    (0b1011_0111, 9, 0b1111_1111, 99, 0b0100_1000, false),
    (0b1111_1111, 9, 0b1111_1111, 8, 0b0100_0100, true),
    (0b1111_1111, 9, 0b1111_1111, 9, 0b0100_0100, true),
    (0b1111_1111, 9, 0b0111_1111, 10, 0, false),
    (0b0101_1111, 0, 0b1111_1111, 7, 0b1111_0101, true),
    (0b1101_0111, 3, 0b0110_0011, 6, 0b0110_0000, true),
    (0b0111_0111, 9, 0b1000_1000, 4, 0b1000_1000, false),
];

// Attaches the four slots, and returns those that are live.
fn attach(rack: &mut MemRack, dead: u8) -> Slots {
    let mut live = Slots::empty();
    for slot in 0..4 {
        rack.attach(slot);
        if slot != dead {
            live.add(slot);
        }
    }
    live
}

// The cells are placed on the live slots, where they read good, and no others do.
fn check_placed<R: Abort + AllocGlobal>(
    rt: &R,
    rack: &mut MemRack,
    geometry: &Geometry,
    live: Slots,
    placed: u8,
)
    requires slots { geometry.now.n ≡ 4 }
    requires rows { geometry.now.r ≡ 2 }
    requires stripes { geometry.now.stripes ≡ 3 }
{
    let stripe = numbered(rt, geometry, 1);
    let redo = redo_of(geometry, placed);
    assert!(rt; place(rack, geometry, live, &redo, &stripe) == Slots::empty());
    for number in 0..8u8 {
        let got = rack.read(number % 4, 15 + u32::from(number / 4), &mut [0; SECTOR]);
        let good = placed >> number & 1 == 1 && live.has(number % 4);
        assert!(rt; (got == Got::Good) == good, "{placed} {number}");
    }
}

// A wanted cell is given, left where it can't be read, or of a slot that was gone.
fn check_cells<R: Abort>(rt: &R, into: &Stripe, given: u8, gone: bool)
    requires rows { into.now.rows ≡ 2 }
    requires chunks { into.now.chunks ≡ 4 }
{
    for number in 0..8u8 {
        let byte = if given >> number & 1 == 1 { 1 } else { 101 } + number;
        let cell = *into.cell(number / 4, number % 4);
        assert!(rt;
            cell == [byte; SECTOR] || gone && number % 4 == 2,
            "{given} {number}"
        );
    }
}

// The wanted cells are gathered but for those that are erased, and all cells if all are wanted.
fn check_gathered<R: Abort + AllocGlobal>(
    rt: &R,
    rack: &mut MemRack,
    geometry: &Geometry,
    live: Slots,
    wanted: u8,
    erased: u8,
    gone: bool,
)
    requires slots { geometry.now.n ≡ 4 }
    requires rows { geometry.now.r ≡ 2 }
    requires stripes { geometry.now.stripes ≡ 3 }
{
    let mut into = numbered(rt, geometry, 101);
    let found = gather_cells(rack, geometry, live, 2, &cells(wanted), &mut into);
    assert!(rt; found.erased == cells(erased), "{wanted} {erased}");
    let is_gone = (found.gone.has(2), found.gone.count());
    assert!(rt; is_gone == (gone, u8::from(gone)), "{wanted} {erased}");
    check_cells(rt, &into, wanted & !erased, gone);
    let all = gather(rack, geometry, live, 2, &mut into);
    assert!(rt; wanted < 255 || all.erased == found.erased);
}

#[test]
fn cells_are_placed_and_gathered(rt: HostRuntime) {
    let geometry = geometry(&rt);
    for (placed, dead, wanted, at, erased, gone) in ROWS {
        let mut rack = new_rack(&rt, 4, 17, &[], 99);
        let live = attach(&mut rack, dead);
        check_placed(&rt, &mut rack, &geometry, live, placed);
        let what = What::Pull { slot: 2 };
        let mut left = crashed(&rt, rack, &[], &[Act { at, what }], 99);
        attach(&mut left, dead);
        check_gathered(&rt, &mut left, &geometry, live, wanted, erased, gone);
    }
}
