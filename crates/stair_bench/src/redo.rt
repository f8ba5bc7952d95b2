// Redos of a block's dependents, on image files.
ghost use Rattle.std.specs.Prelude.{◌≡◌, ◌<◌};
ghost use Rattle.stair_model.specs.Stripe.{IsStripeOf};
ghost use Rattle.stair_journal.specs.Redo.{IsRedo};

use crate::check::check_of_stripe;
use crate::counting::{Calls, Counting};
use crate::encoding::{middle_block, varied_stripe};
use crate::fault::Fault;
use crate::sectors::{attach_first, rack_here};
use crate::varied::varied;
use stair_base::{CellSet, Geometry, Slots, Stripe, StripeCode};
use stair_codec::{By, Codec};
use stair_filerack::{FileRack, Lock};
use stair_gf::Steps;
use stair_journal::{Redo, close_gates, open_gates, write_body};
use stair_rack::Rack;
use stair_stripes::{gather, place};
use std::alloc::Global;
use std::fs::Files;
use std::sync::ledger::{Blank, Ledger};

/// Writes an encoded stripe to the image files of the current folder, and sets its middle block to other bytes so many times,
/// each time by a redo of the block's dependents. Returns a check of the stripe as read back, and the calls of these redos.
pub(crate) fn check_of_redoing<F: Files + Drop, L: Ledger>(
    rt: F,
    alloc: Global,
    geometry: &Geometry,
    rounds: u32,
    blank: Blank,
) -> Result<(u64, Calls), Fault>
where
    F::File: Lock,
    requires name { blank.name ≡ L.name }
    requires parts { blank.parts ≡ L.parts }
    requires some { 0 < L.parts }
{
    let rack = rack_here(rt, alloc)?;
    check_of_redoing_on::<FileRack<F>, L>(rack, alloc, geometry, rounds, blank)
}

/// The same on this rack.
fn check_of_redoing_on<R: Rack + Drop, L: Ledger>(
    rack: R,
    alloc: Global,
    geometry: &Geometry,
    rounds: u32,
    blank: Blank,
) -> Result<(u64, Calls), Fault>
    requires name { blank.name ≡ L.name }
    requires parts { blank.parts ≡ L.parts }
    requires some { 0 < L.parts }
{
    let mut stripe = varied_stripe(alloc, geometry)?;
    let mut code = Codec::new(alloc, geometry, By::Fewest)?;
    check_of_redoing_by::<R, Codec, L>(rack, alloc, geometry, &mut code, &mut stripe, rounds, blank)
}

/// The same on this rack, with this stripe, which this code encodes.
fn check_of_redoing_by<R: Rack + Drop, C: StripeCode, L: Ledger>(
    rack: R,
    alloc: Global,
    geometry: &Geometry,
    code: &mut C,
    stripe: &mut Stripe,
    rounds: u32,
    blank: Blank,
) -> Result<(u64, Calls), Fault>
    requires name { blank.name ≡ L.name }
    requires parts { blank.parts ≡ L.parts }
    requires some { 0 < L.parts }
    requires shape { C.shape code.old ≡ geometry.now }
    requires of { IsStripeOf geometry.now stripe.old }
{
    let mut rack = rack;
    let mut steps = Steps::<L>::new(blank);
    let live = attach_first(&mut rack, geometry.n())?;
    place_encoded(&mut rack, geometry, live, code, stripe, &mut steps)?;
    let dependents = update_middle(geometry, code, stripe, &mut steps);
    check_of_redos(rack, alloc, geometry, live, dependents, stripe, rounds)
}

/// Encodes the stripe, and changes all cells of stripe 0 to its cells, by a redo.
fn place_encoded<R: Rack, C: StripeCode, L: Ledger>(
    rack: &mut R,
    geometry: &Geometry,
    live: Slots,
    code: &mut C,
    stripe: &mut Stripe,
    steps: &mut Steps<L>,
) -> Result<(), Fault>
    requires shape { C.shape code.old ≡ geometry.now }
    requires stripe { IsStripeOf geometry.now stripe.old }
    ensures shape { C.shape code.new ≡ geometry.now }
    ensures stripe { IsStripeOf geometry.now stripe.new }
{
    code.encode(stripe, steps);
    redo_once(rack, geometry, live, geometry.cells(), stripe)
}

/// Sets the stripe's middle block to other bytes, and returns the cells that change with it.
fn update_middle<C: StripeCode, L: Ledger>(
    geometry: &Geometry,
    code: &mut C,
    stripe: &mut Stripe,
    steps: &mut Steps<L>,
) -> CellSet
    requires shape { C.shape code.old ≡ geometry.now }
    requires stripe { IsStripeOf geometry.now stripe.old }
    ensures redo { IsRedo geometry.now (record { stripe = 0; cells = result }) }
    ensures stripe { IsStripeOf geometry.now stripe.new }
{
    let middle = middle_block(geometry);
    code.update(stripe, middle.row, middle.slot, &varied(1023), steps);
    code.dependents(middle.row, middle.slot)
}

/// Changes these cells of stripe 0 to those of `stripe` so many times, each time by a redo. Returns the check of the stripe as
/// read back, and the calls of the redos.
fn check_of_redos<R: Rack + Drop>(
    rack: R,
    alloc: Global,
    geometry: &Geometry,
    live: Slots,
    cells: CellSet,
    stripe: &Stripe,
    rounds: u32,
) -> Result<(u64, Calls), Fault>
    requires redo { IsRedo geometry.now (record { stripe = 0; cells = cells }) }
    requires stripe { IsStripeOf geometry.now stripe.now }
{
    let mut rack = Counting::new(rack);
    for _round in 0..rounds {
        redo_once(&mut rack, geometry, live, cells, stripe)?;
    }
    let calls = rack.calls();
    let check = check_of_gathering(&mut rack, alloc, geometry, live)?;
    Ok((check, calls))
}

/// Changes these cells of stripe 0 to those of `stripe`, by a redo.
fn redo_once<R: Rack>(
    rack: &mut R,
    geometry: &Geometry,
    live: Slots,
    cells: CellSet,
    stripe: &Stripe,
) -> Result<(), Fault>
    requires redo { IsRedo geometry.now (record { stripe = 0; cells = cells }) }
    requires stripe { IsStripeOf geometry.now stripe.now }
{
    let redo = Redo { stripe: 0, cells };
    let is_body_written = writes_body(rack, geometry, live, &redo, stripe);
    let are_gates_open = opens_gates(rack, geometry, live, &redo);
    let are_cells_placed = places_cells(rack, geometry, live, &redo, stripe);
    let are_gates_closed = closes_gates(rack, live);
    if is_body_written && are_gates_open && are_cells_placed && are_gates_closed {
        Ok(())
    } else {
        Err(Fault::Image)
    }
}

/// Writes the body of a redo. Returns whether no slot was gone.
fn writes_body<R: Rack>(
    rack: &mut R,
    geometry: &Geometry,
    live: Slots,
    redo: &Redo,
    stripe: &Stripe,
) -> bool
    requires redo { IsRedo geometry.now redo.now }
    requires stripe { IsStripeOf geometry.now stripe.now }
{
    write_body(rack, geometry, live, redo, stripe).count() == 0
}

/// Opens the gates for a redo. Returns whether no slot was gone.
fn opens_gates<R: Rack>(rack: &mut R, geometry: &Geometry, live: Slots, redo: &Redo) -> bool
    requires { IsRedo geometry.now redo.now }
{
    open_gates(rack, live, geometry, redo).count() == 0
}

/// Writes the cells of a redo. Returns whether no slot was gone.
fn places_cells<R: Rack>(
    rack: &mut R,
    geometry: &Geometry,
    live: Slots,
    redo: &Redo,
    stripe: &Stripe,
) -> bool
    requires redo { IsRedo geometry.now redo.now }
    requires stripe { IsStripeOf geometry.now stripe.now }
{
    place(rack, geometry, live, redo, stripe).count() == 0
}

/// Closes the gates. Returns whether no slot was gone.
fn closes_gates<R: Rack>(rack: &mut R, live: Slots) -> bool {
    close_gates(rack, live).count() == 0
}

/// Returns a check of stripe 0 as read.
fn check_of_gathering<R: Rack>(
    rack: &mut R,
    alloc: Global,
    geometry: &Geometry,
    live: Slots,
) -> Result<u64, Fault>
    requires { 0 < geometry.now.stripes }
{
    let mut found = Stripe::new(alloc, geometry)?;
    let gathered = gather(rack, geometry, live, 0, &mut found);
    if gathered.erased.count() > 0 {
        return Err(Fault::Image);
    }
    Ok(check_of_stripe(geometry, &found))
}
