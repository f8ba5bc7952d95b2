ghost use Rattle.std.specs.Prelude.{◌≡◌, ◌+◌, ◌*◌, ◌<◌};
ghost use Rattle.stair_model.specs.Costs.{downstairs_cost};
ghost use Rattle.stair_model.specs.Encoding.{IsEncodedFrom};
ghost use Rattle.stair_model.specs.Geometry.{classes, coverage, data_chunks};
ghost use Rattle.stair_model.specs.Stripe.{IsStripeOf};
ghost use Rattle.stair_down.specs.DownstairsSteps.{CompletesChunk, CompletesRow};

use crate::places::{chunk_places, row_places};
use stair_base::Stripe;
use stair_canon::Canon;
use stair_gf::Steps;
use std::sync::ledger::Ledger;

/// Solves the rows of the global parities in the intermediate chunk of this class, from the rows above them and the zeros
/// of the virtual rows.
///
/// It takes r steps for each row that the class covers.
fn solve_intermediate_chunk<L: Ledger>(canon: &mut Canon, class: u8, steps: &mut Steps<L>)
    requires { class < classes canon.old.geometry }
    ensures completes { CompletesChunk canon.old.geometry class canon.old canon.new }
    ensures cost { steps.new ≡ steps.old + canon.old.geometry.r
        * coverage canon.old.geometry class }
{
    let geometry = canon.geometry();
    let known = usize::from(geometry.r());
    let wanted = usize::from(geometry.coverage(class));
    let places = chunk_places(&geometry, class);
    canon.solve_chunk(
        u16::from(geometry.n() + class),
        &places.known[..known],
        &places.wanted[..wanted],
        steps,
    );
}

/// Solves the row parities of a row, its global parities, and the intermediate symbols beside its data cells.
///
/// It takes (n-m)(m+m') steps.
fn solve_row<L: Ledger>(canon: &mut Canon, row: u8, steps: &mut Steps<L>)
    requires { row < canon.old.geometry.r }
    ensures completes { CompletesRow canon.old.geometry row canon.old canon.new }
    ensures cost { steps.new ≡ steps.old
        + data_chunks canon.old.geometry * (canon.old.geometry.m + classes canon.old.geometry) }
{
    let geometry = canon.geometry();
    let known = usize::from(geometry.n() - geometry.m());
    let wanted = usize::from(geometry.m() + geometry.classes());
    let places = row_places(&geometry, row);
    canon.solve_row(
        u16::from(row),
        &places.known[..known],
        &places.wanted[..wanted],
        steps,
    );
}

/// Fills in the row parities and the global parities, so that the stripe is the codeword of its data cells.
///
/// The data cells are kept, and what the other cells held before doesn't count. The canonical stripe is solved downwards
/// (downstairs encoding of Li and Lee, STAIR Codes, FAST 2014): each row by the row code, which gives its row parities,
/// the intermediate symbols beside its data cells, and its global parities; and before the first row of a class's global
/// parities the rest of its intermediate chunk by the column code. That takes exactly (n-m)(m+m')·r + r·s steps, and no
/// memory.
pub fn encode_downstairs<L: Ledger>(canon: &mut Canon, stripe: &mut Stripe, steps: &mut Steps<L>)
    requires { IsStripeOf canon.old.geometry stripe.old }
    ensures encoded { IsEncodedFrom canon.old.geometry stripe.old stripe.new }
    ensures cost { steps.new ≡ steps.old + downstairs_cost canon.old.geometry }
    ensures geometry { canon.new.geometry ≡ canon.old.geometry }
{
    let geometry = canon.geometry();
    canon.load(stripe);
    for row in 0..geometry.r() {
        for class in 0..geometry.classes() {
            if row == geometry.r() - geometry.coverage(class) {
                solve_intermediate_chunk(canon, class, steps);
            }
        }
        solve_row(canon, row, steps);
    }
    canon.store_cells(canon.parities(), stripe);
}
