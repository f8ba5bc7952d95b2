ghost use Rattle.std.specs.Prelude.{◌≡◌, ℕ, ◌+◌, ◌-◌, ◌*◌, ◌<◌, ◌≤◌, List, slice_index};
ghost use Rattle.stair_model.specs.CellSet.{HasCell, IsInStripe, cell_count, count_in_slot};
ghost use Rattle.stair_model.specs.Coverage.{AreSortedCounts, HasCoveredChunks, IsCovered};
ghost use Rattle.stair_model.specs.Geometry.{IsWithinLimits, data_chunks, greatest_coverage};
ghost use Rattle.stair_model.specs.Restoring.{SameHeld};
ghost use Rattle.stair_model.specs.Stripe.{IsStripeOf, IsWellFormed};
ghost use Rattle.stair_canon.specs.Order.{IsOrderOf, count_at};
ghost use Rattle.stair_up.specs.ErasedAlong.{erased_in_last, erased_in_row};
ghost use Rattle.stair_up.specs.SolveSteps.{FindsCells, FindsChunk, FindsLastChunks, FindsRow, FindsStretch, FindsStripe, FindsVirtualRows, Keeps};

use crate::light_rows::solve_light_rows;
use crate::rows::rows_by_need;
use stair_base::{CellSet, Stripe};
use stair_canon::{Canon, Order};
use stair_gf::Steps;
use stair_mds::numbers_from;
use std::sync::ledger::Ledger;

/// Solves the erased cells of an order in a stripe from all others.
///
/// It takes n-m steps for each erased cell, and r(n-m) for each virtual symbol of a chunk: of these each of n-m chunks has
/// as many as the m+1st chunk by falling numbers has erased cells.
pub(crate) fn solve_erased<L: Ledger>(
    canon: &mut Canon,
    stripe: &mut Stripe,
    order: &Order,
    steps: &mut Steps<L>,
)
    requires stripe { IsStripeOf canon.old.geometry stripe.old }
    requires order { IsOrderOf canon.old.geometry order.now }
    requires covered { HasCoveredChunks canon.old.geometry order.now.erased }
    ensures found { FindsStripe canon.old.geometry order.now.erased stripe.old stripe.new }
    ensures held { SameHeld canon.old.geometry order.now.erased stripe.new stripe.old }
    ensures shape { IsStripeOf canon.old.geometry stripe.new }
    ensures well_formed { IsWellFormed stripe.new }
    ensures geometry { canon.new.geometry ≡ canon.old.geometry }
    ensures limits { IsWithinLimits canon.old.geometry }
    ensures cost { (c : List ℕ) → AreSortedCounts canon.old.geometry order.now.erased c →
        steps.new ≡ steps.old + data_chunks canon.old.geometry
        * (canon.old.geometry.r * slice_index c canon.old.geometry.m + cell_count order.now.erased) }
{
    canon.load(stripe);
    solve_loaded(canon, order, steps);
    canon.store_cells(&order.erased, stripe);
}

/// Solves the erased cells of a stripe from all others: first those of each row with at most m of them, by its own
/// parities, and then the rest.
pub(crate) fn solve_rows_and_rest<L: Ledger>(
    canon: &mut Canon,
    stripe: &mut Stripe,
    erased: &CellSet,
    steps: &mut Steps<L>,
)
    requires stripe { IsStripeOf canon.old.geometry stripe.old }
    requires cells { IsInStripe canon.old.geometry erased.now }
    requires covered { IsCovered canon.old.geometry erased.now }
    ensures found { FindsStripe canon.old.geometry erased.now stripe.old stripe.new }
    ensures held { SameHeld canon.old.geometry erased.now stripe.new stripe.old }
    ensures shape { IsStripeOf canon.old.geometry stripe.new }
    ensures well_formed { IsWellFormed stripe.new }
    ensures geometry { canon.new.geometry ≡ canon.old.geometry }
    ensures limits { IsWithinLimits canon.old.geometry }
{
    canon.load(stripe);
    solve_light_rows(canon, erased, steps);
    let geometry = canon.geometry();
    let order = Order::new(&geometry, erased.rest(&geometry));
    solve_loaded(canon, &order, steps);
    canon.store_cells(erased, stripe);
}

/// Solves the erased cells of an order in the loaded stripe from all others, by as many steps as `solve_erased` says.
fn solve_loaded<L: Ledger>(canon: &mut Canon, order: &Order, steps: &mut Steps<L>)
    requires order { IsOrderOf canon.old.geometry order.now }
    requires covered { HasCoveredChunks canon.old.geometry order.now.erased }
    ensures kept { Keeps order.now.erased canon.old canon.new }
    ensures found { FindsCells order.now.erased canon.old canon.new }
    ensures limits { IsWithinLimits canon.old.geometry }
    ensures cost { (c : List ℕ) → AreSortedCounts canon.old.geometry order.now.erased c →
        steps.new ≡ steps.old + data_chunks canon.old.geometry
        * (canon.old.geometry.r * slice_index c canon.old.geometry.m + cell_count order.now.erased) }
{
    let geometry = canon.geometry();
    solve_last_chunks(canon, order, steps);
    for row in 0..geometry.r() {
        solve_first_cells(canon, order, row, steps);
    }
}

/// Solves all chunks of the order but the first m, with as many virtual symbols as one of them has erased cells at most.
///
/// It goes from the chunk with the fewest erased cells up: each is solved from its other cells and its first virtual
/// symbols, one for each erased cell, and these from the chunks that were solved before it.
fn solve_last_chunks<L: Ledger>(canon: &mut Canon, order: &Order, steps: &mut Steps<L>)
    requires order { IsOrderOf canon.old.geometry order.now }
    requires covered { HasCoveredChunks canon.old.geometry order.now.erased }
    ensures kept { Keeps order.now.erased canon.old canon.new }
    ensures found { FindsLastChunks order.now.erased order.now.columns canon.old canon.new }
    ensures cost { let g = canon.old.geometry in steps.new ≡ steps.old
        + data_chunks g * (g.r * count_at order.now g.m
        + erased_in_last order.now g.n (data_chunks g)) }
{
    let geometry = canon.geometry();
    let m = usize::from(geometry.m());
    let n = usize::from(geometry.n());
    let height = order.count_at(&geometry, m);
    let mut solved = 0;
    for passed in 0..n - m {
        let place = n - 1 - passed;
        let count = order.count_at(&geometry, place);
        solve_virtual_rows(canon, order, place, solved, count, steps);
        solved = count;
        solve_chunk(
            canon,
            &order.erased,
            order.slot_at(&geometry, place),
            height,
            steps,
        );
    }
}

/// Solves the virtual symbols from `from` on and below `to` of the chunks from place m of the order up to this one, from
/// those of all later chunks and the zeros of the intermediate chunks.
fn solve_virtual_rows<L: Ledger>(
    canon: &mut Canon,
    order: &Order,
    place: usize,
    from: u8,
    to: u8,
    steps: &mut Steps<L>,
)
    requires order { IsOrderOf canon.old.geometry order.now }
    requires covered { HasCoveredChunks canon.old.geometry order.now.erased }
    requires place_from { canon.old.geometry.m ≤ place }
    requires place_in { place < canon.old.geometry.n }
    requires from { from ≤ to }
    requires to { to ≤ count_at order.now place }
    ensures kept { Keeps order.now.erased canon.old canon.new }
    ensures found { FindsVirtualRows order.now.erased order.now.columns place from to canon.old
        canon.new }
    ensures cost { steps.new ≡ steps.old + data_chunks canon.old.geometry
        * (place + 1 - canon.old.geometry.m) * (to - from) }
{
    if from == to {
        return;
    }
    let geometry = canon.geometry();
    let m = usize::from(geometry.m());
    let next = place + 1;
    let end = next + (usize::from(geometry.n()) - m);
    let rows = numbers_from(u16::from(geometry.r()) + u16::from(from));
    canon.solve_rows(
        &rows[..usize::from(to - from)],
        &order.columns[next..end],
        &order.columns[m..next],
        steps,
    );
}

/// Solves the erased cells of a chunk and its virtual symbols below `height`, from its other cells and its first virtual
/// symbols.
fn solve_chunk<L: Ledger>(
    canon: &mut Canon,
    erased: &CellSet,
    slot: u8,
    height: u8,
    steps: &mut Steps<L>,
)
    requires cells { IsInStripe canon.old.geometry erased.now }
    requires slot { slot < canon.old.geometry.n }
    requires count { count_in_slot erased.now slot ≤ height }
    requires height { height ≤ greatest_coverage canon.old.geometry }
    ensures kept { Keeps erased.now canon.old canon.new }
    ensures found { FindsChunk erased.now slot height canon.old canon.new }
    ensures cost { steps.new ≡ steps.old + canon.old.geometry.r * height }
{
    let r = canon.geometry().r();
    let rows = rows_by_need(erased, slot, r);
    let known = usize::from(r);
    let end = known + usize::from(height);
    canon.solve_chunk(u16::from(slot), &rows[..known], &rows[known..end], steps);
}

/// Solves the erased cells in this row of the first m chunks of the order, from all other chunks: those of chunks that stand
/// beside each other in the order at once.
fn solve_first_cells<L: Ledger>(canon: &mut Canon, order: &Order, row: u8, steps: &mut Steps<L>)
    requires order { IsOrderOf canon.old.geometry order.now }
    requires row { row < canon.old.geometry.r }
    ensures kept { Keeps order.now.erased canon.old canon.new }
    ensures found { FindsRow order.now.erased order.now.columns row canon.old canon.new }
    ensures cost { steps.new ≡ steps.old
        + data_chunks canon.old.geometry * erased_in_row order.now canon.old.geometry.m row }
{
    let geometry = canon.geometry();
    let m = usize::from(geometry.m());
    let mut start = 0;
    for place in 0..m {
        if !order.erased.has(row, order.slot_at(&geometry, place)) {
            solve_stretch(canon, order, row, start, place, steps);
            start = place + 1;
        }
    }
    solve_stretch(canon, order, row, start, m, steps);
}

/// Solves the cells in this row of the chunks from place `from` of the order up to `to`, which are among the first m and
/// erased, from all chunks after the first m.
fn solve_stretch<L: Ledger>(
    canon: &mut Canon,
    order: &Order,
    row: u8,
    from: usize,
    to: usize,
    steps: &mut Steps<L>,
)
    requires order { IsOrderOf canon.old.geometry order.now }
    requires row { row < canon.old.geometry.r }
    requires from { from ≤ to }
    requires to { to ≤ canon.old.geometry.m }
    requires erased { (p : ℕ) → from ≤ p → p < to →
        HasCell order.now.erased row (slice_index order.now.columns p) }
    ensures kept { Keeps order.now.erased canon.old canon.new }
    ensures found { FindsStretch order.now.columns row from to canon.old canon.new }
    ensures cost { steps.new ≡ steps.old + data_chunks canon.old.geometry * (to - from) }
{
    if from == to {
        return;
    }
    let geometry = canon.geometry();
    let known = &order.columns[usize::from(geometry.m())..usize::from(geometry.n())];
    canon.solve_row(u16::from(row), known, &order.columns[from..to], steps);
}
