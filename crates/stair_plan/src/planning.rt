ghost use Rattle.std.specs.Prelude.{◌≡◌, ◌<◌, IfOk};
ghost use Rattle.stair_model.specs.Geometry.{data_cells, IsWithinLimits};
ghost use Rattle.stair_plan.specs.Penalty.{IsPenalty, ArePenalties};
ghost use Rattle.stair_plan.specs.Plan.{IsPlanOf};

use crate::plans::Plan;
use stair_base::Geometry;
use stair_codec::{downstairs_steps, upstairs_steps};
use stair_std::Generator;
use std::alloc::{AllocError, Global};

/// What the code of this geometry costs. The error comes only for lack of memory.
///
/// It makes a [`Generator`], of which it counts the dependents of each block of a stripe, and lets it go.
pub fn plan(alloc: Global, geometry: &Geometry) -> Result<Plan, AllocError>
    ensures { IfOk result (IsPlanOf geometry.now) }
{
    let generator = Generator::new(alloc, geometry)?;
    let (least, greatest) = penalties(geometry, &generator);
    Ok(Plan {
        blocks: u64::from(geometry.u()),
        cells: u64::from(geometry.r()) * u64::from(geometry.n()),
        up: upstairs_steps(geometry),
        down: downstairs_steps(geometry),
        standard: generator.cost(),
        least: u64::from(least),
        greatest: u64::from(greatest),
    })
}

/// The least and the greatest penalty of a block of a stripe.
fn penalties(geometry: &Geometry, generator: &Generator) -> (u16, u16)
    requires { generator.now.geometry ≡ geometry.now }
    ensures { ArePenalties geometry.now (data_cells geometry.now) result.0 result.1 }
{
    let blocks = geometry.u();
    let mut least = penalty(geometry, generator, 0);
    let mut greatest = least;
    for block in 1..blocks {
        let penalty = penalty(geometry, generator, block);
        least = least.min(penalty);
        greatest = greatest.max(penalty);
    }
    (least, greatest)
}

/// The penalty of the block with this number, counted within the stripe: how many other cells change with it.
fn penalty(geometry: &Geometry, generator: &Generator, block: u16) -> u16
    requires of { generator.now.geometry ≡ geometry.now }
    requires limits { IsWithinLimits geometry.now }
    requires below { block < data_cells geometry.now }
    ensures { IsPenalty geometry.now block result }
{
    let place = geometry.place_of(u64::from(block));
    generator.dependents(place.row, place.slot).count() - 1
}
