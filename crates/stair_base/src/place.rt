ghost use Rattle.std.specs.Prelude.{◌<◌};
ghost use Rattle.stair_model.specs.Cell.{IsPlaceOf};
ghost use Rattle.stair_model.specs.Geometry.{block_count};
ghost use Rattle.stair_base.specs.PlaceSteps.{HasBlocksFirst};

use crate::geometry::Geometry;

/// Where a block of the array lies: a cell of a stripe, in the chunk on the device of this slot.
#[derive(Clone, Copy, Debug, PartialEq, Eq)]
pub struct Place {
    /// The number of the stripe, below the geometry's stripes.
    pub stripe: u32,
    /// The row within the chunk, below r.
    pub row: u8,
    /// The number of the chunk in the stripe, below n.
    pub slot: u8,
}

impl Geometry {
    /// Where the block with this number lies; it is below the geometry's blocks, which are counted through the array.
    ///
    /// Each stripe holds u blocks, row by row: block b is block b mod u of stripe b div u.
    pub fn place_of(&self, block: u64) -> Place
        requires { block < block_count self.now }
        ensures place { IsPlaceOf self.now block result.stripe result.row result.slot }
        ensures stripe { result.stripe < self.now.stripes }
    {
        let u = u64::from(self.u());
        let stripe = (block / u) as u32;
        // the blocks before this one, from the row on
        let mut left = (block % u) as u16;
        for row in 0..self.r() {
            let blocks = u16::from(blocks_in_row(self, row));
            if left < blocks {
                let slot = left as u8;
                return Place { stripe, row, slot };
            }
            left -= blocks;
        }
        unreachable!()
    }
}

/// How many blocks this row holds. They stand in its first chunks, since the global parities of a later class reach up
/// at least as far as those of an earlier one.
fn blocks_in_row(geometry: &Geometry, row: u8) -> u8
    requires { row < geometry.now.r }
    ensures { HasBlocksFirst geometry.now row result }
{
    let first_global_chunk = geometry.n() - geometry.m() - geometry.classes();
    let mut classes_below = geometry.classes();
    while classes_below > 0 && row >= geometry.r() - geometry.coverage(classes_below - 1) {
        classes_below -= 1;
    }
    first_global_chunk + classes_below
}
