ghost use Rattle.std.specs.Prelude.{◌≡◌};
ghost use Rattle.stair_codec.specs.Choice.{IsLeast};
ghost use Rattle.stair_plan.specs.PlanText.{encoder_name, plan_text};

use stair_codec::{Encoder, fewest};
use stair_watch::Line;

/// What the code of a geometry costs, for each stripe.
#[derive(Clone, Copy, Debug, PartialEq, Eq)]
pub struct Plan {
    /// Blocks of a stripe: at least 1.
    pub blocks: u64,
    /// Cells of a stripe, n·r.
    pub cells: u64,
    /// Steps of encoding a stripe upstairs.
    pub up: u64,
    /// Steps of encoding a stripe downstairs.
    pub down: u64,
    /// Steps of standard encoding of a stripe, which is the sum of the penalties of its blocks.
    pub standard: u64,
    /// The least penalty of a block, in cells: so many parities a write of the block touches.
    pub least: u64,
    /// The greatest penalty of a block, in cells.
    pub greatest: u64,
}

impl Plan {
    /// The encoder that takes the fewest steps; of several that do, the first of upstairs, downstairs and standard. It is
    /// the one that `By::Fewest` takes.
    pub fn fewest(&self) -> Encoder
        ensures { IsLeast self.now.standard self.now.up self.now.down result }
    {
        fewest(self.standard, self.up, self.down)
    }

    /// The plan in three lines, each with its end: blocks of how many cells, the steps of each encoder and the one with the
    /// fewest, and the penalties. It takes no memory.
    pub fn text(&self) -> Line
        ensures { result ≡ plan_text self.now }
    {
        let mut text = Line::new();
        text.push_named(b"blocks ", self.blocks);
        text.push_named(b" of ", self.cells);
        text.push_named(b"\nsteps up ", self.up);
        text.push_named(b" down ", self.down);
        text.push_named(b" standard ", self.standard);
        text.push(b" fewest ");
        text.push(name_of(self.fewest()));
        text.push_named(b"\npenalty least ", self.least);
        text.push_named(b" greatest ", self.greatest);
        text.push_named(b" sum ", self.standard);
        text.push(b"\n");
        text
    }
}

/// The word of an encoder.
fn name_of(encoder: Encoder) -> &'static [u8]
    ensures { result.now ≡ encoder_name encoder }
{
    match encoder {
        Encoder::Upstairs => b"up",
        Encoder::Downstairs => b"down",
        Encoder::Standard => b"standard",
    }
}
