ghost use Rattle.std.specs.Prelude.{◌≡◌, ◌<◌};
ghost use Rattle.stair_model.specs.Device.{body_sector, cell_sector};

use crate::geometry::Geometry;

/// The sector of a device that is the first of its two superblock places.
pub const FIRST_PLACE: u32 = 0;

/// The sector of a device that is the second of its two superblock places.
pub const SECOND_PLACE: u32 = 1;

/// The sector of a device in which its gate lies, after the two superblock places.
pub const GATE_SECTOR: u32 = 2;

/// The first sector of the journal's body, after the gate.
pub const BODY_START: u32 = 3;

impl Geometry {
    /// The sector of a device in which this row of its chunk of this stripe lies: 3 + n·r + stripe·r + row. The stripe
    /// is below the geometry's stripes, and the row below r. It is the same on each device.
    pub fn cell_sector(&self, stripe: u32, row: u8) -> u32
        requires stripe_in { stripe < self.now.stripes }
        requires row_in { row < self.now.r }
        ensures { result ≡ cell_sector self.now stripe row }
    {
        let rows = u32::from(self.r());
        BODY_START + u32::from(self.n()) * rows + stripe * rows + u32::from(row)
    }

    /// The sector of a device in which the journal's body has the cell in this row of this slot's chunk:
    /// 3 + row·n + slot. The row is below r, and the slot below n. It is the same on each device.
    pub fn body_sector(&self, row: u8, slot: u8) -> u32
        requires row_in { row < self.now.r }
        requires slot_in { slot < self.now.n }
        ensures { result ≡ body_sector self.now row slot }
    {
        BODY_START + u32::from(row) * u32::from(self.n()) + u32::from(slot)
    }
}
