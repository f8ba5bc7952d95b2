//! The laws of the device layout: each sector that a device needs is for one part of it.

ghost use Rattle.std.specs.Prelude.{◌≡◌, ℕ, ◌+◌, ◌-◌, ◌<◌};
ghost use Rattle.stair_model.specs.Geometry.{Geometry, IsWithinLimits, sectors_needed};
ghost use Rattle.stair_model.specs.Device.{
  DevicePart,
  Superblock,
  Gate,
  Body,
  Chunk,
  IsOnDevice,
  sector_of,
  cell_sector,
};
ghost use Rattle.stair_model.specs.Examples.{four_devices, eight_devices};

/// Which sectors the parts of a device lie in, for every geometry within the limits. It does nothing.
///
/// The parts are the two superblock places, the gate, a sector of the journal's body for each cell of a stripe, and the
/// rows of the chunk of each stripe. No two parts share a sector, and they fill the sectors that the device needs, of
/// which the last one holds the last row of the last stripe.
pub fn sector_laws()
    ensures in_range { (g : Geometry) (part : DevicePart) → IsWithinLimits g → IsOnDevice g part →
        sector_of g part < sectors_needed g }
    // two parts in one sector are one part
    ensures one_part { (g : Geometry) (part part' : DevicePart) → IsWithinLimits g →
        IsOnDevice g part → IsOnDevice g part' → sector_of g part ≡ sector_of g part' →
        part ≡ part' }
    ensures has_part { (g : Geometry) (sector : ℕ) → IsWithinLimits g → sector < sectors_needed g →
        (part : DevicePart) × IsOnDevice g part × (sector_of g part ≡ sector) }
    ensures last { (g : Geometry) → IsWithinLimits g →
        cell_sector g (g.stripes - 1) (g.r - 1) + 1 ≡ sectors_needed g }
{}

/// Known sectors of two geometries, counted by hand from the text of the layout. It does nothing.
pub fn known_sectors()
    ensures four_first { (sector_of four_devices (Superblock 1) ≡ 1)
        × (sector_of four_devices Gate ≡ 2) }
    // eight cells of the journal's body, in sectors 3 to 10
    ensures four_body { (sector_of four_devices (Body 0 0) ≡ 3)
        × (sector_of four_devices (Body 0 3) ≡ 6)
        × (sector_of four_devices (Body 1 0) ≡ 7) × (sector_of four_devices (Body 1 3) ≡ 10) }
    // three stripes of two rows
    ensures four_chunks { (sector_of four_devices (Chunk 0 0) ≡ 11)
        × (sector_of four_devices (Chunk 0 1) ≡ 12)
        × (sector_of four_devices (Chunk 1 0) ≡ 13) × (sector_of four_devices (Chunk 2 1) ≡ 16)
        × (sectors_needed four_devices ≡ 17) }
    ensures eight_chunks { (sector_of eight_devices (Body 3 7) ≡ 34)
        × (sector_of eight_devices (Chunk 0 0) ≡ 35)
        × (sector_of eight_devices (Chunk 2 3) ≡ 46) }
{}
