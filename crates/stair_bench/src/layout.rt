ghost use Rattle.std.specs.Prelude.{replicate};
ghost use Rattle.stair_model.specs.Geometry.{IsWithinLimits, geometry_of};

use stair_base::Geometry;

/// A geometry whose stripes are encoded, of an array with one stripe.
#[derive(Clone, Copy)]
pub(crate) enum Layout {
    FourDevices,
    EightDevices,
    SixteenDevices,
    ThirtyTwoDevices,
}

impl Layout {
    /// Its devices, row parities, rows and coverage vector.
    pub(crate) fn name(self) -> &'static str {
        match self {
            Layout::FourDevices => "4-1-2-1",
            Layout::EightDevices => "8-2-4-1-1-2",
            Layout::SixteenDevices => "16-2-16-1-1-2",
            Layout::ThirtyTwoDevices => "32-3-32-1-2-4",
        }
    }

    pub(crate) fn geometry(self) -> Geometry {
        match self {
            Layout::FourDevices => geometry(4, 1, 2, &[1]),
            Layout::EightDevices => geometry(8, 2, 4, &[1, 1, 2]),
            Layout::SixteenDevices => geometry(16, 2, 16, &[1, 1, 2]),
            Layout::ThirtyTwoDevices => geometry(32, 3, 32, &[1, 2, 4]),
        }
    }
}

/// Returns the geometry of these numbers, which are within the limits.
fn geometry(n: u64, m: u64, r: u64, coverage: &[u64]) -> Geometry
    requires { IsWithinLimits (geometry_of n m r coverage.now 1 (replicate 16 0)) }
{
    Geometry::large(n, m, r, coverage, 1, [0; 16]).unwrap()
}
