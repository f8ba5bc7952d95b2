//! By which symbols the rows and the intermediate chunks are solved, and which ones they give.

ghost use Rattle.std.specs.Prelude.{◌<◌};
ghost use Rattle.stair_model.specs.Geometry.{classes, coverage};
ghost use Rattle.stair_down.specs.Places.{ArePlacesOfChunk, ArePlacesOfRow};

use stair_base::Geometry;
use stair_mds::{MAX_PLACES, numbers_from};

/// The places of the known symbols and those of the wanted ones. What stands after the last of either means nothing.
#[derive(Drop)]
pub struct Places {
    pub known: [u16; MAX_PLACES],
    pub wanted: [u16; MAX_PLACES],
}

/// The places of a row: n-m known chunks, and m+m' wanted ones.
///
/// The first n-m-m' chunks are known, and the m row parities are wanted. For each class, its chunk of the stripe is known
/// and its intermediate chunk is wanted in the rows above its global parities, and the other way round in theirs.
pub fn row_places(geometry: &Geometry, row: u8) -> Places
    ensures { ArePlacesOfRow geometry.now row result.known result.wanted }
{
    let parities = geometry.m();
    let first = geometry.n() - parities - geometry.classes();
    let mut known = numbers_from(0);
    let mut wanted = numbers_from(u16::from(geometry.n() - parities));
    for class in 0..geometry.classes() {
        if row >= geometry.r() - geometry.coverage(class) {
            known[usize::from(first + class)] = u16::from(geometry.n() + class);
            wanted[usize::from(parities + class)] = u16::from(first + class);
        }
    }
    Places { known, wanted }
}

/// The places of the intermediate chunk of a class: r known rows, and as many wanted ones as the class covers.
///
/// The rows of its global parities are wanted; the rows above them are known, and as many virtual ones, which are zero.
pub fn chunk_places(geometry: &Geometry, class: u8) -> Places
    requires { class < classes geometry.now }
    ensures { ArePlacesOfChunk geometry.now class result.known result.wanted }
{
    let rows = geometry.r();
    let covered = geometry.coverage(class);
    let mut known = numbers_from(0);
    for row in rows - covered..rows {
        known[usize::from(row)] = u16::from(row + covered);
    }
    Places {
        known,
        wanted: numbers_from(u16::from(rows - covered)),
    }
}
