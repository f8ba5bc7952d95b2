use crate::check::check_of_blocks;
use crate::fault::Fault;
use crate::sectors::rack_here;
use stair_array::create;
use stair_base::{GATE_SECTOR, Geometry, SECTOR};
use stair_filerack::Lock;
use stair_rack::{Got, Rack};
use std::alloc::Global;
use std::fs::Files;

/// How many stripes of an array a round writes. Of eight devices with four rows, that is 64 cells.
const STRIPES: u64 = 2;

/// Creates an array with the stripes of so many rounds on the image files of the current folder. Returns a check of the gate
/// and of the last sector of its last device.
pub(crate) fn check_of_creating<F: Files + Drop>(
    rt: F,
    alloc: Global,
    rounds: u32,
) -> Result<u64, Fault>
where
    F::File: Lock,
{
    let mut rack = rack_here(rt, alloc)?;
    check_of_new_array(&mut rack, rounds)
}

/// Does the same on this rack.
fn check_of_new_array<R: Rack>(rack: &mut R, rounds: u32) -> Result<u64, Fault> {
    if rounds == 0 {
        return Ok(0);
    }
    let geometry = geometry_of(STRIPES * u64::from(rounds))?;
    create_on(rack, &geometry)?;
    check_of_last(rack, &geometry)
}

/// The geometry of an array of so many stripes.
fn geometry_of(stripes: u64) -> Result<Geometry, Fault> {
    Geometry::large(8, 2, 4, &[1, 1, 2], stripes, [0; 16]).map_err(|_| Fault::Usage)
}

/// Creates an array of this geometry on the rack.
pub(crate) fn create_on<R: Rack>(rack: &mut R, geometry: &Geometry) -> Result<(), Fault> {
    create(rack, geometry).map_err(|_| Fault::Image)
}

/// Returns a check of the gate and of the last sector of slot 7.
fn check_of_last<R: Rack>(rack: &mut R, geometry: &Geometry) -> Result<u64, Fault> {
    let mut sectors = [[0xA5; SECTOR]; 2];
    for (sector, number) in sectors.iter_mut().zip([GATE_SECTOR, geometry.need() - 1]) {
        if rack.read(7, number, sector) != Got::Good {
            return Err(Fault::Image);
        }
    }
    Ok(check_of_blocks(&sectors))
}
