ghost use Rattle.std.specs.Prelude.{◌≡◌};
ghost use Rattle.stair_model.specs.Costs.{downstairs_cost, upstairs_cost};

use stair_base::Geometry;

/// The steps of upstairs encoding: (n-m)(m·r+s) for the parities, and r(n-m)·e_max for virtual symbols.
pub fn upstairs_steps(geometry: &Geometry) -> u64
    ensures { result ≡ upstairs_cost geometry.now }
{
    let data_chunks = u64::from(geometry.n() - geometry.m());
    let r = u64::from(geometry.r());
    let parities = u64::from(geometry.m()) * r + u64::from(geometry.s());
    data_chunks * parities + r * data_chunks * u64::from(geometry.e_max())
}

/// The steps of downstairs encoding: (n-m)(m+m')·r for the rows, and r·s for the intermediate chunks.
pub fn downstairs_steps(geometry: &Geometry) -> u64
    ensures { result ≡ downstairs_cost geometry.now }
{
    let data_chunks = u64::from(geometry.n() - geometry.m());
    let solved = u64::from(geometry.m()) + u64::from(geometry.classes());
    let r = u64::from(geometry.r());
    data_chunks * solved * r + r * u64::from(geometry.s())
}
