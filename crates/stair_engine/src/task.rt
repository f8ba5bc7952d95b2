ghost use Rattle.std.specs.Prelude.{◌≡◌, IfOk, IfErr, OnOk};
ghost use Rattle.stair_model.specs.Geometry.{IsFirstBrokenLimit, IsWithinLimits};
ghost use Rattle.stair_engine.specs.Task.{one_stripe as stripe_of};
ghost use Rattle.stair_command.specs.Encode.{by_of as by_of_method};

use stair_base::{Geometry, GeometryFault};
use stair_codec::By;
use stair_conf::{Method, Numbers};

/// The geometry of one stripe with these numbers, and a zero identity.
pub(crate) fn one_stripe(n: u64, m: u64, r: u64, e: &Numbers) -> Result<Geometry, GeometryFault>
    ensures ok { IfOk result (λ geometry. geometry ≡ stripe_of n m r e.now) }
    ensures within { OnOk result (IsWithinLimits (stripe_of n m r e.now)) }
    ensures broken { IfErr result (λ fault. IsFirstBrokenLimit (stripe_of n m r e.now) fault.limit) }
{
    Geometry::large(n, m, r, e.as_slice(), 1, [0; 16])
}

/// How a code encodes by this method.
pub(crate) fn by_of(method: Method) -> By
    ensures { result ≡ by_of_method method }
{
    match method {
        Method::Standard => By::Standard,
        Method::Up => By::Upstairs,
        Method::Down => By::Downstairs,
        Method::Fewest => By::Fewest,
    }
}
