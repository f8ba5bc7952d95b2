ghost use Rattle.std.specs.Prelude.{◌≡◌, ◌<◌, All, length, slice_index};
ghost use Rattle.stair_mds.specs.Lagrange.{distances as distances_of, weight as weight_of};

use stair_gf::mul;

/// The product of p + c over the first `held` places c other than p.
pub(crate) fn weight(held: u8, place: u8) -> u8
    ensures { result ≡ weight_of held place }
{
    let mut product = 1;
    for c in 0..held {
        if c != place {
            product = mul(product, place ^ c);
        }
    }
    product
}

/// The product of x + p over the points p but point number `i`.
pub(crate) fn distances(points: &[u16], i: usize, x: u16) -> u8
    requires bytes { All (λ p. p < 256) points.now }
    requires byte { x < 256 }
    ensures { result ≡ distances_of (length points.now) (slice_index points.now) i x }
{
    let mut product = 1;
    for (j, point) in points.iter().enumerate() {
        if j != i {
            product = mul(product, (x ^ *point) as u8);
        }
    }
    product
}
