//! Products by shift and add, bit after bit: the yardstick for the calls that read tables.
ghost use Rattle.std.specs.Prelude.{◌≡◌, length};
ghost use Rattle.stair_model.specs.Field.{times_x, product};
ghost use Rattle.stair_gf.specs.AddsMultiple.{AddsMultiple};

/// x·a: a shift by one place, and where x^8 comes up, it is x^4 + x^3 + x^2 + 1.
fn double(a: u8) -> u8
    ensures { result ≡ times_x a }
{
    if a < 0x80 { a << 1 } else { (a << 1) ^ 0x1D }
}

/// The product a·b, by shift and add over the eight bits of `b`.
pub fn mul_plain(a: u8, b: u8) -> u8
    ensures { result ≡ product a b }
{
    let mut multiple = a;
    let mut bits = b;
    let mut sum = 0;
    for _ in 0u8..8 {
        if bits & 1 == 1 {
            sum ^= multiple;
        }
        multiple = double(multiple);
        bits >>= 1;
    }
    sum
}

/// Adds by·from to `into`, byte by byte by [`mul_plain`]. Both slices have the same length, in
/// bytes.
pub fn mul_add_plain(into: &mut [u8], from: &[u8], by: u8)
    requires { length into.old ≡ length from.now }
    ensures { AddsMultiple into.old into.new from.now by }
{
    for (k, byte) in into.iter_mut().enumerate() {
        *byte ^= mul_plain(by, from[k]);
    }
}
