ghost use Rattle.stair_codec.specs.Choice.{IsLeast};

/// How a code is to encode.
#[derive(Clone, Copy, Debug, PartialEq, Eq)]
pub enum By {
    /// By the parities' coefficients over the data cells.
    Standard,
    /// By upstairs decoding of the parities.
    Upstairs,
    /// Row by row, from the top down.
    Downstairs,
    /// By the encoder that takes the fewest steps for the geometry; of several that do, by the first of upstairs, downstairs
    /// and standard.
    Fewest,
}

/// One of the three encoders.
#[derive(Clone, Copy, Debug, PartialEq, Eq)]
pub enum Encoder {
    Standard,
    Upstairs,
    Downstairs,
}

/// The encoder with the fewest of these steps, and of several with them the first of upstairs, downstairs and standard.
pub fn fewest(standard: u64, upstairs: u64, downstairs: u64) -> Encoder
    ensures { IsLeast standard upstairs downstairs result }
{
    if upstairs <= downstairs && upstairs <= standard {
        Encoder::Upstairs
    } else if downstairs <= standard {
        Encoder::Downstairs
    } else {
        Encoder::Standard
    }
}
