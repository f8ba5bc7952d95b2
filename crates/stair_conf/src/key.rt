ghost use Rattle.std.specs.Prelude.{◌≡◌};
ghost use Rattle.stair_conf.specs.Config.{name_of};

/// A key of the geometry text, in the order in which the keys are looked at.
#[derive(Clone, Copy, Debug, PartialEq, Eq)]
pub enum Key {
    /// `n`: devices.
    N,
    /// `m`: row parities of a stripe.
    M,
    /// `r`: rows of a stripe.
    R,
    /// `e`: the coverage vector.
    E,
    /// `stripes`: stripes of the array.
    Stripes,
    /// `id`: the array's identity.
    Id,
}

impl Key {
    /// The key as the text has it.
    pub fn name(self) -> &'static str
        ensures { result.now ≡ name_of self }
    {
        match self {
            Key::N => "n",
            Key::M => "m",
            Key::R => "r",
            Key::E => "e",
            Key::Stripes => "stripes",
            Key::Id => "id",
        }
    }
}
