ghost use Rattle.std.specs.Prelude.{◌≡◌};
ghost use Rattle.stair_member.specs.Reasons.{words_of};

/// Why a slot of an array isn't here, or that it is: of those that apply the first, in this order but for `Here`.
#[derive(Clone, Copy, Debug, PartialEq, Eq)]
pub enum Why {
    /// It is live.
    Here,
    /// It was gone to a call.
    Gone,
    /// Neither of its superblock places holds a superblock.
    NoSuper,
    /// Its superblock is of another array.
    OtherArray,
    /// Its superblock is of another slot.
    OtherSlot,
    /// The current superblock marks it Down.
    MarkedDown,
    /// Its device isn't the one that the current superblock means: they have other joined numbers.
    OtherJoined,
    /// It is rebuilt.
    Rebuilding,
}

impl Why {
    /// The words for it.
    pub fn words(self) -> &'static str
        ensures { result.now ≡ words_of self }
    {
        match self {
            Why::Here => "here",
            Why::Gone => "gone",
            Why::NoSuper => "no superblock",
            Why::OtherArray => "other array",
            Why::OtherSlot => "other slot",
            Why::MarkedDown => "marked down",
            Why::OtherJoined => "other joined",
            Why::Rebuilding => "rebuilding",
        }
    }
}
