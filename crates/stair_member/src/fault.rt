ghost use Rattle.std.specs.Prelude.{◌≡◌};
ghost use Rattle.stair_member.specs.Epochs.{of_fence};

use crate::why::Why;

/// Why a survey finds no array.
#[derive(Clone, Copy, Debug, PartialEq, Eq)]
pub enum SurveyFault {
    /// No array stands: of none do more than m slots hold a superblock that counts for it.
    NoArray,
    /// Two arrays stand, or more. These are the identities of the two whose lowest slots are lowest, in that order.
    TwoArrays([u8; 16], [u8; 16]),
    /// More than m of the array's slots aren't live. For each of the 32 slots the reason; one that the array hasn't has
    /// `Here`.
    TooFew([Why; 32]),
}

/// Why no epoch is established.
#[derive(Clone, Copy, Debug, PartialEq, Eq)]
pub enum FenceFault {
    /// More than m of the array's slots aren't live. For each of the 32 slots the reason; one that the array hasn't has
    /// `Here`.
    TooFew([Why; 32]),
    /// The greatest draw that was seen is the last one, 2^64 - 1.
    EpochsSpent,
}

/// Why a slot isn't admitted or promoted.
#[derive(Clone, Copy, Debug, PartialEq, Eq)]
pub enum AdmitFault {
    /// As in [`FenceFault`].
    TooFew([Why; 32]),
    /// As in [`FenceFault`].
    EpochsSpent,
    /// The slot was gone meanwhile. An epoch without it stands.
    Gone(u8),
}

impl From<FenceFault> for AdmitFault {
    ghost from_gives = { λ fault refusal. refusal ≡ of_fence fault };

    fn from(fault: FenceFault) -> AdmitFault {
        match fault {
            FenceFault::TooFew(whys) => AdmitFault::TooFew(whys),
            FenceFault::EpochsSpent => AdmitFault::EpochsSpent,
        }
    }
}
