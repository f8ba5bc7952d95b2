//! Racks that mislead a survey, and racks that wrong bodies leave behind.

ghost use Rattle.std.specs.Prelude.{◌∷◌, ◌≢◌, ℕ, IsTrue, List, [], Ok};
ghost use Rattle.stair_rack.specs.Answers.{IsHistory};
ghost use Rattle.stair_rack.specs.Crash.{CrashMayLeave};
ghost use Rattle.stair_rack.specs.History.{Happening, Made};
ghost use Rattle.stair_rack.specs.Media.{Image};
ghost use Rattle.stair_rack.specs.Moments.{IsMoment};
ghost use Rattle.stair_rack.specs.Stretch.{NothingReturned};
ghost use Rattle.stair_member.specs.Membership.{Membership};
ghost use Rattle.stair_state.specs.Blocks.{AreEncodingsOf, Codewords, with_blocks, zero_block, zero_blocks};
ghost use Rattle.stair_state.specs.Holding.{IsConsistentUnderReassembly};
ghost use Rattle.stair_state.specs.State.{State};
ghost use Rattle.stair_state.specs.Tolerance.{IsToleratedAlone};
ghost use Rattle.stair_invariant.specs.Mixed.{IsToleratedMixed};
ghost use Rattle.stair_invariant.specs.Returning.{AnyReturns, StaysWithinTolerance};
ghost use Rattle.stair_array.specs.Machine.{Answer, GivenBy, Step};
ghost use Rattle.stair_array.specs.Promise.{IsInState, LeadsStep, Seen, is_open};
ghost use Rattle.stair_reinsert.specs.Counted.{IsToleratedCounted};
ghost use Rattle.stair_reinsert.specs.Misled.{IsMisled, IsToleratedAtWorst, cut_fence, cut_promotion, device_of, five, made_of, one_after_the_other, only_pulled, rack_of, read_and_pulled, two_fences};
ghost use Rattle.stair_reinsert_examples.specs.Refused.{IsAllowed, IsRefused, IsRefusedSettled, JoinsTwo, NamesTwo, all_live, doubted, drawn, dropped, first_pulled, misjoined, put_back, undrawn, without_first, writing};

/// That less is asked of an opening isn't enough. It does nothing.
pub fn misled_laws()
    // where what has failed at one moment counts as failed throughout, and counted so all is within tolerance
    ensures counted { (words : Codewords) → AreEncodingsOf five zero_blocks words →
        IsMisled (rack_of words cut_promotion) (one_after_the_other words)
        × IsToleratedCounted five (made_of words cut_promotion) (made_of words cut_promotion)
        (one_after_the_other words) }
    // nor where each moment is, and also what is worst at the end
    ensures worst { (words : Codewords) → AreEncodingsOf five zero_blocks words →
        IsMisled (rack_of words cut_fence) (read_and_pulled words)
        × IsToleratedAtWorst five (made_of words cut_fence) (made_of words cut_fence)
        (read_and_pulled words) }
    // nor where all is counted so and nothing comes back
    ensures taken { (words : Codewords) → AreEncodingsOf five zero_blocks words →
        IsMisled (rack_of words two_fences) (only_pulled words)
        × IsToleratedCounted five (made_of words two_fences) (made_of words two_fences)
        (only_pulled words)
        × NothingReturned (made_of words two_fences) (only_pulled words) }
    // none of them is within tolerance of mixed images
    ensures mixed { (image : Image) (new : List Happening) → IsMisled image new →
        ¬ IsToleratedMixed five (Made image ∷ []) (Made image ∷ []) new }
{}

/// That consistency under reassembly refuses what some wrong bodies leave, by itself. It does nothing.
pub fn refused_laws()
    // an epoch that was raised without a draw
    ensures undrawn { (words : Codewords) →
        IsToleratedAlone five (first_pulled (device_of words undrawn))
        × NamesTwo five (first_pulled (device_of words undrawn))
        × IsRefused five (first_pulled (device_of words undrawn)) }
    // a medium that was taken for live by its slot number, without its joined number
    ensures misjoined { (before now : Codewords) →
        IsToleratedAlone five (put_back before now misjoined)
        × JoinsTwo five (put_back before now misjoined)
        × IsRefused five (put_back before now misjoined) }
    // gates that were read before the new epoch stands: the write is in doubt still
    ensures early { (old new : Codewords) (first second : List ℕ) →
        AreEncodingsOf five zero_blocks old →
        AreEncodingsOf five (with_blocks zero_blocks 0 (first ∷ second ∷ [])) new →
        first ≢ zero_block → IsToleratedAlone five (first_pulled (writing old new all_live))
        × IsRefusedSettled five (first_pulled (writing old new all_live)) }
    // So what is promised of a step refuses each body that leaves the first two at a moment of it,
    ensures moments { (image : Image) (step : Step) (answer : Answer step) (m : Membership)
        (x y : Seen) (before c : List Happening) (s : State) → IsRefused s.geometry image →
        LeadsStep AnyReturns m step answer x y → IsTrue y.told.honest →
        IsHistory x.told.history → IsInState AnyReturns before s x →
        IsMoment x.told.history c y.told.history →
        StaysWithinTolerance AnyReturns s.geometry (is_open x.session) before c → ¬ CrashMayLeave c image }
    // and each that leaves the last at the end of a step that is done, as of an opening.
    ensures done { (image : Image) (step : Step) (given : GivenBy step) (m : Membership)
        (x y : Seen) (before : List Happening) (s : State) → IsRefusedSettled s.geometry image →
        LeadsStep AnyReturns m step (Ok given) x y → IsTrue y.told.honest →
        IsHistory x.told.history → IsHistory y.told.history → IsInState AnyReturns before s x →
        StaysWithinTolerance AnyReturns s.geometry (is_open x.session) before y.told.history →
        ¬ CrashMayLeave y.told.history image }
{}

/// That what right bodies leave in the same histories is consistent. So it isn't the histories that are refused. It does nothing.
pub fn allowed_laws()
    // the next epoch is above the one that was drawn
    ensures drawn { (words : Codewords) → AreEncodingsOf five zero_blocks words →
        IsAllowed (first_pulled (device_of words drawn)) }
    // a medium that was replaced isn't live, whichever stripes its chunk is of
    ensures dropped { (before now : Codewords) → AreEncodingsOf five zero_blocks now →
        IsAllowed (put_back before now dropped) }
    // a write is in doubt while an open gate may come back
    ensures doubted { (old new : Codewords) (first second : List ℕ) →
        AreEncodingsOf five zero_blocks old →
        AreEncodingsOf five (with_blocks zero_blocks 0 (first ∷ second ∷ [])) new →
        IsConsistentUnderReassembly (doubted first second)
        (Made (first_pulled (writing old new all_live)) ∷ []) }
    // and it wasn't done, though that may come back, once an epoch stands without it
    ensures late { (old new : Codewords) → AreEncodingsOf five zero_blocks old →
        IsAllowed (first_pulled (writing old new without_first)) }
{}
