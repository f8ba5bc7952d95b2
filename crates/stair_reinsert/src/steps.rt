//! What is promised of the steps of an array whose media come back.

ghost use Rattle.std.specs.Prelude.{◌≡◌, ◌<◌, ℕ, Bool, false, IsTrue, List, Err, Result};
ghost use Rattle.stair_model.specs.Geometry.{Geometry, block_count};
ghost use Rattle.stair_rack.specs.Answers.{IsHistory};
ghost use Rattle.stair_rack.specs.History.{Happening};
ghost use Rattle.stair_rack.specs.declared.watcher.Event.{Event};
ghost use Rattle.stair_member.specs.Membership.{IsMembership};
ghost use Rattle.stair_state.specs.State.{State};
ghost use Rattle.stair_invariant.specs.Returning.{AnyReturns, StaysWithinTolerance, StaysWithinToleranceUnread};
ghost use Rattle.stair_array.specs.Machine.{Answer, EpochsSpent, ReadBlock, RebuildNext, Recover};
ghost use Rattle.stair_array.specs.Machine.{Refusal, ScrubStripe, SetFrozen, SetLabel, Step};
ghost use Rattle.stair_array.specs.Machine.{WriteBlocks};
ghost use Rattle.stair_array.specs.Promise.{IsInState, LeadsStep, Performs, Seen, is_open};

/// What every step of an array leads to, on an honest rack, whichever media come back meanwhile. It does nothing.
pub fn step_laws()
    // What is promised of a step is so of each, of an opening too: within tolerance it is one of the machine, refused or not, what a
    // crash leaves at a moment of it is what one within the step leaves, and it is done where it can be.
    ensures every { (step : Step) (answer : Answer step) (events : List Event) (x y : Seen)
        (p : Performs step answer events x y) → (step ≡ Recover → IsMembership p.was.member) →
        LeadsStep AnyReturns p.was.member step answer x y }
{}

/// Why such a step is refused, on an honest rack that is in a state within tolerance. It does nothing.
pub fn refusal_laws()
    // No opening is refused, unless no epoch is left: enough slots are, and no body of a redo is lost.
    ensures recovers { (answer : Result Geometry Refusal) (events : List Event)
        (refusal : Refusal) (x y : Seen) (p : Performs Recover answer events x y) →
        IsMembership p.was.member → IsTrue y.told.honest → (before : List Happening)
        (s : State) → IsInState AnyReturns before s x →
        StaysWithinTolerance AnyReturns s.geometry (is_open x.session) before y.told.history →
        StaysWithinToleranceUnread AnyReturns s.geometry (is_open x.session) before y.told.history →
        answer ≡ Err refusal → refusal ≡ EpochsSpent }
    // No block of the array is refused to a read, unless no epoch is left,
    ensures reads { (b : ℕ) (answer : Answer (ReadBlock b)) (events : List Event)
        (refusal : Refusal) (x y : Seen) (p : Performs (ReadBlock b) answer events x y) →
        IsTrue y.told.honest → IsHistory x.told.history → (before : List Happening) (s : State) →
        IsInState AnyReturns before s x →
        StaysWithinTolerance AnyReturns s.geometry (is_open x.session) before y.told.history →
        b < block_count s.geometry → answer ≡ Err refusal → refusal ≡ EpochsSpent }
    // none of an array that isn't frozen to a write,
    ensures writes { (first : ℕ) (contents : List (List ℕ))
        (answer : Answer (WriteBlocks first contents)) (events : List Event) (refusal : Refusal)
        (x y : Seen) (p : Performs (WriteBlocks first contents) answer events x y) →
        IsTrue y.told.honest → IsHistory x.told.history → (before : List Happening) (s : State) →
        IsInState AnyReturns before s x →
        StaysWithinTolerance AnyReturns s.geometry (is_open x.session) before y.told.history →
        first < block_count s.geometry → s.content.frozen ≡ false → answer ≡ Err refusal →
        refusal ≡ EpochsSpent }
    // no stripe to a scrub,
    ensures scrubs { (t : ℕ) (answer : Answer (ScrubStripe t)) (events : List Event)
        (refusal : Refusal) (x y : Seen) (p : Performs (ScrubStripe t) answer events x y) →
        IsTrue y.told.honest → IsHistory x.told.history → (before : List Happening) (s : State) →
        IsInState AnyReturns before s x →
        StaysWithinTolerance AnyReturns s.geometry (is_open x.session) before y.told.history →
        t < s.geometry.stripes → answer ≡ Err refusal → refusal ≡ EpochsSpent }
    // no step of a rebuild,
    ensures rebuilds { (answer : Answer RebuildNext) (events : List Event) (refusal : Refusal)
        (x y : Seen) (p : Performs RebuildNext answer events x y) →
        IsTrue y.told.honest → IsHistory x.told.history → (before : List Happening) (s : State) →
        IsInState AnyReturns before s x →
        StaysWithinTolerance AnyReturns s.geometry (is_open x.session) before y.told.history →
        answer ≡ Err refusal → refusal ≡ EpochsSpent }
    // and neither a frozen mark nor a label.
    ensures freezes { (frozen : Bool) (answer : Answer (SetFrozen frozen)) (events : List Event)
        (refusal : Refusal) (x y : Seen) (p : Performs (SetFrozen frozen) answer events x y) →
        IsTrue y.told.honest → IsHistory x.told.history → (before : List Happening) (s : State) →
        IsInState AnyReturns before s x →
        StaysWithinTolerance AnyReturns s.geometry (is_open x.session) before y.told.history →
        answer ≡ Err refusal → refusal ≡ EpochsSpent }
    ensures labels { (label : List ℕ) (answer : Answer (SetLabel label)) (events : List Event)
        (refusal : Refusal) (x y : Seen) (p : Performs (SetLabel label) answer events x y) →
        IsTrue y.told.honest → IsHistory x.told.history → (before : List Happening) (s : State) →
        IsInState AnyReturns before s x →
        StaysWithinTolerance AnyReturns s.geometry (is_open x.session) before y.told.history →
        answer ≡ Err refusal → refusal ≡ EpochsSpent }
{}
