//! What a frozen mark and a label do to an array, where no medium comes back.

ghost use Rattle.std.specs.Prelude.{◌≡◌, ℕ, Bool, IsTrue, List, Err};
ghost use Rattle.stair_rack.specs.History.{Happening};
ghost use Rattle.stair_rack.specs.declared.watcher.Event.{Event};
ghost use Rattle.stair_state.specs.State.{State};
ghost use Rattle.stair_invariant.specs.Returning.{StaysWithinTolerance, NoneReturns};
ghost use Rattle.stair_array.specs.Machine.{Answer, EpochsSpent, Refusal, SetFrozen, SetLabel};
ghost use Rattle.stair_array.specs.Promise.{IsInState, LeadsStep, Performs, Seen, is_open};

/// What a frozen mark and a label lead to. It does nothing.
pub fn stamp_laws()
    // What is promised of a step is so of a frozen mark: it is one of the machine, refused or not, what a crash leaves at a moment
    // of it is what one within the step leaves, so that the mark is the one or the other, and it is done where it can be.
    ensures freeze { (frozen : Bool) (answer : Answer (SetFrozen frozen)) (events : List Event)
        (x y : Seen) (p : Performs (SetFrozen frozen) answer events x y) →
        LeadsStep NoneReturns p.was.member (SetFrozen frozen) answer x y }
    // Within tolerance it isn't refused, unless no epoch is left.
    ensures freeze_refused { (frozen : Bool) (answer : Answer (SetFrozen frozen))
        (events : List Event) (refusal : Refusal) (x y : Seen)
        (p : Performs (SetFrozen frozen) answer events x y) → IsTrue y.told.honest →
        (before : List Happening) (s : State) → IsInState NoneReturns before s x →
        StaysWithinTolerance NoneReturns s.geometry (is_open x.session) before y.told.history →
        answer ≡ Err refusal → refusal ≡ EpochsSpent }
    // Both are so of a label.
    ensures label { (label : List ℕ) (answer : Answer (SetLabel label)) (events : List Event)
        (x y : Seen) (p : Performs (SetLabel label) answer events x y) →
        LeadsStep NoneReturns p.was.member (SetLabel label) answer x y }
    ensures label_refused { (label : List ℕ) (answer : Answer (SetLabel label))
        (events : List Event) (refusal : Refusal) (x y : Seen)
        (p : Performs (SetLabel label) answer events x y) → IsTrue y.told.honest →
        (before : List Happening) (s : State) → IsInState NoneReturns before s x →
        StaysWithinTolerance NoneReturns s.geometry (is_open x.session) before y.told.history →
        answer ≡ Err refusal → refusal ≡ EpochsSpent }
{}
