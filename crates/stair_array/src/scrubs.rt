//! What a scrub of a stripe does to an array, where no medium comes back.

ghost use Rattle.std.specs.Prelude.{◌≡◌, ◌<◌, ℕ, IsTrue, List, Err};
ghost use Rattle.stair_rack.specs.History.{Happening};
ghost use Rattle.stair_rack.specs.declared.watcher.Event.{Event};
ghost use Rattle.stair_state.specs.State.{State};
ghost use Rattle.stair_invariant.specs.Returning.{StaysWithinTolerance, NoneReturns};
ghost use Rattle.stair_array.specs.Machine.{Answer, EpochsSpent, Refusal, ScrubStripe};
ghost use Rattle.stair_array.specs.Promise.{IsInState, LeadsStep, Performs, Seen, is_open};

/// What a scrub of a stripe leads to. It does nothing.
pub fn scrub_laws()
    // What is promised of a step is so of it: it is one of the machine, refused or not, what a crash leaves at a moment of it is
    // what one within the step leaves, and it is done where it can be.
    ensures promise { (t : ℕ) (answer : Answer (ScrubStripe t)) (events : List Event) (x y : Seen)
        (p : Performs (ScrubStripe t) answer events x y) →
        LeadsStep NoneReturns p.was.member (ScrubStripe t) answer x y }
    // Within tolerance no stripe of the array is refused, unless no epoch is left: what couldn't be read of it is covered, and
    // enough slots are left.
    ensures refused { (t : ℕ) (answer : Answer (ScrubStripe t)) (events : List Event)
        (refusal : Refusal) (x y : Seen) (p : Performs (ScrubStripe t) answer events x y) →
        IsTrue y.told.honest → (before : List Happening) (s : State) →
        IsInState NoneReturns before s x →
        StaysWithinTolerance NoneReturns s.geometry (is_open x.session) before y.told.history →
        t < s.geometry.stripes → answer ≡ Err refusal → refusal ≡ EpochsSpent }
{}
