//! What an opening does to an array, where no medium comes back.

ghost use Rattle.std.specs.Prelude.{◌≡◌, IsTrue, List, [], ◌∷◌, Result, Err};
ghost use Rattle.stair_model.specs.Geometry.{Geometry};
ghost use Rattle.stair_rack.specs.Crash.{CrashMayLeave};
ghost use Rattle.stair_rack.specs.History.{Happening, Made};
ghost use Rattle.stair_rack.specs.Media.{Image};
ghost use Rattle.stair_rack.specs.Moments.{IsMoment};
ghost use Rattle.stair_rack.specs.RackState.{RackState};
ghost use Rattle.stair_rack.specs.declared.watcher.Event.{Event};
ghost use Rattle.stair_member.specs.Membership.{IsMembership};
ghost use Rattle.stair_state.specs.State.{State};
ghost use Rattle.stair_invariant.specs.Returning.{StaysWithinTolerance, NoneReturns};
ghost use Rattle.stair_array.specs.Machine.{EpochsSpent, Recover, Refusal};
ghost use Rattle.stair_array.specs.Promise.{Begun, IsInState, LeadsStep, Performs, Seen, is_open};

/// What an opening leads to. It does nothing.
pub fn recovered_laws()
    // What is promised of a step is so of it: it is one of the machine, refused or not, what a crash leaves at a moment of it is
    // what one within the step leaves, and it is done where it can be.
    ensures promise { (answer : Result Geometry Refusal) (events : List Event) (x y : Seen)
        (p : Performs Recover answer events x y) → IsMembership p.was.member →
        LeadsStep NoneReturns p.was.member Recover answer x y }
    // Within tolerance none is refused, unless no epoch is left: enough slots are, and no body of a redo is lost.
    ensures refused { (answer : Result Geometry Refusal) (events : List Event)
        (refusal : Refusal) (x y : Seen) (p : Performs Recover answer events x y) →
        IsMembership p.was.member → IsTrue y.told.honest → (before : List Happening)
        (s : State) → IsInState NoneReturns before s x →
        StaysWithinTolerance NoneReturns s.geometry (is_open x.session) before y.told.history →
        answer ≡ Err refusal → refusal ≡ EpochsSpent }
    // Over what a crash leaves of it the next session begins in the same state, so that an opening in which it is cut again is
    // one of this state too.
    ensures again { (answer : Result Geometry Refusal) (events : List Event) (x y : Seen)
        (p : Performs Recover answer events x y) → IsMembership p.was.member →
        IsTrue y.told.honest → (before : List Happening) (s : State) →
        IsInState NoneReturns before s x → (c : List Happening) (image : Image)
        (first : RackState) → IsMoment x.told.history c y.told.history →
        StaysWithinTolerance NoneReturns s.geometry (is_open x.session) before c → CrashMayLeave c image →
        first.history ≡ Made image ∷ [] → IsInState NoneReturns (Made image ∷ []) s
        (record { told = first; session = Begun }) }
{}
