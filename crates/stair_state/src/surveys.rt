// What a survey finds of a rack that represents a state.
ghost use Rattle.std.specs.Prelude.{◌≡◌, ◌<◌, ℕ, IsTrue, None, List, Result, Ok};
ghost use Rattle.stair_rack.specs.Answers.{Ran, any_call};
ghost use Rattle.stair_rack.specs.History.{Happening, slot_state};
ghost use Rattle.stair_rack.specs.Offline.{IsHeld};
ghost use Rattle.stair_rack.specs.Stretch.{NothingReturned};
ghost use Rattle.stair_member.specs.Fencing.{IsBegun};
ghost use Rattle.stair_member.specs.Membership.{IsHere, IsMembership, Membership, why_of};
ghost use Rattle.stair_member.specs.Survey.{Surveys};
ghost use Rattle.stair_rack.specs.RackState.{RackState};
ghost use Rattle.stair_member.specs.declared.fault.SurveyFault.{SurveyFault};
ghost use Rattle.stair_member.specs.declared.why.Why.TheVariants.{Rebuilding};
ghost use Rattle.stair_state.specs.Represents.{Represents};
ghost use Rattle.stair_state.specs.State.{State};
ghost use Rattle.stair_state.specs.Surveyed.{CoversAll, FindsArray, IsLeftShut, IsOwnOrBare, MarksByReasons, NamesContent};
ghost use Rattle.stair_state.specs.Tolerance.{ToleratedSince};

/// What a survey finds of an array. It does nothing.
pub fn survey_laws()
    // A rack that represents a state, is within tolerance since the session began and gets no medium back: the survey
    // finds the array of the state.
    ensures found { (s : State) (before : List Happening) (old new : RackState)
        (answer : Result Membership SurveyFault) → Surveys answer old new → IsTrue new.honest →
        Ran any_call before old.history → Represents s old.history →
        NothingReturned old.history new.history → ToleratedSince s.geometry before new.history →
        FindsArray s answer before old.history new.history }
    // its answer then covers each superblock that a slot bears in whatever a crash at its end may leave
    ensures covers { (s : State) (before : List Happening) (old new : RackState)
        (answer : Result Membership SurveyFault) (m : Membership) → Surveys answer old new →
        IsTrue new.honest → Ran any_call before old.history → Represents s old.history →
        NothingReturned old.history new.history → ToleratedSince s.geometry before new.history →
        answer ≡ Ok m → CoversAll s.geometry m new.history }
    // and a call that establishes an epoch may begin with it
    ensures begun { (s : State) (before : List Happening) (old new : RackState)
        (answer : Result Membership SurveyFault) (m : Membership) → Surveys answer old new →
        IsTrue new.honest → Ran any_call before old.history → Represents s old.history →
        NothingReturned old.history new.history → ToleratedSince s.geometry before new.history →
        IsMembership m → answer ≡ Ok m → IsBegun None m new.history }
    // its marks are those of the reasons, where a slot's medium is the one that its epoch means
    ensures marked { (s : State) (before : List Happening) (old new : RackState)
        (answer : Result Membership SurveyFault) (m : Membership) → Surveys answer old new →
        IsTrue new.honest → Ran any_call before old.history → Represents s old.history →
        NothingReturned old.history new.history → ToleratedSince s.geometry before new.history →
        IsMembership m → answer ≡ Ok m → MarksByReasons m new.history }
    // and each slot that takes part is held since the survey began
    ensures held { (s : State) (before : List Happening) (old new : RackState)
        (answer : Result Membership SurveyFault) (m : Membership) → Surveys answer old new →
        IsTrue new.honest → Ran any_call before old.history → Represents s old.history →
        NothingReturned old.history new.history → ToleratedSince s.geometry before new.history →
        answer ≡ Ok m → (j : ℕ) → IsHere m j → IsHeld old.history new.history j }
    // it has the medium that it had then, or is bare, whatever the rack represents
    ensures own { (old new : RackState) (answer : Result Membership SurveyFault) (m : Membership) →
        Surveys answer old new → IsTrue new.honest → NothingReturned old.history new.history →
        answer ≡ Ok m → (j : ℕ) → IsHere m j →
        IsOwnOrBare (slot_state old.history j) (slot_state new.history j) }
    // the gate of one that is rebuilt is closed in whatever a crash at the survey's end may leave
    ensures rebuilding { (s : State) (before : List Happening) (old new : RackState)
        (answer : Result Membership SurveyFault) (m : Membership) → Surveys answer old new →
        IsTrue new.honest → Ran any_call before old.history → Represents s old.history →
        NothingReturned old.history new.history → ToleratedSince s.geometry before new.history →
        answer ≡ Ok m → (j : ℕ) → j < m.array.geometry.n → why_of m j ≡ Rebuilding →
        IsLeftShut m.array.geometry new.history j }
    // and the frozen mark and the label of the answer are the state's, before or after the change in doubt
    ensures content { (s : State) (before : List Happening) (old new : RackState)
        (answer : Result Membership SurveyFault) (m : Membership) → Surveys answer old new →
        IsTrue new.honest → Ran any_call before old.history → Represents s old.history →
        NothingReturned old.history new.history → ToleratedSince s.geometry before new.history →
        answer ≡ Ok m → NamesContent s m.array }
{}
