//! What an opening asks of the outside where media come back, and what a survey finds by it.

ghost use Rattle.std.specs.Prelude.{◌≡◌, ◌↔◌, ℕ, false, Err, IsTrue, List, None, Ok, Result};
ghost use Rattle.stair_model.specs.Geometry.{Geometry};
ghost use Rattle.stair_rack.specs.Answers.{IsHistory, Ran, any_call};
ghost use Rattle.stair_rack.specs.Crash.{CrashMayLeave, EachImage};
ghost use Rattle.stair_rack.specs.History.{Happening};
ghost use Rattle.stair_rack.specs.Media.{Image};
ghost use Rattle.stair_rack.specs.Moments.{IsMoment};
ghost use Rattle.stair_rack.specs.Offline.{IsAttached};
ghost use Rattle.stair_rack.specs.RackState.{RackState};
ghost use Rattle.stair_member.specs.Membership.{IsMembership, Membership};
ghost use Rattle.stair_member.specs.Reserve.{MayStand};
ghost use Rattle.stair_member.specs.Survey.{Surveys};
ghost use Rattle.stair_member.specs.declared.aim.EpochChange.TheVariants.{Fence};
ghost use Rattle.stair_member.specs.declared.fault.SurveyFault.{SurveyFault};
ghost use Rattle.stair_state.specs.Holding.{CurrentMedia, IsConsistentSince, IsConsistentUnderReassembly};
ghost use Rattle.stair_state.specs.Represents.{AreSteady, no_write};
ghost use Rattle.stair_state.specs.State.{State, without_seats};
ghost use Rattle.stair_state.specs.Tolerance.{IsTolerated, IsToleratedAlone, ToleratedSince};
ghost use Rattle.stair_invariant.specs.Mixed.{IsMixed, IsToleratedMixed};
ghost use Rattle.stair_invariant.specs.Returning.{CoversMedia, IsKnownWherever};
ghost use Rattle.stair_invariant.specs.Returning.{AnyReturns, StaysWithinTolerance, StaysWithinToleranceUnread, StandsFor, StandsForAlone};
ghost use Rattle.stair_invariant.specs.Effects.{Snapshot};
ghost use Rattle.stair_array.specs.Machine.{Refusal};
ghost use Rattle.stair_array.specs.Openings.{Recovers};
ghost use Rattle.stair_reinsert.specs.Opened.{IsOpenedAnywhere};
ghost use Rattle.stair_reinsert.specs.Beginning.{BeginsWherever};
ghost use Rattle.stair_reinsert.specs.Counted.{IsAlone, IsToleratedCounted};
ghost use Rattle.stair_reinsert.specs.Misled.{IsWorstSlot};
ghost use Rattle.stair_reinsert.specs.Still.{IsStill};
ghost use Rattle.stair_reinsert.specs.Found.{FindsMember, IsToleratedReassembly};

/// Tolerance of a stretch in which each slot may be seen at a moment of its own. It does nothing.
pub fn mixed_laws()
    // so each moment of it is within tolerance
    ensures moments { (g : Geometry) (before old h new : List Happening) →
        IsToleratedMixed g before old new → IsMoment old h new → IsTolerated g before h }
    // and where what fails at one moment counts as failed throughout it is so too
    ensures counted { (g : Geometry) (before old new : List Happening) →
        Ran any_call old new → IsToleratedMixed g before old new →
        IsToleratedCounted g before old new }
    // That no other array stands is asked of a stretch as it is asked of a moment (`others` of `IsWithinTolerance`): of one moment
    // both ask the same.
    ensures alone { (g : Geometry) (h : List Happening) →
        EachImage (λ image. (other : Geometry) → MayStand other image → other ≡ g) h
        ↔ IsAlone g h h }
    // and what is worst at its end is so alone
    ensures worst { (g : Geometry) (before old new : List Happening) (to : Image) →
        Ran any_call old new → IsToleratedMixed g before old new →
        ((j : ℕ) → IsWorstSlot before old new j (to j)) → IsToleratedAlone g to }
    // where the outside does nothing, and calls write nothing, it is tolerance of the moment at which it begins
    ensures still { (g : Geometry) (old new : List Happening) → IsHistory old →
        AreSteady g old → IsStill old new → IsTolerated g old old →
        IsToleratedMixed g old old new }
    // A session that is within tolerance so to its end keeps to all that is asked of one in which an array is opened.
    ensures asked { (g : Geometry) (before h : List Happening) → ToleratedSince g before h →
        IsToleratedMixed g before before h →
        StaysWithinTolerance AnyReturns g false before h × StaysWithinToleranceUnread AnyReturns g false before h }
    // whatever the outside does while calls write nothing, each slot at a moment of its own gives a reassembly of what was
    // there when it began, which alone is within tolerance
    ensures reassembly { (g : Geometry) (before old new : List Happening) (to : Image) →
        IsHistory old → Ran no_write old new → IsToleratedMixed g before old new →
        IsMixed before old new to → IsToleratedReassembly g old to }
{}

/// What a survey finds on an honest rack, in a session that began at `before`, whatever comes back meanwhile. It does nothing.
pub fn survey_laws()
    // it answers a member of the array, and each slot that is missing for it is among those that count as failed
    ensures finds { (g : Geometry) (before : List Happening) (old new : RackState)
        (answer : Result Membership SurveyFault) → Surveys answer old new → IsTrue new.honest →
        Ran any_call before old.history →
        (tolerated : IsToleratedMixed g before old.history new.history) →
        FindsMember g tolerated.failed answer }
    // the greatest draw that it saw is at least every epoch that a medium bore when it began, in a slot or outside
    ensures covers { (s : State) (current_media : CurrentMedia) (since : ℕ) (before : List Happening)
        (old new : RackState) (answer : Result Membership SurveyFault) (m : Membership) →
        Surveys answer old new → IsTrue new.honest → Ran any_call before old.history →
        IsConsistentSince s current_media since old.history →
        IsToleratedMixed s.geometry before old.history new.history → answer ≡ Ok m →
        CoversMedia s.geometry m.drawn old.history }
    // and its member knows all media at the end: their epochs are at most that draw, its own epoch names what it has, and the
    // medium in a slot that takes part and is attached is the only one of its slot that it means
    ensures known { (s : State) (current_media : CurrentMedia) (since : ℕ) (before : List Happening)
        (old new : RackState) (answer : Result Membership SurveyFault) (m : Membership) →
        Surveys answer old new → IsTrue new.honest → Ran any_call before old.history →
        IsConsistentSince s current_media since old.history →
        IsToleratedMixed s.geometry before old.history new.history → answer ≡ Ok m →
        EachImage (IsKnownWherever None m (IsAttached new.history)) new.history }
{}

/// How the first fence of an opening begins, on an honest rack, whatever came back while it was surveyed. It does nothing.
pub fn opening_laws()
    // It has all that a call begins with that establishes an epoch: on a rack that is consistent by the holders, since the epoch,
    // by which it was so when the survey began, marks and joined numbers aside.
    ensures begins { (s : State) (current_media : CurrentMedia) (since : ℕ) (before : List Happening)
        (old new : RackState) (answer : Result Membership SurveyFault) (m : Membership) →
        Surveys answer old new → IsTrue new.honest → Ran any_call before old.history →
        IsConsistentSince s current_media since old.history →
        IsToleratedMixed s.geometry before old.history new.history → IsMembership m →
        answer ≡ Ok m → BeginsWherever (without_seats s) current_media since Fence m new.history }
{}

/// What a recovery comes to, on an honest rack that was consistent however its media lay when the survey began, by the member that
/// it found. What is asked of the outside was kept up to the moment that is spoken of (`StaysWithinTolerance`). It does nothing.
pub fn recovery_laws()
    // Whatever a crash leaves at a moment of it is consistent under reassembly by itself, in the same state, seats aside, so that
    // the next opening finds it again.
    ensures moments { (s : State) (first : RackState) (u v : Snapshot)
        (answer : Result Geometry Refusal) → IsConsistentUnderReassembly s first.history →
        Surveys (Ok u.member) first u.told → IsMembership u.member → Recovers answer u v →
        IsTrue v.told.honest → (c : List Happening) →
        IsMoment u.told.history c v.told.history →
        StaysWithinTolerance AnyReturns s.geometry false first.history c → (image : Image) →
        CrashMayLeave c image → StandsForAlone AnyReturns (without_seats s) image }
    // Where it is refused, the rack is so in the end.
    ensures refused { (s : State) (first : RackState) (u v : Snapshot)
        (answer : Result Geometry Refusal) → IsConsistentUnderReassembly s first.history →
        Surveys (Ok u.member) first u.told → IsMembership u.member → Recovers answer u v →
        IsTrue v.told.honest → StaysWithinTolerance AnyReturns s.geometry false first.history v.told.history →
        (refusal : Refusal) → answer ≡ Err refusal →
        StandsFor AnyReturns (without_seats s) v.told.history }
    // Where it isn't, the array is open, and its session knows of all media what the steps after it begin with.
    ensures opens { (s : State) (first : RackState) (u v : Snapshot) (answer : Result Geometry Refusal) →
        IsConsistentUnderReassembly s first.history → Surveys (Ok u.member) first u.told →
        IsMembership u.member → Recovers answer u v → IsTrue v.told.honest →
        StaysWithinTolerance AnyReturns s.geometry false first.history v.told.history → (g : Geometry) →
        answer ≡ Ok g → (g ≡ s.geometry) × IsOpenedAnywhere s u.member first.history v }
{}
