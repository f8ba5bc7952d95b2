//! What an opening knows of an array: from a survey to its first epoch, and to the redo that a crash cut off.

ghost use Rattle.std.specs.Prelude.{◌≡◌, ◌⊎◌, ℕ, IsTrue, List, None, Option, Ok, Result};
ghost use Rattle.stair_model.specs.CellSet.{HasCell};
ghost use Rattle.stair_model.specs.Slots.{HasSlot, Slots, no_slots};
ghost use Rattle.stair_model.specs.Stripe.{Stripe, cell};
ghost use Rattle.stair_rack.specs.Answers.{Ran, any_call};
ghost use Rattle.stair_rack.specs.History.{Happening, slot_state, stopped};
ghost use Rattle.stair_rack.specs.Stretch.{NothingReturned};
ghost use Rattle.stair_rack.specs.RackState.{RackState};
ghost use Rattle.stair_rack.specs.Moments.{IsMoment};
ghost use Rattle.stair_member.specs.Establishing.{Fences};
ghost use Rattle.stair_member.specs.Fencing.{HasStood, IsBegun, IsFencing};
ghost use Rattle.stair_member.specs.Membership.{IsHere, IsMembership, Membership};
ghost use Rattle.stair_member.specs.Survey.{Surveys};
ghost use Rattle.stair_member.specs.declared.aim.EpochChange.TheVariants.{Fence};
ghost use Rattle.stair_member.specs.declared.fault.FenceFault.{FenceFault};
ghost use Rattle.stair_member.specs.declared.fault.SurveyFault.{SurveyFault};
ghost use Rattle.stair_journal.specs.Gate.{closed_gate};
ghost use Rattle.stair_journal.specs.Gates.{ReadsGates};
ghost use Rattle.stair_journal.specs.Journalling.{gate_writes};
ghost use Rattle.stair_journal.specs.declared.body.Body.{Body};
ghost use Rattle.stair_journal.specs.declared.gates.Gates.{Gates};
ghost use Rattle.stair_journal.specs.declared.redo.Redo.{Redo};
ghost use Rattle.stair_state.specs.Blocks.{Codewords};
ghost use Rattle.stair_state.specs.Redoing.{AtRest, Done, IsRedoing, Placing, Redoing, Stage, Uncommitted};
ghost use Rattle.stair_state.specs.Represents.{IsLargeEnough, Represents};
ghost use Rattle.stair_state.specs.State.{State};
ghost use Rattle.stair_state.specs.Tolerance.{IsTolerated, ToleratedSince};
ghost use Rattle.stair_invariant.specs.Effects.{AreLive, DoesStage, FindsBody, FindsRedo, FencesGone, Snapshot, Replays};
ghost use Rattle.stair_invariant.specs.InSession.{HasEpoch, IsBeside, IsInSession};
ghost use Rattle.stair_invariant.specs.Leading.{IsOpenAmid};
ghost use Rattle.stair_invariant.specs.Opening.{HasStage, IsFoundFor, IsRecovering, IsToldBy, opened_with};
ghost use Rattle.stair_invariant.specs.UnderWay.{IsInUse, IsUnderWay};

/// From a survey to a session. It does nothing.
pub fn opening_laws()
    // A survey of a rack that represents a state, within tolerance since the session began and with no medium back, finds
    // what an opening rests on.
    ensures found { (s : State) (before : List Happening) (old new : RackState)
        (answer : Result Membership SurveyFault) (m : Membership) → Surveys answer old new →
        IsTrue new.honest → Ran any_call before old.history → Represents s old.history →
        NothingReturned old.history new.history → ToleratedSince s.geometry before new.history →
        IsMembership m → answer ≡ Ok m → IsFoundFor s m before old.history new.history }
    // Its first fence begins with that member, and if it isn't refused its epoch stands.
    ensures fences { (m last : Membership) (answer : Result Slots FenceFault)
        (old new : RackState) (h : List Happening) → Fences no_slots m last answer old new →
        IsBegun None m old.history → IsTrue new.honest →
        IsMoment old.history h new.history → NothingReturned old.history h → (gone : Slots)
        × IsFencing Fence gone m last old.history h new.history }
    ensures stood { (m last : Membership) (fallen : Slots) (old new : RackState) →
        Fences no_slots m last (Ok fallen) old new → IsBegun None m old.history →
        IsTrue new.honest → NothingReturned old.history new.history → (gone : Slots)
        × HasStood Fence gone m last old.history new.history }
    // Then its epoch is the session's,
    ensures begins { (s : State) (m last : Membership) (before old mid new : List Happening)
        (gone : Slots) → IsFoundFor s m before old mid → HasStood Fence gone m last mid new →
        ¬ IsTrue (stopped new) → HasEpoch last new }
    // and the slots in use are large enough.
    ensures large { (s : State) (m last : Membership) (before old mid new : List Happening)
        (gone : Slots) (j : ℕ) → IsFoundFor s m before old mid →
        HasStood Fence gone m last mid new → ¬ IsTrue (stopped new) → IsInUse last new j →
        IsLargeEnough s.geometry (slot_state new j).size }
    // What lasts in the midst of a redo is so then.
    ensures amid { (s : State) (m last : Membership) (before old mid new : List Happening)
        (gone : Slots) → IsFoundFor s m before old mid → HasStood Fence gone m last mid new →
        ¬ IsTrue (stopped new) →
        IsOpenAmid before (opened_with last) new }
    // Within tolerance the slots in use are at rest, or in a stage of a redo, from the stripes of the state before or after
    // the change in doubt to one of the two;
    ensures ends { (s : State) (m last : Membership) (before old mid new : List Happening)
        (gone : Slots) (found : IsFoundFor s m before old mid) →
        HasStood Fence gone m last mid new → ¬ IsTrue (stopped new) →
        IsTolerated last.array.geometry before new →
        HasStage s.geometry found.represents.encodings.old found.represents.encodings.new
        (IsInUse last new) new new }
    // from there a recovery goes on.
    ensures recovers { (s : State) (m last : Membership) (before old mid new : List Happening)
        (gone : Slots) (found : IsFoundFor s m before old mid) →
        HasStood Fence gone m last mid new → ¬ IsTrue (stopped new) →
        IsTolerated last.array.geometry before new → (a : Redoing) × (stage : Stage)
        × IsRecovering a stage found.represents.encodings.old found.represents.encodings.new
        new last new }
    // It is where it was after calls beside its redos, as reads are, and after slots that were gone are left out.
    ensures beside { (a : Redoing) (stage : Stage) (old_words new_words : Codewords)
        (start : List Happening) (m : Membership) (old new : List Happening) →
        IsRecovering a stage old_words new_words start m old → Ran (IsBeside m) old new →
        NothingReturned old new → IsRecovering a stage old_words new_words start m new }
    ensures leaves { (a : Redoing) (stage : Stage) (old_words new_words : Codewords)
        (start : List Happening) (gone : Slots) (x y : Snapshot) → FencesGone gone None x y →
        IsRecovering a stage old_words new_words start x.member x.told.history →
        ((j : ℕ) → HasSlot gone j → IsHere x.member j) → IsTrue y.told.honest →
        NothingReturned x.told.history y.told.history → ¬ IsTrue (stopped y.told.history) →
        IsRecovering a stage old_words new_words start y.member y.told.history }
    // Once the gates of all live slots were read, and none was gone, they tell where it is: at rest with the same stripes where
    // none is open, and otherwise in the redo that was found.
    ensures located { (a : Redoing) (stage : Stage) (old_words new_words : Codewords)
        (before start : List Happening) (m : Membership) (live : Slots) (gates : Gates)
        (old new : RackState) → IsRecovering a stage old_words new_words start m old.history →
        AreLive m live → ReadsGates m.array.geometry live gates old new →
        IsTrue new.honest → NothingReturned old.history new.history →
        ((j : ℕ) → ¬ HasSlot gates.gone j) →
        IsTolerated m.array.geometry before new.history → (now : Stage)
        × IsRecovering a now old_words new_words start m new.history
        × IsToldBy gates.redo gates.opened a now start m new.history }
    // So they do where slots that were gone were left out, and the gates read again, if no epoch was refused.
    ensures finds { (a : Redoing) (stage : Stage) (old_words new_words : Codewords)
        (before start : List Happening) (redo : Option Redo) (opened : Slots) (x y : Snapshot) →
        FindsRedo redo opened None x y →
        IsRecovering a stage old_words new_words start x.member x.told.history →
        IsTrue y.told.honest → NothingReturned x.told.history y.told.history →
        ¬ IsTrue (stopped y.told.history) →
        IsTolerated y.member.array.geometry before y.told.history → (now : Stage)
        × IsRecovering a now old_words new_words start y.member y.told.history
        × IsToldBy redo opened a now start y.member y.told.history }
    // The body of the redo is then read with the cells of its new stripes. Within tolerance none is lost.
    ensures body { (a : Redoing) (stage : Stage) (old_words new_words : Codewords)
        (before start : List Happening) (redo : Option Redo) (opened : Slots) (body : Body)
        (was into : Stripe) (x y : Snapshot) → FindsBody a.redo body was into None x y →
        IsRecovering a stage old_words new_words start x.member x.told.history →
        IsToldBy redo opened a stage start x.member x.told.history → IsRedoing a →
        ((stage ≡ Uncommitted) ⊎ (stage ≡ Placing)) → IsTrue y.told.honest →
        NothingReturned x.told.history y.told.history → ¬ IsTrue (stopped y.told.history) →
        IsTolerated y.member.array.geometry before y.told.history →
        IsRecovering a stage old_words new_words start y.member y.told.history
        × IsToldBy redo opened a stage start y.member y.told.history × (body.unread ≡ None)
        × ((i c : ℕ) → HasCell a.redo.cells i c →
        cell into i c ≡ cell (a.new a.redo.stripe) i c) }
    // At rest the gates are closed, and the session has the stripes;
    ensures closes { (a : Redoing) (start : List Happening) (live : Slots) (x y : Snapshot) →
        AreLive x.member live → DoesStage (gate_writes closed_gate) live None x y →
        IsUnderWay a AtRest start x.member x.told.history → IsTrue y.told.honest →
        NothingReturned x.told.history y.told.history → ¬ IsTrue (stopped y.told.history) →
        IsUnderWay a AtRest start y.member y.told.history
        × IsInSession y.member a.old y.told.history }
    // a redo is done again, and it has the new ones.
    ensures replays { (a : Redoing) (stage : Stage) (old_words new_words : Codewords)
        (start : List Happening) (redo : Option Redo) (opened : Slots) (stripe : Stripe)
        (x y : Snapshot) →
        IsRecovering a stage old_words new_words start x.member x.told.history →
        IsToldBy redo opened a stage start x.member x.told.history → IsRedoing a →
        ((stage ≡ Uncommitted) ⊎ (stage ≡ Placing)) →
        ((i c : ℕ) → HasCell a.redo.cells i c →
        cell stripe i c ≡ cell (a.new a.redo.stripe) i c) →
        Replays a.redo stripe opened None x y → IsTrue y.told.honest →
        NothingReturned x.told.history y.told.history → ¬ IsTrue (stopped y.told.history) →
        IsUnderWay a Done start y.member y.told.history
        × IsInSession y.member a.new y.told.history }
{}
