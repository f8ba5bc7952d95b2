//! The parts of a recovery once its first epoch stands: what the rack represents at each moment, and what lasts.

ghost use Rattle.std.specs.Prelude.{◌≡◌, ◌⊎◌, ℕ, IsTrue, List, None, Option, Result, Some};
ghost use Rattle.stair_model.specs.CellSet.{HasCell};
ghost use Rattle.stair_model.specs.Slots.{HasSlot, Slots, no_slots};
ghost use Rattle.stair_model.specs.Stripe.{Stripe, cell};
ghost use Rattle.stair_rack.specs.History.{Happening, stopped};
ghost use Rattle.stair_rack.specs.Moments.{AtEveryMoment};
ghost use Rattle.stair_rack.specs.Placed.{Writes};
ghost use Rattle.stair_rack.specs.Stretch.{NothingReturned};
ghost use Rattle.stair_rack.specs.RackState.{RackState};
ghost use Rattle.stair_member.specs.Establishing.{Fences};
ghost use Rattle.stair_member.specs.Membership.{IsMembership, Membership};
ghost use Rattle.stair_member.specs.declared.fault.FenceFault.{FenceFault};
ghost use Rattle.stair_journal.specs.Gate.{closed_gate};
ghost use Rattle.stair_journal.specs.Journalling.{gate_writes};
ghost use Rattle.stair_journal.specs.declared.body.Body.{Body};
ghost use Rattle.stair_journal.specs.declared.redo.Redo.{Redo};
ghost use Rattle.stair_state.specs.Blocks.{Codewords};
ghost use Rattle.stair_state.specs.Redoing.{AtRest, IsRedoing, Placing, Redoing, Stage, Uncommitted};
ghost use Rattle.stair_state.specs.Represents.{Encodings, Represents};
ghost use Rattle.stair_state.specs.State.{Content, State, without_seats};
ghost use Rattle.stair_state.specs.Surveyed.{NamesContent};
ghost use Rattle.stair_state.specs.Tolerance.{IsTolerated};
ghost use Rattle.stair_invariant.specs.Effects.{AreLive, DoesStage, FindsBody, FindsRedo, FencesGone, Snapshot, Replays};
ghost use Rattle.stair_invariant.specs.InSession.{IsInSession};
ghost use Rattle.stair_invariant.specs.Leading.{IsOpenAmid};
ghost use Rattle.stair_invariant.specs.Opening.{
  AreBetween,
  IsDecidedAs,
  IsFoundFor,
  IsOpening,
  IsRecovering,
  IsToldBy,
  StaysArray,
  StandsWithin,
  opened_with,
};
ghost use Rattle.stair_invariant.specs.Session.{IsLiveIn, IsOpenWith, seats_in};

/// What a crash leaves in the midst of a recovery. It does nothing.
pub fn recovery_moments()
    // What a crash leaves while a recovery goes on represents the state from which it came, with the change in doubt as it was:
    ensures now { (s : State) (encodings : Encodings s) (a : Redoing) (stage : Stage)
        (start : List Happening) (x : Snapshot) →
        IsRecovering a stage encodings.old encodings.new start x.member x.told.history →
        s.geometry ≡ x.member.array.geometry → NamesContent s x.member.array →
        StandsWithin s x.member.array x.told.history x.told.history }
    // so it does at each moment, refused or not, while the redo is found that a crash cut off,
    ensures finding { (s : State) (encodings : Encodings s) (a : Redoing) (stage : Stage)
        (start : List Happening) (redo : Option Redo) (opened : Slots)
        (refusal : Option FenceFault) (x y : Snapshot) → FindsRedo redo opened refusal x y →
        IsRecovering a stage encodings.old encodings.new start x.member x.told.history →
        s.geometry ≡ x.member.array.geometry → NamesContent s x.member.array →
        IsTrue y.told.honest →
        AtEveryMoment (StandsWithin s x.member.array x.told.history) x.told.history
        y.told.history }
    // while its body is read,
    ensures body { (s : State) (encodings : Encodings s) (a : Redoing) (stage : Stage)
        (start : List Happening) (redo : Redo) (body : Body) (was into : Stripe)
        (refusal : Option FenceFault) (x y : Snapshot) →
        FindsBody redo body was into refusal x y →
        IsRecovering a stage encodings.old encodings.new start x.member x.told.history →
        s.geometry ≡ x.member.array.geometry → NamesContent s x.member.array →
        IsTrue y.told.honest →
        AtEveryMoment (StandsWithin s x.member.array x.told.history) x.told.history
        y.told.history }
    // while the gates are closed at rest,
    ensures closing { (s : State) (encodings : Encodings s) (a : Redoing)
        (start : List Happening) (live : Slots) (refusal : Option FenceFault) (x y : Snapshot) →
        AreLive x.member live → DoesStage (gate_writes closed_gate) live refusal x y →
        IsRecovering a AtRest encodings.old encodings.new start x.member x.told.history →
        s.geometry ≡ x.member.array.geometry → NamesContent s x.member.array →
        IsTrue y.told.honest →
        AtEveryMoment (StandsWithin s x.member.array x.told.history) x.told.history
        y.told.history }
    // and while the redo is done again.
    ensures replaying { (s : State) (encodings : Encodings s) (a : Redoing) (stage : Stage)
        (start : List Happening) (redo : Option Redo) (opened : Slots) (stripe : Stripe)
        (refusal : Option FenceFault) (x y : Snapshot) →
        Replays a.redo stripe opened refusal x y →
        IsRecovering a stage encodings.old encodings.new start x.member x.told.history →
        IsToldBy redo opened a stage start x.member x.told.history → IsRedoing a →
        ((stage ≡ Uncommitted) ⊎ (stage ≡ Placing)) →
        ((i c : ℕ) → HasCell a.redo.cells i c →
        cell stripe i c ≡ cell (a.new a.redo.stripe) i c) →
        s.geometry ≡ x.member.array.geometry → NamesContent s x.member.array →
        IsTrue y.told.honest →
        AtEveryMoment (StandsWithin s x.member.array x.told.history) x.told.history
        y.told.history }
{}

/// What lasts through a recovery that isn't refused. It does nothing.
pub fn recovery_lasts()
    ensures finding { (before : List Happening) (redo : Option Redo) (opened : Slots)
        (x y : Snapshot) → FindsRedo redo opened None x y → IsOpening before x →
        IsTrue y.told.honest → NothingReturned before y.told.history →
        ¬ IsTrue (stopped y.told.history) → IsOpening before y }
    ensures body { (before : List Happening) (redo : Redo) (body : Body) (was into : Stripe)
        (x y : Snapshot) → FindsBody redo body was into None x y → IsOpening before x →
        IsTrue y.told.honest → NothingReturned before y.told.history →
        ¬ IsTrue (stopped y.told.history) → IsOpening before y }
    // so it does where gates of live slots are written,
    ensures gates { (before : List Happening) (gate : List ℕ) (to : Slots) (x y : Snapshot) →
        ((j : ℕ) → HasSlot to j → IsLiveIn x.member j) →
        DoesStage (gate_writes gate) to None x y → IsOpening before x → IsTrue y.told.honest →
        NothingReturned before y.told.history → ¬ IsTrue (stopped y.told.history) →
        IsOpening before y }
    ensures replaying { (before : List Happening) (a : Redoing) (opened : Slots)
        (stripe : Stripe) (x y : Snapshot) → Replays a.redo stripe opened None x y → IsRedoing a →
        ((i c : ℕ) → HasCell a.redo.cells i c →
        cell stripe i c ≡ cell (a.new a.redo.stripe) i c) →
        a.geometry ≡ x.member.array.geometry → IsOpening before x → IsTrue y.told.honest →
        NothingReturned before y.told.history → ¬ IsTrue (stopped y.told.history) →
        IsOpening before y }
    // and with the stripes of its session it is the record of an open array.
    ensures opens { (before : List Happening) (m : Membership) (words : Codewords)
        (h : List Happening) → IsOpenAmid before (opened_with m) h → IsInSession m words h →
        IsOpenWith before (opened_with m) words h }
{}

/// What a recovery leaves of what the member's epoch says, on any rack, refused or not. It does nothing.
pub fn recovery_stays()
    ensures fence { (leaving : Slots) (answer : Result Slots FenceFault) (x y : Snapshot) →
        Fences leaving x.member y.member answer x.told y.told → IsMembership x.member →
        StaysArray x.member y.member }
    ensures left { (gone : Slots) (refusal : Option FenceFault) (x y : Snapshot) →
        FencesGone gone refusal x y → IsMembership x.member → StaysArray x.member y.member }
    ensures finding { (redo : Option Redo) (opened : Slots) (refusal : Option FenceFault)
        (x y : Snapshot) → FindsRedo redo opened refusal x y → IsMembership x.member →
        StaysArray x.member y.member }
    ensures body { (redo : Redo) (body : Body) (was into : Stripe)
        (refusal : Option FenceFault) (x y : Snapshot) →
        FindsBody redo body was into refusal x y → IsMembership x.member →
        StaysArray x.member y.member }
    ensures stage { (what : Writes) (to : Slots) (refusal : Option FenceFault) (x y : Snapshot) →
        DoesStage what to refusal x y → IsMembership x.member → StaysArray x.member y.member }
    ensures replaying { (redo : Redo) (stripe : Stripe) (opened : Slots)
        (refusal : Option FenceFault) (x y : Snapshot) → Replays redo stripe opened refusal x y →
        IsMembership x.member → StaysArray x.member y.member }
{}

/// What a rack represents once a part of a recovery has ended, refused or not. It does nothing.
pub fn recovery_ends()
    // Within tolerance that is the state from which it came, with the change in doubt as it was and without seats: after the
    // first fence,
    ensures fence { (s : State) (m last : Membership) (answer : Result Slots FenceFault)
        (before start : List Happening) (old new : RackState) →
        IsFoundFor s m before start old.history → Fences no_slots m last answer old new →
        IsTrue new.honest → NothingReturned old.history new.history →
        IsTolerated s.geometry before new.history →
        Represents (without_seats s) new.history }
    // once the redo was found,
    ensures finding { (s : State) (encodings : Encodings s) (a : Redoing) (stage : Stage)
        (start before : List Happening) (redo : Option Redo) (opened : Slots)
        (refusal : Option FenceFault) (x y : Snapshot) → FindsRedo redo opened refusal x y →
        IsRecovering a stage encodings.old encodings.new start x.member x.told.history →
        s.geometry ≡ x.member.array.geometry → NamesContent s x.member.array →
        IsTrue y.told.honest → NothingReturned x.told.history y.told.history →
        IsTolerated s.geometry before y.told.history →
        Represents (without_seats s) y.told.history }
    // once its body was read,
    ensures body { (s : State) (encodings : Encodings s) (a : Redoing) (stage : Stage)
        (start before : List Happening) (redo : Redo) (body : Body) (was into : Stripe)
        (refusal : Option FenceFault) (x y : Snapshot) →
        FindsBody redo body was into refusal x y →
        IsRecovering a stage encodings.old encodings.new start x.member x.told.history →
        s.geometry ≡ x.member.array.geometry → NamesContent s x.member.array →
        IsTrue y.told.honest → NothingReturned x.told.history y.told.history →
        IsTolerated s.geometry before y.told.history →
        Represents (without_seats s) y.told.history }
    // once the gates were closed at rest,
    ensures closing { (s : State) (encodings : Encodings s) (a : Redoing)
        (start before : List Happening) (live : Slots) (refusal : Option FenceFault)
        (x y : Snapshot) → AreLive x.member live →
        DoesStage (gate_writes closed_gate) live refusal x y →
        IsRecovering a AtRest encodings.old encodings.new start x.member x.told.history →
        s.geometry ≡ x.member.array.geometry → NamesContent s x.member.array →
        IsTrue y.told.honest → NothingReturned x.told.history y.told.history →
        IsTolerated s.geometry before y.told.history →
        Represents (without_seats s) y.told.history }
    // and once the redo was done again.
    ensures replaying { (s : State) (encodings : Encodings s) (a : Redoing) (stage : Stage)
        (start before : List Happening) (redo : Option Redo) (opened : Slots)
        (stripe : Stripe) (refusal : Option FenceFault) (x y : Snapshot) →
        Replays a.redo stripe opened refusal x y →
        IsRecovering a stage encodings.old encodings.new start x.member x.told.history →
        IsToldBy redo opened a stage start x.member x.told.history → IsRedoing a →
        ((stage ≡ Uncommitted) ⊎ (stage ≡ Placing)) →
        ((i c : ℕ) → HasCell a.redo.cells i c →
        cell stripe i c ≡ cell (a.new a.redo.stripe) i c) →
        s.geometry ≡ x.member.array.geometry → NamesContent s x.member.array →
        IsTrue y.told.honest → NothingReturned x.told.history y.told.history →
        IsTolerated s.geometry before y.told.history →
        Represents (without_seats s) y.told.history }
    // A redo leads from one of the state's two lists of stripes to one of them,
    ensures words { (old new first last : Codewords) → AreBetween old new first last →
        ((first ≡ old) ⊎ (first ≡ new)) × ((last ≡ old) ⊎ (last ≡ new)) }
    // so the stripes that the array has in the end decide what was in doubt, with what the member's epoch says,
    ensures decides { (s : State) (encodings : Encodings s) (m : Membership)
        (words : Codewords) → NamesContent s m.array →
        ((words ≡ encodings.old) ⊎ (words ≡ encodings.new)) → (content : Content)
        × IsDecidedAs s m words content }
    // and the rack represents that, with the seats of the epoch, in the session of an open array.
    ensures opens { (s : State) (before : List Happening) (x : Snapshot) (words : Codewords)
        (content : Content) → IsOpening before x →
        IsInSession x.member words x.told.history → IsDecidedAs s x.member words content →
        s.geometry ≡ x.member.array.geometry → NothingReturned before x.told.history →
        IsTolerated s.geometry before x.told.history → Represents (record {
          geometry = s.geometry;
          content = content;
          in_doubt = None;
          seats = Some (seats_in x.member.array);
        }) x.told.history × IsOpenWith before (opened_with x.member) words x.told.history }
{}
