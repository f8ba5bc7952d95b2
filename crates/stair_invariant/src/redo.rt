//! A redo, phase by phase: what a session keeps of it over the slots that are left out.

ghost use Rattle.std.specs.Prelude.{◌≡◌, ◌≢◌, ℕ, IsTrue, List, None, Option};
ghost use Rattle.stair_model.specs.CellSet.{HasCell};
ghost use Rattle.stair_model.specs.Slots.{HasSlot, Slots};
ghost use Rattle.stair_model.specs.Stripe.{Stripe, cell};
ghost use Rattle.stair_rack.specs.Crash.{CrashMayLeave};
ghost use Rattle.stair_rack.specs.History.{Happening, stopped};
ghost use Rattle.stair_rack.specs.Media.{Image};
ghost use Rattle.stair_rack.specs.Moments.{IsMoment};
ghost use Rattle.stair_rack.specs.Offline.{IsAttached};
ghost use Rattle.stair_rack.specs.Stretch.{NothingReturned};
ghost use Rattle.stair_member.specs.Membership.{IsHere, Membership};
ghost use Rattle.stair_member.specs.declared.fault.FenceFault.{FenceFault};
ghost use Rattle.stair_state.specs.Blocks.{Codewords};
ghost use Rattle.stair_state.specs.Redoing.{AtRest, Done, IsRedoing, Redoing, Stage, next};
ghost use Rattle.stair_state.specs.Represents.{RepresentsAlone};
ghost use Rattle.stair_state.specs.State.{Change, Content};
ghost use Rattle.stair_state.specs.Tolerance.{IsToleratedAlone};
ghost use Rattle.stair_invariant.specs.Effects.{DoesStage, IsOver, FencesGone, Snapshot, Redoes, stage_writes};
ghost use Rattle.stair_invariant.specs.InSession.{HasEpoch, IsInSession, IsOfContent, state_with};
ghost use Rattle.stair_invariant.specs.UnderWay.{AreKept, IsBeforeOrAfter, IsOfRedo, IsUnderWay};

/// What a redo leads to. It does nothing.
pub fn redo_laws()
    // Once slots that were gone are left out, the epoch without them stands.
    ensures left_out { (gone : Slots) (x y : Snapshot) → FencesGone gone None x y →
        HasEpoch x.member x.told.history → ((j : ℕ) → HasSlot gone j → IsHere x.member j) →
        IsTrue y.told.honest → NothingReturned x.told.history y.told.history →
        ¬ IsTrue (stopped y.told.history) →
        HasEpoch y.member y.told.history }
    // A session holds the stripes that it held then.
    ensures stays { (gone : Slots) (x y : Snapshot) (words : Codewords) →
        FencesGone gone None x y → IsInSession x.member words x.told.history →
        ((j : ℕ) → HasSlot gone j → IsHere x.member j) → IsTrue y.told.honest →
        NothingReturned x.told.history y.told.history →
        ¬ IsTrue (stopped y.told.history) → IsInSession y.member words y.told.history }
    // At each moment of it, refused or not, an image that a crash leaves and in which failures are within tolerance represents
    // the state, with the seats that its own current superblock has: those of the member's epoch, but for slots that are Down.
    ensures leaving { (gone : Slots) (refusal : Option FenceFault) (x y : Snapshot)
        (words : Codewords) (content : Content) (h : List Happening) (image : Image) →
        FencesGone gone refusal x y → IsInSession x.member words x.told.history →
        IsOfContent x.member words content →
        ((j : ℕ) → HasSlot gone j → IsHere x.member j) →
        ((j : ℕ) → HasSlot gone j → ¬ IsAttached x.told.history j) → IsTrue y.told.honest →
        IsMoment x.told.history h y.told.history → NothingReturned x.told.history h → ¬ IsTrue (stopped h) →
        CrashMayLeave h image → (tolerated : IsToleratedAlone x.member.array.geometry image) →
        RepresentsAlone (state_with x.member content None tolerated.current.array) image
        × AreKept x.member.array.geometry x.member.array tolerated.current.array }
    // With the old stripes a session may begin a redo, at rest.
    ensures begins { (a : Redoing) (m : Membership) (h : List Happening) →
        IsInSession m a.old h → a.geometry ≡ m.array.geometry → IsUnderWay a AtRest h m h }
    // A phase leads the slots in use to the next stage, and leaves them there while those that were gone to it are left out. Of
    // the stripe in memory the redo's cells matter alone.
    ensures phase { (a : Redoing) (stripe : Stripe) (stage : Stage) (to : Slots)
        (start : List Happening) (x y : Snapshot) → IsRedoing a →
        ((i c : ℕ) → HasCell a.redo.cells i c →
        cell stripe i c ≡ cell (a.new a.redo.stripe) i c) → stage ≢ Done →
        IsOver stage x.member to → IsUnderWay a stage start x.member x.told.history →
        DoesStage (stage_writes a.geometry a.redo stripe stage) to None x y →
        IsTrue y.told.honest →
        NothingReturned x.told.history y.told.history →
        ¬ IsTrue (stopped y.told.history) →
        IsUnderWay a (next stage) start y.member y.told.history }
    // From a stage to its end, if no epoch is refused, a redo is done on the slots in use,
    ensures ends { (a : Redoing) (stripe : Stripe) (stage : Stage) (start : List Happening)
        (x z : Snapshot) → IsRedoing a →
        ((i c : ℕ) → HasCell a.redo.cells i c →
        cell stripe i c ≡ cell (a.new a.redo.stripe) i c) →
        IsUnderWay a stage start x.member x.told.history →
        Redoes a.geometry a.redo stripe stage None x z → IsTrue z.told.honest →
        NothingReturned x.told.history z.told.history → ¬ IsTrue (stopped z.told.history) →
        IsUnderWay a Done start z.member z.told.history }
    // and the session holds the new stripes then.
    ensures opens { (a : Redoing) (start : List Happening) (m : Membership)
        (h : List Happening) → IsUnderWay a Done start m h → IsInSession m a.new h }
    // So a redo leads a session from the old stripes to the new ones.
    ensures redo { (a : Redoing) (stripe : Stripe) (x z : Snapshot) → IsRedoing a →
        ((i c : ℕ) → HasCell a.redo.cells i c →
        cell stripe i c ≡ cell (a.new a.redo.stripe) i c) →
        IsInSession x.member a.old x.told.history → a.geometry ≡ x.member.array.geometry →
        Redoes a.geometry a.redo stripe AtRest None x z → IsTrue z.told.honest →
        NothingReturned x.told.history z.told.history → ¬ IsTrue (stopped z.told.history) →
        IsInSession z.member a.new z.told.history }
    // At each moment of a redo, refused or not, an image that a crash leaves and in which failures are within tolerance
    // represents the array before the redo, after it, or with the change in doubt, with the seats that its own current
    // superblock has: those of the member's epoch at first, but for slots that are Down.
    ensures moments { (a : Redoing) (stripe : Stripe) (stage : Stage)
        (refusal : Option FenceFault) (start : List Happening) (x z : Snapshot)
        (content : Content) (change : Option Change) (h : List Happening) (image : Image) →
        IsRedoing a →
        ((i c : ℕ) → HasCell a.redo.cells i c →
        cell stripe i c ≡ cell (a.new a.redo.stripe) i c) →
        IsUnderWay a stage start x.member x.told.history →
        Redoes a.geometry a.redo stripe stage refusal x z → IsTrue z.told.honest →
        IsOfRedo a x.member content change → IsMoment x.told.history h z.told.history →
        NothingReturned x.told.history h → ¬ IsTrue (stopped h) →
        CrashMayLeave h image → (tolerated : IsToleratedAlone a.geometry image) →
        IsBeforeOrAfter a.geometry content change tolerated.current.array image
        × AreKept a.geometry x.member.array tolerated.current.array }
    // What the member's epoch says of the content is the same in the end, and so are its marks and joined numbers, but for slots
    // that are Down then.
    ensures says { (a : Redoing) (stripe : Stripe) (stage : Stage) (start : List Happening)
        (x z : Snapshot) (content : Content) (change : Option Change) → IsRedoing a →
        ((i c : ℕ) → HasCell a.redo.cells i c →
        cell stripe i c ≡ cell (a.new a.redo.stripe) i c) →
        IsUnderWay a stage start x.member x.told.history →
        Redoes a.geometry a.redo stripe stage None x z → IsTrue z.told.honest →
        NothingReturned x.told.history z.told.history → ¬ IsTrue (stopped z.told.history) →
        IsOfRedo a x.member content change → IsOfRedo a z.member content change
        × AreKept z.member.array.geometry x.member.array z.member.array }
{}
