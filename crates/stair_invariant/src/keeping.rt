//! What a session keeps of its epoch, through calls beside the epochs and through each new one.

ghost use Rattle.std.specs.Prelude.{◌≡◌, ◌≢◌, ◌⊎◌, ◌-◌, ◌<◌, ◌≤◌, ℕ, IsTrue, List, None, Option, Some};
ghost use Rattle.stair_model.specs.Device.{gate_sector};
ghost use Rattle.stair_model.specs.Geometry.{Geometry};
ghost use Rattle.stair_model.specs.Slots.{HasSlot, Slots};
ghost use Rattle.stair_rack.specs.Answers.{Ran};
ghost use Rattle.stair_rack.specs.Crash.{EachImage};
ghost use Rattle.stair_rack.specs.History.{Happening, slot_state, stopped};
ghost use Rattle.stair_rack.specs.Moments.{AtSomeMoment};
ghost use Rattle.stair_rack.specs.Offline.{ButForOutside, IsAttached, WasPulled};
ghost use Rattle.stair_rack.specs.Placed.{IsSlot};
ghost use Rattle.stair_rack.specs.Sector.{Good, content, settled};
ghost use Rattle.stair_rack.specs.Stretch.{NothingReturned};
ghost use Rattle.stair_super.specs.Superblock.{Superblock, mark_in};
ghost use Rattle.stair_super.specs.declared.mark.Mark.TheVariants.{Down};
ghost use Rattle.stair_member.specs.Aims.{admitted};
ghost use Rattle.stair_member.specs.Epochs.{IsTaken};
ghost use Rattle.stair_member.specs.Fencing.{HasStood, IsBegun, MayJoin};
ghost use Rattle.stair_member.specs.Membership.{IsHere, IsMembership, Membership, place_of, why_of};
ghost use Rattle.stair_member.specs.Seeing.{Sees};
ghost use Rattle.stair_member.specs.Superblocks.{HoldsSuper};
ghost use Rattle.stair_member.specs.declared.aim.EpochChange.{EpochChange};
ghost use Rattle.stair_member.specs.declared.aim.EpochChange.TheVariants.{Admit, Promote};
ghost use Rattle.stair_member.specs.declared.why.Why.TheVariants.{Here, Rebuilding};
ghost use Rattle.stair_journal.specs.Gate.{closed_gate};
ghost use Rattle.stair_state.specs.Blocks.{Codewords};
ghost use Rattle.stair_state.specs.Recovering.{IsShut};
ghost use Rattle.stair_state.specs.Redoing.{AttachesNone, Done, IsIn, Redoing, Stage};
ghost use Rattle.stair_state.specs.Represents.{IsLargeEnough};
ghost use Rattle.stair_invariant.specs.Changing.{IsAttachedOrBare};
ghost use Rattle.stair_invariant.specs.InSession.{
  HasEpoch,
  HaveReached,
  IsBehindPlaces,
  IsBeside,
  IsBesideEpochs,
  IsInSession,
  IsReadyFor,
  TakesPart,
  WasHarmed,
};
ghost use Rattle.stair_invariant.specs.Session.{ServesSlot};

/// What a session keeps of its epoch. It does nothing.
pub fn kept_laws()
    // Calls that write no superblock place, and attach no slot that takes part or is to be admitted, keep what a call that
    // establishes an epoch may begin with.
    ensures begun { (joining : Option ℕ) (m : Membership) (old new : List Happening) →
        IsBegun joining m old → Ran IsBehindPlaces old new →
        Ran (AttachesNone (IsTaken joining m)) old new → NothingReturned old new →
        IsBegun joining m new }
    // All slots but m have reached the epoch still, whatever is attached.
    ensures reached { (joining : Option ℕ) (m : Membership) (old new : List Happening) →
        IsBegun joining m old → EachImage (HaveReached m) old → Ran IsBehindPlaces old new →
        NothingReturned old new → EachImage (HaveReached m) new }
    // Where the epoch stands an admission may begin, if it marks the slot Down and no place of the slot holds a greater draw
    // than was seen.
    ensures admits { (m : Membership) (j : ℕ) (h : List Happening) → IsBegun None m h →
        EachImage (HaveReached m) h → MayJoin (Some j) m h →
        (j < m.array.geometry.n → mark_in m.array j ≡ Down) → IsBegun (Some j) m h }
    // Each slot that an epoch names takes part in whatever a crash leaves then, unless its medium was pulled or the sector of
    // its superblock was damaged meanwhile.
    ensures there { (aim : EpochChange) (gone : Slots) (m last : Membership) (old new : List Happening)
        (j : ℕ) → HasStood aim gone m last old new → IsHere last j →
        EachImage (TakesPart last j) new ⊎ (WasPulled old new j
        ⊎ WasHarmed old new j (1 - place_of last j)) }
    // What is so of slots that hold their medium is so since now.
    ensures rebased { (a : Redoing) (stage : Stage) (live now : Slots)
        (start h : List Happening) → IsIn a stage (HasSlot live) start h →
        ((j : ℕ) → HasSlot now j → HasSlot live j × ¬ WasPulled start h j) →
        IsIn a stage (HasSlot now) h h }
    // What a session keeps stays so while calls are made that are beside its epochs and its redos, and no medium comes back.
    ensures beside { (m : Membership) (words : Codewords) (old new : List Happening) →
        IsInSession m words old → Ran (IsBeside m) old new → NothingReturned old new →
        IsInSession m words new }
    // Of its epoch the same is so while redos are made too, if they write no gate of a slot that is rebuilt.
    ensures epoch { (m : Membership) (old new : List Happening) → HasEpoch m old →
        Ran (IsBesideEpochs m) old new → NothingReturned old new → HasEpoch m new }
    // Each epoch that stands is the session's then, whatever was before it.
    ensures stood { (aim : EpochChange) (gone : Slots) (m last : Membership) (old new : List Happening) →
        ((j : ℕ) → IsTaken (admitted aim) m j → IsAttachedOrBare old j) →
        ((j : ℕ) → j < m.array.geometry.n →
        (why_of m j ≡ Rebuilding) ⊎ (admitted aim ≡ Some j) → IsAttached old j →
        IsShut m.array.geometry old old j) →
        HasStood aim gone m last old new → ¬ IsTrue (stopped new) → HasEpoch last new }
    // With the live slots that are attached serving it is a session's whole.
    ensures opens { (m : Membership) (words : Codewords) (h : List Happening) → HasEpoch m h →
        ((j : ℕ) → j < m.array.geometry.n → why_of m j ≡ Here → IsAttached h j →
        ServesSlot m.array.geometry words h j) → IsInSession m words h }
    // A slot on which a redo is done serves with its new stripes,
    ensures served { (a : Redoing) (start h : List Happening) (j : ℕ) →
        IsIn a Done (IsSlot j) start h → ¬ WasPulled start h j →
        IsLargeEnough a.geometry (slot_state h j).size → ServesSlot a.geometry a.new h j }
    // and once a redo is done on each live slot that is attached the session has them.
    ensures redone { (a : Redoing) (m : Membership) (live : Slots) (old new : List Happening) →
        IsInSession m a.old old → a.geometry ≡ m.array.geometry →
        Ran (IsBesideEpochs m) old new → NothingReturned old new →
        IsIn a Done (HasSlot live) old new →
        ((j : ℕ) → j < m.array.geometry.n → why_of m j ≡ Here → IsAttached new j →
        HasSlot live j) → IsInSession m a.new new }
{}

/// When a session may establish an epoch. It does nothing.
pub fn ready_laws()
    // In a session an epoch may be established that neither admits nor promotes;
    ensures plain { (aim : EpochChange) (m : Membership) (words : Codewords) (h : List Happening) →
        admitted aim ≡ None → ((j : ℕ) → aim ≢ Promote j) → IsInSession m words h →
        IsReadyFor aim m words h }
    // one that promotes a slot that serves, where it is attached;
    ensures promotes { (m : Membership) (j : ℕ) (words : Codewords) (h : List Happening) →
        IsInSession m words h → IsHere m j →
        (IsAttached h j → ServesSlot m.array.geometry words h j) →
        IsReadyFor (Promote j) m words h }
    // and one that admits a slot of which no place holds a greater draw than was seen, with its gate closed.
    ensures joins { (m : Membership) (j : ℕ) (words : Codewords) (h : List Happening) →
        IsInSession m words h → j < m.array.geometry.n → (¬ IsHere m j) →
        MayJoin (Some j) m h → IsAttachedOrBare h j →
        (IsAttached h j → IsShut m.array.geometry h h j) → IsReadyFor (Admit j) m words h }
    // Such a slot is one whose two places were read while no place of the array was written, each at a moment at which it
    // held no greater draw than the member's,
    ensures looked { (m : Membership) (j : ℕ) (old new : List Happening) → IsBegun None m old →
        j < m.array.geometry.n → (¬ IsHere m j) → Ran IsBehindPlaces old new →
        NothingReturned old new →
        ((k : ℕ) → k < 2 → AtSomeMoment (λ h. (s : Superblock) →
        HoldsSuper (content ((slot_state h j).sector k)) s → s.draw ≤ m.drawn) old new) →
        MayJoin (Some j) m new }
    // and whose gate was laid out.
    ensures laid { (g : Geometry) (j : ℕ) (start h : List Happening) →
        ButForOutside start h j gate_sector (λ s. s ≡ settled (Good closed_gate)) →
        IsShut g start h j }
    // What a session keeps stays so once the member sees a greater draw,
    ensures seen { (m : Membership) (draw : ℕ) (words : Codewords) (h : List Happening) →
        m.drawn ≤ draw → IsMembership (record m { drawn = draw }) → IsInSession m words h →
        IsInSession (record m { drawn = draw }) words h }
    // and once it looks at a slot that doesn't take part, whose next place may be another one then.
    ensures sees { (slot : ℕ) (first second : Option Superblock) (m seen : Membership)
        (words : Codewords) (h : List Happening) → Sees slot first second m seen →
        IsMembership seen → ¬ IsHere m slot → IsInSession m words h →
        IsInSession seen words h }
{}
