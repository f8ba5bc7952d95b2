//! Laws of the superblocks of media, of slots that are live or have failed, of the order of superblocks, and of epochs.

ghost use Rattle.std.specs.Prelude.{◌≡◌, ◌≢◌, ◌*◌, ◌-◌, ◌<◌, ◌≤◌, ◌↔◌, ◌⊎◌, ℕ, Bool, IsTrue, List, Option, Some};
ghost use Rattle.stair_model.specs.Geometry.{Geometry, IsWithinLimits};
ghost use Rattle.stair_model.specs.Slots.{Slots, HasSlot};
ghost use Rattle.stair_rack.specs.Answers.{Ran};
ghost use Rattle.stair_rack.specs.Crash.{CrashMayLeave, image_now};
ghost use Rattle.stair_rack.specs.History.{Happening, stopped};
ghost use Rattle.stair_rack.specs.Media.{Image};
ghost use Rattle.stair_rack.specs.Sector.{Cell, Good};
ghost use Rattle.stair_rack.specs.Stretch.{NothingReturned};
ghost use Rattle.stair_super.specs.Spelling.{spelled};
ghost use Rattle.stair_super.specs.Superblock.{Superblock};
ghost use Rattle.stair_member.specs.Aims.{admitted, mark_for};
ghost use Rattle.stair_member.specs.declared.aim.EpochChange.{EpochChange};
ghost use Rattle.stair_member.specs.declared.why.Why.TheVariants.{Here};
ghost use Rattle.stair_member.specs.Counting.{MoreThan, AtMost, AllBut};
ghost use Rattle.stair_member.specs.Current.{HasMark, IsCurrent, IsFailed, Serves};
ghost use Rattle.stair_member.specs.Editions.{Edition, copy_of, edition_of};
ghost use Rattle.stair_member.specs.Epochs.{HasDraw, IsIssuing};
ghost use Rattle.stair_member.specs.Fencing.{HasStood, IsBegun, IsCopy, IsFencing, IsNamedBy, MayBear, MayJoin};
ghost use Rattle.stair_member.specs.Establishing.{Leaves};
ghost use Rattle.stair_member.specs.Membership.{IsHere, IsMembership, Membership, place_of, why_of};
ghost use Rattle.stair_member.specs.Reserve.{
  Bears,
  HasGreatestDraw,
  HasReached,
  HasReserved,
  IsLastDrawn,
  IsOrderly,
};
ghost use Rattle.stair_member.specs.Seeing.{Sees};
ghost use Rattle.stair_member.specs.Superblocks.{
  CountsFor,
  HasSuper,
  Identifies,
  IsSuperOf,
};

/// Which superblock a medium has, and which is current. It does nothing.
pub fn superblock_laws()
    // a medium has one superblock at most
    ensures one_super { (cell : ℕ → Cell) (s t : Superblock) → IsSuperOf cell s →
        IsSuperOf cell t → s ≡ t }
    // and it is decided whether it has one: it has where a place of it holds one
    ensures decided { (cell : ℕ → Cell) →
        ((s : Superblock) × IsSuperOf cell s) ⊎ (¬ HasSuper cell) }
    // it counts for one array, so that no two arrays that stand have a slot in common
    ensures one_identity { (g other : Geometry) (image : Image) (j : ℕ) → CountsFor g image j →
        CountsFor other image j → g ≡ other }
    // there is one current superblock at most, and one where the array stands
    ensures one_current { (g : Geometry) (image : Image) (a b : Superblock) → IsCurrent g image a →
        IsCurrent g image b → a ≡ b }
    ensures has_current { (g : Geometry) (image : Image) → Identifies g image →
        (current : Superblock) × IsCurrent g image current }
{}

/// Which slots serve, and what their superblocks have drawn, where these slots are offline. It does nothing.
pub fn failure_laws()
    // a slot below n serves exactly where it hasn't failed
    ensures serve { (offline : Slots) (g : Geometry) (image : Image) (current : Superblock)
        (j : ℕ) → j < g.n → Serves (HasSlot offline) g image current j ↔
        (¬ IsFailed (HasSlot offline) g image current j) }
    // where at most m have failed all but m serve
    ensures others { (offline : Slots) (g : Geometry) (image : Image) (current : Superblock) →
        AtMost g.m (IsFailed (HasSlot offline) g image current) →
        AllBut g.n g.m (Serves (HasSlot offline) g image current) }
    // and where the superblocks are in order one of these has drawn every epoch that a medium bears
    ensures draw { (offline : Slots) (g : Geometry) (image : Image) (current : Superblock) →
        IsWithinLimits g → AtMost g.m (IsFailed (HasSlot offline) g image current) →
        IsOrderly g image → (j : ℕ) × HasGreatestDraw (HasSlot offline) g image current j }
    // where all but m bear the last draw with an epoch, none earlier than it is current
    ensures newest { (offline : Slots) (g : Geometry) (image : Image) (current : Superblock)
        (draw epoch : ℕ) → IsWithinLimits g → IsCurrent g image current →
        AtMost g.m (IsFailed (HasSlot offline) g image current) →
        AllBut g.n g.m (IsLastDrawn g image draw epoch) → epoch ≤ current.array.epoch }
    // and where no medium bears an epoch above that draw, every epoch is reserved again
    ensures reserved { (g : Geometry) (image : Image) (draw epoch : ℕ) →
        ((j : ℕ) (s : Superblock) → Bears g j ((image j).cell) s → s.array.epoch ≤ draw) →
        AllBut g.n g.m (IsLastDrawn g image draw epoch) → AllBut g.n g.m (HasReserved g image) }
{}

/// More than m slots and at most m slots exclude each other. It does nothing.
pub fn counting_laws()
    ensures apart { (m : ℕ) (test : ℕ → Bool) → MoreThan m (λ j. IsTrue (test j)) →
        ¬ AtMost m (λ j. IsTrue (test j)) }
    // of n slots with n > 2m, some one is among all but m twice
    ensures common { (n m : ℕ) (a b : ℕ → Bool) → n ≤ 32 → 2 * m < n →
        AllBut n m (λ j. IsTrue (a j)) → AllBut n m (λ j. IsTrue (b j)) →
        (j : ℕ) × (j < n) × IsTrue (a j) × IsTrue (b j) }
{}

/// What a crash may leave while an epoch is established. It does nothing.
pub fn epoch_laws()
    // a superblock of the array was there when the call began, or is one of the editions that were written since
    ensures borne { (joining : Option ℕ) (m : Membership) (slots : Slots)
        (editions : List Edition) (old h : List Happening) (image : Image) (j : ℕ)
        (s : Superblock) → IsBegun joining m old → Ran (IsIssuing slots editions) old h →
        NothingReturned old h → CrashMayLeave h image →
        Bears m.array.geometry j ((image j).cell) s →
        MayBear m.array.geometry old j s ⊎ IsCopy slots editions j s }
    // where all slots but m have a new draw with an epoch on their disks, none earlier than it is current
    ensures no_earlier { (aim : EpochChange) (gone : Slots) (m last : Membership)
        (old h new : List Happening) (image : Image) (offline : Slots) (current : Superblock)
        (draw epoch : ℕ) (fencing : IsFencing aim gone m last old h new) →
        CrashMayLeave h image → IsCurrent m.array.geometry image current →
        AtMost m.array.geometry.m (IsFailed (HasSlot offline) m.array.geometry image current) →
        m.drawn < draw → AllBut m.array.geometry.n m.array.geometry.m
        (HasDraw fencing.issued.editions draw epoch old h) → epoch ≤ current.array.epoch }
    // once an epoch stands it is current, and the slots that are live are here
    ensures stands { (aim : EpochChange) (gone : Slots) (m last : Membership) (old new : List Happening)
        (image : Image) (offline : Slots) (current : Superblock) →
        HasStood aim gone m last old new → CrashMayLeave new image →
        IsCurrent m.array.geometry image current →
        AtMost m.array.geometry.m (IsFailed (HasSlot offline) m.array.geometry image current) →
        IsNamedBy last image current }
    // and at each moment the superblocks are in order
    ensures orderly { (aim : EpochChange) (gone : Slots) (m last : Membership)
        (old h new : List Happening) (image : Image) → IsFencing aim gone m last old h new →
        CrashMayLeave h image → IsOrderly m.array.geometry image }
    // and each slot has still reached the epochs that it had, but the slot that joins;
    ensures each_reached { (aim : EpochChange) (gone : Slots) (m last : Membership)
        (old h new : List Happening) (image : Image) (j epoch : ℕ) →
        IsFencing aim gone m last old h new → CrashMayLeave h image →
        epoch ≤ m.array.epoch → admitted aim ≢ Some j →
        HasReached m.array.geometry (image_now old) epoch j →
        HasReached m.array.geometry image epoch j }
    // so all slots but m have still reached the one before
    ensures reached { (aim : EpochChange) (gone : Slots) (m last : Membership)
        (old h new : List Happening) (image : Image) → IsFencing aim gone m last old h new →
        CrashMayLeave h image →
        AllBut m.array.geometry.n m.array.geometry.m (λ j. (admitted aim ≢ Some j)
        × HasReached m.array.geometry (image_now old) m.array.epoch j) →
        AllBut m.array.geometry.n m.array.geometry.m
        (HasReached m.array.geometry image m.array.epoch) }
    // Once an epoch stands each slot that takes part has reached it,
    ensures each_stood { (aim : EpochChange) (gone : Slots) (m last : Membership)
        (old new : List Happening) (image : Image) (j : ℕ) →
        HasStood aim gone m last old new → CrashMayLeave new image → IsHere last j →
        HasReached last.array.geometry image last.array.epoch j }
    // so all slots but m are live and have
    ensures stood { (aim : EpochChange) (gone : Slots) (m last : Membership) (old new : List Happening)
        (image : Image) → HasStood aim gone m last old new → CrashMayLeave new image →
        AllBut last.array.geometry.n last.array.geometry.m (λ j. (why_of last j ≡ Here)
        × HasReached last.array.geometry image last.array.epoch j) }
    // One whose last place holds its superblock has its mark by each superblock that names the epoch, whatever became of
    // its other place.
    ensures takes_part { (aim : EpochChange) (gone : Slots) (m last : Membership)
        (old new : List Happening) (image : Image) (j : ℕ) (current : Superblock) →
        HasStood aim gone m last old new → CrashMayLeave new image → IsHere last j →
        (image j).cell (1 - place_of last j) ≡ Good (spelled (copy_of (edition_of last) j)) →
        current.array ≡ last.array →
        HasMark last.array.geometry image current (mark_for (why_of last j)) j }
    // so that after an epoch that stands the next call begins likewise, unless the rack is stopped
    ensures again { (aim : EpochChange) (gone : Slots) (next : Option ℕ) (m last : Membership)
        (old new : List Happening) → HasStood aim gone m last old new → MayJoin next last new →
        ¬ IsTrue (stopped new) → IsBegun next last new }
    // and a call begins likewise with the member of which some slots leave
    ensures left { (joining : Option ℕ) (leaving : Slots) (m start : Membership)
        (h : List Happening) → Leaves leaving m start → IsMembership start →
        IsBegun joining m h → IsBegun joining start h }
    // or with one that looked at a slot which doesn't take part
    ensures seen { (joining : Option ℕ) (slot : ℕ) (first second : Option Superblock)
        (m seen : Membership) (h : List Happening) → Sees slot first second m seen →
        IsMembership seen → ¬ IsHere m slot → IsBegun joining m h → IsBegun joining seen h }
{}
