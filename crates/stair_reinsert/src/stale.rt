//! What no medium that comes back can bring about.

ghost use Rattle.std.specs.Prelude.{◌≡◌, ◌<◌, ℕ, List};
ghost use Rattle.stair_model.specs.Slots.{Slots};
ghost use Rattle.stair_rack.specs.Crash.{CrashMayLeave};
ghost use Rattle.stair_rack.specs.History.{Happening, Write};
ghost use Rattle.stair_rack.specs.Media.{Image};
ghost use Rattle.stair_rack.specs.Moments.{IsMoment};
ghost use Rattle.stair_rack.specs.Stretch.{WasAnswered};
ghost use Rattle.stair_rack.specs.declared.rack.Reply.{Reply};
ghost use Rattle.stair_super.specs.Spelling.{SpellsSuperblock};
ghost use Rattle.stair_super.specs.Superblock.{Superblock, joined_in};
ghost use Rattle.stair_member.specs.Counting.{AllBut};
ghost use Rattle.stair_member.specs.Current.{IsCurrent, IsLive};
ghost use Rattle.stair_member.specs.Epochs.{Issued};
ghost use Rattle.stair_member.specs.Membership.{Membership, why_of};
ghost use Rattle.stair_member.specs.declared.aim.EpochChange.{EpochChange};
ghost use Rattle.stair_member.specs.declared.why.Why.TheVariants.{Here};
ghost use Rattle.stair_state.specs.Holding.{IsConsistentUnderReassembly};
ghost use Rattle.stair_state.specs.Reassembly.{IsBorne, IsReassembly, Location};
ghost use Rattle.stair_state.specs.State.{State};
ghost use Rattle.stair_state.specs.Tolerance.{IsToleratedAlone};
ghost use Rattle.stair_invariant.specs.Returning.{KnowsMedia};
ghost use Rattle.stair_reinsert.specs.Drawn.{WasDrawn};

/// Why a stale medium does no harm. It does nothing.
pub fn stale_laws()
    // Every epoch that was ever written, on a medium in a slot or outside, names one configuration.
    ensures one_configuration { (s : State) (h : List Happening) → IsConsistentUnderReassembly s h →
        (image : Image) → CrashMayLeave h image → (i j : ℕ) (p q : Location) (a b : Superblock) →
        IsBorne s.geometry image i p a → IsBorne s.geometry image j q b →
        a.array.epoch ≡ b.array.epoch → a.array ≡ b.array }
    // Once a superblock of a new epoch was written all slots but m have a draw for it, synced, which was written before it.
    ensures drawn { (aim : EpochChange) (gone : Slots) (m last : Membership) (old h new : List Happening) →
        (issued : Issued aim gone m last old new) → IsMoment old h new →
        (j k : ℕ) (bytes : List ℕ) (answer : Reply) (super : Superblock) →
        WasAnswered j (Write k bytes answer) old h → SpellsSuperblock bytes super →
        m.array.epoch < super.array.epoch →
        AllBut m.array.geometry.n m.array.geometry.m (WasDrawn m super.array.epoch old h) }
    // Between the calls of an open array, however media lie, what is current within tolerance is the member's epoch, which is the
    // newest: so a medium that comes back brings no other epoch.
    ensures newest { (s : State) (m : Membership) (h : List Happening) → KnowsMedia s m h →
        m.array.geometry ≡ s.geometry → (image to : Image) (current : Superblock) →
        CrashMayLeave h image → IsReassembly image to → IsToleratedAlone s.geometry to →
        IsCurrent s.geometry to current → current.array ≡ m.array }
    // And a slot is live with the medium alone that the member means, by a number of its own; so one without which an opening or a
    // fence was done, or that was replaced, isn't live until it is admitted again.
    ensures live { (s : State) (m : Membership) (h : List Happening) → KnowsMedia s m h →
        m.array.geometry ≡ s.geometry → (image to : Image) (current : Superblock) (j : ℕ) →
        CrashMayLeave h image → IsReassembly image to → IsToleratedAlone s.geometry to →
        IsCurrent s.geometry to current → (live : IsLive s.geometry to current j) →
        (why_of m j ≡ Here) × (live.super.joined ≡ joined_in m.array j) }
{}
