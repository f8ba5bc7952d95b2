//! What an epoch does to the seats of an array, and that there are sessions.

ghost use Rattle.std.specs.Prelude.{◌≡◌, ◌⊎◌, ◌^◌, ◌<◌, ◌≤◌, ℕ, IsTrue, List, None, length};
ghost use Rattle.stair_model.specs.Geometry.{Geometry, IsWithinLimits};
ghost use Rattle.stair_model.specs.Slots.{Slots, HasSlot};
ghost use Rattle.stair_rack.specs.Answers.{Ran, any_call};
ghost use Rattle.stair_rack.specs.Crash.{CrashMayLeave};
ghost use Rattle.stair_rack.specs.History.{Happening, stopped};
ghost use Rattle.stair_rack.specs.Media.{Image};
ghost use Rattle.stair_rack.specs.Offline.{IsAttached};
ghost use Rattle.stair_super.specs.Superblock.{Superblock};
ghost use Rattle.stair_member.specs.Current.{IsCurrent};
ghost use Rattle.stair_member.specs.Establishing.{HasBegun};
ghost use Rattle.stair_member.specs.Fencing.{HasStood, IsFencing};
ghost use Rattle.stair_member.specs.Membership.{IsMembership, Membership};
ghost use Rattle.stair_member.specs.declared.aim.EpochChange.{EpochChange};
ghost use Rattle.stair_member.specs.declared.aim.EpochChange.TheVariants.{Promote};
ghost use Rattle.stair_state.specs.Blocks.{Codewords};
ghost use Rattle.stair_state.specs.Represents.{Represents};
ghost use Rattle.stair_state.specs.State.{created_state, first_content};
ghost use Rattle.stair_state.specs.Tolerance.{IsTolerated, IsToleratedAlone};
ghost use Rattle.stair_invariant.specs.InSession.{IsInSession, IsOfContent, IsReadyFor, state_with};
ghost use Rattle.stair_invariant.specs.NewSession.{
  IsNewIn,
  IsWhole,
  array_of,
  new_array,
  new_member,
  new_rack,
  new_words,
  opened_rack,
};
ghost use Rattle.stair_invariant.specs.SeatSteps.{SeatsMove};
ghost use Rattle.stair_invariant.specs.Session.{IsLiveIn, IsOpenWith, IsRebuiltIn, seats_in};

/// Seats over an epoch. It does nothing.
pub fn seat_laws()
    // An epoch that stands did to the seats what it was for, and dropped no slot but those that were gone. A slot that is
    // promoted was one that is rebuilt.
    ensures stood { (aim : EpochChange) (gone : Slots) (m last : Membership) (words : Codewords)
        (old new : List Happening) → IsReadyFor aim m words old →
        ((slot : ℕ) → aim ≡ Promote slot → IsRebuiltIn m slot) →
        HasStood aim gone m last old new →
        SeatsMove aim (HasSlot gone) (seats_in m.array) (seats_in last.array) }
    // What a member's epoch names after a refusal is what it named before, or did so to the seats,
    ensures begun { (aim : EpochChange) (gone : Slots) (m last : Membership) (words : Codewords)
        (old : List Happening) → IsReadyFor aim m words old →
        ((slot : ℕ) → aim ≡ Promote slot → IsRebuiltIn m slot) →
        IsMembership last → HasBegun aim gone m last → (last.array ≡ m.array)
        ⊎ SeatsMove aim (HasSlot gone) (seats_in m.array) (seats_in last.array) }
    // and what is current in whatever a crash leaves meanwhile.
    ensures meanwhile { (aim : EpochChange) (gone : Slots) (m last : Membership) (words : Codewords)
        (old h new : List Happening) (image : Image) (current : Superblock) →
        IsReadyFor aim m words old →
        ((slot : ℕ) → aim ≡ Promote slot → IsRebuiltIn m slot) →
        IsFencing aim gone m last old h new → ¬ IsTrue (stopped h) →
        CrashMayLeave h image → IsToleratedAlone m.array.geometry image →
        IsCurrent m.array.geometry image current → (current.array ≡ m.array)
        ⊎ SeatsMove aim (HasSlot gone) (seats_in m.array) (seats_in current.array) }
{}

/// There are sessions. It does nothing.
pub fn new_laws()
    // On whatever rack: a session whose member knows all slots as live, and each of whose slots is held and has its
    // superblock, its closed gate and its zeros on the disk, is one between the calls of a new array.
    ensures opens { (m : Membership) (before h : List Happening) → IsWhole m →
        Ran any_call before h →
        ((j : ℕ) → j < m.array.geometry.n → IsNewIn m before h j) →
        IsOpenWith before (array_of m) (new_words m.array.geometry) h }
    // There is such a rack for each geometry, in epoch 1 and in each later one that all slots have reached.
    ensures not_empty { (g : Geometry) (epoch : ℕ) → IsWithinLimits g → length g.id ≡ 16 →
        1 ≤ epoch → epoch < 2 ^ 64 →
        IsOpenWith (new_rack g epoch) (array_of (new_member g epoch)) (new_words g)
        (opened_rack g epoch) }
    // All that a session knows besides is so there too:
    ensures in_session { (g : Geometry) (epoch : ℕ) → IsWithinLimits g → length g.id ≡ 16 →
        1 ≤ epoch → epoch < 2 ^ 64 →
        IsInSession (new_member g epoch) (new_words g) (opened_rack g epoch) }
    // all slots are live and attached to their media, and nothing has failed,
    ensures all_here { (g : Geometry) (epoch j : ℕ) → j < g.n →
        IsLiveIn (new_member g epoch) j × IsAttached (opened_rack g epoch) j }
    ensures tolerated { (g : Geometry) (epoch : ℕ) → IsWithinLimits g → length g.id ≡ 16 →
        1 ≤ epoch → epoch < 2 ^ 64 →
        IsTolerated g (new_rack g epoch) (opened_rack g epoch) }
    // and what the member and the stripes tell is the state of a new array,
    ensures created { (g : Geometry) (epoch : ℕ) → IsWithinLimits g →
        IsOfContent (new_member g epoch) (new_words g) first_content
        × (state_with (new_member g epoch) first_content None (new_array g epoch)
        ≡ created_state g) }
    // which the rack represents.
    ensures represents { (g : Geometry) (epoch : ℕ) → IsWithinLimits g → length g.id ≡ 16 →
        1 ≤ epoch → epoch < 2 ^ 64 → Represents (created_state g) (opened_rack g epoch) }
{}
