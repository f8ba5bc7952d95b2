//! The laws of histories of a rack in memory: of crashes, of stretches, of reads, of media and of phases.

ghost use Rattle.std.specs.Prelude.{◌≡◌, ◌≢◌, ◌⊎◌, ◌<◌, ◌≤◌, ◌+◌, ℕ, IsTrue, IsSome, false, List, [], ◌∷◌, Option, None, Some, length, ⊤};
ghost use Rattle.stair_rack.specs.Sector.{Cell, Good, Damaged, settled, content};
ghost use Rattle.stair_rack.specs.Media.{Image, has_sector};
ghost use Rattle.stair_rack.specs.History.{Happening, Made, Read, Sync, Write, slot_state, stopped};
ghost use Rattle.stair_rack.specs.Answers.{Calls, IsHistory, IsNoAttach, Ran, any_call, is_ready};
ghost use Rattle.stair_rack.specs.Crash.{CrashMayLeave};
ghost use Rattle.stair_rack.specs.EachMedium.{EachMedium};
ghost use Rattle.stair_rack.specs.Moments.{AtEveryMoment, AtSomeMoment, IsMoment};
ghost use Rattle.stair_rack.specs.Offline.{ButForOutside, WasPulled};
ghost use Rattle.stair_rack.specs.Passes.{Landed};
ghost use Rattle.stair_rack.specs.Placed.{IsGoneSlot, IsSlot, Placed, one_write};
ghost use Rattle.stair_rack.specs.PlacedInTurn.{PlacedInTurn};
ghost use Rattle.stair_rack.specs.Reading.{WasRead};
ghost use Rattle.stair_rack.specs.Stretch.{NoneWritten, NothingDamaged, NothingReturned, NothingWritten, WasAnswered};
ghost use Rattle.stair_rack.specs.declared.rack.Got.{Got};
ghost use Rattle.stair_rack.specs.declared.rack.Reply.{Reply};
ghost use Rattle.stair_memrack.specs.Picks.{crash_image};
ghost use Rattle.stair_memrack.specs.Terms.{HoldsNot, IsBelow, any_cell, by_slot, copies, no_sync, no_write, no_write_of};

/// What a crash leaves by picks. It does nothing.
pub fn crash_laws()
    // an image that a crash may leave, whatever the picks
    ensures left { (picks : List ℕ) (h : List Happening) → CrashMayLeave h (crash_image picks h) }
    // and of a rack that is made over it a crash may leave nothing else
    ensures made_again { (picks : List ℕ) (h : List Happening) (image : Image) → IsHistory h →
        CrashMayLeave (Made (crash_image picks h) ∷ []) image → (j k : ℕ) →
        (image j).cell k ≡ (crash_image picks h j).cell k }
{}

/// What a stretch without writes, without damage or without media that come back leaves. It does nothing.
pub fn stretch_laws()
    // nothing is written by calls that write nothing, before or after a stretch in which nothing was
    ensures unwritten { (old mid now new : List Happening) → Ran no_write old mid →
        NothingWritten mid now → Ran no_write now new → NothingWritten old new }
    // and where nothing was, the calls are such
    ensures spared { (old new : List Happening) → Ran any_call old new → NothingWritten old new →
        Ran no_write old new }
    // nor was any one slot written then, up to a moment or from there on
    ensures parts { (old h new : List Happening) (j : ℕ) → NothingWritten old new →
        IsMoment old h new → NoneWritten (IsSlot j) old h × NoneWritten (IsSlot j) h new }
    // at each moment of it a crash leaves what stood on the disk, unless the medium was pulled or the sector damaged
    ensures survives { (old h new : List Happening) (image : Image) (j k : ℕ) (cell : Cell) →
        Ran no_write old new → IsMoment old h new → CrashMayLeave h image →
        IsSome (slot_state old j).size → (slot_state old j).sector k ≡ settled cell →
        WasPulled old h j ⊎ (((image j).cell k ≡ Damaged) ⊎ ((image j).cell k ≡ cell)) }
    // and where no sector became damaged bytes stand as they did, unless the medium was pulled
    ensures undamaged { (old new : List Happening) (j k : ℕ) (bytes : List ℕ) →
        Ran any_call old new → NothingWritten old new → NothingDamaged old new →
        IsSome (slot_state old j).size → (slot_state old j).sector k ≡ settled (Good bytes) →
        AtEveryMoment (λ h. WasPulled old h j
        ⊎ ((slot_state h j).sector k ≡ settled (Good bytes))) old new }
    // a medium that has sector l has each lower one, and stays in its slot unless it is pulled
    ensures stays { (old new : List Happening) (j k l : ℕ) → Ran any_call old new → k ≤ l →
        IsTrue (has_sector (slot_state old j).size l) →
        IsTrue (has_sector (slot_state old j).size k) × ButForOutside old new j k (λ s. ⊤) }
    // where no removed medium comes back, none is lost from its drawer
    ensures drawers { (old new : List Happening) (j : ℕ) → Ran any_call old new →
        NothingReturned old new → AtEveryMoment (λ h.
        length (slot_state old j).removed ≤ length (slot_state h j).removed) old new }
{}

/// What the reads of a survey tell. It does nothing.
pub fn read_laws()
    // a good read of these bytes is told, and they were there while the slot was in use
    ensures good { (old mid new : List Happening) (j k : ℕ) (bytes : List ℕ) →
        Calls old mid j (Read k Got.Good) → content ((slot_state mid j).sector k) ≡ Good bytes →
        Ran any_call mid new → WasAnswered j (Read k Got.Good) old new
        × Landed old new j k bytes × WasRead (λ cell. cell ≡ Good bytes) old new j k }
    // a bad read is told, and at some moment the sector didn't hold these bytes, whichever they are
    ensures bad { (old mid new : List Happening) (j k : ℕ) (bytes : List ℕ) → IsHistory old →
        Calls old mid j (Read k Got.Bad) → Ran any_call mid new →
        WasAnswered j (Read k Got.Bad) old new
        × AtSomeMoment (λ h. content ((slot_state h j).sector k) ≢ Good bytes) old new }
    // after a read that was gone the slot isn't in use until it is attached; the read is told, or the rack is stopped
    ensures gone { (old mid new : List Happening) (j k : ℕ) → Calls old mid j (Read k Got.Gone) →
        Ran (IsNoAttach j) mid new → (is_ready new j ≡ false)
        × (WasAnswered j (Read k Got.Gone) old mid ⊎ IsTrue (stopped mid)) }
    // a read that wasn't gone is of the medium that the slot had, if there was no attach since
    ensures one_medium { (old mid new : List Happening) (j k : ℕ) (answer : Got) →
        Ran (IsNoAttach j) old mid → Calls mid new j (Read k answer) → answer ≢ Got.Gone →
        ¬ WasPulled old new j }
{}

/// What follows a medium out of its slot and back. It does nothing.
pub fn medium_laws()
    // bytes that no medium of a slot holds, in it or removed, are on none of them until they are written
    ensures nowhere { (old new : List Happening) (j : ℕ) (bytes : List ℕ) →
        Ran (no_write_of bytes) old new →
        EachMedium (HoldsNot bytes) (HoldsNot bytes) (slot_state old j) →
        AtEveryMoment (λ h. EachMedium (HoldsNot bytes) (HoldsNot bytes) (slot_state h j))
        old new }
    // nor in a rack that is made over what a crash left
    ensures made_again { (h : List Happening) (image : Image) (j : ℕ) (bytes : List ℕ) →
        CrashMayLeave h image → EachMedium (HoldsNot bytes) (HoldsNot bytes) (slot_state h j) →
        EachMedium (HoldsNot bytes) (HoldsNot bytes) (slot_state (Made image ∷ []) j) }
    // nor were they there at the last sync, also once they are written, until a sync or a medium that comes back
    ensures unsynced { (old new : List Happening) (j : ℕ) (bytes : List ℕ) → Ran no_sync old new →
        NothingReturned old new →
        EachMedium (HoldsNot bytes) (HoldsNot bytes) (slot_state old j) →
        AtEveryMoment (λ h. EachMedium any_cell (HoldsNot bytes) (slot_state h j)) old new }
{}

/// What phases of a slot each leave. It does nothing.
pub fn phase_laws()
    // slots that are placed one after the other: none yet
    ensures none { (sector : ℕ) (bytes : ℕ → List ℕ) (h : List Happening) → NothingWritten h h
        × PlacedInTurn (by_slot sector bytes) (IsBelow 0) None h h }
    // one more, by a `write_through` that was done
    ensures next { (sector slot : ℕ) (bytes : ℕ → List ℕ) (old now new : List Happening) →
        PlacedInTurn (by_slot sector bytes) (IsBelow slot) None old now →
        Placed (one_write slot sector (bytes slot)) (IsSlot slot) (IsGoneSlot slot Reply.Done)
        now new → PlacedInTurn (by_slot sector bytes) (IsBelow (slot + 1)) None old new }
    // and they stop at one that was gone
    ensures stops { (sector slot : ℕ) (bytes : ℕ → List ℕ) (old now new : List Happening) →
        PlacedInTurn (by_slot sector bytes) (IsBelow slot) None old now →
        Placed (one_write slot sector (bytes slot)) (IsSlot slot) (IsGoneSlot slot Reply.Gone)
        now new → PlacedInTurn (by_slot sector bytes) (IsBelow slot) (Some slot) old new }
    // those that were placed got their bytes, and nothing on them is unsynced as long as nothing is written
    ensures whole { (sector n : ℕ) (bytes : ℕ → List ℕ) (last : Option ℕ)
        (old now new : List Happening) (j k : ℕ) →
        PlacedInTurn (by_slot sector bytes) (IsBelow n) last old now → Ran no_write now new →
        j < n → IsSome (slot_state old j).size → Landed old new j sector (bytes j)
        × AtEveryMoment (λ h. ButForOutside old h j k (λ s. s.since ≡ [])) now new }
    // after a `write_through` that was done nothing on its slot is unsynced, and a crash leaves its bytes, as long as
    // nothing is written
    ensures on_disk { (slot sector k : ℕ) (bytes : List ℕ) (old now new : List Happening)
        (image : Image) →
        Placed (one_write slot sector bytes) (IsSlot slot) (IsGoneSlot slot Reply.Done) old now →
        Ran no_write now new → CrashMayLeave new image → IsSome (slot_state old slot).size →
        ButForOutside old new slot k (λ s. s.since ≡ []) × (WasPulled old new slot
        ⊎ (((image slot).cell sector ≡ Damaged) ⊎ ((image slot).cell sector ≡ Good bytes))) }
    // done or gone, it writes no other slot
    ensures alone { (slot sector other : ℕ) (bytes : List ℕ) (answer : Reply)
        (old new : List Happening) →
        Placed (one_write slot sector bytes) (IsSlot slot) (IsGoneSlot slot answer) old new →
        other ≢ slot → NoneWritten (IsSlot other) old new }
    // two sectors that are written and then synced are a phase
    ensures both { (slot : ℕ) (bytes : List ℕ) (answer : Reply) (old now mid new : List Happening) →
        Calls old now slot (Write 0 bytes Reply.Done) →
        Calls now mid slot (Write 1 bytes Reply.Done) → Calls mid new slot (Sync answer) →
        Placed (copies slot bytes) (IsSlot slot) (IsGoneSlot slot answer) old new }
{}
