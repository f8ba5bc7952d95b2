//! Laws of the calls by which the slots of an array are mended one by one, in whatever order its user makes them.

ghost use Rattle.std.specs.Prelude.{◌≡◌, ◌+◌, ◌<◌, ℕ, true, IsTrue, List, None, Ok, Option, Result, Some};
ghost use Rattle.stair_rack.specs.Answers.{IsHistory};
ghost use Rattle.stair_rack.specs.Crash.{EachImage};
ghost use Rattle.stair_rack.specs.History.{Happening};
ghost use Rattle.stair_rack.specs.Moments.{IsMoment};
ghost use Rattle.stair_rack.specs.RackState.{RackState};
ghost use Rattle.stair_rack.specs.declared.rack.Reply.{Reply};
ghost use Rattle.stair_rack.specs.declared.rack.Reply.TheVariants.{Done};
ghost use Rattle.stair_member.specs.Membership.{Membership};
ghost use Rattle.stair_state.specs.State.{State};
ghost use Rattle.stair_invariant.specs.Effects.{Snapshot, snapshot};
ghost use Rattle.stair_invariant.specs.Rebuilding.{Rebuild};
ghost use Rattle.stair_invariant.specs.Returning.{StaysWithinTolerance, NoneReturns};
ghost use Rattle.stair_invariant.specs.SeatSteps.{EachMayDrop};
ghost use Rattle.stair_invariant.specs.Session.{ArrayState, Remembered, seats_in};
ghost use Rattle.stair_array.specs.Causes.{IsFree, IsNextChunk};
ghost use Rattle.stair_array.specs.Machine.{Progress, RebuildNext, Refusal};
ghost use Rattle.stair_array.specs.MendingCalls.{AdmitsSlot};
ghost use Rattle.stair_array.specs.MendingSteps.{WritesNext};
ghost use Rattle.stair_array.specs.Mends.{PreparesSlot, Promotes, Rebuilds, Replaces};
ghost use Rattle.stair_array.specs.Promise.{IsInState, IsLeftBy, Opened, running};
ghost use Rattle.stair_mend.specs.Steps.{chunk_came};

/// What the calls of an array for its slots are. It does nothing.
pub fn mending_laws()
    // a chunk but the last one of its slot is a step of a rebuild
    ensures chunk { (was : ArrayState) (j t : ℕ) (answer : Result Reply Refusal) (x y : Snapshot) →
        IsNextChunk was j t → t + 1 < x.member.array.geometry.stripes → WritesNext j t answer x y →
        Rebuilds was (chunk_came j t answer) x y }
    // the last chunk is one together with the promotion
    ensures last { (was : ArrayState) (j t : ℕ) (answer : Result Progress Refusal) (x y z : Snapshot) →
        IsNextChunk was j t → t + 1 ≡ x.member.array.geometry.stripes → WritesNext j t (Ok Done) x y →
        Promotes j answer y z → Rebuilds was answer x z }
    // and so is a promotion alone, where all chunks were written
    ensures promotion { (was : ArrayState) (j t : ℕ) (answer : Result Progress Refusal) (x y : Snapshot) →
        IsNextChunk was j t → t ≡ x.member.array.geometry.stripes → Promotes j answer x y →
        Rebuilds was answer x y }
    // an admission of a slot that was prepared is a replacement
    ensures admission { (slot : ℕ) (answer : Result (Unit {0}) Refusal) (x y z : Snapshot) →
        IsFree x.member slot → PreparesSlot slot (Ok tt) x y → AdmitsSlot slot answer y z →
        Replaces slot answer x z }
    // On an honest rack that is an array in a state, each image that a crash may leave at a moment of a chunk represents a
    // state that a crash within a step of a rebuild leaves. This holds for the last chunk too, before any promotion.
    ensures cut { (m last : Membership) (rebuild : Option Rebuild) (known : Option Remembered) (j t : ℕ)
        (answer : Result Reply Refusal) (x y : RackState) (before : List Happening) (s : State)
        (c : List Happening) → IsNextChunk (running m rebuild known) j t →
        t < m.array.geometry.stripes → WritesNext j t answer (snapshot m x) (snapshot last y) →
        IsTrue y.honest → IsHistory x.history →
        IsInState NoneReturns before s (record { told = x; session = Opened (running m rebuild known) }) →
        IsMoment x.history c y.history → StaysWithinTolerance NoneReturns s.geometry true before c →
        EachImage (IsLeftBy NoneReturns RebuildNext m before c s) c }
    // Once a chunk was written, be it the last one of its slot, the array goes on in its state. Other slots may have been
    // dropped. The rebuild has come past the chunk, and so any call of the array may come before the promotion.
    ensures goes_on { (m last : Membership) (rebuild : Option Rebuild) (known : Option Remembered) (j t : ℕ)
        (x y : RackState) (before : List Happening) (s : State) → IsNextChunk (running m rebuild known) j t →
        t < m.array.geometry.stripes → WritesNext j t (Ok Done) (snapshot m x) (snapshot last y) →
        IsTrue y.honest → IsHistory x.history →
        IsInState NoneReturns before s (record { told = x; session = Opened (running m rebuild known) }) →
        StaysWithinTolerance NoneReturns s.geometry true before y.history →
        EachMayDrop (seats_in m.array) (seats_in last.array) ×
        IsInState NoneReturns before (record s { seats = Some (seats_in last.array) })
        (record { told = y; session = Opened (running last (Some (record { slot = j; stripe = t + 1 })) None) }) }
{}
