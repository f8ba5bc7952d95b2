//! What a chunk that is written leaves, where media come back.

ghost use Rattle.std.specs.Prelude.{◌≡◌, ◌+◌, ◌<◌, ℕ, true, IsTrue, List, None, Ok, Option, Result, Some};
ghost use Rattle.stair_rack.specs.Answers.{IsHistory};
ghost use Rattle.stair_rack.specs.Crash.{EachImage};
ghost use Rattle.stair_rack.specs.History.{Happening};
ghost use Rattle.stair_rack.specs.Moments.{IsMoment};
ghost use Rattle.stair_rack.specs.RackState.{RackState};
ghost use Rattle.stair_rack.specs.declared.rack.Reply.{Reply};
ghost use Rattle.stair_rack.specs.declared.rack.Reply.TheVariants.{Done};
ghost use Rattle.stair_member.specs.Membership.{Membership};
ghost use Rattle.stair_state.specs.State.{State};
ghost use Rattle.stair_invariant.specs.Effects.{snapshot};
ghost use Rattle.stair_invariant.specs.Rebuilding.{Rebuild};
ghost use Rattle.stair_invariant.specs.Returning.{AnyReturns, StaysWithinTolerance};
ghost use Rattle.stair_invariant.specs.SeatSteps.{EachMayDrop};
ghost use Rattle.stair_invariant.specs.Session.{Remembered, seats_in};
ghost use Rattle.stair_array.specs.Causes.{IsNextChunk};
ghost use Rattle.stair_array.specs.Machine.{RebuildNext, Refusal};
ghost use Rattle.stair_array.specs.MendingSteps.{WritesNext};
ghost use Rattle.stair_array.specs.Promise.{IsInState, IsLeftBy, Opened, running};

/// What `chunk_to` of an array leaves. It does nothing.
pub fn chunk_laws()
    // On an honest rack that is an array in a state, each image that a crash may leave at a moment of a chunk represents a
    // state that a crash within a step of a rebuild leaves. This holds for the last chunk too, before any promotion.
    ensures cut { (m last : Membership) (rebuild : Option Rebuild) (known : Option Remembered) (j t : ℕ)
        (answer : Result Reply Refusal) (x y : RackState) (before : List Happening) (s : State)
        (c : List Happening) → IsNextChunk (running m rebuild known) j t →
        t < m.array.geometry.stripes → WritesNext j t answer (snapshot m x) (snapshot last y) →
        IsTrue y.honest → IsHistory x.history →
        IsInState AnyReturns before s (record { told = x; session = Opened (running m rebuild known) }) →
        IsMoment x.history c y.history → StaysWithinTolerance AnyReturns s.geometry true before c →
        EachImage (IsLeftBy AnyReturns RebuildNext m before c s) c }
    // Once a chunk was written, be it the last one of its slot, the array goes on in its state. Other slots may have been
    // dropped. The rebuild has come past the chunk, and so any call of the array may come before the promotion.
    ensures goes_on { (m last : Membership) (rebuild : Option Rebuild) (known : Option Remembered) (j t : ℕ)
        (x y : RackState) (before : List Happening) (s : State) → IsNextChunk (running m rebuild known) j t →
        t < m.array.geometry.stripes → WritesNext j t (Ok Done) (snapshot m x) (snapshot last y) →
        IsTrue y.honest → IsHistory x.history →
        IsInState AnyReturns before s (record { told = x; session = Opened (running m rebuild known) }) →
        StaysWithinTolerance AnyReturns s.geometry true before y.history →
        EachMayDrop (seats_in m.array) (seats_in last.array) ×
        IsInState AnyReturns before (record s { seats = Some (seats_in last.array) })
        (record { told = y; session = Opened (running last (Some (record { slot = j; stripe = t + 1 })) None) }) }
{}
