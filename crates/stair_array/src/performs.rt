//! What is promised of a step is so of what the array did, on any rack.

ghost use Rattle.std.specs.Prelude.{◌≡◌, ℕ, Bool, List, [], Err, Ok, Option, Some};
ghost use Rattle.stair_rack.specs.RackState.{RackState};
ghost use Rattle.stair_member.specs.Membership.{IsMembership, Membership};
ghost use Rattle.stair_member.specs.declared.fault.FenceFault.{FenceFault};
ghost use Rattle.stair_invariant.specs.Effects.{snapshot};
ghost use Rattle.stair_invariant.specs.Rebuilding.{Rebuild};
ghost use Rattle.stair_invariant.specs.Session.{ArrayState, IsArray, Remembered, seats_in};
ghost use Rattle.stair_array.specs.Calls.{Reads, WritesBlocks, refused};
ghost use Rattle.stair_array.specs.Events.{events_of};
ghost use Rattle.stair_array.specs.Machine.{
  Answer,
  LookAtSeats,
  ReadBlock,
  RebuildNext,
  Recover,
  ReplaceSlot,
  ScrubStripe,
  SetFrozen,
  SetLabel,
  Step,
  WriteBlocks,
};
ghost use Rattle.stair_array.specs.Mends.{Rebuilds, Replaces, Scrubs, StampsAs};
ghost use Rattle.stair_array.specs.Openings.{Recovers};
ghost use Rattle.stair_array.specs.Promise.{
  AnswersStopped,
  Found,
  Keeps,
  Opened,
  Performs,
  Seen,
  left_of,
  rebuild_then,
  running,
  session_after,
};

/// What calls did is what is promised of a step. It does nothing.
pub fn performs_laws()
    // an opening of an array that was found
    ensures opening { (m last : Membership) (answer : Answer Recover) (x y : RackState) →
        IsMembership m → Recovers answer (snapshot m x) (snapshot last y) →
        Performs Recover answer (events_of Recover answer m.array last.array)
        (record { told = x; session = Found m })
        (record { told = y; session = session_after answer last }) }
    // a read of a block by an open array that wasn't stopped
    ensures read { (b : ℕ) (m last : Membership) (rebuild : Option Rebuild)
        (known after : Option Remembered)
        (stopped : Option FenceFault) (answer : Answer (ReadBlock b)) (x y : RackState) →
        IsArray (running m rebuild known) → Reads b known after answer (snapshot m x) (snapshot last y) →
        Keeps answer stopped →
        Performs (ReadBlock b) answer (events_of (ReadBlock b) answer m.array last.array)
        (record { told = x; session = Opened (running m rebuild known) })
        (record { told = y; session = Opened (record (left_of last rebuild stopped) { remembered = after }) }) }
    // a write of blocks
    ensures write { (first : ℕ) (contents : List (List ℕ)) (m last : Membership)
        (rebuild : Option Rebuild) (known : Option Remembered) (stopped : Option FenceFault)
        (answer : Answer (WriteBlocks first contents)) (x y : RackState) →
        IsArray (running m rebuild known) → WritesBlocks first contents answer (snapshot m x) (snapshot last y) →
        Keeps answer stopped →
        Performs (WriteBlocks first contents) answer
        (events_of (WriteBlocks first contents) answer m.array last.array)
        (record { told = x; session = Opened (running m rebuild known) })
        (record { told = y; session = Opened (left_of last rebuild stopped) }) }
    // a scrub of a stripe
    ensures scrub { (t : ℕ) (m last : Membership) (rebuild : Option Rebuild) (known : Option Remembered)
        (stopped : Option FenceFault) (answer : Answer (ScrubStripe t)) (x y : RackState) →
        IsArray (running m rebuild known) → Scrubs t answer (snapshot m x) (snapshot last y) →
        Keeps answer stopped →
        Performs (ScrubStripe t) answer (events_of (ScrubStripe t) answer m.array last.array)
        (record { told = x; session = Opened (running m rebuild known) })
        (record { told = y; session = Opened (left_of last rebuild stopped) }) }
    // a slot that is replaced
    ensures replace { (slot : ℕ) (m last : Membership) (rebuild : Option Rebuild) (known : Option Remembered)
        (stopped : Option FenceFault) (answer : Answer (ReplaceSlot slot)) (x y : RackState) →
        IsArray (running m rebuild known) → Replaces slot answer (snapshot m x) (snapshot last y) →
        Keeps answer stopped →
        Performs (ReplaceSlot slot) answer (events_of (ReplaceSlot slot) answer m.array last.array)
        (record { told = x; session = Opened (running m rebuild known) })
        (record { told = y; session = Opened (left_of last rebuild stopped) }) }
    // a step of a rebuild
    ensures rebuild { (m last : Membership) (rebuild : Option Rebuild) (known : Option Remembered) (stopped : Option FenceFault)
        (answer : Answer RebuildNext) (x y : RackState) →
        IsArray (running m rebuild known) → Rebuilds (running m rebuild known) answer (snapshot m x) (snapshot last y) →
        Keeps answer stopped →
        Performs RebuildNext answer (events_of RebuildNext answer m.array last.array)
        (record { told = x; session = Opened (running m rebuild known) })
        (record {
          told = y;
          session = Opened (record {
            member = last;
            rebuild = rebuild_then answer last rebuild;
            stopped = stopped;
            remembered = None;
          });
        }) }
    // a frozen mark
    ensures freeze { (frozen : Bool) (m last : Membership) (rebuild : Option Rebuild) (known : Option Remembered)
        (stopped : Option FenceFault) (answer : Answer (SetFrozen frozen)) (x y : RackState) →
        IsArray (running m rebuild known) →
        StampsAs frozen m.array.label answer (snapshot m x) (snapshot last y) → Keeps answer stopped →
        Performs (SetFrozen frozen) answer
        (events_of (SetFrozen frozen) answer m.array last.array)
        (record { told = x; session = Opened (running m rebuild known) })
        (record { told = y; session = Opened (left_of last rebuild stopped) }) }
    // a label
    ensures label { (label : List ℕ) (m last : Membership) (rebuild : Option Rebuild) (known : Option Remembered)
        (stopped : Option FenceFault) (answer : Answer (SetLabel label)) (x y : RackState) →
        IsArray (running m rebuild known) →
        StampsAs m.array.frozen label answer (snapshot m x) (snapshot last y) → Keeps answer stopped →
        Performs (SetLabel label) answer (events_of (SetLabel label) answer m.array last.array)
        (record { told = x; session = Opened (running m rebuild known) })
        (record { told = y; session = Opened (left_of last rebuild stopped) }) }
    // a look at the seats of an array that wasn't stopped, which calls nothing
    ensures look { (m : Membership) (rebuild : Option Rebuild) (known : Option Remembered) (x : RackState) →
        IsArray (running m rebuild known) →
        Performs LookAtSeats (Ok (seats_in m.array))
        (events_of LookAtSeats (Ok (seats_in m.array)) m.array m.array)
        (record { told = x; session = Opened (running m rebuild known) })
        (record { told = x; session = Opened (running m rebuild known) }) }
    // and an array that was stopped, which is called nothing
    ensures stopped { (step : Step) (array : ArrayState) (fault : FenceFault) (x : Seen) →
        x.session ≡ Opened array → array.stopped ≡ Some fault →
        AnswersStopped step (Err (refused fault)) [] x x }
{}
