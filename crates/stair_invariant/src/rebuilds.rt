//! The slot that is being rebuilt, between the calls that write its chunks and what makes it one that serves.

ghost use Rattle.std.specs.Prelude.{◌≡◌, ◌<◌, ◌+◌, ℕ, List};
ghost use Rattle.stair_model.specs.Geometry.{Geometry, IsWithinLimits};
ghost use Rattle.stair_model.specs.Slots.{HasSlot, Slots};
ghost use Rattle.stair_model.specs.Stripe.{Stripe, cell};
ghost use Rattle.stair_rack.specs.Answers.{IsHistory, Ran, any_call};
ghost use Rattle.stair_rack.specs.History.{Happening};
ghost use Rattle.stair_rack.specs.Offline.{IsAttached, WasPulled};
ghost use Rattle.stair_rack.specs.Passes.{IsDone, Settled};
ghost use Rattle.stair_rack.specs.Placed.{IsSlot, Placed};
ghost use Rattle.stair_rack.specs.Stretch.{NothingReturned};
ghost use Rattle.stair_rack.specs.Writing.{IsOnSlot, Writing};
ghost use Rattle.stair_member.specs.Membership.{Membership, why_of};
ghost use Rattle.stair_member.specs.declared.aim.EpochChange.TheVariants.{Promote};
ghost use Rattle.stair_member.specs.declared.why.Why.TheVariants.{Rebuilding};
ghost use Rattle.stair_journal.specs.declared.redo.Redo.{Redo};
ghost use Rattle.stair_stripes.specs.Placing.{cell_writes};
ghost use Rattle.stair_state.specs.Blocks.{Codewords};
ghost use Rattle.stair_state.specs.Recovering.{IsShut};
ghost use Rattle.stair_state.specs.Redoing.{AtRest, IsIn, IsRedoing, Placing, Redoing, writes_in};
ghost use Rattle.stair_invariant.specs.Chunks.{AreOfChunk, IsBesideChunks};
ghost use Rattle.stair_invariant.specs.InSession.{IsInSession, IsReadyFor};
ghost use Rattle.stair_invariant.specs.Rebuilding.{IsRebuiltTo};
ghost use Rattle.stair_invariant.specs.Session.{ServesSlot};

/// How far a rebuild has come, through what a session's calls do. It does nothing.
pub fn rebuild_laws()
    // At first no chunk is asked for.
    ensures none { (g : Geometry) (words : Codewords) (j : ℕ) (start h : List Happening) →
        IsRebuiltTo g words j 0 start h }
    // Calls that write none of its chunks keep them,
    ensures beside { (g : Geometry) (words : Codewords) (j next : ℕ)
        (start old new : List Happening) → IsRebuiltTo g words j next start old →
        Ran (IsBesideChunks g j next) old new → IsRebuiltTo g words j next start new }
    // a redo whose cells are placed on the slot too makes them those of its new stripes,
    ensures placed { (a : Redoing) (j next : ℕ) (to gone : Slots)
        (start old new : List Happening) → IsRedoing a → j < a.geometry.n →
        Placed (writes_in a Placing) (HasSlot to) (HasSlot gone) old new → HasSlot to j →
        ¬ HasSlot gone j → IsRebuiltTo a.geometry a.old j next start old →
        IsRebuiltTo a.geometry a.new j next start new }
    // and writing its chunk of the next stripe makes them one more.
    ensures more { (g : Geometry) (words : Codewords) (redo : Redo) (stripe : Stripe) (j next : ℕ)
        (gone : Slots) (start old new : List Happening) → AreOfChunk g j redo.cells →
        redo.stripe ≡ next → next < g.stripes →
        ((i : ℕ) → i < g.r → cell stripe i j ≡ cell (words next) i j) →
        Writing (cell_writes g redo stripe) (IsSlot j) (HasSlot gone) (IsOnSlot j) old new →
        ¬ HasSlot gone j → Ran any_call start old → IsHistory old →
        IsRebuiltTo g words j next start old → IsRebuiltTo g words j (next + 1) start new }
    // With all chunks written, a sync of the slot leaves it at rest,
    ensures whole { (a : Redoing) (j : ℕ) (to gone : Slots) (start old new : List Happening) →
        Settled to gone old new → IsDone to gone j →
        IsRebuiltTo a.geometry a.old j a.geometry.stripes start old →
        IsShut a.geometry start old j → IsIn a AtRest (IsSlot j) start new }
    // and where it is attached it serves.
    ensures serves { (g : Geometry) (words : Codewords) (j : ℕ) (to gone : Slots)
        (start old new : List Happening) → IsWithinLimits g → Settled to gone old new →
        IsDone to gone j → IsRebuiltTo g words j g.stripes start old → IsShut g start old j →
        IsAttached new j → ¬ WasPulled start new j → ServesSlot g words new j }
    // So it may be promoted then.
    ensures promotable { (m : Membership) (words : Codewords) (j : ℕ) (to gone : Slots)
        (old new : List Happening) → IsInSession m words old → j < m.array.geometry.n →
        why_of m j ≡ Rebuilding → Settled to gone old new → IsDone to gone j →
        (IsAttached old j → IsRebuiltTo m.array.geometry words j m.array.geometry.stripes old old) →
        NothingReturned old new → IsReadyFor (Promote j) m words new }
{}
