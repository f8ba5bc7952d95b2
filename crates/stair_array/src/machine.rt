//! Laws of the machine and of the promise of its steps.

ghost use Rattle.std.specs.Prelude.{◌≡◌, ◌<◌, ◌⊎◌, ℕ, true, IsSome, IsTrue, List, [], ◌∷◌, None, Some, Ok, Err, length};
ghost use Rattle.stair_model.specs.Geometry.{Geometry, block_count, data_cells};
ghost use Rattle.stair_rack.specs.Answers.{IsHistory};
ghost use Rattle.stair_rack.specs.History.{Happening};
ghost use Rattle.stair_super.specs.declared.mark.Mark.TheVariants.{Live, Down, Rebuilding};
ghost use Rattle.stair_member.specs.Membership.{Membership};
ghost use Rattle.stair_member.specs.Seats.{Seats};
ghost use Rattle.stair_member.specs.declared.why.Why.{Why};
ghost use Rattle.stair_state.specs.Blocks.{with_block, with_blocks, zero_block, zero_blocks};
ghost use Rattle.stair_state.specs.State.{BlocksAre, State, created_state, first_content, first_seats};
ghost use Rattle.stair_invariant.specs.Returning.{StaysWithinTolerance, Returning, StandsFor};
ghost use Rattle.stair_invariant.specs.Session.{ArrayState};
ghost use Rattle.stair_rack.specs.declared.watcher.Event.{Event};
ghost use Rattle.stair_array.specs.Examples.{all_but, doubtful, holding, new_with};
ghost use Rattle.stair_array.specs.Machine.{Answer, Chunk, CutWithin, Dropped, LookAtSeats, Nothing, OutOfRange, Promoted, ReadBlock, RebuildNext, Recover, ReplaceSlot, Row, ScrubStripe, SetFrozen, SetLabel, Step, TooFew, WriteBlocks, write_block};
ghost use Rattle.stair_array.specs.Promise.{DoesStep, IsInState, LeadsStep, Opened, Seen, is_open};

/// A row of the machine for each step, from small states. It does nothing.
pub fn machine_laws()
    // a write that was cut is settled by the next opening: it was done, or it wasn't
    ensures opened_without { (g : Geometry) (bytes : List ℕ) →
        Row Recover (Ok g) (first_seats g) (doubtful g bytes) (created_state g) }
    ensures opened_with { (g : Geometry) (bytes : List ℕ) →
        Row Recover (Ok g) (first_seats g) (doubtful g bytes)
        (holding g (record first_content { blocks = with_block zero_blocks 0 bytes })) }
    // a new block reads as zeros, and as what was written
    ensures read { (g : Geometry) (b : ℕ) → b < block_count g →
        Row (ReadBlock b) (Ok zero_block) (first_seats g) (created_state g) (created_state g) }
    ensures written { (g : Geometry) (bytes : List ℕ) → 0 < block_count g → 0 < data_cells g →
        Row (write_block 0 bytes) (Ok tt) (first_seats g) (created_state g)
        (holding g (record first_content { blocks = with_block zero_blocks 0 bytes })) }
    // one past the end is refused, and changes nothing
    ensures out_of_range { (g : Geometry) (b : ℕ) →
        Row (ReadBlock b) (Err (OutOfRange b (block_count g))) (first_seats g) (created_state g)
        (created_state g) }
    // one that too few devices are left for may be in doubt
    ensures in_doubt { (g : Geometry) (bytes : List ℕ) (whys : List Why) → 0 < block_count g →
        0 < data_cells g →
        Row (write_block 0 bytes) (Err (TooFew whys)) (first_seats g) (created_state g)
        (record (doubtful g bytes) { seats = Some (first_seats g) }) }
    // a scrub changes nothing of the blocks, and may lose a slot
    ensures scrubbed { (g : Geometry) (t slot : ℕ) → t < g.stripes → slot < g.n →
        Row (ScrubStripe t) (Ok 0) (first_seats g) (created_state g)
        (new_with g (all_but g slot Down 0)) }
    // a slot that is Down is replaced in epoch 5, rebuilt chunk by chunk, and promoted; or it is dropped
    ensures replaced { (g : Geometry) (slot : ℕ) → slot < g.n →
        Row (ReplaceSlot slot) (Ok tt) (all_but g slot Down 0) (new_with g (all_but g slot Down 0))
        (new_with g (all_but g slot Rebuilding 5)) }
    ensures rebuilt { (g : Geometry) (slot t : ℕ) →
        Row RebuildNext (Ok (Chunk slot t)) (all_but g slot Rebuilding 5)
        (new_with g (all_but g slot Rebuilding 5)) (new_with g (all_but g slot Rebuilding 5)) }
    ensures promoted { (g : Geometry) (slot : ℕ) →
        Row RebuildNext (Ok (Promoted slot)) (all_but g slot Rebuilding 5)
        (new_with g (all_but g slot Rebuilding 5)) (new_with g (all_but g slot Live 5)) }
    ensures dropped { (g : Geometry) (slot : ℕ) →
        Row RebuildNext (Ok (Dropped slot)) (all_but g slot Rebuilding 5)
        (new_with g (all_but g slot Rebuilding 5)) (new_with g (all_but g slot Down 0)) }
    // the frozen mark, the label, and a look
    ensures frozen { (g : Geometry) → Row (SetFrozen true) (Ok tt) (first_seats g) (created_state g)
        (holding g (record first_content { frozen = true })) }
    ensures labelled { (g : Geometry) (label : List ℕ) →
        Row (SetLabel label) (Ok tt) (first_seats g) (created_state g)
        (holding g (record first_content { label = label })) }
    ensures looked { (g : Geometry) →
        Row LookAtSeats (Ok (first_seats g)) (first_seats g) (created_state g) (created_state g) }
    // a write that is cut leaves the array as it was, or with the block set, or in doubt
    ensures cut { (g : Geometry) (bytes : List ℕ) → 0 < block_count g → 0 < data_cells g →
        CutWithin (write_block 0 bytes) (first_seats g) (created_state g) (created_state g)
        × CutWithin (write_block 0 bytes) (first_seats g) (created_state g)
        (record (doubtful g bytes) { seats = Some (first_seats g) }) }
    // but no other block is set by it
    ensures no_other { (g : Geometry) (seats : Seats) (bytes other : List ℕ) (s : State) →
        CutWithin (write_block 0 bytes) seats (created_state g) s →
        (s.content.blocks ≡ zero_blocks) ⊎ (s.content.blocks ≡ with_block zero_blocks 0 bytes) }
{}

/// What follows from the promise of a step. It does nothing.
pub fn promise_laws()
    // an array that was stopped does nothing
    ensures stopped { (step : Step) (answer : Answer step) (events : List Event) (x y : Seen)
        (a : ArrayState) → DoesStep step answer events x y → x.session ≡ Opened a →
        IsSome a.stopped → y ≡ x }
    // a read gives its block, and changes none
    ensures reads { (returning : Returning) (m : Membership) (b : ℕ) (bytes : List ℕ) (x y : Seen)
        (before : List Happening) (s : State) → LeadsStep returning m (ReadBlock b) (Ok bytes) x y →
        IsTrue y.told.honest → IsHistory x.told.history → IsInState returning before s x →
        StaysWithinTolerance returning s.geometry (is_open x.session) before y.told.history →
        (bytes ≡ s.content.blocks b) × ((state : State) × (state.content ≡ s.content)
        × StandsFor returning state y.told.history) }
    // and one that was written is there from then on, with nothing in doubt
    ensures writes { (returning : Returning) (m : Membership) (first : ℕ)
        (contents : List (List ℕ)) (x y : Seen) (before : List Happening) (s : State) →
        LeadsStep returning m (WriteBlocks first contents) (Ok tt) x y → IsTrue y.told.honest → IsHistory x.told.history →
        IsInState returning before s x →
        StaysWithinTolerance returning s.geometry (is_open x.session) before y.told.history →
        (state : State) × (state.content.blocks ≡ with_blocks s.content.blocks first contents)
        × (state.in_doubt ≡ None) × StandsFor returning state y.told.history }
{}
