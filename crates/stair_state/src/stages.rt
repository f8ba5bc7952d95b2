// The stages of a redo, sector by sector.
ghost use Rattle.std.specs.Prelude.{◌≡◌, ◌<◌, ◌≤◌, ◌⊎◌, ℕ, true, IsSome, IsTrue, Some, List, [], ◌∷◌};
ghost use Rattle.stair_model.specs.Device.{gate_sector};
ghost use Rattle.stair_model.specs.Geometry.{Geometry, sectors_needed};
ghost use Rattle.stair_model.specs.Slots.{Slots, HasSlot};
ghost use Rattle.stair_rack.specs.Answers.{Ran, any_call, is_ready};
ghost use Rattle.stair_rack.specs.Crash.{CrashMayLeave, EachImage, image_now};
ghost use Rattle.stair_rack.specs.History.{Happening, Made, slot_state, stopped};
ghost use Rattle.stair_rack.specs.Media.{Image};
ghost use Rattle.stair_rack.specs.Moments.{AtEveryMoment};
ghost use Rattle.stair_rack.specs.Offline.{WasPulled};
ghost use Rattle.stair_rack.specs.Placed.{IsSlot, Placed, Writes};
ghost use Rattle.stair_state.specs.Forms.{HasGate, RepresentsBy};
ghost use Rattle.stair_state.specs.Redoing.{AreHeld, AtRest, AttachesNone, Done, IsApart, IsIn, IsInSome, IsLeftIn, IsPhase, IsRedoing, Placing, Reaches, Redoing, RunsTo, Stage, WritesNone, new_in, next, old_in, writes_in};
ghost use Rattle.stair_state.specs.Represents.{IsLargeEnough};

/// The stages of a redo over the devices of an array. It does nothing.
pub fn stage_laws()
    // a stage's phase writes no superblock place, and nothing after what the array needs
    ensures within { (a : Redoing) (stage : Stage) (j k : ℕ) (bytes : List ℕ) → IsRedoing a →
        writes_in a stage j k ≡ Some bytes →
        (gate_sector ≤ k) × (k < sectors_needed a.geometry) }
    // the phase of a stage keeps it at every moment, and leads to the next one, unless the rack is stopped; slots stay held
    ensures phase { (a : Redoing) (stage : Stage) (live : Slots)
        (start old new : List Happening) → IsRedoing a →
        AreHeld a.geometry (HasSlot live) start old → IsIn a stage (HasSlot live) start old →
        IsPhase (writes_in a stage) (HasSlot live) start old new →
        AtEveryMoment (IsIn a stage (HasSlot live) start) old new ×
        Reaches a (next stage) (HasSlot live) start new ×
        AreHeld a.geometry (HasSlot live) start new }
    // it is reached outright where each live slot answered the whole phase, or lost its medium
    ensures answered { (a : Redoing) (stage : Stage) (live to gone : Slots)
        (start old new : List Happening) → IsRedoing a → Ran any_call start old →
        IsIn a stage (HasSlot live) start old →
        Placed (writes_in a stage) (HasSlot to) (HasSlot gone) old new →
        ((j : ℕ) → HasSlot live j →
        (HasSlot to j × ¬ HasSlot gone j) ⊎ WasPulled start new j) →
        IsIn a (next stage) (HasSlot live) start new }
    // calls that write to no live slot from the gate on keep it
    ensures unwritten { (a : Redoing) (stage : Stage) (live : Slots)
        (start old new : List Happening) →
        IsIn a stage (HasSlot live) start old → Ran (WritesNone (HasSlot live)) old new →
        AtEveryMoment (IsIn a stage (HasSlot live) start) old new }
    // and so does any call on a rack that is stopped
    ensures stopped { (a : Redoing) (stage : Stage) (live : Slots)
        (start old new : List Happening) →
        IsIn a stage (HasSlot live) start old → IsTrue (stopped old) → Ran any_call old new →
        AtEveryMoment (IsIn a stage (HasSlot live) start) old new }
    // slots that are attached to media that are large enough, and that they had at the start, are held
    ensures holds { (g : Geometry) (live : Slots) (start h : List Happening) →
        Ran any_call start h →
        ((j : ℕ) → HasSlot live j → ((slot_state h j).attached ≡ true)
        × (¬ WasPulled start h j) × IsLargeEnough g (slot_state h j).size) →
        AreHeld g (HasSlot live) start h }
    // and stay so while none of them is attached
    ensures held { (g : Geometry) (live : Slots) (start old new : List Happening) →
        AreHeld g (HasSlot live) start old → Ran (AttachesNone (HasSlot live)) old new →
        AreHeld g (HasSlot live) start new }
    // calls that are apart do neither, and no phase attaches a slot
    ensures apart { (live : Slots) (old new : List Happening) →
        Ran (IsApart (HasSlot live)) old new →
        Ran (WritesNone (HasSlot live)) old new × Ran (AttachesNone (HasSlot live)) old new }
    ensures attaches { (what : Writes) (live to gone : Slots) (old new : List Happening) →
        Placed what (HasSlot to) (HasSlot gone) old new →
        Ran (AttachesNone (HasSlot live)) old new }
    // what reads find of one that is ready is that of the stage, as its medium wasn't pulled
    ensures read { (a : Redoing) (stage : Stage) (live : Slots) (start h : List Happening)
        (j : ℕ) → AreHeld a.geometry (HasSlot live) start h →
        IsIn a stage (HasSlot live) start h → HasSlot live j → is_ready h j ≡ true →
        (¬ WasPulled start h j) × IsLeftIn a stage (IsSlot j) (image_now h) }
    // A redo that was in a stage, at rest or where a crash cut it off, is in one of them at every moment, as far as it goes,
    // and ends in the one to which it came, unless the rack is stopped.
    ensures whole { (a : Redoing) (from stage : Stage) (live : Slots)
        (start old new : List Happening) →
        IsRedoing a → AreHeld a.geometry (HasSlot live) start old →
        IsIn a from (HasSlot live) start old →
        RunsTo a from (HasSlot live) start old stage new →
        AtEveryMoment (IsInSome a (HasSlot live) start) old new ×
        Reaches a stage (HasSlot live) start new × AreHeld a.geometry (HasSlot live) start new }
    // what a crash may leave of a stage is in it, on any of the live slots that weren't pulled
    ensures left { (a : Redoing) (stage : Stage) (live now : Slots) (start h : List Happening)
        (image : Image) →
        IsIn a stage (HasSlot live) start h → CrashMayLeave h image →
        ((j : ℕ) → HasSlot now j → HasSlot live j × ¬ WasPulled start h j) →
        IsLeftIn a stage (HasSlot now) image }
    // in each stage what a crash may leave represents its stripes, over any of the live slots that weren't pulled; while
    // cells are being placed one of these must have a gate that isn't lost
    ensures stands { (a : Redoing) (stage : Stage) (live now : Slots) (start h : List Happening)
        (image : Image) →
        IsRedoing a → IsIn a stage (HasSlot live) start h → CrashMayLeave h image →
        ((j : ℕ) → HasSlot now j → HasSlot live j × ¬ WasPulled start h j) →
        ((stage ≡ Placing) → HasGate (HasSlot now) image) →
        RepresentsBy a.geometry (old_in a stage) (new_in a stage) (HasSlot now) image }
    // the stripes at rest after one redo are those before the next one
    ensures again { (a b : Redoing) (live : Slots) (start h : List Happening) →
        b.geometry ≡ a.geometry → b.old ≡ a.new → IsIn a Done (HasSlot live) start h →
        IsIn b AtRest (HasSlot live) start h }
    // slots with media are in a stage where each image that a crash may leave is in it
    ensures starts { (a : Redoing) (stage : Stage) (live : Slots) (h : List Happening) →
        ((j : ℕ) → HasSlot live j → IsSome (slot_state h j).size) →
        EachImage (IsLeftIn a stage (HasSlot live)) h →
        IsIn a stage (HasSlot live) h h }
    // a rack made over media that are left in a stage is in it
    ensures made { (a : Redoing) (stage : Stage) (live : Slots) (image : Image) →
        ((j : ℕ) → HasSlot live j → IsSome (image j).size) →
        IsLeftIn a stage (HasSlot live) image →
        IsIn a stage (HasSlot live) (Made image ∷ []) (Made image ∷ []) }
    // and one made over what a crash left is in the stage that it was in, on any of the live slots that weren't pulled
    ensures crashed { (a : Redoing) (stage : Stage) (live now : Slots)
        (start h : List Happening) (image : Image) →
        IsIn a stage (HasSlot live) start h → CrashMayLeave h image →
        ((j : ℕ) → HasSlot now j → HasSlot live j × ¬ WasPulled start h j) →
        IsIn a stage (HasSlot now) (Made image ∷ []) (Made image ∷ []) }
{}
