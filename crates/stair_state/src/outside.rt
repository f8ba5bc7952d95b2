// What the outside may do to a rack that represents a state.
ghost use Rattle.std.specs.Prelude.{List, [], ◌∷◌};
ghost use Rattle.stair_model.specs.Geometry.{Geometry};
ghost use Rattle.stair_rack.specs.Answers.{IsHistory, Ran};
ghost use Rattle.stair_rack.specs.Crash.{CrashMayLeave, EachImage};
ghost use Rattle.stair_rack.specs.History.{Happening, Made};
ghost use Rattle.stair_rack.specs.Media.{Image};
ghost use Rattle.stair_rack.specs.Stretch.{NothingReturned};
ghost use Rattle.stair_state.specs.Holding.{IsConsistentUnderReassembly};
ghost use Rattle.stair_state.specs.Reassembly.{IsConsistent};
ghost use Rattle.stair_state.specs.Represents.{Encodings, Represents, no_write};
ghost use Rattle.stair_state.specs.State.{State, without_seats};
ghost use Rattle.stair_state.specs.Tolerance.{IsTolerated, IsToleratedAlone};

/// What the outside does to an array between calls. It does nothing.
pub fn outside_laws()
    // what is tolerated at a moment is tolerated alone
    ensures alone { (g : Geometry) (before h : List Happening) (image : Image) →
        IsTolerated g before h → CrashMayLeave h image → IsToleratedAlone g image }
    // acts that put no medium back, and calls that write nothing, leave a rack within tolerance that represents the state,
    // marks and joined numbers aside
    ensures still { (s : State) (before old new : List Happening) → IsHistory old →
        Represents s old → Ran no_write old new → NothingReturned old new →
        IsTolerated s.geometry before new → Represents (without_seats s) new }
    // a rack over what a crash left of one that is consistent under reassembly is so
    ensures made { (s : State) (h : List Happening) (image : Image) → IsHistory h →
        IsConsistentUnderReassembly s h → CrashMayLeave h image →
        IsConsistentUnderReassembly s (Made image ∷ []) }
    // any acts, media put back too, and calls that write nothing leave a rack that is so, marks and joined numbers aside
    ensures consistent { (s : State) (old new : List Happening) → IsHistory old →
        IsConsistentUnderReassembly s old → Ran no_write old new →
        IsConsistentUnderReassembly (without_seats s) new }
    // each image that a crash may leave of it represents the state however its media lie
    ensures however { (s : State) (h : List Happening) → IsConsistentUnderReassembly s h →
        (encodings : Encodings s) × EachImage (IsConsistent s encodings) h }
{}
