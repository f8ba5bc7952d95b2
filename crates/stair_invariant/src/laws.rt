//! What follows at once from the words of a session.

ghost use Rattle.std.specs.Prelude.{◌≡◌, ℕ, Bool, List, None};
ghost use Rattle.stair_model.specs.Geometry.{Geometry};
ghost use Rattle.stair_model.specs.Slots.{no_slots};
ghost use Rattle.stair_model.specs.Stripe.{Stripe};
ghost use Rattle.stair_rack.specs.History.{Happening};
ghost use Rattle.stair_rack.specs.Media.{Image};
ghost use Rattle.stair_member.specs.Membership.{Membership, why_of};
ghost use Rattle.stair_journal.specs.declared.redo.Redo.{Redo};
ghost use Rattle.stair_state.specs.Blocks.{Codewords};
ghost use Rattle.stair_state.specs.Redoing.{Done};
ghost use Rattle.stair_state.specs.Represents.{Represents, RepresentsAlone};
ghost use Rattle.stair_state.specs.State.{State};
ghost use Rattle.stair_state.specs.Tolerance.{ToleratedSince};
ghost use Rattle.stair_invariant.specs.Effects.{FencesGone, Snapshot, Redoes};
ghost use Rattle.stair_invariant.specs.Rebuilding.{IsRebuiltTo, Rebuild};
ghost use Rattle.stair_invariant.specs.Returning.{StaysWithinTolerance, NoneReturns, Returning, StandsForAlone};
ghost use Rattle.stair_invariant.specs.Session.{ArrayState, IsOpenWith, IsRebuiltIn};

/// Words of sessions. It does nothing.
pub fn session_laws()
    // of a slot of which no chunk was rebuilt yet there is nothing to know
    ensures none_rebuilt { (g : Geometry) (words : Codewords) (j : ℕ)
        (start h : List Happening) → IsRebuiltTo g words j 0 start h }
    // an array rebuilds a slot that it knows as one that is rebuilt
    ensures rebuilds { (before : List Happening) (a : ArrayState) (words : Codewords)
        (h : List Happening) (rebuild : Rebuild) → IsOpenWith before a words h →
        a.rebuild ≡ Some rebuild → IsRebuiltIn a.member rebuild.slot }
    // where no slot was gone none is left out, and a redo that was done goes no further
    ensures nothing_left { (x y : Snapshot) → FencesGone no_slots None x y → y ≡ x }
    ensures done { (g : Geometry) (redo : Redo) (stripe : Stripe) (x y : Snapshot) →
        Redoes g redo stripe Done None x y → y ≡ x }
    // whatever comes back, what is calm is within tolerance
    ensures calm { (returning : Returning) (g : Geometry) (is_open : Bool)
        (before h : List Happening) → StaysWithinTolerance returning g is_open before h →
        ToleratedSince g before h }
    // while nothing comes back an array in a state is a rack that represents it
    ensures stands { (s : State) (image : Image) → StandsForAlone NoneReturns s image →
        RepresentsAlone s image }
{}
