//! Laws of new arrays, and of those that are there.

ghost use Rattle.std.specs.Prelude.{◌≡◌, IsOk, List, [], ◌∷◌, length};
ghost use Rattle.stair_model.specs.Geometry.{Geometry, IsWithinLimits};
ghost use Rattle.stair_model.specs.Stripe.{zero_stripe};
ghost use Rattle.stair_rack.specs.Answers.{IsHistory};
ghost use Rattle.stair_rack.specs.Crash.{EachImage};
ghost use Rattle.stair_rack.specs.History.{Happening, Made};
ghost use Rattle.stair_rack.specs.Media.{Image};
ghost use Rattle.stair_super.specs.declared.configuration.Configuration.{Configuration};
ghost use Rattle.stair_state.specs.Blocks.{AreEncodingsOf, zero_blocks};
ghost use Rattle.stair_array.specs.Created.{AreNewMedia, BearNoneOutside, IsNewArray};
ghost use Rattle.stair_array.specs.Events.{events_of};
ghost use Rattle.stair_array.specs.Keeping.{ArraysAreKept, StatesAreKept};
ghost use Rattle.stair_array.specs.Machine.{Answer, Recover, Step};
ghost use Rattle.stair_array.specs.News.{AddsNews, HasFallen, StayDown, events_in, no_news};
ghost use Rattle.stair_array.specs.declared.news.News.{News};
ghost use Rattle.stair_state.specs.Holding.{IsConsistentUnderReassembly};
ghost use Rattle.stair_state.specs.Represents.{AreSteady, Represents};
ghost use Rattle.stair_state.specs.State.{created_state};
ghost use Rattle.stair_state.specs.Tolerance.{IsTolerated};

/// New arrays. It does nothing.
pub fn created_laws()
    // the stripe of zeros encodes blocks of zeros
    ensures zero { (g : Geometry) → IsWithinLimits g →
        AreEncodingsOf g zero_blocks (λ t. zero_stripe g) }
    // within tolerance a rack of new devices represents an array of zeros, all of whose slots are live
    ensures represents { (g : Geometry) (before h : List Happening) → IsWithinLimits g →
        length g.id ≡ 16 → EachImage (IsNewArray g) h → AreSteady g h → IsTolerated g before h →
        Represents (created_state g) h }
    // it is consistent under reassembly where each medium, in a slot or outside, is new or bears no superblock of it
    ensures consistent { (g : Geometry) (h : List Happening) → IsWithinLimits g →
        length g.id ≡ 16 → IsHistory h → EachImage (AreNewMedia g) h → AreSteady g h →
        IsConsistentUnderReassembly (created_state g) h }
    // as all are where no medium outside bears one
    ensures media { (g : Geometry) (image : Image) → IsNewArray g image →
        BearNoneOutside g image → AreNewMedia g image }
    // there are such racks, for each geometry
    ensures example { (g : Geometry) → IsWithinLimits g → length g.id ≡ 16 →
        (image : Image) × IsNewArray g image × IsTolerated g [] (Made image ∷ [])
        × Represents (created_state g) (Made image ∷ [])
        × IsConsistentUnderReassembly (created_state g) (Made image ∷ []) }
{}

/// What `create` leaves alone. It does nothing.
pub fn kept_laws()
    // no array that is within tolerance is written over
    ensures arrays { ArraysAreKept }
    // and a rack that represents a state of one goes on to do so
    ensures states { StatesAreKept }
{}

/// News. It does nothing.
pub fn news_laws()
    // where there were none before a step, those after it tell its events
    ensures events { (step : Step) (answer : Answer step) (old new : Configuration) (is : News) →
        AddsNews step answer old new no_news is → (step ≡ Recover → IsOk answer) →
        events_in is ≡ events_of step answer old new }
    // where no slot that is Down comes back, those that fell in two calls are those that fell in both together
    ensures fallen { (a b c : Configuration) (was amid is : News) → StayDown a b → StayDown b c →
        HasFallen a b was.fenced amid.fenced → HasFallen b c amid.fenced is.fenced →
        HasFallen a c was.fenced is.fenced }
{}
