//! The laws of what a trace has left good: slots that were promoted or replaced, and stripes that were scrubbed.

ghost use Rattle.stair_command.specs.Sound.{PromotedAreSound, PromotionsBringUp, ReplacedAreSound, ScrubbedAreSound};

/// What follows over a trace that leads to an open array, of cells that were good at some moment of it. It does nothing.
pub fn sound_laws<R, W>()
    // a slot becomes live by a promotion alone
    ensures brought_up { PromotionsBringUp R W }
    // each cell of a slot that was promoted is sound
    ensures promoted { PromotedAreSound R W }
    // the places and the journal of a slot that was replaced are
    ensures replaced { ReplacedAreSound R W }
    // each cell of a stripe that was scrubbed is, on a slot that is live in the end
    ensures scrubbed { ScrubbedAreSound R W }
{}
