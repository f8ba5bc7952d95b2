//! Which media an array leaves out, over its life.

ghost use Rattle.stair_state.specs.Blocks.{AreEncodingsOf, Codewords, zero_blocks};
ghost use Rattle.stair_reinsert.specs.Misled.{five};
ghost use Rattle.stair_lives.specs.Example.{EachOpensAmid, EachOpensWithout, HaveAllBut};
ghost use Rattle.stair_lives.specs.Example.{StaysWithinToleranceAmid, IsLeftOutAgain};
ghost use Rattle.stair_lives.specs.Stale.{AllNameOnce, AllNameOnceWithin, LeftOutStays, MediaStayOut};
ghost use Rattle.stair_lives.specs.Stale.{MediaStayOutWithin, NeverLiveInStamps, NeverLiveWhileBegun};
ghost use Rattle.stair_lives.specs.Stale.{NeverStale, NeverStaleWithin, NewestIsFound, OnlyLiveAreRead};

/// What a medium that is reinserted can't bring about, over the calls of a life. It does nothing.
pub fn stale_lives<R, W, S, K>()
    // between two calls the newest epoch is one that was acknowledged, and no medium that it left out is live until one is admitted
    ensures never { NeverStale R W S K }
    // nor is one in a call, whether it ends or is cut, between two items
    ensures within { NeverStaleWithin R W S K }
    // and the survey of such a call finds the newest epoch
    ensures found { NewestIsFound R W S K }
    // so no medium of that name is, wherever it is put
    ensures named { LeftOutStays }
    // so no medium is that an acknowledged epoch leaves out, from call to call and in the next one, until one is admitted to its slot
    ensures media { MediaStayOut R W S K }
    ensures media_within { MediaStayOutWithin R W S K }
    // while an epoch is established none is that the one before left out
    ensures begun { NeverLiveWhileBegun }
    // at each moment of a life, whole or cut, an epoch names one configuration, and a joined number of a slot one medium
    ensures once { AllNameOnce R W S K }
    ensures once_within { AllNameOnceWithin R W S K }
{}

/// Which media are live while a step sets the frozen mark or the label. It does nothing.
pub fn stale_stamps()
    // none that the session's array left out
    ensures never { NeverLiveInStamps }
{}

/// Of which slots an array reads its gate, its journal and its chunks. It does nothing.
pub fn stale_reads()
    // of those that are live to the member with which the step began, and of one that is replaced
    ensures live { OnlyLiveAreRead }
{}

/// A device that was pulled, that an epoch leaves out, and that is put back before the next opening. It does nothing.
pub fn stale_example()
    // the rack is the array still, the premise of an opening is met while it is only looked at, and the survey leaves the device out
    ensures left_out { (now words : Codewords) → AreEncodingsOf five zero_blocks now →
        HaveAllBut now words → IsLeftOutAgain words }
    // an opening by what was found, and the reads after it, leave it out, as long as what is asked of the outside is kept
    ensures opened { (now words : Codewords) → AreEncodingsOf five zero_blocks now →
        HaveAllBut now words → EachOpensWithout words }
    // that is kept as long as the other slots stay as they are while epochs without the device are established
    ensures amid { (words : Codewords) → StaysWithinToleranceAmid words }
    // so the opening leaves it out where the calls keep them so, and the outside does nothing
    ensures opened_amid { (now words : Codewords) → AreEncodingsOf five zero_blocks now →
        HaveAllBut now words → EachOpensAmid words }
{}
