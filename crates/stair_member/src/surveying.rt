ghost use Rattle.std.specs.Prelude.{◌≡◌, IfOk, IsTrue};
ghost use Rattle.stair_rack.specs.Answers.{IsHistory};
ghost use Rattle.stair_rack.specs.RackCounts.{NoneFalls, RisesAtMost};
ghost use Rattle.stair_member.specs.Asked.{AsksBelow};
ghost use Rattle.stair_member.specs.Findings.{Findings};
ghost use Rattle.stair_member.specs.Membership.{IsMembership};
ghost use Rattle.stair_member.specs.JudgeSteps.{AreSights, Tells};
ghost use Rattle.stair_member.specs.Survey.{IsAnswer, Surveys};
ghost use Rattle.stair_rack.specs.Told.{told};

use crate::fault::SurveyFault;
use crate::judge::{Found, current_of, first_standing, greatest_draw, missing, reasons_of};
use crate::look::look_at;
use crate::member::Member;
use stair_base::Slots;
use stair_rack::Rack;

// What was seen of all slots.
#[derive(Drop)]
struct Sights {
    newest: Found,
    next: [u32; 32],
    gone: Slots,
}

/// Looks for an array on the rack.
///
/// Each of the 32 slots is attached, in rising order, and where it is there its two superblock places are read, once each. A
/// superblock counts for its array where it names the slot in which it lies, and an array stands where more than m of its
/// slots count. `NoArray` comes where none stands, `TwoArrays` where more than one does, and `TooFew` where more than m
/// slots of the one that stands aren't live.
///
/// Nothing is written, and no memory is taken.
pub fn survey<R: Rack>(rack: &mut R) -> Result<Member, SurveyFault>
    ensures does { Surveys result (told R.Rack rack.old) (told R.Rack rack.new) }
    ensures rules { IfOk result IsMembership }
    ensures reads { RisesAtMost 64 (R.reads rack.old) (R.reads rack.new) }
{
    let sights = find_all(rack);
    judge(&sights)
}

fn find_all<R: Rack>(rack: &mut R) -> Sights
    ensures began { IsTrue R.is_honest → IsHistory (R.history rack.old) }
    ensures asked { IsTrue R.is_honest →
        AsksBelow 32 (R.history rack.old) (R.history rack.new) }
    ensures does { AreSights result (told R.Rack rack.old) (told R.Rack rack.new) }
    ensures counts { NoneFalls (R.bads rack.old) (R.bads rack.new) (R.gones rack.old)
        (R.gones rack.new) }
    ensures reads { RisesAtMost 64 (R.reads rack.old) (R.reads rack.new) }
{
    let mut sights = Sights {
        newest: [None; 32],
        next: [0; 32],
        gone: Slots::empty(),
    };
    for slot in 0..32u8 {
        let sight = look_at(rack, slot);
        sights.newest[usize::from(slot)] = sight.newest;
        sights.next[usize::from(slot)] = sight.next;
        if sight.gone {
            sights.gone.add(slot);
        }
    }
    sights
}

fn judge(sights: &Sights) -> Result<Member, SurveyFault>
    requires { (f : Findings) × Tells sights.now f }
    ensures does { (f : Findings) → Tells sights.now f → IsAnswer f result }
    ensures rules { IfOk result IsMembership }
{
    let found = &sights.newest;
    let Some(geometry) = first_standing(found, None) else {
        return Err(SurveyFault::NoArray);
    };
    if let Some(other) = first_standing(found, Some(geometry)) {
        return Err(SurveyFault::TwoArrays(geometry.id(), other.id()));
    }
    // an array that stands has superblocks that count for it
    let Some(current) = current_of(found, &geometry) else {
        return Err(SurveyFault::NoArray);
    };
    let whys = reasons_of(found, sights.gone, &current);
    let drawn = greatest_draw(found, &geometry);
    if missing(&whys).count() > geometry.m() {
        return Err(SurveyFault::TooFew(whys));
    }
    Ok(Member::new(*current.array(), drawn, whys, sights.next))
}
