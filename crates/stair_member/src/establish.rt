// Establishing an epoch.
ghost use Rattle.std.specs.Prelude.{◌≡◌, ◌≢◌, ℕ, Some};
ghost use Rattle.stair_member.specs.ChangesSteps.{MayBegin};
ghost use Rattle.stair_member.specs.Aims.{admitted};
ghost use Rattle.stair_member.specs.Membership.{IsMembership, why_of};
ghost use Rattle.stair_member.specs.RoundSteps.{HasEstablished, left_after};
ghost use Rattle.stair_rack.specs.Told.{told};
ghost use Rattle.stair_member.specs.declared.why.Why.TheVariants as why;

use crate::aim::EpochChange;
use crate::attempt::attempt;
use crate::fault::FenceFault;
use crate::member::Member;
use stair_base::Slots;
use stair_rack::Rack;

// What is left of the aim without this slot.
fn left_of(aim: &EpochChange, slot: u8) -> EpochChange
    ensures { result ≡ left_after aim.now slot }
{
    match aim {
        EpochChange::Admit(own) => {
            if *own == slot {
                EpochChange::Fence
            } else {
                EpochChange::Admit(*own)
            }
        }
        EpochChange::Promote(own) => {
            if *own == slot {
                EpochChange::Fence
            } else {
                EpochChange::Promote(*own)
            }
        }
        EpochChange::Fence => EpochChange::Fence,
        EpochChange::Stamp(frozen, label) => EpochChange::Stamp(*frozen, *label),
    }
}

// Establishes an epoch, in rounds, each of which but the last ends with a slot that was gone. These slots are answered.
pub(crate) fn establish<R: Rack>(
    rack: &mut R,
    member: &mut Member,
    aim: EpochChange,
) -> Result<Slots, FenceFault>
    requires may { MayBegin aim member.old }
    requires down { (j : ℕ) → admitted aim ≡ Some j → why_of member.old j ≢ why.Here }
    ensures does { HasEstablished aim member.old member.new result (told R.Rack rack.old)
        (told R.Rack rack.new) }
    ensures reads { R.reads rack.new ≡ R.reads rack.old }
    ensures rules { IsMembership member.new }
{
    // the member keeps its rules
    let _epoch = member.epoch();
    let mut left = aim;
    let mut gone = Slots::empty();
    loop {
        match attempt(rack, member, &left) {
            Err(fault) => return Err(fault),
            Ok(None) => return Ok(gone),
            Ok(Some(slot)) => {
                gone.add(slot);
                member.mark_gone(slot);
                left = left_of(&left, slot);
            }
        }
    }
}
