ghost use Rattle.std.specs.Prelude.{◌≡◌, ◌≢◌, ◌<◌, ℕ, Some};
ghost use Rattle.stair_model.specs.Slots.{HasSlot};
ghost use Rattle.stair_super.specs.Superblock.{mark_in};
ghost use Rattle.stair_super.specs.declared.mark.Mark.TheVariants as mark;
ghost use Rattle.stair_member.specs.ChangesSteps.{MayBegin};
ghost use Rattle.stair_member.specs.Aims.{admitted};
ghost use Rattle.stair_member.specs.Establishing.{Fences, Joins, Stamps};
ghost use Rattle.stair_member.specs.Membership.{IsMembership, why_of};
ghost use Rattle.stair_rack.specs.Told.{told};
ghost use Rattle.stair_member.specs.declared.aim.EpochChange.TheVariants.{Admit, Promote};
ghost use Rattle.stair_member.specs.declared.why.Why.TheVariants as why;

use crate::aim::EpochChange;
use crate::establish::establish;
use crate::fault::{AdmitFault, FenceFault};
use crate::member::Member;
use stair_base::Slots;
use stair_rack::Rack;
use stair_super::Label;

/// Establishes an epoch without these slots, each below n, and without those that aren't here. The slots that became Down
/// are answered.
///
/// It goes in rounds. Each live slot, in rising order, is given a superblock with the next draw and what the epoch named so
/// far. Then the new epoch, whose number is that draw, begins in `member`, and each slot that is here is given a superblock
/// of it. A superblock is written to the slot's next place and synced before the next one is written. A slot that is gone is
/// left out, and the next round begins at once. Nothing else is written, and no memory is taken.
///
/// `TooFew` comes where more than m slots aren't live when a round begins, and `EpochsSpent` where no draw is left. Then
/// `member` is what the last round left: the slots that were gone are left out, and an epoch that had begun is the one that
/// it names, though not every slot may have it.
pub fn fence<R: Rack>(
    rack: &mut R,
    member: &mut Member,
    leaving: Slots,
) -> Result<Slots, FenceFault>
    requires { (j : ℕ) → HasSlot leaving j → j < member.old.array.geometry.n }
    ensures does { Fences leaving member.old member.new result (told R.Rack rack.old)
        (told R.Rack rack.new) }
    ensures rules { IsMembership member.new }
    ensures reads { R.reads rack.new ≡ R.reads rack.old }
{
    let before = *member;
    member.mark_all_gone(leaving);
    match establish(rack, member, EpochChange::Fence) {
        Err(fault) => Err(fault),
        Ok(_) => Ok(member.fallen_since(&before)),
    }
}

/// Establishes an epoch, as [`fence`] does, from which on the array is frozen or not and has this label. The slots that
/// became Down are answered. It is refused as a fence is.
pub fn stamp<R: Rack>(
    rack: &mut R,
    member: &mut Member,
    frozen: bool,
    label: Label,
) -> Result<Slots, FenceFault>
    ensures does { Stamps frozen label member.old member.new result (told R.Rack rack.old)
        (told R.Rack rack.new) }
    ensures rules { IsMembership member.new }
    ensures reads { R.reads rack.new ≡ R.reads rack.old }
{
    let before = *member;
    match establish(rack, member, EpochChange::Stamp(frozen, label)) {
        Err(fault) => Err(fault),
        Ok(_) => Ok(member.fallen_since(&before)),
    }
}

/// Admits the device in a slot that is Down: establishes an epoch, as [`fence`] does, in which the slot is Rebuilding and
/// its joined number is the epoch. The slots that became Down are answered.
///
/// The slot's superblock is written to its next place and then to the other one, each synced before the next. Where the slot
/// was gone meanwhile `Gone` comes, and an epoch without it stands. Otherwise it is refused as a fence is.
///
/// The member is to have looked at the medium (`Member::observe`): the place that holds the newer of its superblocks is written
/// last. The laws of epochs ask that neither place holds a superblock of a greater draw than the member has seen, since such
/// a one would hide those of the new epoch. After a call that established an epoch `MayJoin` says so.
pub fn admit<R: Rack>(rack: &mut R, member: &mut Member, slot: u8) -> Result<Slots, AdmitFault>
    requires below { slot < member.old.array.geometry.n }
    requires down { mark_in member.old.array slot ≡ mark.Down }
    ensures does { Joins (Admit slot) slot member.old member.new result (told R.Rack rack.old)
        (told R.Rack rack.new) }
    ensures rules { IsMembership member.new }
    ensures reads { R.reads rack.new ≡ R.reads rack.old }
{
    // the member keeps its rules
    let _epoch = member.epoch();
    join(rack, member, slot, EpochChange::Admit(slot))
}

/// Establishes an epoch, as [`fence`] does, in which this slot, which was Rebuilding, is Live. The slots that became Down are
/// answered. It is refused as an admission is.
pub fn promote<R: Rack>(rack: &mut R, member: &mut Member, slot: u8) -> Result<Slots, AdmitFault>
    requires below { slot < member.old.array.geometry.n }
    requires rebuilding { why_of member.old slot ≡ why.Rebuilding }
    ensures does { Joins (Promote slot) slot member.old member.new result (told R.Rack rack.old)
        (told R.Rack rack.new) }
    ensures rules { IsMembership member.new }
    ensures reads { R.reads rack.new ≡ R.reads rack.old }
{
    join(rack, member, slot, EpochChange::Promote(slot))
}

// Establishes an epoch for this slot.
fn join<R: Rack>(
    rack: &mut R,
    member: &mut Member,
    slot: u8,
    aim: EpochChange,
) -> Result<Slots, AdmitFault>
    requires below { slot < member.old.array.geometry.n }
    requires may { MayBegin aim member.old }
    requires down { (j : ℕ) → admitted aim ≡ Some j → why_of member.old j ≢ why.Here }
    ensures does { Joins aim slot member.old member.new result (told R.Rack rack.old)
        (told R.Rack rack.new) }
    ensures rules { IsMembership member.new }
    ensures reads { R.reads rack.new ≡ R.reads rack.old }
{
    let before = *member;
    // the member keeps its rules
    let _epoch = member.epoch();
    match establish(rack, member, aim) {
        Err(fault) => Err(AdmitFault::from(fault)),
        Ok(gone) => {
            if gone.has(slot) {
                return Err(AdmitFault::Gone(slot));
            }
            Ok(member.fallen_since(&before))
        }
    }
}
