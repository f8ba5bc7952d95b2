// One round of establishing an epoch.
ghost use Rattle.std.specs.Prelude.{◌≡◌, Ok, Err, Option};
ghost use Rattle.stair_rack.specs.RackCounts.{NoneFalls};
ghost use Rattle.stair_member.specs.ChangesSteps.{MayBegin};
ghost use Rattle.stair_member.specs.Aims.{admitted};
ghost use Rattle.stair_member.specs.Membership.{IsMembership, place_of};
ghost use Rattle.stair_member.specs.RoundSteps.{BeganOut, Draws, IsRound};
ghost use Rattle.stair_rack.specs.Told.{told};

use crate::aim::EpochChange;
use crate::fault::FenceFault;
use crate::member::Member;
use crate::superblock_writes::write_superblocks;
use stair_rack::Rack;

// Each live slot gets a superblock with the next draw. A slot that was gone is answered.
fn reserve_epoch<R: Rack>(rack: &mut R, member: &mut Member) -> Result<Option<u8>, FenceFault>
    ensures does { Draws member.old member.new result (told R.Rack rack.old)
        (told R.Rack rack.new) }
    ensures reads { R.reads rack.new ≡ R.reads rack.old }
    ensures rules { IsMembership member.new }
{
    if member.missing().count() > member.geometry().m() {
        return Err(FenceFault::TooFew(member.whys));
    }
    if member.drawn() == u64::MAX {
        return Err(FenceFault::EpochsSpent);
    }
    let live = member.live();
    // it counts as seen as soon as its first write is tried
    member.draw();
    Ok(write_superblocks(rack, member, live, None))
}

fn admitted_by(aim: &EpochChange) -> Option<u8>
    ensures { result ≡ admitted aim.now }
{
    match aim {
        EpochChange::Admit(slot) => Some(*slot),
        EpochChange::Fence | EpochChange::Promote(_) | EpochChange::Stamp(_, _) => None,
    }
}

// The epoch begins, and each slot that is here gets its superblock. A slot that was gone is answered.
fn commit_epoch<R: Rack>(rack: &mut R, member: &mut Member, aim: &EpochChange) -> Option<u8>
    requires { MayBegin aim.now member.old }
    ensures does { BeganOut aim.now member.old member.new result (told R.Rack rack.old)
        (told R.Rack rack.new) }
    ensures reads { R.reads rack.new ≡ R.reads rack.old }
    ensures rules { IsMembership member.new }
{
    member.begin(aim);
    let here = member.here();
    write_superblocks(rack, member, here, admitted_by(aim))
}

// The draws, and where no slot was gone the epoch. A slot that was gone is answered.
pub(crate) fn attempt<R: Rack>(
    rack: &mut R,
    member: &mut Member,
    aim: &EpochChange,
) -> Result<Option<u8>, FenceFault>
    requires { MayBegin aim.now member.old }
    ensures does { IsRound aim.now member.old member.new result (told R.Rack rack.old)
        (told R.Rack rack.new) }
    ensures reads { R.reads rack.new ≡ R.reads rack.old }
    ensures rules { IsMembership member.new }
{
    match reserve_epoch(rack, member)? {
        Some(slot) => Ok(Some(slot)),
        None => Ok(commit_epoch(rack, member, aim)),
    }
}
