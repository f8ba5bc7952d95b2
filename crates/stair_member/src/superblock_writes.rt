// Superblocks that are written to slots and synced.
ghost use Rattle.std.specs.Prelude.{◌≡◌, ◌≢◌, ◌<◌, ℕ, IsTrue, false, Some, unwrap_or};
ghost use Rattle.stair_model.specs.Slots.{HasSlot};
ghost use Rattle.stair_rack.specs.Count.{Rose};
ghost use Rattle.stair_rack.specs.RackCounts.{NoneFalls};
ghost use Rattle.stair_super.specs.Superblock.{mark_in};
ghost use Rattle.stair_super.specs.declared.mark.Mark.TheVariants as mark;
ghost use Rattle.stair_member.specs.ChangesSteps.{turned};
ghost use Rattle.stair_member.specs.HandSteps.{Handed, PlacesBelow, PlacesHanded, Spread, is_twice};
ghost use Rattle.stair_member.specs.Membership.{IsMembership};

use crate::member::Member;
use stair_base::Slots;
use stair_rack::{Rack, Reply};
use stair_super::write_super;

// The slot's superblock is written to its next place and synced. A slot that was gone keeps its next place.
fn put<R: Rack>(rack: &mut R, member: &mut Member, slot: u8) -> Reply
    requires below { slot < member.old.array.geometry.n }
    requires up { mark_in member.old.array slot ≢ mark.Down }
    ensures does { IsTrue R.is_honest → Handed member.old member.new slot false result
        (R.history rack.old) (R.history rack.new) }
    ensures done { result ≡ Reply.Done → member.new ≡ turned member.old slot }
    ensures unturned { result ≡ Reply.Gone → member.new ≡ member.old }
    ensures gone { result ≡ Reply.Gone → Rose (R.gones rack.old slot) (R.gones rack.new slot) }
    ensures counts { NoneFalls (R.bads rack.old) (R.bads rack.new) (R.gones rack.old)
        (R.gones rack.new) }
    ensures reads { R.reads rack.new ≡ R.reads rack.old }
    ensures rules { IsMembership member.new }
    ensures was { IsMembership member.old }
{
    let block = member.block(slot);
    let bytes = write_super(&block);
    if rack.write(slot, member.next_place(slot), &bytes) == Reply::Gone {
        return Reply::Gone;
    }
    if rack.sync(slot) == Reply::Gone {
        return Reply::Gone;
    }
    member.flip_place(slot);
    Reply::Done
}

// The slot is handed its superblock: in its next place, or in that one and then in the other.
fn write_superblock<R: Rack>(rack: &mut R, member: &mut Member, slot: u8, both: bool) -> Reply
    requires below { slot < member.old.array.geometry.n }
    requires up { mark_in member.old.array slot ≢ mark.Down }
    ensures does { IsTrue R.is_honest → Handed member.old member.new slot both result
        (R.history rack.old) (R.history rack.new) }
    ensures places { PlacesHanded member.old member.new slot both result }
    ensures gone { result ≡ Reply.Gone → Rose (R.gones rack.old slot) (R.gones rack.new slot) }
    ensures counts { NoneFalls (R.bads rack.old) (R.bads rack.new) (R.gones rack.old)
        (R.gones rack.new) }
    ensures reads { R.reads rack.new ≡ R.reads rack.old }
    ensures rules { IsMembership member.new }
    ensures was { IsMembership member.old }
{
    let reply = put(rack, member, slot);
    if !both {
        return reply;
    }
    if reply == Reply::Gone {
        return Reply::Gone;
    }
    put(rack, member, slot)
}

fn is_this(twice: &Option<u8>, slot: u8) -> bool
    ensures { result ≡ is_twice twice.now slot }
{
    match twice {
        Some(other) => *other == slot,
        None => false,
    }
}

// Each slot of `to` is handed its superblock, in rising order, and `twice` in both places. The first that is gone ends it, and
// is answered.
pub(crate) fn write_superblocks<R: Rack>(
    rack: &mut R,
    member: &mut Member,
    to: Slots,
    twice: Option<u8>,
) -> Option<u8>
    requires { (j : ℕ) → HasSlot to j → (j < member.old.array.geometry.n)
        × (mark_in member.old.array j ≢ mark.Down) }
    ensures does { IsTrue R.is_honest → Spread member.old member.new to twice result
        (R.history rack.old) (R.history rack.new) }
    ensures places { PlacesBelow member.old member.new to twice (unwrap_or result 32) }
    ensures gone { (j : ℕ) → result ≡ Some j →
        HasSlot to j × Rose (R.gones rack.old j) (R.gones rack.new j) }
    ensures counts { NoneFalls (R.bads rack.old) (R.bads rack.new) (R.gones rack.old)
        (R.gones rack.new) }
    ensures reads { R.reads rack.new ≡ R.reads rack.old }
    ensures rules { IsMembership member.new }
    ensures was { IsMembership member.old }
{
    // the member keeps its rules
    let _epoch = member.epoch();
    for slot in 0..32u8 {
        if to.has(slot)
            && write_superblock(rack, member, slot, is_this(&twice, slot)) == Reply::Gone
        {
            return Some(slot);
        }
    }
    None
}
