// How a session admits a device.
ghost use Rattle.std.specs.Prelude.{◌≡◌, None};
ghost use Rattle.stair_rack.specs.Told.{told};
ghost use Rattle.stair_member.specs.Establishing.{Joins};
ghost use Rattle.stair_member.specs.declared.aim.EpochChange.TheVariants.{Admit};
ghost use Rattle.stair_array.specs.Causes.{IsFree};
ghost use Rattle.stair_array.specs.Mends.{joined_as};
ghost use Rattle.stair_array.specs.Promise.{Keeps};

use crate::session::ArrayCore;
use stair_base::Slots;
use stair_member::{AdmitFault, FenceFault, admit};
use stair_rack::Rack;

impl ArrayCore {
    // Admits the device in a slot that is free and was made ready. The session stops where the epoch is refused.
    pub(crate) fn admit_slot<R: Rack>(
        &mut self,
        rack: &mut R,
        slot: u8,
    ) -> Result<Slots, AdmitFault>
        requires free { IsFree self.old.member slot }
        ensures does { Joins (Admit slot) slot self.old.member self.new.member result
            (told R.Rack rack.old) (told R.Rack rack.new) }
        ensures geometry { self.new.member.array.geometry ≡ self.old.member.array.geometry }
        ensures kept { self.old.stopped ≡ None → Keeps (joined_as result) self.new.stopped }
        ensures reads { R.reads rack.new ≡ R.reads rack.old }
    {
        let joined = admit(rack, &mut self.member, slot);
        self.stop_if_refused(&joined);
        joined
    }

    // Stops where an epoch was refused. That its slot was gone is no reason to.
    pub(crate) fn stop_if_refused(&mut self, joined: &Result<Slots, AdmitFault>)
        ensures member { self.new.member ≡ self.old.member }
        ensures stripe { self.new.stripe ≡ self.old.stripe }
        ensures kept { self.old.stopped ≡ None → Keeps (joined_as joined.now) self.new.stopped }
    {
        match joined {
            Err(AdmitFault::TooFew(whys)) => self.stopped = Some(FenceFault::TooFew(*whys)),
            Err(AdmitFault::EpochsSpent) => self.stopped = Some(FenceFault::EpochsSpent),
            Ok(_) | Err(AdmitFault::Gone(_)) => {}
        }
    }
}
