//! When no device is an older copy: while an epoch is established, and once it stands.

ghost use Rattle.std.specs.Prelude.{◌≡◌, ◌≢◌, ℕ, List, IsTrue, None, Option, Some};
ghost use Rattle.stair_model.specs.Slots.{Slots};
ghost use Rattle.stair_rack.specs.Crash.{CrashMayLeave, image_now};
ghost use Rattle.stair_rack.specs.History.{Happening, slot_state};
ghost use Rattle.stair_rack.specs.Media.{Image};
ghost use Rattle.stair_rack.specs.Moments.{IsMoment};
ghost use Rattle.stair_rack.specs.RackState.{RackState};
ghost use Rattle.stair_super.specs.declared.configuration.Configuration.{Configuration};
ghost use Rattle.stair_member.specs.Aims.{admitted};
ghost use Rattle.stair_member.specs.ChangesSteps.{IsLiveSlot};
ghost use Rattle.stair_member.specs.Fencing.{HasStood, IsFencing};
ghost use Rattle.stair_member.specs.Membership.{IsHere, Membership};
ghost use Rattle.stair_member.specs.Reserve.{HasReached};
ghost use Rattle.stair_member.specs.RoundSteps.{BeganOut, DrewOut};
ghost use Rattle.stair_member.specs.declared.aim.EpochChange.{EpochChange};
ghost use Rattle.stair_copies.specs.Copies.{IsOlderCopy};

/// When no device is an older copy. It does nothing.
pub fn copy_laws()
    // a device that has reached an epoch is no older copy in it
    ensures reached { (array : Configuration) (image : Image) (j : ℕ) →
        HasReached array.geometry image array.epoch j →
        ¬ IsOlderCopy array j ((image j).cell) }
    // so while another epoch is established, whenever that is cut off, no device that had reached the earlier one is an older
    // copy in it, but for one that is admitted
    ensures meanwhile { (aim : EpochChange) (gone : Slots) (m last : Membership)
        (old h new : List Happening) (image : Image) (j : ℕ) →
        IsFencing aim gone m last old h new → CrashMayLeave h image → admitted aim ≢ Some j →
        HasReached m.array.geometry (image_now old) m.array.epoch j →
        ¬ IsOlderCopy m.array j ((image j).cell) }
    // once an epoch stands no device that takes part is an older copy
    ensures stood { (aim : EpochChange) (gone : Slots) (m last : Membership) (old new : List Happening)
        (image : Image) (j : ℕ) → HasStood aim gone m last old new → CrashMayLeave new image →
        IsHere last j → ¬ IsOlderCopy last.array j ((image j).cell) }
    // While the superblocks of an epoch are written, after the draws for it, no device that was live is an older copy in it,
    // whenever that is cut off and whatever becomes of the other devices. It is the epoch of the round that went on.
    ensures drawn { (aim : EpochChange) (m mid last : Membership) (which : Option ℕ)
        (old between new : RackState) (h : List Happening) (image : Image) (j : ℕ) →
        DrewOut m mid None old between → (began : BeganOut aim mid last which between new) →
        IsTrue between.honest → IsTrue new.honest → IsMoment between.history h new.history →
        (slot_state h j).pulls ≡ (slot_state old.history j).pulls → CrashMayLeave h image →
        IsLiveSlot m j → admitted aim ≢ Some j →
        ¬ IsOlderCopy began.begun.array j ((image j).cell) }
{}
