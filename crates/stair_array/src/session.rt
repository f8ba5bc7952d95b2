// What a session does with the devices of an array, whatever its code is: epochs, and the redo that a cut session left.
ghost use Rattle.std.specs.Prelude.{◌≡◌, ◌<◌, ℕ, IfErr, IfOk, OnOk, None, Some};
ghost use Rattle.stair_model.specs.Slots.{HasSlot};
ghost use Rattle.stair_model.specs.Stripe.{IsStripeOf};
ghost use Rattle.stair_rack.specs.Told.{told};
ghost use Rattle.stair_member.specs.Establishing.{Fences, refusal_of};
ghost use Rattle.stair_invariant.specs.Effects.{AreLive, FencesGone, snapshot};

use stair_base::{Slots, Stripe};
use stair_member::{FenceFault, Member, Why, fence};
use stair_rack::Rack;
use std::alloc::{AllocError, Global};

// A session with an array.
#[derive(Drop)]
pub(crate) struct ArrayCore {
    pub(crate) member: Member,
    // the stripe that is worked on
    pub(crate) stripe: Stripe,
    // what stopped it
    pub(crate) stopped: Option<FenceFault>,
    ghost shape: { IsStripeOf member.array.geometry stripe },
}

impl ArrayCore {
    // A session with an array of which this is known. It takes its memory, and calls nothing.
    pub(crate) fn new(alloc: Global, member: Member) -> Result<ArrayCore, AllocError>
        ensures member { IfOk result (λ session. session.member ≡ member) }
        ensures stopped { IfOk result (λ session. session.stopped ≡ None) }
    {
        let stripe = Stripe::new(alloc, &member.geometry())?;
        Ok(ArrayCore {
            member,
            stripe,
            stopped: None,
        })
    }

    // The slots that are live.
    pub(crate) fn live(&self) -> Slots
        ensures { AreLive self.now.member result }
    {
        let mut live = Slots::empty();
        for slot in 0..self.member.geometry().n() {
            if self.member.why(slot) == Why::Here {
                live.add(slot);
            }
        }
        live
    }

    // EPOCHS

    // Establishes an epoch without these slots, and answers those that became Down. The session stops where it is refused.
    pub(crate) fn establish<R: Rack>(
        &mut self,
        rack: &mut R,
        leaving: Slots,
    ) -> Result<Slots, FenceFault>
        requires { (j : ℕ) → HasSlot leaving j → j < self.old.member.array.geometry.n }
        ensures does { Fences leaving self.old.member self.new.member result (told R.Rack rack.old)
            (told R.Rack rack.new) }
        ensures stripe { self.new.stripe ≡ self.old.stripe }
        ensures goes_on { OnOk result (self.new.stopped ≡ self.old.stopped) }
        ensures stops { IfErr result (λ fault. self.new.stopped ≡ Some fault) }
        ensures reads { R.reads rack.new ≡ R.reads rack.old }
    {
        let answer = fence(rack, &mut self.member, leaving);
        if let Err(fault) = answer {
            self.stopped = Some(fault);
        }
        answer
    }

    // Leaves out the slots that were gone, where there are any.
    pub(crate) fn fence_if_any<R: Rack>(
        &mut self,
        rack: &mut R,
        gone: Slots,
    ) -> Result<(), FenceFault>
        requires { (j : ℕ) → HasSlot gone j → j < self.old.member.array.geometry.n }
        ensures does { FencesGone gone (refusal_of result) (snapshot self.old.member (told R.Rack rack.old))
            (snapshot self.new.member (told R.Rack rack.new)) }
        ensures geometry { self.new.member.array.geometry ≡ self.old.member.array.geometry }
        ensures stripe { self.new.stripe ≡ self.old.stripe }
        ensures goes_on { OnOk result (self.new.stopped ≡ self.old.stopped) }
        ensures stops { IfErr result (λ fault. self.new.stopped ≡ Some fault) }
        ensures reads { R.reads rack.new ≡ R.reads rack.old }
    {
        if gone.count() == 0 {
            return Ok(());
        }
        self.establish(rack, gone)?;
        Ok(())
    }
}
