// The open array of a session, whose steps are told to watchers.

ghost use Rattle.std.specs.Prelude.{◌≡◌, ◌%◌, ◌/◌, ◌<◌, length, IfErr, IfOk, None, OnOk, Some, Ok, Err};
ghost use Rattle.stair_array.specs.Arrays.{answer_as, blocks_of, outcome, rebuilt_as, replaced_as};
ghost use Rattle.stair_array.specs.Faults.{array_fault, opening_refusal};
ghost use Rattle.stair_member.specs.declared.fault.FenceFault.{FenceFault};
ghost use Rattle.stair_invariant.specs.Session.{IsArray, seats_in};
ghost use Rattle.stair_array.specs.Machine.{
  ReadBlock,
  RebuildNext,
  Recover,
  Refusal,
  ReplaceSlot,
  ScrubStripe,
  SetFrozen,
  SetLabel,
  WriteBlocks,
};
ghost use Rattle.stair_array.specs.News.{events_in};
ghost use Rattle.stair_array.specs.Promise.{Closed, Found, Opened};
ghost use Rattle.stair_state.specs.Blocks.{AreOfOneStripe};
ghost use Rattle.stair_command.specs.Devices.{device_view, devices};
ghost use Rattle.stair_command.specs.Rack.{rack_view};
ghost use Rattle.stair_command.specs.Rebuilt.{steps_left};
ghost use Rattle.stair_command.specs.Steps.{Takes};
ghost use Rattle.stair_watch.specs.WatcherList.{AllStay, TellsAll};

use stair_array::{Array, ArrayFault, News, RecoverFault};
use stair_base::{Geometry, SECTOR, StripeCode};
use stair_member::Member;
use stair_mend::{Progress, RebuildFault, ReplaceFault, rebuild_step, replace, scrub_step};
use stair_rack::{Rack, Watcher};
use stair_super::{Label, Mark};
use stair_watch::tell;
use std::alloc::Global;
use std::marker::Model;

// A step has at most so many events: each slot that became Down, a repair, an admission and a promotion.
const MOST_EVENTS: u8 = 35;

/// The open array of a session. Each step tells the watchers what it did, refused or not.
#[derive(Drop)]
pub struct ObservedArray<C: StripeCode> {
    array: Array<C>,
}

impl<C: StripeCode> Model for ObservedArray<C> {
    ghost use Rattle.std.specs.Prelude.{◌≡◌, None};
    ghost use Rattle.stair_invariant.specs.Session.{ArrayState, IsArray};
    ghost use Rattle.stair_array.specs.Arrays.{state_of};

    ghost Value = { ArrayState };

    ghost view = { λ o. state_of o.array };

    ghost invariant = { λ o. o.array.stopped ≡ None → IsArray (state_of o.array) };
}

impl<C: StripeCode> ObservedArray<C> {
    /// Opens the array that a survey found on this rack, with no call between, as [`Array::recover`] does, and tells what
    /// that did. Of an opening that is refused nothing is told.
    pub fn open<R: Rack>(
        alloc: Global,
        rack: &mut R,
        member: Member,
        code: C,
        watchers: &mut Vec<Box<dyn Watcher>>,
    ) -> Result<ObservedArray<C>, RecoverFault>
        requires fits { C.shape code ≡ member.array.geometry }
        requires stay { AllStay hears watchers.old.items }
        ensures taken { IfOk result (λ array. Takes
            (device_view (rack_view R.Rack) hears)
            Recover (Ok member.array.geometry)
            (devices rack.old (Found member) watchers.old.items)
            (devices rack.new (Opened array) watchers.new.items)) }
        ensures refused { IfErr result (λ fault. (refusal : Refusal) →
            opening_refusal fault ≡ Some refusal → Takes
            (device_view (rack_view R.Rack) hears)
            Recover (Err refusal)
            (devices rack.old (Found member) watchers.old.items)
            (devices rack.new Closed watchers.new.items)) }
        ensures memory { IfErr result (λ fault. fault ≡ RecoverFault.Memory →
            (rack.new ≡ rack.old) × (watchers.new.items ≡ watchers.old.items)) }
        ensures stay { AllStay hears watchers.new.items }
    {
        // by whose rules what was found is one of its geometry
        let _ = member.geometry();
        let array = Array::recover(alloc, rack, member, code)?;
        tell_all(array.news(), watchers);
        Ok(ObservedArray { array })
    }

    /// Reads a block, as [`Array::read`] does, and tells what that did.
    pub fn read<R: Rack>(
        &mut self,
        rack: &mut R,
        block: u64,
        into: &mut [u8; SECTOR],
        watchers: &mut Vec<Box<dyn Watcher>>,
    ) -> Result<(), ArrayFault>
        requires stay { AllStay hears watchers.old.items }
        ensures taken { Takes
            (device_view (rack_view R.Rack) hears)
            (ReadBlock block) (answer_as into.new result)
            (devices rack.old (Opened self.old) watchers.old.items)
            (devices rack.new (Opened self.new) watchers.new.items) }
        ensures stay { AllStay hears watchers.new.items }
    {
        self.array.clear_news();
        let read = self.array.read(rack, block, into);
        tell_all(self.array.news(), watchers);
        read
    }

    /// Writes blocks of one stripe, as [`Array::write_blocks`] does, and tells what that did.
    pub fn write_blocks<R: Rack>(
        &mut self,
        rack: &mut R,
        first: u64,
        from: &[u8],
        watchers: &mut Vec<Box<dyn Watcher>>,
    ) -> Result<(), ArrayFault>
        requires whole { length from.now % 512 ≡ 0 }
        requires together { AreOfOneStripe self.old.member.array.geometry first
            (length from.now / 512) }
        requires stay { AllStay hears watchers.old.items }
        ensures taken { Takes
            (device_view (rack_view R.Rack) hears)
            (WriteBlocks first (blocks_of from.now)) (outcome result)
            (devices rack.old (Opened self.old) watchers.old.items)
            (devices rack.new (Opened self.new) watchers.new.items) }
        ensures stay { AllStay hears watchers.new.items }
    {
        self.array.clear_news();
        let written = self.array.write_blocks(rack, first, from);
        tell_all(self.array.news(), watchers);
        written
    }

    /// Scrubs a stripe, as [`scrub_step`] does, and tells what that did.
    pub fn scrub<R: Rack>(
        &mut self,
        rack: &mut R,
        stripe: u32,
        watchers: &mut Vec<Box<dyn Watcher>>,
    ) -> Result<u16, ArrayFault>
        requires stay { AllStay hears watchers.old.items }
        ensures taken { Takes
            (device_view (rack_view R.Rack) hears)
            (ScrubStripe stripe) (outcome result)
            (devices rack.old (Opened self.old) watchers.old.items)
            (devices rack.new (Opened self.new) watchers.new.items) }
        ensures stay { AllStay hears watchers.new.items }
    {
        self.array.clear_news();
        let scrubbed = scrub_step(&mut self.array, rack, stripe);
        tell_all(self.array.news(), watchers);
        scrubbed
    }

    /// Replaces a slot that is Down, as [`replace`] does, and tells what that did.
    pub fn replace<R: Rack>(
        &mut self,
        rack: &mut R,
        slot: u8,
        watchers: &mut Vec<Box<dyn Watcher>>,
    ) -> Result<(), ReplaceFault>
        requires stay { AllStay hears watchers.old.items }
        ensures taken { Takes
            (device_view (rack_view R.Rack) hears)
            (ReplaceSlot slot) (replaced_as result)
            (devices rack.old (Opened self.old) watchers.old.items)
            (devices rack.new (Opened self.new) watchers.new.items) }
        ensures stay { AllStay hears watchers.new.items }
    {
        self.array.clear_news();
        let replaced = replace(&mut self.array, rack, slot);
        tell_all(self.array.news(), watchers);
        replaced
    }

    /// Makes one step of a rebuild, as [`rebuild_step`] does, and tells what that did.
    pub fn rebuild_step<R: Rack>(
        &mut self,
        rack: &mut R,
        watchers: &mut Vec<Box<dyn Watcher>>,
    ) -> Result<Progress, RebuildFault>
        requires stay { AllStay hears watchers.old.items }
        ensures taken { Takes
            (device_view (rack_view R.Rack) hears)
            RebuildNext (rebuilt_as result)
            (devices rack.old (Opened self.old) watchers.old.items)
            (devices rack.new (Opened self.new) watchers.new.items) }
        ensures stay { AllStay hears watchers.new.items }
        ensures sooner { IfOk result (λ progress. (progress ≡ Progress.Nothing → ⊥) →
            steps_left self.new < steps_left self.old) }
    {
        self.array.clear_news();
        let came = rebuild_step(&mut self.array, rack);
        tell_all(self.array.news(), watchers);
        came
    }

    /// Freezes the array, or thaws it, as [`Array::set_frozen`] does, and tells what that did.
    pub fn set_frozen<R: Rack>(
        &mut self,
        rack: &mut R,
        frozen: bool,
        watchers: &mut Vec<Box<dyn Watcher>>,
    ) -> Result<(), ArrayFault>
        requires stay { AllStay hears watchers.old.items }
        ensures taken { Takes
            (device_view (rack_view R.Rack) hears)
            (SetFrozen frozen) (outcome result)
            (devices rack.old (Opened self.old) watchers.old.items)
            (devices rack.new (Opened self.new) watchers.new.items) }
        ensures stay { AllStay hears watchers.new.items }
    {
        self.array.clear_news();
        let stamped = self.array.set_frozen(rack, frozen);
        tell_all(self.array.news(), watchers);
        stamped
    }

    /// Gives the array this label, as [`Array::set_label`] does, and tells what that did.
    pub fn set_label<R: Rack>(
        &mut self,
        rack: &mut R,
        label: Label,
        watchers: &mut Vec<Box<dyn Watcher>>,
    ) -> Result<(), ArrayFault>
        requires stay { AllStay hears watchers.old.items }
        ensures taken { Takes
            (device_view (rack_view R.Rack) hears)
            (SetLabel label) (outcome result)
            (devices rack.old (Opened self.old) watchers.old.items)
            (devices rack.new (Opened self.new) watchers.new.items) }
        ensures stay { AllStay hears watchers.new.items }
    {
        self.array.clear_news();
        let stamped = self.array.set_label(rack, label);
        tell_all(self.array.news(), watchers);
        stamped
    }

    /// The mark of a slot. A stopped array answers by what it was stopped, as any step does.
    pub fn mark(&self, slot: u8) -> Result<Mark, ArrayFault>
        requires { slot < 32 }
        ensures rules { self.now.stopped ≡ None → IsArray self.now }
        ensures value { OnOk result (self.now.stopped ≡ None) }
        ensures mark { IfOk result (λ mark. mark ≡ (seats_in self.now.member.array slot).mark) }
        ensures stopped { IfErr result (λ fault.
            (by : FenceFault) × (self.now.stopped ≡ Some by) × (fault ≡ array_fault by)) }
    {
        match self.array.stopped() {
            Some(fault) => Err(ArrayFault::from(fault)),
            None => Ok(self.array.marks()[usize::from(slot)]),
        }
    }

    /// The geometry of the array.
    pub fn geometry(&self) -> Geometry
        ensures { result ≡ self.now.member.array.geometry }
    {
        self.array.geometry()
    }
}

// Tells the watchers all events of the news, in their order.
fn tell_all(news: News, watchers: &mut Vec<Box<dyn Watcher>>)
    requires stay { AllStay hears watchers.old.items }
    ensures does { TellsAll hears (events_in news)
        watchers.old.items watchers.new.items }
    ensures stay { AllStay hears watchers.new.items }
{
    for at in 0..MOST_EVENTS {
        match news.event(at) {
            Some(event) => tell(watchers, event),
            None => return,
        }
    }
}
