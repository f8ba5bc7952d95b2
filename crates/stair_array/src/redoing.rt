// How a session runs a redo. Each phase is over the slots of that moment, and those that were gone in it are left out before the
// next one begins.
ghost use Rattle.std.specs.Prelude.{◌≡◌, IfErr, OnOk, Some};
ghost use Rattle.stair_model.specs.Slots.{Slots as SlotSet};
ghost use Rattle.stair_rack.specs.Told.{told};
ghost use Rattle.stair_member.specs.Establishing.{refusal_of};
ghost use Rattle.stair_journal.specs.Gate.{closed_gate, open_gate as opened_gate};
ghost use Rattle.stair_journal.specs.Journalling.{body_writes, gate_writes};
ghost use Rattle.stair_journal.specs.Redo.{IsRedo};
ghost use Rattle.stair_stripes.specs.Placing.{cell_writes};
ghost use Rattle.stair_state.specs.Redoing.{AtRest, Placing};
ghost use Rattle.stair_invariant.specs.Effects.{AreLive, DoesStage, Redoes, TakePart, snapshot};

use crate::session::ArrayCore;
use stair_journal::{Redo, close_gates, open_gates, write_body};
use stair_member::FenceFault;
use stair_rack::Rack;
use stair_stripes::place;

impl ArrayCore {
    // Runs a redo whose cells are those of the stripe in memory.
    pub(crate) fn redo<R: Rack>(&mut self, rack: &mut R, redo: &Redo) -> Result<(), FenceFault>
        requires { IsRedo self.old.member.array.geometry redo.now }
        ensures does { Redoes self.old.member.array.geometry redo.now self.old.stripe AtRest
            (refusal_of result) (snapshot self.old.member (told R.Rack rack.old))
            (snapshot self.new.member (told R.Rack rack.new)) }
        ensures geometry { self.new.member.array.geometry ≡ self.old.member.array.geometry }
        ensures goes_on { OnOk result (self.new.stopped ≡ self.old.stopped) }
        ensures stops { IfErr result (λ fault. self.new.stopped ≡ Some fault) }
        ensures reads { R.reads rack.new ≡ R.reads rack.old }
    {
        self.put_body(rack, redo)?;
        self.commit(rack, redo)?;
        self.finish(rack, redo)
    }

    // Writes its body on the live slots.
    fn put_body<R: Rack>(&mut self, rack: &mut R, redo: &Redo) -> Result<(), FenceFault>
        requires { IsRedo self.old.member.array.geometry redo.now }
        ensures does { (live : SlotSet) × AreLive self.old.member live ×
            DoesStage (body_writes self.old.member.array.geometry redo.now self.old.stripe) live
            (refusal_of result) (snapshot self.old.member (told R.Rack rack.old))
            (snapshot self.new.member (told R.Rack rack.new)) }
        ensures geometry { self.new.member.array.geometry ≡ self.old.member.array.geometry }
        ensures stripe { self.new.stripe ≡ self.old.stripe }
        ensures goes_on { OnOk result (self.new.stopped ≡ self.old.stopped) }
        ensures stops { IfErr result (λ fault. self.new.stopped ≡ Some fault) }
        ensures reads { R.reads rack.new ≡ R.reads rack.old }
    {
        let geometry = self.member.geometry();
        let live = self.live();
        let gone = write_body(rack, &geometry, live, redo, &self.stripe);
        self.fence_if_any(rack, gone)
    }

    // Opens the gates of the live slots. Once one is open a crash leaves the redo to the next opening.
    fn commit<R: Rack>(&mut self, rack: &mut R, redo: &Redo) -> Result<(), FenceFault>
        requires { IsRedo self.old.member.array.geometry redo.now }
        ensures does { (live : SlotSet) × AreLive self.old.member live ×
            DoesStage (gate_writes (opened_gate self.old.member.array.geometry redo.now)) live
            (refusal_of result) (snapshot self.old.member (told R.Rack rack.old))
            (snapshot self.new.member (told R.Rack rack.new)) }
        ensures geometry { self.new.member.array.geometry ≡ self.old.member.array.geometry }
        ensures stripe { self.new.stripe ≡ self.old.stripe }
        ensures goes_on { OnOk result (self.new.stopped ≡ self.old.stopped) }
        ensures stops { IfErr result (λ fault. self.new.stopped ≡ Some fault) }
        ensures reads { R.reads rack.new ≡ R.reads rack.old }
    {
        let geometry = self.member.geometry();
        let live = self.live();
        let gone = open_gates(rack, live, &geometry, redo);
        self.fence_if_any(rack, gone)
    }

    // Does the last two phases of a redo, whose gates are open.
    pub(crate) fn finish<R: Rack>(&mut self, rack: &mut R, redo: &Redo) -> Result<(), FenceFault>
        requires { IsRedo self.old.member.array.geometry redo.now }
        ensures does { Redoes self.old.member.array.geometry redo.now self.old.stripe Placing
            (refusal_of result) (snapshot self.old.member (told R.Rack rack.old))
            (snapshot self.new.member (told R.Rack rack.new)) }
        ensures geometry { self.new.member.array.geometry ≡ self.old.member.array.geometry }
        ensures goes_on { OnOk result (self.new.stopped ≡ self.old.stopped) }
        ensures stops { IfErr result (λ fault. self.new.stopped ≡ Some fault) }
        ensures reads { R.reads rack.new ≡ R.reads rack.old }
    {
        self.put_in_place(rack, redo)?;
        self.close(rack)
    }

    // Places its cells on the slots that take part.
    pub(crate) fn put_in_place<R: Rack>(
        &mut self,
        rack: &mut R,
        redo: &Redo,
    ) -> Result<(), FenceFault>
        requires { IsRedo self.old.member.array.geometry redo.now }
        ensures does { (to : SlotSet) × TakePart self.old.member to ×
            DoesStage (cell_writes self.old.member.array.geometry redo.now self.old.stripe) to
            (refusal_of result) (snapshot self.old.member (told R.Rack rack.old))
            (snapshot self.new.member (told R.Rack rack.new)) }
        ensures geometry { self.new.member.array.geometry ≡ self.old.member.array.geometry }
        ensures goes_on { OnOk result (self.new.stopped ≡ self.old.stopped) }
        ensures stops { IfErr result (λ fault. self.new.stopped ≡ Some fault) }
        ensures reads { R.reads rack.new ≡ R.reads rack.old }
    {
        let geometry = self.member.geometry();
        let to = self.member.here();
        let gone = place(rack, &geometry, to, redo, &self.stripe);
        self.fence_if_any(rack, gone)
    }

    // Closes the gates of the live slots.
    pub(crate) fn close<R: Rack>(&mut self, rack: &mut R) -> Result<(), FenceFault>
        ensures does { (live : SlotSet) × AreLive self.old.member live ×
            DoesStage (gate_writes closed_gate) live (refusal_of result)
            (snapshot self.old.member (told R.Rack rack.old))
            (snapshot self.new.member (told R.Rack rack.new)) }
        ensures geometry { self.new.member.array.geometry ≡ self.old.member.array.geometry }
        ensures goes_on { OnOk result (self.new.stopped ≡ self.old.stopped) }
        ensures stops { IfErr result (λ fault. self.new.stopped ≡ Some fault) }
        ensures reads { R.reads rack.new ≡ R.reads rack.old }
    {
        let live = self.live();
        let gone = close_gates(rack, live);
        self.fence_if_any(rack, gone)
    }
}
