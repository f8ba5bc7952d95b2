// How a session begins: an epoch, and the redo that a cut session left.
ghost use Rattle.std.specs.Prelude.{◌≡◌, ◌<◌, IfOk, IfSome, MatchResult, OnOk, None, Option, Result, Some};
ghost use Rattle.stair_model.specs.Geometry.{Geometry as Numbers};
ghost use Rattle.stair_model.specs.Slots.{Slots as SlotSet};
ghost use Rattle.stair_rack.specs.Told.{told};
ghost use Rattle.stair_member.specs.Establishing.{refusal_of};
ghost use Rattle.stair_journal.specs.Redo.{IsRedo};
ghost use Rattle.stair_journal.specs.declared.redo.Redo.{Redo as Cells};
ghost use Rattle.stair_journal.specs.declared.body.Body.{Body as BodyFound};
ghost use Rattle.stair_invariant.specs.Effects.{FindsBody, FindsRedo, Replays, snapshot};
ghost use Rattle.stair_array.specs.Faults.{IsAnsweredAs};
ghost use Rattle.stair_array.specs.Machine.{Refusal};
ghost use Rattle.stair_array.specs.Openings.{ClearsJournal, Recovers};

use crate::fault::RecoverFault;
use crate::session::ArrayCore;
use stair_base::Slots;
use stair_journal::{Body, Gates, Redo, open_gates, read_body, read_gates};
use stair_member::FenceFault;
use stair_rack::Rack;

impl ArrayCore {
    // Begins: an epoch shuts out each slot that isn't here, before any gate is read.
    pub(crate) fn recover<R: Rack>(&mut self, rack: &mut R) -> Result<(), RecoverFault>
        ensures does { (answer : Result Numbers Refusal) ×
            IsAnsweredAs self.old.member.array.geometry result answer ×
            Recovers answer (snapshot self.old.member (told R.Rack rack.old))
            (snapshot self.new.member (told R.Rack rack.new)) }
        ensures geometry { self.new.member.array.geometry ≡ self.old.member.array.geometry }
        ensures goes_on { OnOk result (self.new.stopped ≡ self.old.stopped) }
    {
        self.establish(rack, Slots::empty())?;
        let gates = self.find_redo(rack)?;
        self.clear_journal(rack, &gates)
    }

    // Reads the gates of the live slots, and again without those that were gone, until none was.
    fn find_redo<R: Rack>(&mut self, rack: &mut R) -> Result<Gates, FenceFault>
        ensures does { MatchResult result
            (λ gates. FindsRedo gates.redo gates.opened None
            (snapshot self.old.member (told R.Rack rack.old))
            (snapshot self.new.member (told R.Rack rack.new)))
            (λ fault. (redo : Option Cells) (opened : SlotSet) → FindsRedo redo opened (Some fault)
            (snapshot self.old.member (told R.Rack rack.old))
            (snapshot self.new.member (told R.Rack rack.new))) }
        ensures redo { IfOk result (λ gates.
            IfSome gates.redo (IsRedo self.new.member.array.geometry)) }
        ensures geometry { self.new.member.array.geometry ≡ self.old.member.array.geometry }
        ensures goes_on { OnOk result (self.new.stopped ≡ self.old.stopped) }
    {
        let geometry = self.member.geometry();
        let mut live = self.live();
        loop {
            let gates = read_gates(rack, &geometry, live);
            if gates.gone.count() == 0 {
                return Ok(gates);
            }
            self.fence_if_any(rack, gates.gone)?;
            live = self.live();
        }
    }

    // Closes the gates of the live slots, after the redo was done again if there was one.
    fn clear_journal<R: Rack>(&mut self, rack: &mut R, gates: &Gates) -> Result<(), RecoverFault>
        requires { IfSome gates.now.redo (IsRedo self.old.member.array.geometry) }
        ensures does { (answer : Result Numbers Refusal) ×
            IsAnsweredAs self.old.member.array.geometry result answer ×
            ClearsJournal gates.now.redo gates.now.opened answer
            (snapshot self.old.member (told R.Rack rack.old))
            (snapshot self.new.member (told R.Rack rack.new)) }
        ensures geometry { self.new.member.array.geometry ≡ self.old.member.array.geometry }
        ensures goes_on { OnOk result (self.new.stopped ≡ self.old.stopped) }
    {
        let Some(redo) = gates.redo else {
            return Ok(self.close(rack)?);
        };
        let body = self.find_body(rack, &redo)?;
        if let Some(sector) = body.unread {
            return Err(RecoverFault::JournalLost { sector });
        }
        Ok(self.replay(rack, &redo, gates.opened)?)
    }

    // Reads the body of a redo, and leaves out the slots that were gone.
    fn find_body<R: Rack>(&mut self, rack: &mut R, redo: &Redo) -> Result<Body, FenceFault>
        requires { IsRedo self.old.member.array.geometry redo.now }
        ensures does { MatchResult result
            (λ body. FindsBody redo.now body self.old.stripe self.new.stripe None
            (snapshot self.old.member (told R.Rack rack.old))
            (snapshot self.new.member (told R.Rack rack.new)))
            (λ fault. (body : BodyFound) ×
            FindsBody redo.now body self.old.stripe self.new.stripe (Some fault)
            (snapshot self.old.member (told R.Rack rack.old))
            (snapshot self.new.member (told R.Rack rack.new))) }
        ensures geometry { self.new.member.array.geometry ≡ self.old.member.array.geometry }
        ensures goes_on { OnOk result (self.new.stopped ≡ self.old.stopped) }
    {
        let geometry = self.member.geometry();
        let live = self.live();
        let body = read_body(rack, &geometry, live, redo, &mut self.stripe);
        self.fence_if_any(rack, body.gone)?;
        Ok(body)
    }

    // Does a redo again whose body was found: the gates that aren't open are opened, its cells are placed, and all gates are
    // closed. A gate that is open isn't written before that, since a crash may tear it.
    fn replay<R: Rack>(
        &mut self,
        rack: &mut R,
        redo: &Redo,
        opened: Slots,
    ) -> Result<(), FenceFault>
        requires { IsRedo self.old.member.array.geometry redo.now }
        ensures does { Replays redo.now self.old.stripe opened (refusal_of result)
            (snapshot self.old.member (told R.Rack rack.old))
            (snapshot self.new.member (told R.Rack rack.new)) }
        ensures geometry { self.new.member.array.geometry ≡ self.old.member.array.geometry }
        ensures goes_on { OnOk result (self.new.stopped ≡ self.old.stopped) }
    {
        let geometry = self.member.geometry();
        let unopened = self.live().difference(&opened);
        let gone = open_gates(rack, unopened, &geometry, redo);
        self.fence_if_any(rack, gone)?;
        self.finish(rack, redo)
    }
}
