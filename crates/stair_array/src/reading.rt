// How a session reads a cell, and a stripe.
ghost use Rattle.std.specs.Prelude.{◌≡◌, ◌<◌, ◌≤◌, MatchBool, None, IfErr, IfOk};
ghost use Rattle.stair_model.specs.Device.{cell_sector as sector_of};
ghost use Rattle.stair_model.specs.Geometry.{block_count};
ghost use Rattle.stair_rack.specs.RackCounts.{RisesAtMost};
ghost use Rattle.stair_rack.specs.Sector.{Good};
ghost use Rattle.stair_rack.specs.RackState.{IsLater, IsReading};
ghost use Rattle.stair_rack.specs.Told.{told};
ghost use Rattle.stair_invariant.specs.Effects.{snapshot};
ghost use Rattle.stair_array.specs.Arrays.{cells_of, outcome};
ghost use Rattle.stair_array.specs.Calls.{AsksFor, CannotHave, IsInPlace, LoadsStripe};
ghost use Rattle.stair_array.specs.Promise.{Keeps};

use crate::fault::ArrayFault;
use crate::session::ArrayCore;
use stair_base::{Place, SECTOR, StripeCode};
use stair_member::Why;
use stair_rack::{Got, Rack};
use stair_stripes::gather;

impl ArrayCore {
    // Where a block lies, or that there is none.
    pub(crate) fn place_of(&self, block: u64) -> Result<Place, ArrayFault>
        ensures place { IfOk result (λ place.
            IsInPlace self.now.member.array.geometry block place.stripe place.row place.slot) }
        ensures stripe { IfOk result (λ place.
            place.stripe < self.now.member.array.geometry.stripes) }
        ensures past { IfErr result (λ _. block_count self.now.member.array.geometry ≤ block) }
        ensures fault { IfErr result (λ fault. fault ≡
            ArrayFault.OutOfRange block (block_count self.now.member.array.geometry)) }
    {
        let geometry = self.member.geometry();
        let limit = geometry.blocks();
        if block >= limit {
            return Err(ArrayFault::OutOfRange {
                asked: block,
                limit,
            });
        }
        Ok(geometry.place_of(block))
    }

    // Reads a cell into `into` where its slot is live. Whether it could be read.
    pub(crate) fn read_cell<R: Rack>(
        &self,
        rack: &mut R,
        place: Place,
        into: &mut [u8; SECTOR],
    ) -> bool
        requires stripe { place.stripe < self.now.member.array.geometry.stripes }
        requires row { place.row < self.now.member.array.geometry.r }
        requires slot { place.slot < self.now.member.array.geometry.n }
        ensures does { MatchBool result
            (AsksFor place.stripe place.row place.slot Got.Good
            (snapshot self.now.member (told R.Rack rack.old))
            (snapshot self.now.member (told R.Rack rack.new)) ×
            IsReading place.slot (sector_of self.now.member.array.geometry place.stripe place.row)
            (told R.Rack rack.old) (told R.Rack rack.new) (Good into.new))
            (CannotHave place.stripe place.row place.slot
            (snapshot self.now.member (told R.Rack rack.old))
            (snapshot self.now.member (told R.Rack rack.new)) × (into.new ≡ into.old)) }
        ensures reads { RisesAtMost 1 (R.reads rack.old) (R.reads rack.new) }
    {
        let sector = self.member.geometry().cell_sector(place.stripe, place.row);
        if self.member.why(place.slot) != Why::Here {
            return false;
        }
        match rack.read(place.slot, sector, into) {
            Got::Good => true,
            Got::Bad => false,
            Got::Gone => false,
        }
    }

    // Gathers a stripe, leaves out the slots that were gone, and restores it.
    pub(crate) fn load<R: Rack, C: StripeCode>(
        &mut self,
        rack: &mut R,
        code: &mut C,
        stripe: u32,
    ) -> Result<(), ArrayFault>
        requires fits { C.shape code.old ≡ self.old.member.array.geometry }
        requires stripe { stripe < self.old.member.array.geometry.stripes }
        ensures does { LoadsStripe stripe self.new.stripe (outcome result)
            (snapshot self.old.member (told R.Rack rack.old))
            (snapshot self.new.member (told R.Rack rack.new)) }
        ensures later { IsLater (told R.Rack rack.old) (told R.Rack rack.new) }
        ensures fits { C.shape code.new ≡ self.new.member.array.geometry }
        ensures geometry { self.new.member.array.geometry ≡ self.old.member.array.geometry }
        ensures kept { self.old.stopped ≡ None → Keeps (outcome result) self.new.stopped }
        ensures reads { RisesAtMost (cells_of self.old.member.array.geometry) (R.reads rack.old)
            (R.reads rack.new) }
    {
        let geometry = self.member.geometry();
        let live = self.live();
        let gathered = gather(rack, &geometry, live, stripe, &mut self.stripe);
        self.fence_if_any(rack, gathered.gone)?;
        match code.restore(&mut self.stripe, &gathered.erased) {
            Ok(()) => Ok(()),
            Err(_) => Err(ArrayFault::Lost {
                stripe,
                counts: gathered.erased.counts(),
            }),
        }
    }
}
