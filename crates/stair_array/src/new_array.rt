ghost use Rattle.stair_array.specs.Creates.{Creates};
ghost use Rattle.stair_rack.specs.Told.{told};

use crate::fault::CreateFault;
use crate::look::look_at_all;
use crate::new_device::{enrol_all, lay_out};
use stair_base::Geometry;
use stair_rack::Rack;

/// Makes an array of this geometry on the devices of slots 0 to n-1, whose blocks are zeros.
///
/// It looks at all 32 slots before it writes anything, in rising order. A slot of the array is attached and synced, its
/// device must have the sectors that the array needs, and neither of its two superblock places may hold a superblock. Any
/// other slot is attached, and where it holds a medium there may be no superblock either, since a second array among the
/// devices would stop every later opening; one that is gone is passed over. The first slot that is refused is the answer:
/// `Gone`, `SmallDevice` or `AlreadyArray`, and then nothing was written.
///
/// Then the devices of the array get a closed gate and zeros after it, sector by sector, and are synced; and after that, each
/// gets the superblock of epoch 1 in its two places, each of which is synced before the next write. What lies after the
/// sectors that the array needs is left alone. `Gone` comes too where a slot is gone meanwhile, of several in one sector the
/// lowest. Then there is no array, and the media aren't blank any more.
///
/// It takes no memory.
pub fn create<R: Rack>(rack: &mut R, geometry: &Geometry) -> Result<(), CreateFault>
    ensures { Creates geometry.now result (told R.Rack rack.old) (told R.Rack rack.new) }
{
    look_at_all(rack, geometry)?;
    lay_out(rack, geometry)?;
    enrol_all(rack, geometry)
}
