ghost use Rattle.std.specs.Prelude.{◌≡◌, ◌+◌, ◌*◌, ◌^◌, ◌<◌, ◌≤◌, ℕ, []};
ghost use Rattle.stair_array.specs.Promise.{Opened};
ghost use Rattle.stair_model.specs.Geometry.{block_count, data_cells};
ghost use Rattle.stair_model.specs.Stripe.{SECTOR as BYTES};
ghost use Rattle.stair_command.specs.Devices.{ExecutesWith, device_view, devices};
ghost use Rattle.stair_command.specs.Fault.{status_after};
ghost use Rattle.stair_command.specs.Outside.{outside, views};
ghost use Rattle.stair_command.specs.Program.{Over};
ghost use Rattle.stair_command.specs.Rack.{rack_view};
ghost use Rattle.stair_command.specs.Transfers.{writes};
ghost use Rattle.stair_watch.specs.WatcherList.{AllStay};

use crate::fault::Fault;
use crate::intake::Intake;
use crate::pieces::{Piece, piece_blocks};
use crate::steps::ObservedArray;
use crate::streams::put_all;
use crate::text::wrote_line;
use stair_base::{SECTOR, StripeCode};
use stair_rack::{Rack, Sink, Source, Watcher};

/// Writes so many blocks from this one on, which are all of the input, and puts out the line that tells so.
///
/// The whole blocks of each piece that came are written as one step, before more is taken. What was written before a fault stands.
pub fn write_input<C: StripeCode, R: Rack, S: Source, K: Sink>(
    array: &mut ObservedArray<C>,
    piece: &mut Piece,
    first: u64,
    blocks: u64,
    rack: &mut R,
    input: &mut S,
    output: &mut K,
    watchers: &mut Vec<Box<dyn Watcher>>,
) -> Result<(), Fault>
    requires within { 0 < blocks → first + blocks ≤ block_count array.old.member.array.geometry }
    requires fits { first + blocks < 2 ^ 64 }
    requires needed { BYTES * blocks < 2 ^ 63 }
    requires room { data_cells array.old.member.array.geometry * BYTES ≤ piece.old.room }
    requires empty { piece.old.bytes ≡ [] }
    requires stay { AllStay hears watchers.old.items }
    ensures means { (counter : ℕ) → ExecutesWith
        (device_view (rack_view R.Rack) hears) (views S.Source K.Sink)
        (writes array.old.member.array.geometry first blocks blocks 0 []) (Over (status_after result))
        (outside input.old output.old counter) (outside input.new output.new counter)
        (devices rack.old (Opened array.old) watchers.old.items)
        (devices rack.new (Opened array.new) watchers.new.items) }
    ensures stay { AllStay hears watchers.new.items }
{
    let geometry = array.geometry();
    let mut intake = Intake::new(SECTOR as u64 * blocks);
    let mut done = 0;
    while done < blocks {
        let block = first + done;
        piece.take(
            input,
            &mut intake,
            piece_blocks(&geometry, block, blocks - done),
        )?;
        let whole = piece.whole();
        done += (whole.len() / SECTOR) as u64;
        if let Err(fault) = array.write_blocks(rack, block, whole, watchers) {
            return Err(Fault::Step {
                fault,
                slots: geometry.n(),
            });
        }
        piece.drop_whole();
    }
    intake.end(input)?;
    put_all(output, wrote_line(blocks).bytes())?;
    Ok(())
}
