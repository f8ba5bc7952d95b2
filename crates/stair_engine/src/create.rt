ghost use Rattle.std.specs.Prelude.{◌≡◌, ◌+◌, ℕ, IfOk, IfErr, length, string_bytes};
ghost use Rattle.stair_command.specs.Fault.{status_of};
ghost use Rattle.stair_command.specs.Outside.{outside, source_view, views};
ghost use Rattle.stair_command.specs.Program.{Over};
ghost use Rattle.stair_engine.specs.Programs.{MAX_GEOMETRY_TEXT as LIMIT, create_program, created_line as line_of_created};
ghost use Rattle.stair_command.specs.Rack.{ExecutesOver, rack_view};
ghost use Rattle.stair_engine.specs.Taking.{TakesText};

use stair_base::Geometry;
use stair_command::{Fault, Filled, Status, put_all, take_at_least};
use stair_conf::read_config;
use stair_rack::{Rack, Sink, Source};
use std::alloc::{AllocError, Global};

// A geometry text has at most so many bytes.
const MAX_GEOMETRY_TEXT: usize = 4096;

/// Takes a geometry text, makes the array that it says on the devices of the rack, and puts out a line on it.
pub(crate) fn create<R: Rack, S: Source, K: Sink>(
    alloc: Global,
    rack: &mut R,
    input: &mut S,
    output: &mut K,
) -> Result<Status, Fault>
    ensures { (counter : ℕ) → ExecutesOver (rack_view R.Rack)
        (views S.Source K.Sink) create_program (Over (status_of result))
        (outside input.old output.old counter) (outside input.new output.new counter)
        rack.old rack.new }
{
    let mut text = [0; MAX_GEOMETRY_TEXT + 1];
    let length = take_text(input, &mut text)?;
    let geometry = read_config(alloc, &text[..length])?;
    // Memory is asked for before the devices are touched.
    let line = created_line(alloc, &geometry)?;
    stair_array::create(rack, &geometry)?;
    put_all(output, line.as_bytes())?;
    Ok(Status::Done)
}

/// Takes a text up to the end of the input, and tells how many bytes it has.
fn take_text<S: Source>(input: &mut S, into: &mut [u8]) -> Result<usize, Fault>
    requires { length into.old ≡ LIMIT + 1 }
    ensures { TakesText (source_view S.Source) result into.new
        input.old input.new }
{
    match take_at_least(input, into.len(), into) {
        Filled::Short(count) => Ok(count),
        Filled::Enough(_) => Err(Fault::Length {
            needed: MAX_GEOMETRY_TEXT as u64,
            took: MAX_GEOMETRY_TEXT as u64 + 1,
        }),
        Filled::Failed => Err(Fault::Input),
    }
}

/// The line for an array that was made.
fn created_line(alloc: Global, geometry: &Geometry) -> Result<String, AllocError>
    ensures { IfOk result (λ line. string_bytes line ≡ line_of_created geometry.now) }
{
    let id = hex::encode(alloc, geometry.id())?;
    format!(in alloc; "created {id} blocks {}\n", geometry.blocks())
}
