ghost use Rattle.std.specs.Prelude.{◌≡◌, ◌+◌, ◌<◌, ◌≤◌, ◌++◌, length, IfErr};
ghost use Rattle.stair_command.specs.Outside.{sink_view};
ghost use Rattle.stair_command.specs.Rack.{rack_view};
ghost use Rattle.stair_engine.specs.Show.{
  array_line as line_of_array,
  array_text,
  epoch_line as line_of_epoch,
  frozen_line as line_of_frozen,
  geometry_line as line_of_geometry,
  label_line as line_of_label,
  reason_text,
  seat_text,
  show_text,
  slot_line as line_of_slot,
  spaced,
};
ghost use Rattle.stair_engine.specs.ShowSteps.{Shows};
ghost use Rattle.stair_command.specs.Streams.{PutsAll};
ghost use Rattle.stair_watch.specs.declared.line.TheConstants.{MAX_OUTPUT_LINE};

use stair_base::Geometry;
use stair_command::{Fault, Status, put_all};
use stair_member::{Member, Why, survey};
use stair_rack::{Rack, Sink};
use stair_status::identity_digits;
use stair_super::{Label, Mark};
use stair_watch::Line;

/// Looks for the array of the rack, and puts out what it is and what its slots are.
pub(crate) fn show<R: Rack, K: Sink>(rack: &mut R, output: &mut K) -> Result<Status, Fault>
    ensures { Shows (rack_view R.Rack) (sink_view K.Sink)
        result rack.old rack.new output.old output.new }
{
    let member = survey(rack)?;
    put_member(output, &member)?;
    Ok(Status::Done)
}

fn put_member<K: Sink>(output: &mut K, member: &Member) -> Result<(), Fault>
    ensures puts { PutsAll (sink_view K.Sink) result (show_text member.now)
        output.old output.new }
    ensures failed { IfErr result (λ fault. fault ≡ Fault.Output) }
{
    put_array(output, member)?;
    for slot in 0..member.geometry().n() {
        put_all(output, slot_line(member, slot).bytes())?;
    }
    Ok(())
}

// What the epoch names of the array.
fn put_array<K: Sink>(output: &mut K, member: &Member) -> Result<(), Fault>
    ensures puts { PutsAll (sink_view K.Sink) result (array_text member.now)
        output.old output.new }
    ensures failed { IfErr result (λ fault. fault ≡ Fault.Output) }
{
    let geometry = member.geometry();
    put_all(output, array_line(&geometry).bytes())?;
    put_all(output, geometry_line(&geometry).bytes())?;
    put_all(output, epoch_line(member.epoch()).bytes())?;
    put_all(output, label_line(&member.label()).bytes())?;
    put_all(output, frozen_line(member.frozen()).bytes())
}

fn array_line(geometry: &Geometry) -> Line
    ensures { result ≡ line_of_array geometry.now }
{
    let mut line = Line::new();
    line.push(b"array ");
    line.push(&identity_digits(geometry.id()));
    line.push(b"\n");
    line
}

fn geometry_line(geometry: &Geometry) -> Line
    ensures { result ≡ line_of_geometry geometry.now }
{
    let mut line = Line::new();
    line.push_named(b"geometry n ", u64::from(geometry.n()));
    line.push_named(b" m ", u64::from(geometry.m()));
    line.push_named(b" r ", u64::from(geometry.r()));
    line.push(b" e");
    push_coverage(&mut line, geometry);
    line.push_named(b" stripes ", u64::from(geometry.stripes()));
    line.push_named(b" blocks ", geometry.blocks());
    line.push(b"\n");
    line
}

// The entries, of which there are at most 31.
fn push_coverage(line: &mut Line, geometry: &Geometry)
    requires { length line.old + 651 ≤ MAX_OUTPUT_LINE }
    ensures text { line.new ≡ line.old ++ spaced geometry.now.e }
    ensures short { length line.new ≤ length line.old + 651 }
{
    for l in 0..geometry.classes() {
        line.push_named(b" ", u64::from(geometry.coverage(l)));
    }
}

fn epoch_line(epoch: u64) -> Line
    ensures { result ≡ line_of_epoch epoch }
{
    let mut line = Line::new();
    line.push_named(b"epoch ", epoch);
    line.push(b"\n");
    line
}

// Nothing where there is no label.
fn label_line(label: &Label) -> Line
    ensures { result ≡ line_of_label label.now }
{
    let mut line = Line::new();
    let text = label.bytes();
    if text.is_empty() {
        return line;
    }
    line.push(b"label ");
    line.push(text);
    line.push(b"\n");
    line
}

// Nothing where it isn't frozen.
fn frozen_line(frozen: bool) -> Line
    ensures { result ≡ line_of_frozen frozen }
{
    let mut line = Line::new();
    if frozen {
        line.push(b"frozen\n");
    }
    line
}

fn slot_line(member: &Member, slot: u8) -> Line
    requires { slot < 32 }
    ensures { result ≡ line_of_slot member.now slot }
{
    let mark = member.marks()[usize::from(slot)];
    let joined = member.joins()[usize::from(slot)];
    let mut line = Line::new();
    line.push_named(b"slot ", u64::from(slot));
    push_seat(&mut line, mark, joined);
    push_reason(&mut line, mark, member.why(slot));
    line.push(b"\n");
    line
}

fn push_seat(line: &mut Line, mark: Mark, joined: u64)
    requires { length line.old + 32 ≤ MAX_OUTPUT_LINE }
    ensures text { line.new ≡ line.old ++ seat_text mark joined }
    ensures short { length line.new ≤ length line.old + 32 }
{
    match mark {
        Mark::Live => line.push_named(b" live ", joined),
        Mark::Rebuilding => line.push_named(b" rebuilding ", joined),
        Mark::Down => line.push(b" down"),
    }
}

// The reason, where it isn't the one that the mark tells.
fn push_reason(line: &mut Line, mark: Mark, why: Why)
    requires { length line.old + 14 ≤ MAX_OUTPUT_LINE }
    ensures text { line.new ≡ line.old ++ reason_text mark why }
    ensures short { length line.new ≤ length line.old + 14 }
{
    match (mark, why) {
        (Mark::Live, Why::Here) | (Mark::Rebuilding, Why::Rebuilding) | (Mark::Down, _) => {}
        _ => {
            line.push(b" ");
            line.push(why.words().as_bytes());
        }
    }
}
