// Counts the events that lines spell.
ghost use Rattle.std.specs.Prelude.{◌≡◌, ◌+◌, ◌<◌, ◌≤◌, ◌++◌, ℕ, IfErr, IfOk, List, [], ◌∷◌, length};
ghost use Rattle.stair_rack.specs.declared.watcher.Event.{Event};
ghost use Rattle.stair_script.specs.Events.{IsEvent};
ghost use Rattle.stair_command.specs.Executes.{Executes};
ghost use Rattle.stair_command.specs.Outside.{outside, source_view, views};
ghost use Rattle.stair_command.specs.Program.{Over};
ghost use Rattle.stair_command.specs.Texts.{TakesByte};
ghost use Rattle.stair_monitor.specs.Reports.{counts_line, report_program, report_text, slot_line, status_of};
ghost use Rattle.stair_monitor.specs.Seen.{CountsOf, FailsByte, IsEventOf, IsFew, ReadsText, SeesLast, Tells};

use crate::printing::MAX_EVENT_LINE;
use crate::reading::read_event;
use stair_command::{Filled, Status, take_at_least};
use stair_rack::{Counts, Event, Sink, Source};
use stair_script::SCRIPT_LIMIT;
use stair_watch::{Line, put_until_fault};

/// Why no report was written, or only a part of one.
#[derive(Clone, Copy, Debug, PartialEq, Eq)]
pub enum ReportFault {
    /// The text has more bytes than a script may have. One byte more than that was taken.
    Input { needed: u64, took: u64 },
    /// The source failed.
    InputFault,
    /// The sink failed. A part of the report may have been written.
    OutputFault,
    /// This line, counted from 1, spells no event, or is too long.
    BadLine(u64),
}

/// Counts the events of a text and writes a report: one line for all kinds, then one for each slot that was fenced, in
/// ascending order.
///
/// Each line of the text spells an event ([`read_event`]) and ends with a newline, which the last line may lack. A text
/// has at most as many bytes as a script. It is read byte by byte, and nothing is written before its end was read. It
/// allocates no memory.
pub fn report<S: Source, K: Sink>(input: &mut S, output: &mut K) -> Result<(), ReportFault>
    ensures { (counter : ℕ) → Executes (views S.Source K.Sink)
        report_program (Over (status_of result))
        (outside input.old output.old counter) (outside input.new output.new counter) }
{
    let seen = take_events(input)?;
    let text = seen.text();
    if put_until_fault(output, text.bytes()) < text.bytes().len() {
        return Err(ReportFault::OutputFault);
    }
    Ok(())
}

impl From<ReportFault> for Status {
    ghost use Rattle.std.specs.Prelude.{◌≡◌};
    ghost use Rattle.stair_monitor.specs.Reports.{status_of_report};

    ghost from_gives = { λ fault status. status ≡ status_of_report fault };

    fn from(fault: ReportFault) -> Status {
        match fault {
            ReportFault::Input { needed, took } => Status::Input { needed, took },
            ReportFault::InputFault => Status::InputFault,
            ReportFault::OutputFault => Status::OutputFault,
            ReportFault::BadLine(number) => Status::BadLine(number),
        }
    }
}

/// The number of events of each kind, and how often each slot was fenced.
#[derive(Clone, Copy)]
struct Seen {
    counts: Counts,
    fences: [u32; 32],
}

impl Seen {
    fn none() -> Seen
        ensures { Tells [] result }
    {
        Seen {
            counts: Counts {
                fenced: 0,
                repaired: 0,
                admitted: 0,
                promoted: 0,
            },
            fences: [0; 32],
        }
    }

    fn add(&mut self, event: Event)
        requires slot { IsEvent event }
        requires few { IsFew self.old }
        ensures { (events : List Event) → Tells events self.old → Tells (event ∷ events) self.new }
    {
        match event {
            Event::Fenced { slot } => {
                self.counts.fenced += 1;
                self.fences[usize::from(slot)] += 1;
            }
            Event::Repaired { .. } => self.counts.repaired += 1,
            Event::Admitted { .. } => self.counts.admitted += 1,
            Event::Promoted { .. } => self.counts.promoted += 1,
        }
    }

    // Returns the report of these counts.
    fn text(&self) -> Line
        ensures { (events : List Event) → Tells events self.now → result ≡ report_text events }
    {
        let mut text = line_of(self.counts);
        for slot in 0..32u8 {
            push_slot(&mut text, slot, self.fences[usize::from(slot)]);
        }
        text
    }
}

// Returns the line of the counts.
fn line_of(counts: Counts) -> Line
    ensures text { (events : List Event) → CountsOf events counts → result ≡ counts_line events }
    ensures short { length result ≤ 126 }
{
    let mut text = Line::new();
    text.push_named(b"events: fenced ", counts.fenced);
    text.push_named(b" repaired ", counts.repaired);
    text.push_named(b" admitted ", counts.admitted);
    text.push_named(b" promoted ", counts.promoted);
    text.push(b"\n");
    text
}

// Appends the line of a slot with its number of fences, at most 26 bytes. A slot that was never fenced has none.
fn push_slot(text: &mut Line, slot: u8, fences: u32)
    requires slot { slot < 32 }
    requires room { length text.old + 35 ≤ 1100 }
    ensures text { text.new ≡ text.old ++ slot_line slot fences }
    ensures short { length text.new ≤ length text.old + 26 }
{
    if fences > 0 {
        text.push_named(b"slot ", u64::from(slot));
        text.push_named(b" fenced ", u64::from(fences));
        text.push(b"\n");
    }
}

// Takes the whole text, and counts its events.
fn take_events<S: Source>(input: &mut S) -> Result<Seen, ReportFault>
    ensures { ReadsText (source_view S.Source) result input.old input.new }
{
    let mut seen = Seen::none();
    let mut line = Line::new();
    let mut number = 1;
    for _ in 0..SCRIPT_LIMIT {
        let Some(byte) = next_byte(input)? else {
            return take_last(seen, line.bytes(), number);
        };
        if byte == b'\n' {
            seen.add(event_of(line.bytes(), number)?);
            line.clear();
            number += 1;
        } else if line.bytes().len() < MAX_EVENT_LINE {
            line.push(&[byte]);
        } else {
            return Err(ReportFault::BadLine(number));
        }
    }
    if let Some(_) = next_byte(input)? {
        return Err(ReportFault::Input {
            needed: SCRIPT_LIMIT,
            took: SCRIPT_LIMIT + 1,
        });
    }
    take_last(seen, line.bytes(), number)
}

// Counts the text after the last end of a line. It is a line only if it is not empty.
fn take_last(mut seen: Seen, line: &[u8], number: u64) -> Result<Seen, ReportFault>
    requires { IsFew seen }
    ensures { (events : List Event) → Tells events seen → SeesLast number line.now events result }
{
    if !line.is_empty() {
        seen.add(event_of(line, number)?);
    }
    Ok(seen)
}

// Returns the event that a line spells, or `BadLine` with its number.
fn event_of(line: &[u8], number: u64) -> Result<Event, ReportFault>
    ensures { IsEventOf number line.now result }
{
    read_event(line).ok_or(ReportFault::BadLine(number))
}

// Takes the next byte of the input, unless that has ended.
fn next_byte<S: Source>(input: &mut S) -> Result<Option<u8>, ReportFault>
    ensures taken { IfOk result (λ byte. TakesByte (source_view S.Source)
        byte input.old input.new) }
    ensures failed { IfErr result (λ why. FailsByte (source_view S.Source)
        why input.old input.new) }
{
    let mut piece = [0];
    match take_at_least(input, 1, &mut piece) {
        Filled::Enough(_) => Ok(Some(piece[0])),
        Filled::Short(_) => Ok(None),
        Filled::Failed => Err(ReportFault::InputFault),
    }
}
