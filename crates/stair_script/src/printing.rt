ghost use Rattle.std.specs.Prelude.{◌≡◌, IfOk, string_bytes};
ghost use Rattle.stair_script.specs.Line.{IsLine, SpellsLine, printed};

use crate::Line;
use stair_base::SECTOR;
use std::alloc::{AllocError, Global};

/// Prints a line of a script, without an end: one space between words, and hexadecimal digits in lower case. `Blank` is
/// printed as no bytes.
///
/// Lack of memory is the only error.
pub fn print_line(alloc: Global, line: &Line) -> Result<Vec<u8>, AllocError>
    ensures text { IfOk result (λ bytes. bytes.items ≡ printed line.now) }
    ensures spells { IfOk result (λ bytes. SpellsLine bytes.items line.now) }
{
    Ok(text_of(alloc, *line)?.into_bytes())
}

// The text of a line.
fn text_of(alloc: Global, line: Line) -> Result<String, AllocError>
    ensures text { IfOk result (λ text. string_bytes text ≡ printed line) }
    ensures numbers { IsLine line }
{
    match line {
        Line::Blank => Ok(String::new(alloc)),
        Line::Read(block) => format!(in alloc; "read {block}"),
        Line::Write(block, contents) => write_text(alloc, block, &contents),
        Line::Scrub(stripe) => format!(in alloc; "scrub {stripe}"),
        Line::Replace(slot) => format!(in alloc; "replace {slot}"),
        Line::Rebuild(steps) => format!(in alloc; "rebuild {steps}"),
    }
}

// The text of a write.
fn write_text(alloc: Global, block: u64, contents: &[u8; SECTOR]) -> Result<String, AllocError>
    ensures text { IfOk result (λ text. string_bytes text ≡ printed (Line.Write block contents.now)) }
    ensures numbers { IsLine (Line.Write block contents.now) }
{
    let digits = hex::encode(alloc, contents.as_slice())?;
    format!(in alloc; "write {block} {digits}")
}
