ghost use Rattle.std.specs.Prelude.{◌≡◌, ◌↔◌, ◌++◌, ◌<◌, Some, codes, length};
ghost use Rattle.stair_script.specs.Line.{SpellsLine};
ghost use Rattle.stair_script.specs.declared.line.Line.{Line};

use crate::Line;
use hex::FromHex;
use stair_base::SECTOR;
use stair_conf::read_number;
use std::str;

/// Reads a line of a script, without its end: `read B`, `write B HEX`, `scrub S`, `replace K`, `rebuild N`, or nothing.
///
/// Words are divided by exactly one space, and there is no other blank. A number is decimal digits with no sign and no
/// leading zero, below 2^64. HEX is 1,024 hexadecimal digits in either case. All other lines are None. It takes no memory.
pub fn read_line(line: &[u8]) -> Option<Line>
    ensures { (said : Line) → (result ≡ Some said) ↔ SpellsLine line.now said }
{
    if line.is_empty() {
        return Some(Line::Blank);
    }
    read_command(str::from_utf8(line).ok()?)
}

// Reads a line that has a command.
fn read_command(line: &str) -> Option<Line>
    requires { 0 < length line.now }
    ensures { (said : Line) → (result ≡ Some said) ↔ SpellsLine line.now said }
{
    let (command, values) = line.split_once(' ')?;
    match command {
        "read" => read_number(values).map(Line::Read),
        "write" => read_write(values),
        "scrub" => read_number(values).map(Line::Scrub),
        "replace" => read_number(values).map(Line::Replace),
        "rebuild" => read_number(values).map(Line::Rebuild),
        _ => None,
    }
}

// Reads what stands after the word `write`: the number of a block, and its bytes.
fn read_write(values: &str) -> Option<Line>
    ensures { (said : Line) → (result ≡ Some said)
        ↔ SpellsLine (codes "write " ++ values.now) said }
{
    let (block, digits) = values.split_once(' ')?;
    Some(Line::Write(read_number(block)?, <[u8; SECTOR]>::from_hex(digits).ok()?))
}
