ghost use Rattle.std.specs.Prelude.{◌≡◌, ◌↔◌, ◌++◌, ◌<◌, ℕ, Some, codes};
ghost use Rattle.std.specs.Int.{IsInRange};
ghost use Rattle.stair_conf.specs.Words.{IsNumber};
ghost use Rattle.stair_rack.specs.declared.watcher.Event.{Event};
ghost use Rattle.stair_script.specs.Events.{SpellsEvent};

use stair_conf::read_number;
use stair_rack::Event;
use std::str;

/// Returns the event that a line spells, or `None` if it spells none. The line comes without its end.
///
/// The lines are `fenced J`, `repaired stripe S cells K`, `admitted J` and `promoted J`. Exactly one space divides two
/// words, and there is no other blank. A number is decimal, with no sign and no leading zero. J is a slot, below 32; S
/// is a stripe, at most 4,294,967,294; K is a number of cells, 1 to 1,024. It allocates no memory.
pub fn read_event(line: &[u8]) -> Option<Event>
    ensures { (said : Event) → (result ≡ Some said) ↔ SpellsEvent line.now said }
{
    read_text(str::from_utf8(line).ok()?)
}

// Reads a line that is a text.
fn read_text(line: &str) -> Option<Event>
    ensures { (said : Event) → (result ≡ Some said) ↔ SpellsEvent line.now said }
{
    let (word, values) = line.split_once(' ')?;
    match word {
        "fenced" => Some(Event::Fenced {
            slot: read_slot(values)?,
        }),
        "repaired" => read_repaired(values),
        "admitted" => Some(Event::Admitted {
            slot: read_slot(values)?,
        }),
        "promoted" => Some(Event::Promoted {
            slot: read_slot(values)?,
        }),
        _ => None,
    }
}

// Reads the text after the word `repaired`: the numbers of the stripe and of the cells.
fn read_repaired(values: &str) -> Option<Event>
    ensures { (said : Event) → (result ≡ Some said)
        ↔ SpellsEvent (codes "repaired " ++ values.now) said }
{
    let (stripe, cells) = values.strip_prefix("stripe ")?.split_once(' ')?;
    Some(Event::Repaired {
        stripe: read_within(stripe, 0, 4_294_967_294)? as u32,
        cells: read_within(cells.strip_prefix("cells ")?, 1, 1_024)? as u16,
    })
}

// Reads the number of a slot.
fn read_slot(word: &str) -> Option<u8>
    ensures { (n : ℕ) → (result ≡ Some n) ↔ IsNumber word.now n × (n < 32) }
{
    Some(read_within(word, 0, 31)? as u8)
}

// Reads a number within bounds.
fn read_within(word: &str, least: u64, greatest: u64) -> Option<u64>
    ensures { (n : ℕ) → (result ≡ Some n) ↔ IsNumber word.now n × IsInRange least greatest n }
{
    let number = read_number(word)?;
    if least <= number && number <= greatest {
        Some(number)
    } else {
        None
    }
}
