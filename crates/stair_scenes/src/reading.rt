// Arguments of lines.
ghost use Rattle.std.specs.Prelude.{◌≡◌, ◌<◌, IfOk, Some};

use crate::fault::Fault;
use crate::numbers::{read_number, read_slot, read_u32};
use crate::parts::read_bytes;
use crate::stage::Shape;
use stair_memrack::What;
use stair_rack::EventKind;
use std::alloc::{AllocError, Global};

/// The fault of a text that isn't in the grammar.
pub(crate) fn unknown(alloc: Global, text: &str) -> Fault {
    match format!(in alloc; "not understood: {text}") {
        Ok(text) => Fault::Said(text),
        Err(_) => Fault::OutOfMemory,
    }
}

/// What was read of this text, if it was.
pub(crate) fn known<T: Drop>(alloc: Global, value: Option<T>, text: &str) -> Result<T, Fault>
    ensures { IfOk result (λ known. value ≡ Some known) }
{
    match value {
        Some(value) => Ok(value),
        None => Err(unknown(alloc, text)),
    }
}

/// Reads `N M R E.. stripes S [filled]`: the shape, the text of which the array is made, and whether it is to be filled.
pub(crate) fn read_array(
    alloc: Global,
    rest: &str,
) -> Result<Option<(Shape, String, bool)>, AllocError> {
    let Some((front, back)) = rest.split_once(" stripes ") else {
        return Ok(None);
    };
    let (stripes, is_filled) = match back.strip_suffix(" filled") {
        Some(stripes) => (stripes, true),
        None => (back, false),
    };
    let mut numbers: Vec<u8> = Vec::new(alloc);
    for word in front.split_whitespace() {
        match read_number(word).and_then(|number| u8::try_from(number).ok()) {
            Some(number) => numbers.push(number)?,
            None => return Ok(None),
        }
    }
    let (Some(stripes), [n, m, r, e @ ..]) = (read_u32(stripes), numbers.as_slice()) else {
        return Ok(None);
    };
    let mut globals = String::new(alloc);
    let mut sum = 0u64;
    for count in e {
        if sum > 0 {
            globals.push_str(", ")?;
        }
        globals.push_str(format!(in alloc; "{count}")?.as_str())?;
        sum = sum.saturating_add(u64::from(*count));
    }
    let data = u64::from(n.saturating_sub(*m)).saturating_mul(u64::from(*r));
    let mut shape = Shape {
        n: *n,
        r: *r,
        blocks: data.saturating_sub(sum).saturating_mul(u64::from(stripes)),
        sectors: 0,
    };
    shape.sectors = shape.sector_of(stripes, 0);
    let text = format!(in alloc;
        "n = {n}\nm = {m}\nr = {r}\ne = [{globals}]\nstripes = {stripes}\nid = '000000000000000000000000000000{n:02x}'\n"
    )?;
    Ok(Some((shape, text, is_filled)))
}

// The number of picks of a list that is repeated.
const PICKS: usize = 1000;

/// Reads the picks of a crash.
pub(crate) fn read_picks(alloc: Global, rest: &str) -> Result<Option<Vec<u32>>, AllocError> {
    let mut picks = Vec::new(alloc);
    let (list, is_repeated) = match rest.strip_suffix("..") {
        Some(list) => (list, true),
        None => (rest, false),
    };
    for word in list.split_whitespace() {
        match read_u32(word) {
            Some(pick) => picks.push(pick)?,
            None => return Ok(None),
        }
    }
    if is_repeated {
        for at in 0..PICKS {
            match picks.get(at).copied() {
                Some(pick) => picks.push(pick)?,
                None => break,
            }
        }
    }
    Ok(Some(picks))
}

/// Reads a slot, a sector and a place in it, and the bytes after them.
pub(crate) fn read_place(alloc: Global, rest: &str) -> Result<((u8, u32, usize), Vec<u8>), Fault>
    ensures { IfOk result (λ found. found.0.0 < 32) }
{
    let mut words = rest.splitn(4, ' ');
    let slot = known(alloc, read_slot(words.next().unwrap_or("")), rest)?;
    let sector = known(alloc, read_u32(words.next().unwrap_or("")), rest)?;
    let at = known(alloc, read_number(words.next().unwrap_or("")), rest)?;
    let bytes = read_bytes(alloc, words.next().unwrap_or(""))?;
    Ok(((slot, sector, at as usize), bytes))
}

/// Reads an act that touches one slot, or stops the rack. A new medium has so many sectors where nothing else is said.
pub(crate) fn read_act(word: &str, rest: &str, sectors: u32) -> Option<What> {
    if word == "stop" {
        return if rest.is_empty() {
            Some(What::Stop)
        } else {
            None
        };
    }
    let (slot, number) = match rest.split_once(' ') {
        Some((slot, number)) => (slot, Some(read_u32(number)?)),
        None => (rest, None),
    };
    let slot = read_slot(slot)?;
    match (word, number) {
        ("pull", None) => Some(What::Pull { slot }),
        ("lose", None) => Some(What::PullLosing { slot }),
        ("blank", _) => Some(What::InsertBlank {
            slot,
            sectors: number.unwrap_or(sectors),
        }),
        ("back", _) => Some(What::InsertOld {
            slot,
            index: number.unwrap_or(0),
        }),
        ("damage", Some(sector)) => Some(What::Damage { slot, sector }),
        _ => None,
    }
}

/// Reads the kind of an event.
pub(crate) fn read_kind(word: &str) -> Option<EventKind> {
    match word {
        "fenced" => Some(EventKind::Fenced),
        "repaired" => Some(EventKind::Repaired),
        "admitted" => Some(EventKind::Admitted),
        "promoted" => Some(EventKind::Promoted),
        _ => None,
    }
}

/// The arguments of a call, and its input if it has one.
pub(crate) fn read_input(alloc: Global, rest: &str) -> Result<(&str, Option<Vec<u8>>), Fault> {
    if let Some((words, bytes)) = rest.split_once(" < ") {
        return Ok((words, Some(read_bytes(alloc, bytes)?)));
    }
    match rest.strip_suffix(" <") {
        Some(words) => Ok((words, Some(Vec::new(alloc)))),
        None => Ok((rest, None)),
    }
}
