// Words and bytes as scenes write them.
use crate::fault::{Fault, said};
use crate::numbers::read_number;
use std::alloc::{AllocError, Global};

/// A word of a line: a text in quotes and what follows its end, or the letters between blanks.
#[derive(Drop)]
pub(crate) struct Part {
    pub(crate) text: String,
    is_quoted: bool,
    /// what follows the end of the quotes
    pub(crate) suffix: String,
}

// Where the parts of a line are read.
#[derive(Clone, Copy, PartialEq, Eq)]
enum Place {
    Between,
    Plain,
    Quoted,
    // after a backslash
    Escaped,
    Suffix,
}

/// The parts of a line.
pub(crate) fn parts_of(alloc: Global, line: &str) -> Result<Vec<Part>, Fault> {
    let mut parts: Vec<Part> = Vec::new(alloc);
    let mut place = Place::Between;
    for letter in line.chars() {
        if place == Place::Between && letter != ' ' {
            parts.push(Part {
                text: String::new(alloc),
                is_quoted: letter == '"',
                suffix: String::new(alloc),
            })?;
        }
        if let Some(part) = parts.last_mut() {
            place = step(place, letter, part)?;
        }
    }
    if place == Place::Quoted || place == Place::Escaped {
        return said(format!(in alloc; "a quote isn't closed"));
    }
    Ok(parts)
}

// Reads a letter of a part, and returns the place of the next one.
fn step(place: Place, letter: char, part: &mut Part) -> Result<Place, AllocError> {
    Ok(match (place, letter) {
        (Place::Between | Place::Plain | Place::Suffix, ' ') => Place::Between,
        (Place::Between, '"') => Place::Quoted,
        (Place::Between | Place::Plain, _) => {
            part.text.push(letter)?;
            Place::Plain
        }
        (Place::Quoted, '\\') => Place::Escaped,
        (Place::Quoted, '"') => Place::Suffix,
        (Place::Quoted, _) => {
            part.text.push(letter)?;
            Place::Quoted
        }
        (Place::Escaped, 'n') => {
            part.text.push('\n')?;
            Place::Quoted
        }
        (Place::Escaped, 't') => {
            part.text.push('\t')?;
            Place::Quoted
        }
        (Place::Escaped, _) => {
            part.text.push(letter)?;
            Place::Quoted
        }
        (Place::Suffix, _) => {
            part.suffix.push(letter)?;
            Place::Suffix
        }
    })
}

// The greatest number of bytes of a line.
const MOST: usize = 2_000_000;

/// The bytes that a line names.
pub(crate) fn read_bytes(alloc: Global, line: &str) -> Result<Vec<u8>, Fault> {
    let mut bytes = Vec::new(alloc);
    for part in parts_of(alloc, line)? {
        if !push_part(alloc, &part, &mut bytes)? {
            return said(format!(in alloc; "no bytes: {}{}", part.text, part.suffix));
        }
    }
    Ok(bytes)
}

// Adds the bytes of a part; false where it names none, or there are too many.
fn push_part(alloc: Global, part: &Part, bytes: &mut Vec<u8>) -> Result<bool, AllocError> {
    if part.is_quoted {
        return match times_of(part.suffix.as_str()) {
            Some(times) => push_times(part.text.as_bytes(), times, bytes),
            None => Ok(false),
        };
    }
    let (text, times) = part
        .text
        .as_str()
        .split_once('*')
        .unwrap_or((part.text.as_str(), "1"));
    let Some(times) = read_number(times) else {
        return Ok(false);
    };
    if let Some(digits) = text.strip_prefix('x') {
        let mut unit = Vec::new(alloc);
        return Ok(push_hex(digits, &mut unit)? && push_times(&unit, times, bytes)?);
    }
    match text.strip_prefix('b') {
        Some(range) => push_blocks(range, times, bytes),
        None => Ok(false),
    }
}

// How often a text is repeated that is followed by `*N`, or by nothing.
fn times_of(suffix: &str) -> Option<u64> {
    if suffix.is_empty() {
        Some(1)
    } else {
        read_number(suffix.strip_prefix('*')?)
    }
}

fn push_times(unit: &[u8], times: u64, bytes: &mut Vec<u8>) -> Result<bool, AllocError> {
    for _ in 0..times {
        if bytes.len() > MOST {
            return Ok(false);
        }
        bytes.extend_from_slice(unit)?;
    }
    Ok(true)
}

// Adds the bytes of hexadecimal digits.
fn push_hex(digits: &str, bytes: &mut Vec<u8>) -> Result<bool, AllocError> {
    let mut high = None;
    for digit in digits.chars() {
        let Some(value) = digit.to_digit(16) else {
            return Ok(false);
        };
        let value = value as u8 & 15;
        high = match high {
            None => Some(value),
            Some(high) => {
                bytes.push(high << 4 | value)?;
                None
            }
        };
    }
    Ok(high.is_none())
}

// Adds a block of this byte, so many times, or those from one byte to another.
fn push_blocks(range: &str, times: u64, bytes: &mut Vec<u8>) -> Result<bool, AllocError> {
    let (first, last) = range.split_once("..").unwrap_or((range, range));
    let (Some(first), Some(last)) = (read_number(first), read_number(last)) else {
        return Ok(false);
    };
    if last > 255 {
        return Ok(false);
    }
    for filling in first..last.saturating_add(1) {
        if !push_times(&[filling as u8; 512], times, bytes)? {
            return Ok(false);
        }
    }
    Ok(true)
}
