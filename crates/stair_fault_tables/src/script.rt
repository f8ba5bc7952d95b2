// A script of ten lines, and what the blocks hold after some of them.
use crate::contents::{Fillings, with_block};
use stair_calls::{FILLINGS, with_digits};
use std::alloc::{AllocError, Global};

#[derive(Clone, Copy)]
enum Line {
    Write(u8, u8),
    Read(u8),
}

/// What the first line fills block 0 with.
pub(crate) const FIRST_WRITTEN: u8 = 0xA1;

const LINES: [Line; 10] = [
    Line::Write(0, FIRST_WRITTEN),
    Line::Write(14, 0xA2),
    Line::Read(0),
    Line::Write(0, 0xA3),
    Line::Read(14),
    Line::Write(7, 0xA4),
    Line::Write(14, 0xA5),
    Line::Read(7),
    Line::Write(0, 0xA6),
    Line::Read(0),
];

const DIGITS: &[u8; 16] = b"0123456789abcdef";

// The two digits of a byte.
fn digits_of(byte: u8) -> [u8; 2] {
    [
        DIGITS[usize::from(byte / 16)],
        DIGITS[usize::from(byte % 16)],
    ]
}

impl Line {
    fn text(self, alloc: Global) -> Result<Vec<u8>, AllocError> {
        match self {
            Line::Write(block, filling) => {
                let text = format!(in alloc; "write {block} @\n")?;
                with_digits(alloc, &text, digits_of(filling))
            }
            Line::Read(block) => {
                let text = format!(in alloc; "read {block}\n")?;
                with_digits(alloc, &text, [0; 2])
            }
        }
    }

    // What is put out for it, where the blocks hold this.
    fn reply(self, alloc: Global, fillings: &Fillings) -> Result<Vec<u8>, AllocError> {
        match self {
            Line::Write(block, _) => {
                let text = format!(in alloc; "wrote {block}\n")?;
                with_digits(alloc, &text, [0; 2])
            }
            Line::Read(block) => {
                let filling = fillings.get(usize::from(block)).copied().unwrap_or(0);
                let text = format!(in alloc; "{block} @\n")?;
                with_digits(alloc, &text, digits_of(filling))
            }
        }
    }

    // What the blocks hold after it.
    fn after(self, fillings: &Fillings) -> Fillings {
        match self {
            Line::Write(block, filling) => with_block(fillings, usize::from(block), filling),
            Line::Read(_) => *fillings,
        }
    }
}

/// The text of the script.
pub(crate) fn script(alloc: Global) -> Result<Vec<u8>, AllocError> {
    let mut text = Vec::new(alloc);
    for line in LINES {
        text.extend_from_slice(&line.text(alloc)?)?;
    }
    Ok(text)
}

/// Adds what the blocks may hold once this was put out: what they hold after the lines that have a reply, or after one line more.
/// Adds none if it isn't the replies of some first lines.
pub(crate) fn contents_after(
    alloc: Global,
    put: &[u8],
    contents: &mut Vec<Fillings>,
) -> Result<(), AllocError> {
    let mut fillings = FILLINGS;
    let mut rest = put;
    for line in LINES {
        let reply = line.reply(alloc, &fillings)?;
        let after = line.after(&fillings);
        match rest.strip_prefix(reply.as_slice()) {
            Some(further) => {
                rest = further;
                fillings = after;
            }
            None if rest.is_empty() => {
                contents.push(fillings)?;
                contents.push(after)?;
                return Ok(());
            }
            None => return Ok(()),
        }
    }
    if rest.is_empty() {
        contents.push(fillings)?;
    }
    Ok(())
}

/// What is put out for the whole script.
pub(crate) fn all_replies(alloc: Global) -> Result<Vec<u8>, AllocError> {
    let mut fillings = FILLINGS;
    let mut replies = Vec::new(alloc);
    for line in LINES {
        replies.extend_from_slice(&line.reply(alloc, &fillings)?)?;
        fillings = line.after(&fillings);
    }
    Ok(replies)
}

/// What the blocks hold after the whole script.
pub(crate) fn all_contents() -> Fillings {
    let mut fillings = FILLINGS;
    for line in LINES {
        fillings = line.after(&fillings);
    }
    fillings
}

/// The reply to the last line.
pub(crate) fn last_reply(alloc: Global) -> Result<Vec<u8>, AllocError> {
    LINES[LINES.len() - 1].reply(alloc, &all_contents())
}
