// Calls of `stair`, and what is wanted of them.
use crate::fault::{Fault, said};
use crate::stage::Stage;
use stair_calls::{Ends, call_watched};
use stair_engine::Status;
use stair_memrack::MemRack;
use stair_monitor::Quota;
use stair_rack::{Event, EventKind, MemSink, Watcher};
use stair_watch::{Kept, Tally, add};
use std::alloc::{AllocError, Global};

/// A call of `stair`: its command line, its input, how its streams behave, and its other watchers.
#[derive(Drop)]
pub(crate) struct Call {
    pub(crate) words: Vec<String>,
    pub(crate) input: Option<Vec<u8>>,
    pub(crate) ends: Ends,
    /// at which event a tally leaves
    pub(crate) tally: Option<u64>,
    /// at which event of a kind a quota leaves
    pub(crate) quota: Option<(EventKind, u64)>,
}

/// No fault, and all at once.
pub(crate) const WHOLE: Ends = Ends {
    piece: 1_000_000,
    fails_at: None,
    room: 1_000_000,
};

/// The result of a call.
#[derive(Drop)]
pub(crate) struct Came {
    pub(crate) status: Status,
    pub(crate) put: Vec<u8>,
    pub(crate) told: Vec<Event>,
    pub(crate) taken: usize,
    pub(crate) calls: u32,
    pub(crate) reads: u64,
    pub(crate) watchers: usize,
}

// What is offered to a call that is to take nothing.
const OFFERED: &[u8] = b"left";

// How many events are kept.
const EVENTS: usize = 1000;

impl Call {
    /// Makes the call.
    pub(crate) fn make(&self, alloc: Global, stage: &mut Stage) -> Result<Came, Fault> {
        let kept = stage.shape.calls();
        stage.due = None;
        let rack = stage.ready(alloc)?;
        let came = self.make_on(alloc, rack)?;
        if rack.made() >= kept {
            return said(format!(in alloc; "a rack keeps {kept} calls: `crash` gives a new one"));
        }
        Ok(came)
    }

    fn make_on(&self, alloc: Global, rack: &mut MemRack) -> Result<Came, AllocError> {
        let (made, reads) = (rack.made(), rack.reads());
        let input = match &self.input {
            Some(bytes) => bytes.as_slice(),
            None => OFFERED,
        };
        let mut watchers: Vec<Box<dyn Watcher>> = Vec::new(alloc);
        add(&mut watchers, Box::new(alloc, Kept::new(alloc, EVENTS)?)?)?;
        if let Some(limit) = self.tally {
            add(&mut watchers, Box::new(alloc, Tally::new(limit.max(1)))?)?;
        }
        if let Some((kind, limit)) = self.quota {
            let quota = Quota::new(kind, limit.max(1), MemSink::new(alloc, 1000)?);
            add(&mut watchers, Box::new(alloc, quota)?)?;
        }
        let mut sink = MemSink::new(alloc, self.ends.room)?;
        let (status, left) = call_watched(
            alloc,
            rack,
            &self.words,
            input,
            self.ends,
            &mut sink,
            &mut watchers,
        )?;
        Ok(Came {
            status,
            put: sink.bytes().to_vec(alloc)?,
            told: told_to(alloc, &watchers)?,
            taken: input.len().saturating_sub(left),
            calls: rack.made().saturating_sub(made),
            reads: rack.reads().saturating_sub(reads),
            watchers: watchers.len(),
        })
    }
}

// The events that the first watcher kept.
fn told_to(alloc: Global, watchers: &Vec<Box<dyn Watcher>>) -> Result<Vec<Event>, AllocError> {
    let mut events = Vec::new(alloc);
    if let Some(kept) = watchers.first() {
        for at in 0..EVENTS {
            match kept.kept(at as u64) {
                Some(event) => events.push(event)?,
                None => break,
            }
        }
    }
    Ok(events)
}

/// What is wanted of a call, as far as it is known before the next line that is no want.
#[derive(Drop)]
pub(crate) struct Wanted {
    pub(crate) has_status: bool,
    /// whether any result is as good
    pub(crate) is_any: bool,
    pub(crate) put: Vec<u8>,
    /// other outputs that are as good
    pub(crate) others: Vec<Vec<u8>>,
    pub(crate) told: Vec<Event>,
    pub(crate) taken: Option<u64>,
}

impl Wanted {
    /// Nothing is put out or reported.
    pub(crate) fn nothing(alloc: Global) -> Wanted {
        Wanted {
            has_status: false,
            is_any: false,
            put: Vec::new(alloc),
            others: Vec::new(alloc),
            told: Vec::new(alloc),
            taken: None,
        }
    }

    /// Compares the result of a call with what was wanted.
    pub(crate) fn judge(&self, alloc: Global, call: &Call, came: &Came) -> Result<(), Fault> {
        if self.is_any {
            return Ok(());
        }
        if !self.has_status {
            return said(format!(in alloc;
                "no status is wanted; it is {}: {}",
                came.status.code(),
                came.status
            ));
        }
        if came.put != self.put && !self.others.iter().any(|other| *other == came.put) {
            return said(differs(alloc, &self.put, &came.put));
        }
        if came.told != self.told {
            return said(format!(in alloc;
                "wanted the events {:?}, and it told {:?}",
                self.told, came.told
            ));
        }
        let offered = match &call.input {
            Some(input) => input.len() as u64,
            None => 0,
        };
        let taken = self.taken.unwrap_or(offered);
        if came.taken as u64 != taken {
            return said(format!(in alloc;
                "wanted it to take {taken} bytes, and it took {}",
                came.taken
            ));
        }
        Ok(())
    }
}

/// How an output differs from the one that was wanted.
pub(crate) fn differs(alloc: Global, wanted: &[u8], put: &[u8]) -> Result<String, AllocError> {
    let at = wanted
        .iter()
        .zip(put.iter())
        .position(|(left, right)| left != right)
        .unwrap_or(wanted.len().min(put.len()));
    let mut text = format!(in alloc;
        "wanted {} bytes, and it put out {}; they differ from byte {at} on:",
        wanted.len(),
        put.len()
    )?;
    text.push_str(" wanted ")?;
    push_excerpt(&mut text, wanted, at)?;
    text.push_str(", put out ")?;
    push_excerpt(&mut text, put, at)?;
    Ok(text)
}

// How many bytes are shown.
const SHOWN: usize = 40;

// Adds some bytes, from this one on, as text where they are printable, and else as digits.
fn push_excerpt(text: &mut String, bytes: &[u8], at: usize) -> Result<(), AllocError> {
    for byte in bytes.iter().skip(at).take(SHOWN) {
        if byte.is_ascii_graphic() || *byte == b' ' {
            text.push(char::from(*byte))?;
        } else {
            text.push_str("\\x")?;
            for digit in [*byte >> 4, *byte & 15] {
                text.push(char::from_digit(u32::from(digit), 16).unwrap_or('?'))?;
            }
        }
    }
    Ok(())
}
