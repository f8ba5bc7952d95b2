// The geometry of a new array is known only from its geometry text, since its superblocks are written last.
use crate::limits::{GivenNumbers, numbers_in};
use stair_base::Geometry;
use stair_conf::{ConfigFault, read_config};
use stair_rack::{Source, Taken};
use std::alloc::Global;
use std::cell::Cell;

/// The part of a geometry text that was taken, and cells for what the whole says.
#[derive(Drop)]
pub(crate) struct HeardText<'a> {
    alloc: Global,
    text: Vec<u8>,
    // Whether there was memory for all of it.
    whole: bool,
    geometry: &'a Cell<Option<Geometry>>,
    given: &'a Cell<Option<GivenNumbers>>,
}

impl<'a> HeardText<'a> {
    /// Returns the state before anything is taken. Once the text has ended, one cell holds its geometry, or the other one holds the
    /// numbers of a text that breaks a limit.
    pub(crate) fn new(
        alloc: Global,
        geometry: &'a Cell<Option<Geometry>>,
        given: &'a Cell<Option<GivenNumbers>>,
    ) -> HeardText<'a> {
        HeardText {
            alloc,
            text: Vec::new(alloc),
            whole: true,
            geometry,
            given,
        }
    }

    fn keep(&mut self, piece: &[u8]) {
        if self.text.extend_from_slice(piece).is_err() {
            self.whole = false;
        }
    }

    fn learn(&self) {
        if !self.whole {
            return;
        }
        match read_config(self.alloc, self.text.as_slice()) {
            Ok(geometry) => self.geometry.set(Some(geometry)),
            Err(ConfigFault::Limit(_)) => {
                self.given.set(numbers_in(self.alloc, self.text.as_slice()));
            }
            Err(_) => {}
        }
    }
}

/// A source that gives what its inner one does and counts the bytes, and may listen for a geometry text.
#[derive(Drop)]
pub(crate) struct GeometryTap<'a, S: Source> {
    source: S,
    taken: &'a Cell<u64>,
    heard: Option<HeardText<'a>>,
}

impl<'a, S: Source + Drop> GeometryTap<'a, S> {
    /// A source that doesn't listen.
    pub(crate) fn deaf(source: S, taken: &'a Cell<u64>) -> GeometryTap<'a, S> {
        GeometryTap {
            source,
            taken,
            heard: None,
        }
    }

    /// A source of a geometry text.
    pub(crate) fn new(source: S, taken: &'a Cell<u64>, heard: HeardText<'a>) -> GeometryTap<'a, S> {
        GeometryTap {
            source,
            taken,
            heard: Some(heard),
        }
    }
}

impl<S: Source + Drop> Source for GeometryTap<'_, S> {
    ghost left = { λ s. S.left s.source };

    ghost faults = { λ s. S.faults s.source };

    ghost ended = { λ s. S.ended s.source };

    fn take(&mut self, into: &mut [u8]) -> Taken {
        let taken = self.source.take(into);
        if let Taken::Bytes(count) = taken {
            self.taken
                .set(self.taken.get().saturating_add(count as u64));
        }
        if let Some(heard) = &mut self.heard {
            match taken {
                Taken::Bytes(count) => heard.keep(&into[..count]),
                Taken::End => heard.learn(),
                Taken::Failed => {}
            }
        }
        taken
    }
}
