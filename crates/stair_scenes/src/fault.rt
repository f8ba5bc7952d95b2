use std::alloc::{AllocError, AllocFailed, Global};

/// Why a scene stops.
#[derive(Drop)]
pub(crate) enum Fault {
    /// A line isn't in the grammar, or a want fails: this is said of it.
    Said(String),
    /// Out of memory.
    OutOfMemory,
}

impl From<AllocError> for Fault {
    fn from(_: AllocError) -> Fault {
        Fault::OutOfMemory
    }
}

impl<T: Drop> From<AllocFailed<T>> for Fault {
    fn from(_: AllocFailed<T>) -> Fault {
        Fault::OutOfMemory
    }
}

/// The fault of which this is said.
pub(crate) fn said<T>(text: Result<String, AllocError>) -> Result<T, Fault> {
    Err(Fault::Said(text?))
}

/// The fault, with these values before what is said of it.
pub(crate) fn with_values(alloc: Global, fault: Fault, values: &str) -> Fault {
    match fault {
        Fault::Said(text) => match format!(in alloc; "{values}{text}") {
            Ok(text) => Fault::Said(text),
            Err(_) => Fault::OutOfMemory,
        },
        Fault::OutOfMemory => Fault::OutOfMemory,
    }
}
