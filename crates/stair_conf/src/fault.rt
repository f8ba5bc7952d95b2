ghost use Rattle.std.specs.Prelude.{◌≡◌, ◌≢◌};
ghost use Rattle.clap.specs.Words.{kind_of};
ghost use Rattle.clap.specs.declared.error.kind.ErrorKind.TheVariants.{OutOfMemory};
ghost use Rattle.stair_conf.specs.declared.fault.ConfigFault.TheVariants as config;
ghost use Rattle.stair_conf.specs.declared.fault.WordsFault.TheVariants.{Memory, Usage};
ghost use Rattle.toml.specs.Errors.{IsMemory};

use crate::Key;
use clap::Error;
use clap::error::ErrorKind;
use stair_base::GeometryFault;
use std::alloc::{AllocError, AllocFailed};

/// Why the words were not read.
#[derive(Clone, Copy, Debug, PartialEq, Eq)]
pub enum WordsFault {
    /// They spell no job.
    Usage,
    /// There was no memory to read them.
    Memory,
}

impl From<AllocError> for WordsFault {
    ghost from_gives = { λ _ fault. fault ≡ Memory };

    fn from(_error: AllocError) -> WordsFault {
        WordsFault::Memory
    }
}

impl<T: Drop> From<AllocFailed<T>> for WordsFault {
    ghost from_gives = { λ _ fault. fault ≡ Memory };

    fn from(_failed: AllocFailed<T>) -> WordsFault {
        WordsFault::Memory
    }
}

// A parse that was refused for another reason than memory was refused for its words.
impl From<Error> for WordsFault {
    ghost from_gives = { λ error fault. (kind_of error ≡ OutOfMemory → fault ≡ Memory)
        × (kind_of error ≢ OutOfMemory → fault ≡ Usage) };

    fn from(error: Error) -> WordsFault {
        match error.kind() {
            ErrorKind::OutOfMemory => WordsFault::Memory,
            _ => WordsFault::Usage,
        }
    }
}

/// Why a geometry text was not read.
#[derive(Clone, Copy, Debug, PartialEq, Eq)]
pub enum ConfigFault {
    /// It isn't TOML: no UTF-8, or refused by toml, also for a whole number that doesn't fit 64 bits with a sign.
    NotToml,
    /// The first key, in the order of [`Key`], that is missing or has another kind of value: a negative number is one, and so is
    /// an identity that isn't 32 hexadecimal digits.
    Key(Key),
    /// The number of the first limit that is broken, 1 to 8: see [`stair_base::Geometry::new`].
    Limit(u8),
    /// There was no memory to read it.
    Memory,
}

impl From<AllocError> for ConfigFault {
    ghost from_gives = { λ _ fault. fault ≡ config.Memory };

    fn from(_error: AllocError) -> ConfigFault {
        ConfigFault::Memory
    }
}

impl<T: Drop> From<AllocFailed<T>> for ConfigFault {
    ghost from_gives = { λ _ fault. fault ≡ config.Memory };

    fn from(_failed: AllocFailed<T>) -> ConfigFault {
        ConfigFault::Memory
    }
}

// A text that was refused for another reason than memory isn't TOML.
impl From<toml::de::Error> for ConfigFault {
    ghost from_gives = { λ error fault.
        (IsMemory error → fault ≡ config.Memory) × (¬ IsMemory error → fault ≡ config.NotToml) };

    fn from(error: toml::de::Error) -> ConfigFault {
        if error.is_memory() {
            ConfigFault::Memory
        } else {
            ConfigFault::NotToml
        }
    }
}

impl From<GeometryFault> for ConfigFault {
    ghost from_gives = { λ broken fault. fault ≡ config.Limit broken.limit };

    fn from(broken: GeometryFault) -> ConfigFault {
        ConfigFault::Limit(broken.limit)
    }
}
