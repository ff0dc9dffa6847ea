//! Why there is no configuration.

ghost use Rattle.std.specs.Prelude.{◌≡◌};

use rt_types::Text;
use std::alloc::{AllocError, AllocFailed};
use thiserror::Error;

/// A kind of table in a configuration.
#[derive(Clone, Copy, Debug, PartialEq, Eq)]
pub enum TableName {
    /// The document itself.
    Top,
    /// A table of the array `schedule`.
    Schedule,
    /// A table of the array `feed`.
    Feed,
}

/// What is wrong with a key.
#[derive(Clone, Copy, Debug, PartialEq, Eq)]
pub enum ConfWhy {
    /// No such table has the key.
    Unknown,
    /// It is required and absent.
    Missing,
    /// Its value is of another type or out of range.
    Bad,
    /// A row of the same kind before this one has the name.
    Twice,
    /// There is no schedule of that name.
    NoName,
}

/// Why bytes give no configuration.
#[derive(Debug, Drop, Error)]
pub enum ConfFault {
    /// The bytes are no TOML document.
    #[error("no TOML document")]
    Toml,
    /// The first fault of the tables: the row, from 1 among the tables of its kind and 0 for the
    /// document itself, and the key as it is written.
    #[error("the key {} of row {row} is wrong", key.as_str())]
    Bad {
        table: TableName,
        row: u32,
        key: Text,
        why: ConfWhy,
    },
    /// Memory ran out.
    #[error("out of memory")]
    NoMemory,
}

impl From<AllocError> for ConfFault {
    ghost use Rattle.hub_config_defs.specs.declared.fault.ConfFault.TheVariants.{NoMemory};

    ghost from_gives = { λ _ fault. fault ≡ NoMemory };

    fn from(_: AllocError) -> Self {
        ConfFault::NoMemory
    }
}

impl<T: Drop> From<AllocFailed<T>> for ConfFault {
    ghost use Rattle.hub_config_defs.specs.declared.fault.ConfFault.TheVariants.{NoMemory};

    ghost from_gives = { λ _ fault. fault ≡ NoMemory };

    fn from(_: AllocFailed<T>) -> Self {
        ConfFault::NoMemory
    }
}
