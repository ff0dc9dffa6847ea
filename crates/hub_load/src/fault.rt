//! Why there are no timetables.
ghost use Rattle.std.specs.Prelude.{◌≡◌};

use std::alloc::{AllocError, AllocFailed};
use thiserror::Error;

/// Why the configuration or its timetables could not be loaded.
#[derive(Debug, Drop, Error)]
pub enum HubFault {
    /// The configuration or a timetable is refused: the line that tells why, with its LF.
    #[error("the configuration or a timetable is refused")]
    Refused(Vec<u8>),
    /// A file could not be read.
    #[error("a file could not be read")]
    FileFault,
    /// Memory ran out. This may come in place of any answer.
    #[error("out of memory")]
    NoMemory,
}

impl From<AllocError> for HubFault {
    ghost use Rattle.hub_load.specs.declared.fault.HubFault.TheVariants.{NoMemory};

    ghost from_gives = { λ _ fault. fault ≡ NoMemory };

    fn from(_: AllocError) -> Self {
        HubFault::NoMemory
    }
}

impl<T: Drop> From<AllocFailed<T>> for HubFault {
    ghost use Rattle.hub_load.specs.declared.fault.HubFault.TheVariants.{NoMemory};

    ghost from_gives = { λ _ fault. fault ≡ NoMemory };

    fn from(_: AllocFailed<T>) -> Self {
        HubFault::NoMemory
    }
}
