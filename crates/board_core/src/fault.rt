//! Why a board has no rows.

ghost use Rattle.std.specs.Prelude.{◌≡◌};

use std::alloc::{AllocError, AllocFailed};
use thiserror::Error;

/// Why there are no rows.
#[derive(Clone, Copy, PartialEq, Eq, Debug, Error)]
pub enum RowsFault {
    /// No row of stops.txt has the asked stop_id.
    #[error("there is no such stop")]
    NoStop,
    /// No memory was to be had. This may come in place of any answer.
    #[error("out of memory")]
    NoMemory,
}

impl From<AllocError> for RowsFault {
    ghost use Rattle.board_core.specs.declared.fault.RowsFault.TheVariants.{NoMemory};

    ghost from_gives = { λ _ fault. fault ≡ NoMemory };

    fn from(_: AllocError) -> Self {
        RowsFault::NoMemory
    }
}

impl<T: Drop> From<AllocFailed<T>> for RowsFault {
    ghost use Rattle.board_core.specs.declared.fault.RowsFault.TheVariants.{NoMemory};

    ghost from_gives = { λ _ fault. fault ≡ NoMemory };

    fn from(_: AllocFailed<T>) -> Self {
        RowsFault::NoMemory
    }
}
