//! Why trips can't be derived.

ghost use Rattle.std.specs.Prelude.{◌≡◌};

use std::alloc::{AllocError, AllocFailed};
use thiserror::Error;

/// The first fault of the rows of frequencies.txt, row by row, and within a row in this order.
#[derive(Clone, Copy, PartialEq, Eq, Debug, Error)]
pub enum DeriveFault {
    /// The derived trips have more than 4,000,000 places.
    #[error("the derived trips have too many places")]
    TooMany,
    /// A trip of the row has an id that is taken, or that an earlier derived trip has.
    #[error("a trip of row {row} is there already")]
    Duplicate {
        /// The row's number: the header is row 1.
        row: u32,
    },
    /// No memory was to be had. This may come in place of any answer.
    #[error("out of memory")]
    NoMemory,
}

impl From<AllocError> for DeriveFault {
    ghost use Rattle.freq_runs.specs.declared.fault.DeriveFault.TheVariants.{NoMemory};

    ghost from_gives = { λ _ fault. fault ≡ NoMemory };

    fn from(_: AllocError) -> Self {
        DeriveFault::NoMemory
    }
}

impl<T: Drop> From<AllocFailed<T>> for DeriveFault {
    ghost use Rattle.freq_runs.specs.declared.fault.DeriveFault.TheVariants.{NoMemory};

    ghost from_gives = { λ _ fault. fault ≡ NoMemory };

    fn from(_: AllocFailed<T>) -> Self {
        DeriveFault::NoMemory
    }
}
