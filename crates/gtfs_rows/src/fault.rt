//! Why a timetable file is refused.

ghost use Rattle.std.specs.Prelude.{◌≡◌};

use crate::column::Column;
use std::alloc::{AllocError, AllocFailed};
use thiserror::Error;

/// The first fault of a file.
///
/// A row is a number of records: the header is row 1, and the first row of data is row 2.
#[derive(Clone, Copy, PartialEq, Eq, Debug, Error)]
pub enum RowFault {
    /// The header lacks this column, which a file may not do without.
    #[error("column {0} is missing")]
    MissingColumn(Column),
    /// The field in this column isn't of the column's form, or is out of its range.
    #[error("row {row} has a bad value in column {column}")]
    BadValue {
        /// The row's number.
        row: u32,
        /// The column of the field.
        column: Column,
    },
    /// The field in this column isn't UTF-8.
    #[error("row {row} has no text in column {column}")]
    NotText {
        /// The row's number.
        row: u32,
        /// The column of the field.
        column: Column,
    },
    /// There are more than 4,000,000 rows of data, and those have no fault.
    #[error("the file has too many rows")]
    TooMany,
    /// No memory was to be had. This may come in place of any answer.
    #[error("out of memory")]
    NoMemory,
}

impl From<AllocError> for RowFault {
    ghost use Rattle.gtfs_rows.specs.declared.fault.RowFault.TheVariants.{NoMemory};

    ghost from_gives = { λ _ fault. fault ≡ NoMemory };

    fn from(_: AllocError) -> Self {
        RowFault::NoMemory
    }
}

impl<T: Drop> From<AllocFailed<T>> for RowFault {
    ghost use Rattle.gtfs_rows.specs.declared.fault.RowFault.TheVariants.{NoMemory};

    ghost from_gives = { λ _ fault. fault ≡ NoMemory };

    fn from(_: AllocFailed<T>) -> Self {
        RowFault::NoMemory
    }
}
