//! The rows of the files of a timetable, to be looked up by their ids.
//!
//! A row says which file it is of, and how that file is read (`FileRow`); a row with an id of its
//! own says which one (`IdRow`). `order_of` finds the places of a file's rows by rising ids, or the
//! first row that refers to nothing or has the id of an earlier one, by a `Judge` that knows the
//! rows of other files. A `Table` holds rows with these places, and finds them by id.
//!
//! A contract sees a table as its rows, and a fault of `order_of` as the one that `sched_load_defs`
//! (`specs/References.antt`, `consistent`) tells; where memory runs out it says so
//! (`specs/Alone.antt`). The crate stands on `sched_load_defs`, `gtfs_rows` and `sched_types`.
#![tactic(auto)]

mod id_order;
mod judges;
mod rows;
mod table;

pub use id_order::{order_of, row_number};
pub use judges::{Judge, KnownAgencies, KnownRoutes, NoReference};
pub use rows::{FileRow, IdRow};
pub use table::Table;
