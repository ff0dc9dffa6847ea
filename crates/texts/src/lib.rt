//! Short texts: numbers, dates, times and names read, foreign texts cleaned, and texts kept in
//! place.
//!
//! Each call answers what `text_defs` says of its bytes, and none but those that append or keep a
//! text takes memory. `ShortText` is seen by contracts as its list of bytes; ids, names and cells
//! of timetables and the texts of messages are such texts.
//!
//! It stands on `text_defs` and on `copying`, and on the crate `smallvec`.
#![tactic(auto)]

mod cleaned;
mod dates;
mod moments;
mod names;
mod numbers;
mod short_text;
mod times;

pub use cleaned::push_cleaned;
pub use dates::{
    Parts, date_plus, day_after, day_number, is_valid_date, parts_of, read_date, weekday,
};
pub use moments::{is_instant, is_stamp};
pub use names::is_name;
pub use numbers::read_number;
pub use short_text::ShortText;
pub use std::alloc::AllocError as NoMemory;
pub use times::read_time;

/// The last moment that there is: the last second of the year 9999, in seconds since 1970.
pub const LAST_MOMENT: u64 = 253_402_300_799;
