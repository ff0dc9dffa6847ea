//! The one history of a running hub, as far as each of its holders knows it.
//!
//! What a hub accepts goes into one list that only grows, and of which no thread keeps the items: a
//! [`Line`] is a token that knows a beginning of it, and how long that is. What the layer above may
//! rely on:
//! - a line's history is legal, and of two lines of one history the shorter begins the longer;
//! - [`Line::learn`] makes a line the longer of two, [`Line::finish`] that of an ended history;
//! - there is one [`Author`] of a history, made by [`Author::open`]: its line is the whole history,
//!   [`Author::extend`] adds to it, and [`Author::shows`] tells that what another line knows begins
//!   it;
//! - nothing stands behind an end.
//!
//! Items are named in contracts alone; at run time a line is two counts. The crate stands on
//! `feed_defs` for what is accepted, and on the crate `logbook` for a log that tokens share.
#![tactic(auto)]

mod author;
mod item;
mod law;
mod line;
mod steps;

pub use author::Author;
pub use item::LogItem;
pub use law::{Law, Naming};
pub use line::Line;
