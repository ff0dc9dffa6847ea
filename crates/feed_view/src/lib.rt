//! What is kept of one feed: what it says, when it last spoke, and how many messages it sent.
//!
//! A contract sees a `FeedView` as `FeedSeen` (`specs/Kept`): what the feed says, which is all that
//! boards and lists are defined by, and what its updates come to on its timetable. `FeedView::next`
//! makes the view after one message more, and leaves the old one as it was, so that readers may go
//! on with it; the two share what the message doesn't touch. Its clauses have a count of the walks
//! over runs: at most two for each entity of the message. `FeedView::after` is the same for who
//! doesn't count them. `FeedView::build` makes the view of a table at once, on several threads, and
//! `FeedView::after_whole` that after a whole data set.
//!
//! Next to the table of all that the feed holds it keeps the feed's alerts, so that a reader of
//! alerts need not go over the whole table, and the overlay of its updates, so that a board need
//! not match and walk them all. All three go on with a differential message entity by entity, so
//! that none costs such a walk either. A whole data set makes them anew.
//!
//! It stands on `entity_table`, whose table holds the entities, on `alert_select` for the alerts
//! among them, on `run_overlay` for its updates, and on the definitions of `board_defs`.
#![tactic(auto)]

mod view;

pub use std::alloc::AllocError as NoMemory;
pub use view::{FeedView, is_whole};
