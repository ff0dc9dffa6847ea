//! A hub that ingesters and readers share, each on a thread of its own.
//!
//! [`open_hub`] gives the hub, a [`FeedSeat`] for each feed and a pass for each reader. An ingester
//! has a seat and calls [`ingest`] with the bytes of each message; a reader has a pass, and looks
//! without waiting for anybody. What the layer above may rely on:
//! - a message is refused with the first cause that applies, judged against the stamp of its own
//!   feed's last message, and then the seat is as it was; or its receipt knows a history that ends
//!   with it, begins with that of the seat's last receipt, and has no other message of the feed
//!   more;
//! - reading and judging a message happen before the lock is taken;
//! - a pass that learns the receipt shows the message at its next look that answers;
//! - [`close_hub`] ends the history, which then begins with that of each seat's receipt, and has as
//!   many messages of each feed as its seat accepted.
//!
//! Under one lock (the crate `keyed_lock`) lie the newest view, the publisher of the views and the
//! desk of the permits (`specs/Kept`); the lock's key says which hub it is. The crate stands on
//! `hub_core` for the judgement, `hub_state` for the next view, `snapshot_cell` for what is
//! published, and `feed_permits` for what a seat knows at its next lock.
#![tactic(auto)]

mod closing;
mod feeding;
mod hub;
mod ingesting;
mod locked;
mod opened;
mod opening;
mod publishing;
mod report;
mod seat;
mod tag;

pub use closing::close_hub;
pub use feeding::{ingest_all, ingest_port};
pub use hub::Hub;
pub use hub_core::Refusal;
pub use ingesting::ingest;
pub use opened::Opened;
pub use opening::open_hub;
pub use report::{IngestReport, PortEnd, PortReport};
pub use seat::FeedSeat;
pub use std::alloc::AllocError as NoMemory;
