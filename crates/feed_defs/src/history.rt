//! What a hub keeps.

use rt_types::{Entity, FeedMessage};

/// The most bytes that a message may have.
pub const LONGEST_MESSAGE: usize = 16_777_216;

/// An accepted message, with the number of the feed that sent it.
#[derive(Drop)]
pub struct Entry {
    /// Feeds are numbered from 0.
    pub feed: u32,
    /// What the feed sent.
    pub message: FeedMessage,
}

/// An entity that a feed holds, with the time of the message that brought it.
#[derive(Drop)]
pub struct Stored {
    /// The entity, whole.
    pub entity: Entity,
    /// When that message was made, in seconds since 1970.
    pub stamp: u64,
}
