//! What stands in the log of a hub.

use feed_defs::Entry;

/// An item of the log. No value of it is made: contracts alone see it.
pub enum LogItem {
    /// A message was accepted.
    Accepted(Entry),
    /// The hub was closed.
    Ended,
}
