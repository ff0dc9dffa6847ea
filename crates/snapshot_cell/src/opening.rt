//! What opening gives.

use crate::pass::Pass;
use crate::publisher::Publisher;

/// A publisher that published nothing, and passes that know nothing.
pub struct Snapshots {
    /// The publisher.
    pub publisher: Publisher,
    /// The passes.
    pub passes: Vec<Pass>,
}
