//! What opening gives.

use crate::hub::Hub;
use crate::seat::FeedSeat;
use snapshot_cell::Pass;

/// A hub that accepted nothing, with a seat for each feed in their order, and a pass for each
/// reader.
pub struct Opened {
    /// The hub.
    pub hub: Hub,
    /// The seats.
    pub seats: Vec<FeedSeat>,
    /// The passes.
    pub passes: Vec<Pass>,
}
