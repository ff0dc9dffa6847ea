//! What the copies hold.

use board_parts::HubView;
use hub_history::Line;
use sched_types::Plans;
use std::alloc::Global;
use std::sync::Arc;

/// A view, with the history that it stands for.
#[derive(Drop)]
pub struct Shown {
    /// The view.
    pub view: Arc<HubView, Global>,
    /// The history.
    pub line: Line,
}

/// The same as the two copies have it in common. No value of it is made.
pub struct Face {
    /// The view.
    pub view: HubView,
    /// The history.
    pub line: Line,
}

/// What a reader or the writer of the copies knows. No value of it is made.
pub struct View {
    /// How many looks it made.
    pub reads: u64,
    /// Whether it knows which hub it is at, as all but newcomers do.
    pub knows: bool,
    /// The timetables and feeds of the hub.
    pub plans: Plans,
    /// A beginning of the hub's history.
    pub line: Line,
}
