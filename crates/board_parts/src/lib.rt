//! What boards and lists are made of: the view of a hub and where readers get the newest, the walk
//! over its feeds and what they hold, trip updates as they count, and what every row needs.
//!
//! A `HubView` has the hub's timetables and the view of each of its feeds. It never changes:
//! `with_feed` gives the view with one message more, which shares all other feeds with it, and the
//! `Indexes`: the departures of each timetable by their stops (`stop_index`), made once. A contract
//! sees a view as `HubKept` of `board_defs`. An `Oracle` is where readers get the newest view: its
//! meanings are the history that was published, the timetables, and how often it was looked at.
//! `StandsFor` of `board_defs` says what history a view stands for. `feeds_of` and `entities_of` go
//! over the feeds of a schedule, and over what they hold, by feed and then by id; each list of the
//! hub is made by one of these walks. `Update` is a trip update, with the order in which updates
//! count. What else rows need is handed on from `board_base` and `run_overlay`: which stops and
//! instants a board asks for, what counts at a moment and by which stamp, and how routes and stops
//! are named.
//!
//! It stands on `feed_view` for what is kept of a feed, on `alert_select` for the alerts in it, on
//! `stop_index`, and on the definitions of `board_defs`.
#![tactic(auto)]

mod entities;
mod feeds;
mod indexes;
mod oracle;
mod updates;
mod view;

pub use board_base::{
    counts_at, is_asked, is_within, route_name, route_named, stop_id, stop_named, text_of,
};
pub use entities::{HeldEntities, HeldEntity};
pub use feeds::{HubFeed, HubFeeds, ScheduleFeeds};
pub use indexes::Indexes;
pub use oracle::Oracle;
pub use run_overlay::stamp_of;
pub use std::alloc::AllocError as NoMemory;
pub use updates::Update;
pub use view::HubView;
