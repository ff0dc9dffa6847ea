//! What trip updates are about.

ghost use Rattle.std.specs.Prelude.{◌≡◌};
ghost use Rattle.std.specs.FinMap.{find};
ghost use Rattle.board_defs.specs.Choice.{stamp_or};
ghost use Rattle.trip_match_defs.specs.Matching.{match_of};
ghost use Rattle.run_overlay.specs.Keys.{id_cmp};
ghost use Rattle.run_overlay.specs.Updates as rule;

use entity_table::{Stored, Table};
use rt_types::TripUpdate;
use sched_types::{Plan, Run};
use texts::is_stamp;
use trip_match::{Found, find_near};

/// A run that a trip update is about, and the stamp of the update, in seconds since 1970.
#[derive(Clone, Copy, Debug, PartialEq, Eq)]
pub(crate) struct Mention {
    pub(crate) run: Run,
    pub(crate) stamp: u64,
}

/// What the trip update of an entity is about.
#[derive(Clone, Copy, Debug, PartialEq, Eq)]
pub(crate) enum About {
    /// A run of the timetable.
    Run(Mention),
    /// A trip that was added to the timetable (TripDescriptor, ADDED).
    Added,
    /// Nothing that is known; or there is no update.
    Nothing,
}

/// An update's own stamp, where it is a moment, else its message's, in seconds since 1970 (GTFS
/// Realtime 2.0, TripUpdate, `timestamp`).
pub fn stamp_of(message: u64, own: Option<u64>) -> u64
    ensures { result ≡ stamp_or message own }
{
    match own {
        Some(own) if is_stamp(own) => own,
        _ => message,
    }
}

/// What an update is about, of a message with that stamp. Its trip is looked for near the given one
/// first.
fn about_update(plan: &Plan, message: u64, update: &TripUpdate, near: Option<u32>) -> About
    ensures { let stamp = stamp_or message update.now.timestamp in result
        ≡ rule.about_found stamp (match_of plan.now update.now.trip stamp) }
{
    let stamp = stamp_of(message, update.timestamp);
    match find_near(plan, &update.trip, stamp, near) {
        Found::Run(run) => About::Run(Mention { run, stamp }),
        Found::Added => About::Added,
        Found::NoMatch(_) => About::Nothing,
    }
}

/// What the trip update of an entity is about, if it has one. Its trip is looked for near the given
/// one first.
pub(crate) fn about_stored(plan: &Plan, stored: &Stored, near: Option<u32>) -> About
    ensures { result ≡ rule.about_stored plan.now stored.now }
{
    match &stored.entity.trip_update {
        Some(update) => about_update(plan, stored.stamp, update.get(), near),
        None => About::Nothing,
    }
}

/// The same of what a table holds under an id.
pub(crate) fn about_held(plan: &Plan, table: &Table, id: &str) -> About
    ensures { result ≡ rule.about_held plan.now (find id_cmp id.now table.now) }
{
    match table.get(id) {
        Some(stored) => about_stored(plan, stored, None),
        None => About::Nothing,
    }
}

/// The run with the stamp, where it is about a run.
pub(crate) fn mention_in(about: About) -> Option<Mention>
    ensures { result ≡ rule.mention_in about }
{
    match about {
        About::Run(mention) => Some(mention),
        About::Added | About::Nothing => None,
    }
}
