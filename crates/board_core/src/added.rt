//! The updates of added trips.

ghost use Rattle.std.specs.Prelude.{◌≡◌, ◌++◌, filter, map, IfOk, OnOk};
ghost use Rattle.std.specs.List.{filter_map, All};
ghost use Rattle.std.specs.Option.{option_to_list};
ghost use Rattle.board_defs.specs.Choice.{is_added_update, update_at};
ghost use Rattle.board_defs.specs.Feeds.{held_by, held_in};
ghost use Rattle.feed_view.specs.Kept.{IsOver};
ghost use Rattle.board_core.specs.FeedsOfSchedule.{hub_feed_of};

use crate::NoMemory;
use crate::feeds::ScheduleFeed;
use board_parts::{HeldEntity, Update};
use sched_types::Plan;
use std::alloc::Global;

/// Appends the trip update of an entity, if it has one that counts at that moment.
fn push_update<'a>(
    at: u64,
    held: &HeldEntity<'a>,
    updates: &mut Vec<Update<'a>>,
) -> Result<(), NoMemory>
    ensures { OnOk result (updates.new.items
        ≡ updates.old.items ++ option_to_list (update_at at held.entry.now)) }
{
    if let Some(update) = Update::at(held, at) {
        updates.push(update)?;
    }
    Ok(())
}

/// Appends the updates of added trips in a feed that count at that moment, by the ids of their
/// entities. The feed's overlay must be kept for the timetable.
fn push_added<'a>(
    plan: &Plan,
    at: u64,
    one: &ScheduleFeed<'a>,
    updates: &mut Vec<Update<'a>>,
) -> Result<(), NoMemory>
    requires { IsOver plan.now one.now.view.now }
    ensures { OnOk result (updates.new.items
        ≡ updates.old.items
        ++ filter (is_added_update plan.now)
        (filter_map (update_at at) (held_by (hub_feed_of one.entry.now)))) }
{
    // It tells that each entity is held once, under its own id.
    let _all = one.view.table().iter();
    for stored in one.view.overlay().added() {
        let held = HeldEntity::new(one.number, one.feed, stored.get());
        push_update(at, &held, updates)?;
    }
    Ok(())
}

/// The updates of added trips in the feeds of a schedule that count at a moment, in seconds since
/// 1970, by feed and then by the id of their entity (GTFS Realtime, TripDescriptor, `ADDED`); or
/// out of memory. The overlays of the feeds must be kept for the timetable.
pub(crate) fn added_updates<'a>(
    alloc: Global,
    plan: &Plan,
    at: u64,
    feeds: &[ScheduleFeed<'a>],
) -> Result<Vec<Update<'a>>, NoMemory>
    requires over { All (λ one. IsOver plan.now one.view.now) feeds.now }
    ensures { IfOk result (λ updates. updates.items
        ≡ filter (is_added_update plan.now)
        (filter_map (update_at at) (held_in (map hub_feed_of feeds.entry.now)))) }
{
    let mut updates = Vec::new(alloc);
    for one in feeds {
        push_added(plan, at, one, &mut updates)?;
    }
    Ok(updates)
}
