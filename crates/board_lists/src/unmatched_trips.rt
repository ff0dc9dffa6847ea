//! The trip updates and vehicles whose trip is no run of the timetable.

ghost use Rattle.std.specs.Prelude.{◌≡◌, ◌<◌, ◌++◌, List, length, IfOk, OnOk};
ghost use Rattle.std.specs.List.{flat_map};
ghost use Rattle.feed_defs.specs.declared.history.Entry.{Entry};
ghost use Rattle.board_defs.specs.Fold.{fold_of};
ghost use Rattle.board_defs.specs.Views.{StandsFor, folds_of};
ghost use Rattle.alert_defs.specs.Unmatched as rule;

use crate::NoMemory;
use alert_defs::Unmatched;
use board_parts::{HeldEntities, HeldEntity, HubView, stamp_of};
use rt_types::{Copied, TripRef};
use sched_types::Plan;
use std::alloc::Global;
use trip_match::find;
use trip_match_defs::Found;

/// The trip updates and vehicles, in the feeds of the schedule of that number, whose trip is no run
/// of its timetable and no added trip, and why, by feed and then by id, a trip update before its
/// vehicle; or want of memory. A trip is taken as it is meant at its own stamp, where that is a
/// moment, else at its message's.
pub fn unmatched(alloc: Global, view: &HubView, plan: u32) -> Result<Vec<Unmatched>, NoMemory>
    requires { plan < length view.now.plans.plans }
    ensures listed { IfOk result (λ all. all.items
        ≡ rule.unmatched view.now.plans (folds_of view.now) plan) }
    ensures stands { (h : List Entry) → StandsFor h view.now → IfOk result (λ all. all.items
        ≡ rule.unmatched view.now.plans (fold_of (length view.now.plans.feeds) h) plan) }
{
    unmatched_in(alloc, view.timetable(plan), view.entities_of(plan))
}

/// Those of some entities.
fn unmatched_in(
    alloc: Global,
    plan: &Plan,
    entities: HeldEntities<'_>,
) -> Result<Vec<Unmatched>, NoMemory>
    ensures { IfOk result
        (λ all. all.items ≡ flat_map (rule.unmatched_in plan.now) entities.entry) }
{
    let mut all = Vec::new(alloc);
    for held in entities {
        push_update(plan, &held, &mut all)?;
        push_vehicle(plan, &held, &mut all)?;
    }
    Ok(all)
}

/// Appends the entity's trip update, where it is about no run.
fn push_update(plan: &Plan, held: &HeldEntity<'_>, out: &mut Vec<Unmatched>) -> Result<(), NoMemory>
    ensures { OnOk result (out.new.items ≡ out.old.items
        ++ rule.unmatched_update plan.now held.now held.now.stored.entity.trip_update) }
{
    let stored = held.stored();
    match &stored.entity.trip_update {
        Some(update) => {
            let update = update.get();
            let stamp = stamp_of(stored.stamp, update.timestamp);
            push_unless_found(held, false, find(plan, &update.trip, stamp), out)
        }
        None => Ok(()),
    }
}

/// Appends the entity's vehicle, where it names a trip that is no run.
fn push_vehicle(
    plan: &Plan,
    held: &HeldEntity<'_>,
    out: &mut Vec<Unmatched>,
) -> Result<(), NoMemory>
    ensures { OnOk result (out.new.items ≡ out.old.items
        ++ rule.unmatched_vehicle plan.now held.now held.now.stored.entity.vehicle) }
{
    match &held.stored().entity.vehicle {
        Some(vehicle) => {
            let vehicle = vehicle.get();
            push_trip(plan, held, vehicle.timestamp, &vehicle.trip, out)
        }
        None => Ok(()),
    }
}

/// Appends a vehicle of that own stamp, where it names a trip that is no run.
fn push_trip(
    plan: &Plan,
    held: &HeldEntity<'_>,
    own: Option<u64>,
    trip: &Option<TripRef>,
    out: &mut Vec<Unmatched>,
) -> Result<(), NoMemory>
    ensures { OnOk result (out.new.items ≡ out.old.items
        ++ rule.unmatched_trip plan.now held.now own trip.now) }
{
    match trip {
        Some(trip) => {
            let stamp = stamp_of(held.stored().stamp, own);
            push_unless_found(held, true, find(plan, trip, stamp), out)
        }
        None => Ok(()),
    }
}

/// Appends a row of why no run was found.
fn push_unless_found(
    held: &HeldEntity<'_>,
    vehicle: bool,
    found: Found,
    out: &mut Vec<Unmatched>,
) -> Result<(), NoMemory>
    ensures { OnOk result (out.new.items ≡ out.old.items
        ++ rule.unless_found held.now vehicle found) }
{
    match found {
        Found::Run(_) | Found::Added => Ok(()),
        Found::NoMatch(why) => {
            let id = held.stored().entity.id.copy()?;
            let row = Unmatched {
                feed: held.number(),
                id,
                vehicle,
                why,
            };
            out.push(row)?;
            Ok(())
        }
    }
}
