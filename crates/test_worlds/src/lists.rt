//! The alerts of a stop, and what is unmatched, by going over everything.

use crate::meaning::meant;
use crate::scan::{Question, Seen, lies_in, stamp_of};
use sample_worlds::{
    ALERT_IDS, ENTITY_IDS, FIRST_STAMP, MadeAlert, MadeDate, MadePeriod, MadeRef, MadeSelector,
    MadeVehicle, ROUTE_AGENCIES, ROUTE_KINDS, TRIP_DIRECTIONS, World, named_by,
};
use std::alloc::{AllocError, Global};
use trip_match_defs::{Found, Why};

/// Whether a period holds: from its start on, up to but not at its end.
fn holds_at(period: MadePeriod, at: u64) -> bool {
    period.start.unwrap_or(0) <= at && at < period.end.unwrap_or(u64::MAX)
}

/// Whether an alert is active: in one of its periods, or always where it has none.
fn is_active(alert: &MadeAlert, at: u64) -> bool {
    for period in &alert.periods {
        if holds_at(*period, at) {
            return true;
        }
    }
    alert.periods.is_empty()
}

/// Whether a selector gives a field besides the stop.
fn gives_more(selector: &MadeSelector) -> bool {
    selector.agency.is_some()
        || selector.route.is_some()
        || selector.kind.is_some()
        || selector.direction.is_some()
        || selector.trip.is_some()
}

/// Whether a selector gives a stop alone: the asked one, one in which it lies or one that lies in
/// it.
fn touches_stop(world: &World, selector: &MadeSelector, stop: u32) -> bool {
    match selector.stop {
        Some(named) if !gives_more(selector) => {
            named == stop || lies_in(world, stop, named) || lies_in(world, named, stop)
        }
        _ => false,
    }
}

/// Whether a number that is given is that of the row.
fn fits(given: Option<u32>, row: Option<u32>) -> bool {
    given.is_none() || given == row
}

/// Whether a kind of routes that is given is that of the row's route.
fn fits_kind(given: Option<i32>, row: &Seen) -> bool {
    let kind = match row.route {
        Some(route) => ROUTE_KINDS.get(route as usize).copied(),
        None => None,
    };
    given.is_none() || given == kind
}

/// The agency of the row's route, if it has one.
fn agency_of(row: &Seen) -> Option<u32> {
    match row.route {
        Some(route) => ROUTE_AGENCIES.get(route as usize).copied(),
        None => None,
    }
}

/// The direction of the row's trip, which an added one doesn't have.
fn direction_of(row: &Seen) -> Option<u32> {
    if row.key.is_added {
        return None;
    }
    TRIP_DIRECTIONS
        .get(row.key.trip as usize)
        .copied()
        .unwrap_or(None)
}

/// Whether the row stands at a stop that is given, or at one that lies in it.
fn fits_stop(world: &World, given: Option<u32>, row: &Seen) -> bool {
    match given {
        Some(named) => named == row.stop || lies_in(world, row.stop, named),
        None => true,
    }
}

/// Whether a descriptor that is given means what the row is about.
fn fits_trip(world: &World, given: Option<MadeRef>, stamp: u64, row: &Seen) -> bool {
    let Some(named) = given else {
        return true;
    };
    match meant(world, named, stamp) {
        Found::Run(run) => {
            !row.key.is_added && run.trip == row.key.trip && run.day == row.key.day
        }
        Found::Added => {
            row.key.is_added
                && named.trip == Some(row.key.trip)
                && named.date == MadeDate::On(row.key.day)
        }
        Found::NoMatch(_) => false,
    }
}

/// Whether all that a selector gives holds for a row, and it gives something.
fn touches_row(world: &World, selector: &MadeSelector, stamp: u64, row: &Seen) -> bool {
    let gives_one = gives_more(selector) || selector.stop.is_some();
    gives_one
        && fits(selector.agency, agency_of(row))
        && fits(selector.route, row.route)
        && fits_kind(selector.kind, row)
        && fits(selector.direction, direction_of(row))
        && fits_stop(world, selector.stop, row)
        && fits_trip(world, selector.trip, stamp, row)
}

/// Whether a selector touches one of the rows.
fn touches_one(world: &World, selector: &MadeSelector, stamp: u64, rows: &[Seen]) -> bool {
    for row in rows {
        if touches_row(world, selector, stamp, row) {
            return true;
        }
    }
    false
}

/// The stamp of a feed's message.
fn message_stamp(world: &World, feed: u32) -> u64 {
    world
        .stamps
        .get(feed as usize)
        .copied()
        .unwrap_or(FIRST_STAMP)
}

/// Whether an alert is about a stop or one of the rows.
fn concerns(world: &World, alert: &MadeAlert, stop: u32, rows: &[Seen]) -> bool {
    let stamp = message_stamp(world, alert.feed);
    for selector in &alert.selectors {
        if touches_stop(world, selector, stop) || touches_one(world, selector, stamp, rows) {
            return true;
        }
    }
    false
}

/// What becomes of an alert at a question.
#[derive(Clone, Copy, PartialEq, Eq)]
pub(crate) enum Fate {
    Listed,
    Inactive,
    Untouched,
}

/// What becomes of an alert at a question, beside a board of those rows.
pub(crate) fn fate_of(world: &World, alert: &MadeAlert, question: Question, rows: &[Seen]) -> Fate {
    if !is_active(alert, question.at) {
        Fate::Inactive
    } else if concerns(world, alert, question.stop, rows) {
        Fate::Listed
    } else {
        Fate::Untouched
    }
}

/// By what an alert of a world is found: its feed and its id.
#[derive(Clone, Copy)]
pub(crate) struct AlertKey {
    pub(crate) feed: u32,
    pub(crate) id: &'static str,
}

/// Appends the alerts of a feed that are listed.
fn push_listed(
    world: &World,
    feed: u32,
    question: Question,
    rows: &[Seen],
    listed: &mut Vec<AlertKey>,
) -> Result<(), AllocError> {
    for id in ALERT_IDS {
        if let Some(alert) = world.alert(feed, id) {
            if fate_of(world, alert, question, rows) == Fate::Listed {
                listed.push(AlertKey { feed, id })?;
            }
        }
    }
    Ok(())
}

/// The alerts that are listed beside a board of those rows, by feed and then by id.
pub(crate) fn listed(
    alloc: Global,
    world: &World,
    question: Question,
    rows: &[Seen],
) -> Result<Vec<AlertKey>, AllocError> {
    let mut listed = Vec::new(alloc);
    for feed in 0..2u32 {
        push_listed(world, feed, question, rows, &mut listed)?;
    }
    Ok(listed)
}

/// An update or a vehicle that is about no run, and why.
#[derive(Clone, Copy)]
pub(crate) struct MadeUnmatched {
    pub(crate) feed: u32,
    pub(crate) id: &'static str,
    pub(crate) vehicle: bool,
    pub(crate) why: Why,
}

/// The stamp of a vehicle: its own where that is a moment, else that of its feed's message.
fn vehicle_stamp(world: &World, vehicle: MadeVehicle) -> u64 {
    match vehicle.stamp {
        Some(own) if 1 <= own && own <= 253_402_300_799 => own,
        _ => message_stamp(world, vehicle.feed),
    }
}

/// What the update of that id of a feed means, if there is one.
fn update_meant(world: &World, feed: u32, id: &str) -> Option<Found> {
    match world.update(feed, id) {
        Some(update) => Some(meant(world, named_by(update), stamp_of(world, update))),
        None => None,
    }
}

/// What the vehicle of that id of a feed means, if there is one that names a trip.
fn vehicle_meant(world: &World, feed: u32, id: &str) -> Option<Found> {
    let Some(vehicle) = world.vehicle(feed, id) else {
        return None;
    };
    match vehicle.trip {
        Some(named) => Some(meant(world, named, vehicle_stamp(world, vehicle))),
        None => None,
    }
}

/// Appends an update or a vehicle that means nothing.
fn push_unmatched(
    feed: u32,
    id: &'static str,
    vehicle: bool,
    found: Option<Found>,
    all: &mut Vec<MadeUnmatched>,
) -> Result<(), AllocError> {
    if let Some(Found::NoMatch(why)) = found {
        all.push(MadeUnmatched {
            feed,
            id,
            vehicle,
            why,
        })?;
    }
    Ok(())
}

/// Appends the updates and vehicles of a feed that mean nothing.
fn push_all_unmatched(
    world: &World,
    feed: u32,
    all: &mut Vec<MadeUnmatched>,
) -> Result<(), AllocError> {
    for id in ENTITY_IDS {
        push_unmatched(feed, id, false, update_meant(world, feed, id), all)?;
        push_unmatched(feed, id, true, vehicle_meant(world, feed, id), all)?;
    }
    Ok(())
}

/// The updates and vehicles that mean nothing, by feed and then by id, an update before its
/// vehicle.
pub(crate) fn made_unmatched(
    alloc: Global,
    world: &World,
) -> Result<Vec<MadeUnmatched>, AllocError> {
    let mut all = Vec::new(alloc);
    for feed in 0..2u32 {
        push_all_unmatched(world, feed, &mut all)?;
    }
    Ok(all)
}
