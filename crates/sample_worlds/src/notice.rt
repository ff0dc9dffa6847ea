//! Alerts (GTFS Realtime 2.0, Alert), and vehicles (VehiclePosition).

use crate::descriptor::{MadeRef, descriptor, named_by};
use crate::dice::Dice;
use crate::world::{FIRST_STAMP, MadeTrip, MadeUpdate, moment};
use std::alloc::{AllocError, Global};

/// The ids that alerts may have, in order.
pub const ALERT_IDS: [&str; 3] = ["a", "p", "zz"];

/// A time range: from its start on, up to but not at its end. An absent bound is open.
#[derive(Clone, Copy)]
pub struct MadePeriod {
    pub start: Option<u64>,
    pub end: Option<u64>,
}

/// A selector: agency, route and stop by their numbers, or past the last one that isn't there.
#[derive(Clone, Copy)]
pub struct MadeSelector {
    pub agency: Option<u32>,
    pub route: Option<u32>,
    pub kind: Option<i32>,
    pub direction: Option<u32>,
    pub stop: Option<u32>,
    pub trip: Option<MadeRef>,
}

/// A text in a language, if it tells one.
#[derive(Clone, Copy)]
pub struct MadeWords {
    pub text: &'static str,
    pub language: Option<&'static str>,
}

/// An alert, its cause and effect by their places in the lists of the reference.
#[derive(Drop)]
pub struct MadeAlert {
    pub feed: u32,
    pub id: &'static str,
    pub periods: Vec<MadePeriod>,
    pub selectors: Vec<MadeSelector>,
    pub cause: Option<u32>,
    pub effect: Option<u32>,
    pub header: Option<Vec<MadeWords>>,
}

/// A vehicle, with a stamp of its own that may be no moment.
#[derive(Clone, Copy)]
pub struct MadeVehicle {
    pub feed: u32,
    pub id: &'static str,
    pub stamp: Option<u64>,
    pub trip: Option<MadeRef>,
}

/// What a world has so far: its trips and how many these are, and its updates.
#[derive(Clone, Copy)]
pub(crate) struct Known<'a> {
    pub(crate) trips: &'a [MadeTrip],
    pub(crate) count: u32,
    pub(crate) updates: &'a [MadeUpdate],
}

/// A selector that gives nothing.
const NOTHING: MadeSelector = MadeSelector {
    agency: None,
    route: None,
    kind: None,
    direction: None,
    stop: None,
    trip: None,
};

/// A bound of a period, if there is one.
fn bound(dice: &mut Dice) -> Option<u64> {
    if dice.one_in(3) {
        None
    } else {
        Some(moment(dice))
    }
}

/// Up to two periods.
fn periods(alloc: Global, dice: &mut Dice) -> Result<Vec<MadePeriod>, AllocError> {
    let mut periods = Vec::new(alloc);
    for _ in 0..dice.below(3) {
        periods.push(MadePeriod {
            start: bound(dice),
            end: bound(dice),
        })?;
    }
    Ok(periods)
}

/// What a selector gives as its trip: that of an update, or another.
fn trip(dice: &mut Dice, known: Known<'_>) -> MadeRef {
    let place = dice.below(6);
    match known.updates.get(place as usize) {
        Some(update) => named_by(update),
        None => descriptor(dice, known.trips, known.count),
    }
}

/// A number below the limit, or the limit, of what isn't there.
fn some_of(dice: &mut Dice, limit: u32) -> Option<u32> {
    if dice.one_in(8) {
        Some(limit)
    } else {
        Some(dice.below(limit))
    }
}

/// A selector of one or two fields, of none, or of any.
fn selector(dice: &mut Dice, known: Known<'_>) -> MadeSelector {
    match dice.below(11) {
        0 => NOTHING,
        1 => MadeSelector {
            stop: some_of(dice, 5),
            ..NOTHING
        },
        2 => MadeSelector {
            route: some_of(dice, 2),
            ..NOTHING
        },
        3 | 4 => MadeSelector {
            trip: Some(trip(dice, known)),
            ..NOTHING
        },
        5 => MadeSelector {
            route: some_of(dice, 2),
            stop: some_of(dice, 5),
            ..NOTHING
        },
        6 => MadeSelector {
            agency: some_of(dice, 2),
            ..NOTHING
        },
        7 => MadeSelector {
            kind: Some(if dice.one_in(2) { 0 } else { 3 }),
            ..NOTHING
        },
        // The one route has the kind of the other.
        8 => MadeSelector {
            route: Some(0),
            kind: Some(0),
            ..NOTHING
        },
        _ => any_fields(dice, known),
    }
}

/// A selector in which each field may be given.
fn any_fields(dice: &mut Dice, known: Known<'_>) -> MadeSelector {
    MadeSelector {
        agency: if dice.one_in(3) { Some(0) } else { None },
        route: if dice.one_in(3) { Some(0) } else { None },
        kind: if dice.one_in(3) { Some(3) } else { None },
        direction: match dice.below(4) {
            0 => Some(0),
            1 => Some(1),
            _ => None,
        },
        stop: if dice.one_in(3) {
            some_of(dice, 5)
        } else {
            None
        },
        trip: if dice.one_in(4) {
            Some(trip(dice, known))
        } else {
            None
        },
    }
}

/// Up to two selectors.
fn selectors(
    alloc: Global,
    dice: &mut Dice,
    known: Known<'_>,
) -> Result<Vec<MadeSelector>, AllocError> {
    let mut selectors = Vec::new(alloc);
    for _ in 0..dice.below(3) {
        selectors.push(selector(dice, known))?;
    }
    Ok(selectors)
}

/// A heading of up to three texts, or none.
fn header(alloc: Global, dice: &mut Dice) -> Result<Option<Vec<MadeWords>>, AllocError> {
    if dice.one_in(6) {
        return Ok(None);
    }
    let mut words = Vec::new(alloc);
    for _ in 0..dice.below(4) {
        words.push(MadeWords {
            text: match dice.below(3) {
                0 => "Lift out",
                1 => "Aufzug defekt",
                _ => "Late",
            },
            language: if dice.one_in(3) { None } else { Some("de") },
        })?;
    }
    Ok(Some(words))
}

/// The place of a cause or an effect among so many, if there is one.
fn place(dice: &mut Dice, count: u32) -> Option<u32> {
    if dice.one_in(3) {
        None
    } else {
        Some(dice.below(count))
    }
}

fn alert(
    alloc: Global,
    dice: &mut Dice,
    known: Known<'_>,
    feed: u32,
    id: &'static str,
) -> Result<MadeAlert, AllocError> {
    Ok(MadeAlert {
        feed,
        id,
        periods: periods(alloc, dice)?,
        selectors: selectors(alloc, dice, known)?,
        cause: place(dice, 12),
        effect: place(dice, 11),
        header: header(alloc, dice)?,
    })
}

/// Up to three alerts of each feed.
pub(crate) fn alerts(
    alloc: Global,
    dice: &mut Dice,
    known: Known<'_>,
) -> Result<Vec<MadeAlert>, AllocError> {
    let mut alerts = Vec::new(alloc);
    for feed in 0..2u32 {
        // They stand in the message against the order of their ids.
        for id in ["zz", "p", "a"] {
            if !dice.one_in(4) {
                alerts.push(alert(alloc, dice, known, feed, id)?)?;
            }
        }
    }
    Ok(alerts)
}

/// A vehicle, which may name no trip.
fn vehicle(dice: &mut Dice, known: Known<'_>, feed: u32, id: &'static str) -> MadeVehicle {
    MadeVehicle {
        feed,
        id,
        stamp: match dice.below(6) {
            0 => Some(0),
            1 => Some(FIRST_STAMP + 90_000),
            2 => Some(FIRST_STAMP + 200_000),
            3 => Some(FIRST_STAMP + 300_000),
            _ => None,
        },
        trip: if dice.one_in(8) {
            None
        } else {
            Some(descriptor(dice, known.trips, known.count))
        },
    }
}

/// Up to two vehicles of each feed, the one in the entity of an update, where there is one of that
/// id.
pub(crate) fn vehicles(
    alloc: Global,
    dice: &mut Dice,
    known: Known<'_>,
) -> Result<Vec<MadeVehicle>, AllocError> {
    let mut vehicles = Vec::new(alloc);
    for feed in 0..2u32 {
        for id in ["y", "w"] {
            if !dice.one_in(4) {
                vehicles.push(vehicle(dice, known, feed, id))?;
            }
        }
    }
    Ok(vehicles)
}
