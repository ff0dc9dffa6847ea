//! What trip descriptors name (GTFS Realtime 2.0, TripDescriptor).

use crate::dice::Dice;
use crate::world::{MadeTrip, MadeUpdate, relation};
use rt_types::TripRelation;

/// What a descriptor gives as its start_date.
#[derive(Clone, Copy, PartialEq, Eq)]
pub enum MadeDate {
    /// Nothing.
    Absent,
    /// A text of no byte, which counts as nothing.
    Empty,
    /// A text that is no date.
    Bad,
    /// A day by its number in `DATES`, or past the last one outside the window.
    On(u32),
}

/// What a descriptor gives as its start_time.
#[derive(Clone, Copy)]
pub enum MadeTime {
    /// Nothing.
    Absent,
    /// A text that is no time.
    Bad,
    /// A time in seconds from the beginning of the day on.
    At(u32),
}

/// What a descriptor names: trip and route by their numbers, or past the last one that isn't there.
#[derive(Clone, Copy)]
pub struct MadeRef {
    pub trip: Option<u32>,
    pub date: MadeDate,
    pub time: MadeTime,
    pub relation: Option<TripRelation>,
    pub route: Option<u32>,
    pub direction: Option<u32>,
}

/// What the descriptor of an update names.
pub fn named_by(update: &MadeUpdate) -> MadeRef {
    MadeRef {
        trip: Some(update.trip),
        date: MadeDate::On(update.day),
        time: MadeTime::Absent,
        relation: update.relation,
        route: update.route,
        direction: None,
    }
}

/// A start_date: mostly a day of the window.
fn date(dice: &mut Dice) -> MadeDate {
    match dice.below(14) {
        0 => MadeDate::Absent,
        1 => MadeDate::Empty,
        2 => MadeDate::Bad,
        3 => MadeDate::On(3),
        _ => MadeDate::On(dice.below(3)),
    }
}

/// A descriptor with a trip_id, or rarely without anything that could stand for it.
fn by_id(dice: &mut Dice, trips: u32) -> MadeRef {
    let trip = if dice.one_in(7) { 3 } else { dice.below(trips) };
    MadeRef {
        trip: if dice.one_in(12) { None } else { Some(trip) },
        date: date(dice),
        time: MadeTime::Absent,
        relation: relation(dice),
        route: None,
        direction: None,
    }
}

/// When a trip leaves its first place.
fn first_departure(trip: Option<&MadeTrip>) -> u32 {
    match trip {
        Some(trip) => match trip.places.first() {
            Some(place) => place.departure,
            None => 0,
        },
        None => 0,
    }
}

/// A start_time: mostly that of some trip.
fn time(dice: &mut Dice, trips: &[MadeTrip], count: u32) -> MadeTime {
    let seconds = first_departure(trips.get(dice.below(count) as usize));
    match dice.below(10) {
        0 => MadeTime::Absent,
        1 => MadeTime::Bad,
        2 => MadeTime::At(seconds.saturating_add(300)),
        _ => MadeTime::At(seconds),
    }
}

/// A descriptor without a trip_id, by route, direction, date and time.
fn by_time(dice: &mut Dice, trips: &[MadeTrip], count: u32) -> MadeRef {
    MadeRef {
        trip: None,
        date: date(dice),
        time: time(dice, trips, count),
        relation: None,
        route: match dice.below(9) {
            0 => None,
            1 => Some(2),
            2 => Some(1),
            _ => Some(0),
        },
        direction: match dice.below(9) {
            0 => None,
            1 => Some(1),
            _ => Some(0),
        },
    }
}

/// A descriptor of one of so many trips.
pub(crate) fn descriptor(dice: &mut Dice, trips: &[MadeTrip], count: u32) -> MadeRef {
    if dice.one_in(3) {
        by_time(dice, trips, count)
    } else {
        by_id(dice, count)
    }
}
