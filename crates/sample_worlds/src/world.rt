//! A timetable of five stops and up to three trips, and what two feeds say of it.

use crate::dice::Dice;
use crate::notice::{Known, MadeAlert, MadeVehicle, alerts, vehicles};
use rt_types::{StopRelation, TripRelation};
use std::alloc::{AllocError, Global};

/// The stops, in order of their ids. The last two are stations: the first stop lies in P, the
/// second in some worlds, and the third in S.
pub const STOPS: [&str; 5] = ["A", "B", "C", "P", "S"];

/// The trips, in order of their ids.
pub const TRIPS: [&str; 3] = ["T0", "T1", "T2"];

/// The routes, in order of their ids, and their short names.
pub const ROUTES: [&str; 2] = ["R7", "R8"];

pub const ROUTE_NAMES: [&str; 2] = ["7", "8"];

/// The agency and the route_type of each route.
pub const ROUTE_AGENCIES: [u32; 2] = [0, 1];

pub const ROUTE_KINDS: [i32; 2] = [3, 0];

/// The agencies, in order of their ids.
pub const AGENCIES: [&str; 2] = ["A", "B"];

/// The route and the direction of each trip.
pub const TRIP_ROUTES: [u32; 3] = [0, 0, 1];

pub const TRIP_DIRECTIONS: [Option<u32>; 3] = [Some(0), Some(0), None];

/// The ids that updates and vehicles may have, in order.
pub const ENTITY_IDS: [&str; 4] = ["w", "x", "y", "z"];

/// The days of the window. On the second the clock goes forward.
pub const DATES: [&str; 3] = ["20250329", "20250330", "20250331"];

/// The instants at which these days begin, counted from noon.
pub const BASES: [i64; 3] = [1_743_202_800, 1_743_285_600, 1_743_372_000];

/// The stamp of the first message; others lie a second or two behind.
pub const FIRST_STAMP: u64 = 1_743_280_000;

/// A place of a trip, its times in seconds from the beginning of the day on.
#[derive(Clone, Copy)]
pub struct MadePlace {
    pub stop: u32,
    pub sequence: u32,
    pub arrival: u32,
    pub departure: u32,
    pub pickup: u8,
}

/// A trip, with the days on which it runs.
#[derive(Drop)]
pub struct MadeTrip {
    pub runs: [bool; 3],
    pub places: Vec<MadePlace>,
}

/// At which stop an added trip calls, by its number in `STOPS` or past the last, and when.
#[derive(Clone, Copy)]
pub struct MadeCall {
    pub stop: u32,
    pub arrives: Option<i64>,
    pub leaves: Option<i64>,
}

/// What an update says of a place; of an added trip's with the call there. The stop that it assigns
/// to the place is told by its number in `STOPS`, or past the last.
#[derive(Clone, Copy)]
pub struct MadeStop {
    pub sequence: u32,
    pub relation: Option<StopRelation>,
    pub arrival: Option<i32>,
    pub departure: Option<i32>,
    pub assigned: Option<u32>,
    pub call: Option<MadeCall>,
}

/// An update of a trip on a day, either of which the timetable may lack, as it may the route.
#[derive(Drop)]
pub struct MadeUpdate {
    pub feed: u32,
    pub id: &'static str,
    pub stamp: Option<u64>,
    pub trip: u32,
    pub day: u32,
    pub relation: Option<TripRelation>,
    pub route: Option<u32>,
    pub delay: Option<i32>,
    pub stops: Vec<MadeStop>,
}

/// A world: a timetable, the stamps of the messages of two feeds, and the updates, vehicles and
/// alerts in these.
#[derive(Drop)]
pub struct World {
    pub in_station: bool,
    pub trips: Vec<MadeTrip>,
    pub stamps: [u64; 2],
    pub updates: Vec<MadeUpdate>,
    pub vehicles: Vec<MadeVehicle>,
    pub alerts: Vec<MadeAlert>,
}

impl World {
    /// The update of that id of a feed, if there is one.
    pub fn update(&self, feed: u32, id: &str) -> Option<&MadeUpdate> {
        for made in &self.updates {
            if made.feed == feed && made.id == id {
                return Some(made);
            }
        }
        None
    }

    /// The vehicle of that id of a feed, if there is one.
    pub fn vehicle(&self, feed: u32, id: &str) -> Option<MadeVehicle> {
        for made in &self.vehicles {
            if made.feed == feed && made.id == id {
                return Some(*made);
            }
        }
        None
    }

    /// The alert of that id of a feed, if there is one.
    pub fn alert(&self, feed: u32, id: &str) -> Option<&MadeAlert> {
        for made in &self.alerts {
            if made.feed == feed && made.id == id {
                return Some(made);
            }
        }
        None
    }
}

/// A moment of the morning of some day.
pub fn moment(dice: &mut Dice) -> u64 {
    let day = dice.below(3);
    let base = BASES.get(day as usize).copied().unwrap_or(0);
    u64::try_from(base).unwrap_or(0) + 27_600 + 300 * u64::from(dice.below(8))
}

/// A delay of some minutes, early or late, or none. Few values make for ties.
fn delay(dice: &mut Dice) -> Option<i32> {
    match dice.below(6) {
        0 => Some(-300),
        1 => Some(0),
        2 => Some(300),
        3 => Some(600),
        _ => None,
    }
}

/// A trip of two to four places, some minutes from one to the next.
fn trip(alloc: Global, dice: &mut Dice) -> Result<MadeTrip, AllocError> {
    let mut places = Vec::new(alloc);
    let mut time = 28_800 + 300 * dice.below(4);
    for i in 0..2 + dice.below(3) {
        let arrival = time;
        let departure = arrival.saturating_add(300 * dice.below(2));
        places.push(MadePlace {
            stop: dice.below(5),
            sequence: 10 + 10 * i,
            arrival,
            departure,
            pickup: if dice.one_in(6) { 1 } else { 0 },
        })?;
        time = departure.saturating_add(300 * dice.below(3));
    }
    let first = dice.below(3);
    Ok(MadeTrip {
        runs: [
            first == 0 || dice.one_in(2),
            first == 1 || dice.one_in(2),
            first == 2 || dice.one_in(2),
        ],
        places,
    })
}

/// A call in the morning of a day, rarely at a stop that isn't there; a time may be absent or no
/// moment.
fn call(dice: &mut Dice, day: u32) -> MadeCall {
    let base = BASES.get(day as usize).copied().unwrap_or(1_743_285_600);
    let time = base.wrapping_add(i64::from(28_800 + 300 * dice.below(8)));
    MadeCall {
        stop: if dice.one_in(9) { 5 } else { dice.below(5) },
        arrives: if dice.one_in(3) { None } else { Some(time) },
        leaves: match dice.below(6) {
            0 => None,
            1 => Some(0),
            later => Some(time.wrapping_add(60 * i64::from(later))),
        },
    }
}

/// A stop that is assigned to a place, mostly one that may lie in a station, rarely one that isn't
/// there; or none.
fn assigned(dice: &mut Dice) -> Option<u32> {
    match dice.below(8) {
        0 => Some(5),
        1 => Some(3 + dice.below(2)),
        2 | 3 => None,
        _ => Some(dice.below(3)),
    }
}

/// What an update says of some place, of an added trip with a call.
fn stop(dice: &mut Dice, call: Option<MadeCall>) -> MadeStop {
    MadeStop {
        sequence: 10 + 10 * dice.below(4),
        relation: match dice.below(8) {
            0 => Some(StopRelation::Scheduled),
            1 => Some(StopRelation::NoData),
            2 => Some(StopRelation::Unscheduled),
            3 | 4 => Some(StopRelation::Skipped),
            _ => None,
        },
        arrival: delay(dice),
        departure: delay(dice),
        assigned: assigned(dice),
        call,
    }
}

/// What an update says of its trip.
pub(crate) fn relation(dice: &mut Dice) -> Option<TripRelation> {
    match dice.below(18) {
        0 | 1 => Some(TripRelation::Canceled),
        2 => Some(TripRelation::Deleted),
        3 | 4 | 5 => Some(TripRelation::Added),
        6 => Some(TripRelation::Unscheduled),
        7 => Some(TripRelation::Scheduled),
        8 => Some(TripRelation::Replacement),
        9 => Some(TripRelation::Duplicated),
        _ => None,
    }
}

/// An update of one of so many trips, on some day, or of an added trip of such a name; rarely of a
/// trip or a day that isn't there.
fn update(
    alloc: Global,
    dice: &mut Dice,
    trips: u32,
    feed: u32,
    id: &'static str,
) -> Result<MadeUpdate, AllocError> {
    let relation = relation(dice);
    let is_added = relation == Some(TripRelation::Added);
    let day = if dice.one_in(9) { 3 } else { dice.below(3) };
    let mut stops = Vec::new(alloc);
    for _ in 0..1 + dice.below(4) {
        let call = if is_added {
            Some(call(dice, day))
        } else {
            None
        };
        stops.push(stop(dice, call))?;
    }
    Ok(MadeUpdate {
        feed,
        id,
        stamp: match dice.below(3) {
            0 => None,
            late => Some(FIRST_STAMP + u64::from(late)),
        },
        trip: if dice.one_in(9) { 3 } else { dice.below(trips) },
        day,
        relation,
        route: match dice.below(6) {
            0 => Some(0),
            1 => Some(1),
            2 => Some(2),
            _ => None,
        },
        delay: delay(dice),
        stops,
    })
}

/// Up to three updates of each feed.
fn updates(alloc: Global, dice: &mut Dice, count: u32) -> Result<Vec<MadeUpdate>, AllocError> {
    let mut updates = Vec::new(alloc);
    for feed in 0..2u32 {
        // They stand in the message against the order of their ids.
        for id in ["z", "y", "x"] {
            if !dice.one_in(4) {
                updates.push(update(alloc, dice, count, feed, id)?)?;
            }
        }
    }
    Ok(updates)
}

/// So many trips.
fn trips(alloc: Global, dice: &mut Dice, count: u32) -> Result<Vec<MadeTrip>, AllocError> {
    let mut trips = Vec::new(alloc);
    for _ in 0..count {
        trips.push(trip(alloc, dice)?)?;
    }
    Ok(trips)
}

/// A world of one to three trips, and of what two feeds say.
pub fn made_world(alloc: Global, dice: &mut Dice) -> Result<World, AllocError> {
    let count = 1 + dice.below(3);
    let trips = trips(alloc, dice, count)?;
    let updates = updates(alloc, dice, count)?;
    let known = Known {
        trips: trips.as_slice(),
        count,
        updates: updates.as_slice(),
    };
    let vehicles = vehicles(alloc, dice, known)?;
    let alerts = alerts(alloc, dice, known)?;
    let stamps = [
        FIRST_STAMP + u64::from(dice.below(2)),
        FIRST_STAMP + u64::from(dice.below(2)),
    ];
    Ok(World {
        in_station: dice.one_in(2),
        trips,
        stamps,
        updates,
        vehicles,
        alerts,
    })
}
