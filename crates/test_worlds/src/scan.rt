//! The rows of a board by going over everything.

use board_core::RowState;
use rt_types::{StopRelation, TripRelation};
use sample_worlds::{
    BASES, FIRST_STAMP, MadePlace, MadeStop, MadeTrip, MadeUpdate, TRIP_ROUTES, World,
};
use std::alloc::{AllocError, Global};
use std::cmp::Ordering;

/// What a board is asked for, the stop by its number in `STOPS`.
#[derive(Clone, Copy)]
pub(crate) struct Question {
    pub(crate) stop: u32,
    pub(crate) at: u64,
    pub(crate) span: u32,
    pub(crate) limit: u32,
}

/// What rows are ordered by.
#[derive(Clone, Copy, PartialEq, Eq, PartialOrd, Ord)]
pub(crate) struct Key {
    pub(crate) expected: i64,
    pub(crate) trip: u32,
    pub(crate) day: u32,
    pub(crate) is_added: bool,
    pub(crate) place: u32,
}

/// A row, with trip, day, stop and route by their numbers. Besides the stop at which it is, it has
/// the one that was planned, by the timetable or by an added trip's call, and the one that was
/// assigned, if there was one.
#[derive(Clone, Copy)]
pub(crate) struct Seen {
    pub(crate) key: Key,
    pub(crate) scheduled: Option<i64>,
    pub(crate) delay: Option<i64>,
    pub(crate) state: RowState,
    pub(crate) stop: u32,
    pub(crate) planned: u32,
    pub(crate) assigned: Option<u32>,
    pub(crate) route: Option<u32>,
}

/// A state, a delay where it is known, and the stop that was assigned, if there was one, which may
/// not be there.
#[derive(Clone, Copy)]
struct Sign {
    state: RowState,
    delay: Option<i64>,
    assigned: Option<u32>,
}

/// Whether an update speaks of a run: added trips, those without a timetable and those that take
/// the place of others are no runs.
fn is_about(update: &MadeUpdate, trip: u32, day: u32) -> bool {
    let is_run = match update.relation {
        Some(
            TripRelation::Added
            | TripRelation::Unscheduled
            | TripRelation::Replacement
            | TripRelation::Duplicated,
        ) => false,
        _ => true,
    };
    is_run && update.trip == trip && update.day == day
}

/// The stamp of an update: its own, else that of its feed's message.
pub(crate) fn stamp_of(world: &World, update: &MadeUpdate) -> u64 {
    let message = world.stamps.get(update.feed as usize).copied();
    update.stamp.or(message).unwrap_or(FIRST_STAMP)
}

/// Whether the first update counts more than the second: by the later stamp, then the lower feed,
/// then the greater id.
fn counts_more(world: &World, a: &MadeUpdate, b: &MadeUpdate) -> bool {
    let by_stamp = stamp_of(world, a).cmp(&stamp_of(world, b));
    let by_feed = b.feed.cmp(&a.feed);
    by_stamp.then(by_feed).then(a.id.cmp(b.id)) == Ordering::Greater
}

/// The update that counts for a run: none of the others that are about it counts more.
fn chosen(world: &World, trip: u32, day: u32) -> Option<&MadeUpdate> {
    let mut best: Option<&MadeUpdate> = None;
    for update in &world.updates {
        if is_about(update, trip, day) {
            best = match best {
                Some(other) if !counts_more(world, update, other) => Some(other),
                _ => Some(update),
            };
        }
    }
    best
}

/// The first place with a sequence, from a place on.
fn place_for(trip: &MadeTrip, from: usize, sequence: u32) -> Option<usize> {
    for (i, place) in trip.places.iter().enumerate() {
        if from <= i && place.sequence == sequence {
            return Some(i);
        }
    }
    None
}

/// What is carried behind a place at which this was said, where that was carried to it.
fn carried(stop: MadeStop, carry: Option<i32>) -> Option<i32> {
    match stop.relation {
        Some(StopRelation::Skipped) => carry,
        Some(StopRelation::NoData | StopRelation::Unscheduled) => None,
        Some(StopRelation::Scheduled) | None => stop.departure.or(stop.arrival).or(carry),
    }
}

/// What is known by a delay, at the planned stop.
fn by_delay(delay: Option<i32>) -> Sign {
    match delay {
        Some(seconds) => Sign {
            state: RowState::Live,
            delay: Some(i64::from(seconds)),
            assigned: None,
        },
        None => without_times(RowState::Scheduled),
    }
}

/// A state of a place of which no delay is known, at the planned stop.
fn without_times(state: RowState) -> Sign {
    Sign {
        state,
        delay: None,
        assigned: None,
    }
}

/// What is known of a place at which this was said, where that was carried to it.
fn told(stop: MadeStop, carry: Option<i32>) -> Sign {
    match stop.relation {
        Some(StopRelation::Skipped) => without_times(RowState::Skipped),
        Some(StopRelation::NoData | StopRelation::Unscheduled) => by_delay(None),
        Some(StopRelation::Scheduled) | None => Sign {
            assigned: stop.assigned,
            ..by_delay(carried(stop, carry))
        },
    }
}

/// What an update says of a place of its run.
fn said_at(update: &MadeUpdate, trip: &MadeTrip, place: usize) -> Sign {
    let mut carry = update.delay;
    let mut from = 0usize;
    let mut here: Option<MadeStop> = None;
    for stop in &update.stops {
        if let Some(taken) = place_for(trip, from, stop.sequence) {
            from = taken.saturating_add(1);
            if taken < place {
                carry = carried(*stop, carry);
            }
            if taken == place {
                here = Some(*stop);
            }
        }
    }
    match here {
        Some(stop) => told(stop, carry),
        None => by_delay(carry),
    }
}

/// What a board shows of a place of a run with that update, if anything.
fn sign_at(update: Option<&MadeUpdate>, trip: &MadeTrip, place: usize) -> Option<Sign> {
    let Some(update) = update else {
        return Some(by_delay(None));
    };
    match update.relation {
        Some(TripRelation::Deleted) => None,
        Some(TripRelation::Canceled) => Some(without_times(RowState::Canceled)),
        _ => Some(said_at(update, trip, place)),
    }
}

/// Whether a stop lies in another, which is the station then.
pub(crate) fn lies_in(world: &World, stop: u32, other: u32) -> bool {
    match stop {
        0 => other == 3,
        1 => other == 3 && world.in_station,
        2 => other == 4,
        _ => false,
    }
}

/// Whether a stop is the asked one or lies in it.
fn is_asked(world: &World, asked: u32, stop: u32) -> bool {
    stop == asked || lies_in(world, stop, asked)
}

/// Whether an instant is one of the asked ones.
fn is_within(question: Question, instant: i64) -> bool {
    let first = i64::try_from(question.at).unwrap_or(0);
    first <= instant && instant < first.wrapping_add(i64::from(question.span))
}

/// The stop at which a place is: the assigned one where that is there, else the planned one.
fn stop_at(planned: u32, assigned: Option<u32>) -> u32 {
    match assigned {
        Some(stop) if stop < 5 => stop,
        _ => planned,
    }
}

/// The row of a place.
fn row(place: MadePlace, trip: u32, day: u32, number: usize, sign: Sign) -> Seen {
    let base = BASES.get(day as usize).copied().unwrap_or(0);
    let scheduled = base.wrapping_add(i64::from(place.departure));
    Seen {
        key: Key {
            expected: scheduled.wrapping_add(sign.delay.unwrap_or(0)),
            trip,
            day,
            is_added: false,
            place: u32::try_from(number).unwrap_or(0),
        },
        scheduled: Some(scheduled),
        delay: sign.delay,
        state: sign.state,
        stop: stop_at(place.stop, sign.assigned),
        planned: place.stop,
        assigned: sign.assigned,
        route: TRIP_ROUTES.get(trip as usize).copied(),
    }
}

/// The rows with one more, before the first that comes after it.
fn inserted(alloc: Global, rows: &[Seen], more: Seen) -> Result<Vec<Seen>, AllocError> {
    let mut all = Vec::new(alloc);
    let mut stands = false;
    for row in rows {
        if !stands && more.key < row.key {
            all.push(more)?;
            stands = true;
        }
        all.push(*row)?;
    }
    if !stands {
        all.push(more)?;
    }
    Ok(all)
}

/// The rows with those of a run.
fn with_run(
    alloc: Global,
    world: &World,
    question: Question,
    trip: u32,
    day: u32,
    rows: Vec<Seen>,
) -> Result<Vec<Seen>, AllocError> {
    let mut rows = rows;
    let Some(made) = world.trips.get(trip as usize) else {
        return Ok(rows);
    };
    let update = chosen(world, trip, day);
    for (i, place) in made.places.iter().enumerate() {
        let is_last = made.places.len() - i == 1;
        if !is_last && place.pickup != 1 {
            if let Some(sign) = sign_at(update, made, i) {
                let row = row(*place, trip, day, i, sign);
                if is_asked(world, question.stop, row.stop)
                    && is_within(question, row.key.expected)
                {
                    rows = inserted(alloc, rows.as_slice(), row)?;
                }
            }
        }
    }
    Ok(rows)
}

/// Whether an update is of an added trip.
fn is_added(update: &MadeUpdate) -> bool {
    update.relation == Some(TripRelation::Added)
}

/// Whether an update counts for its added trip: no other of the same name and day counts more.
fn counts(world: &World, update: &MadeUpdate) -> bool {
    for other in &world.updates {
        let is_same = is_added(other) && other.trip == update.trip && other.day == update.day;
        if is_same && counts_more(world, other, update) {
            return false;
        }
    }
    true
}

/// A time that is a moment.
fn moment(time: Option<i64>) -> Option<i64> {
    match time {
        Some(time) if 1 <= time && time <= 253_402_300_799 => Some(time),
        _ => None,
    }
}

/// When an added trip leaves a stop, where that is told of one that is there.
fn leaves(stop: &MadeStop) -> Option<i64> {
    let is_served = match stop.relation {
        Some(StopRelation::Scheduled) | None => true,
        Some(_) => false,
    };
    match stop.call {
        Some(call) if is_served && call.stop < 5 => moment(call.leaves).or(moment(call.arrives)),
        _ => None,
    }
}

/// A call of an added trip.
#[derive(Clone, Copy)]
struct Call {
    stop: u32,
    leaves: i64,
}

/// The calls of an added trip.
fn calls(alloc: Global, update: &MadeUpdate) -> Result<Vec<Call>, AllocError> {
    let mut calls = Vec::new(alloc);
    for stop in &update.stops {
        if let (Some(leaves), Some(call)) = (leaves(stop), stop.call) {
            calls.push(Call {
                stop: call.stop,
                leaves,
            })?;
        }
    }
    Ok(calls)
}

/// The number of a route that is there.
fn known_route(route: Option<u32>) -> Option<u32> {
    match route {
        Some(route) if route < 2 => Some(route),
        _ => None,
    }
}

/// The row of a call of an added trip, at the call's stop: an assigned one has no effect there.
fn added_row(update: &MadeUpdate, call: Call, number: usize) -> Seen {
    Seen {
        key: Key {
            expected: call.leaves,
            trip: update.trip,
            day: update.day,
            is_added: true,
            place: u32::try_from(number).unwrap_or(0),
        },
        scheduled: None,
        delay: None,
        state: RowState::Added,
        stop: call.stop,
        planned: call.stop,
        assigned: None,
        route: known_route(update.route),
    }
}

/// The rows with those of an added trip.
fn with_added(
    alloc: Global,
    world: &World,
    question: Question,
    update: &MadeUpdate,
    rows: Vec<Seen>,
) -> Result<Vec<Seen>, AllocError> {
    let mut rows = rows;
    let calls = calls(alloc, update)?;
    for (i, call) in calls.iter().enumerate() {
        let is_last = calls.len() - i == 1;
        if !is_last && is_asked(world, question.stop, call.stop) {
            let row = added_row(update, *call, i);
            if is_within(question, row.key.expected) {
                rows = inserted(alloc, rows.as_slice(), row)?;
            }
        }
    }
    Ok(rows)
}

/// Whether a trip runs on a day.
pub(crate) fn runs(world: &World, trip: u32, day: u32) -> bool {
    match world.trips.get(trip as usize) {
        Some(made) => made.runs.get(day as usize).copied().unwrap_or(false),
        None => false,
    }
}

/// The asked rows of a world, in order.
pub(crate) fn scan(
    alloc: Global,
    world: &World,
    question: Question,
) -> Result<Vec<Seen>, AllocError> {
    let mut rows = Vec::new(alloc);
    for day in 0..3u32 {
        for trip in 0..3u32 {
            if runs(world, trip, day) {
                rows = with_run(alloc, world, question, trip, day, rows)?;
            }
        }
    }
    for update in &world.updates {
        if is_added(update) && counts(world, update) {
            rows = with_added(alloc, world, question, update, rows)?;
        }
    }
    rows.truncate(question.limit as usize);
    Ok(rows)
}
