//! The entities of a world's messages.

use crate::alert_entity::alert;
use crate::descriptor::{MadeDate, MadeRef, MadeTime, named_by};
use crate::files::time;
use crate::notice::MadeVehicle;
use crate::world::{DATES, MadeStop, MadeUpdate, ROUTES, STOPS, TRIPS, World};
use rt_types::{
    Entity, Event, Shared, StopProps, StopUpdate, StopUpdates, Text, TripRef, TripUpdate, Vehicle,
};
use sample_city::no_bytes;
use std::alloc::{AllocError, Global};

/// What is told of an arrival or a departure, if anything.
fn event(alloc: Global, delay: Option<i32>, time: Option<i64>) -> Option<Event> {
    if delay.is_none() && time.is_none() {
        return None;
    }
    Some(Event {
        delay,
        time,
        uncertainty: None,
        unknown: no_bytes(alloc),
    })
}

/// The stop_id of a call, if there is one.
fn stop_id(alloc: Global, made: MadeStop) -> Result<Option<Text>, AllocError> {
    match made.call {
        Some(call) => {
            let id = STOPS.get(call.stop as usize).copied().unwrap_or("Z");
            Ok(Some(Text::new(alloc, id)?))
        }
        None => Ok(None),
    }
}

/// What an update changes about the stop of a place: the assigned one, if there is one.
fn properties(alloc: Global, assigned: Option<u32>) -> Result<Option<StopProps>, AllocError> {
    if assigned.is_none() {
        return Ok(None);
    }
    Ok(Some(StopProps {
        assigned_stop_id: named(alloc, &STOPS, assigned, "Z")?,
        unknown: no_bytes(alloc),
    }))
}

fn stop_update(alloc: Global, made: MadeStop) -> Result<StopUpdate, AllocError> {
    let arrives = made.call.and_then(|call| call.arrives);
    let leaves = made.call.and_then(|call| call.leaves);
    Ok(StopUpdate {
        stop_sequence: Some(made.sequence),
        arrival: event(alloc, made.arrival, arrives),
        departure: event(alloc, made.departure, leaves),
        stop_id: stop_id(alloc, made)?,
        relation: made.relation,
        properties: properties(alloc, made.assigned)?,
        unknown: no_bytes(alloc),
    })
}

fn stop_updates(alloc: Global, made: &[MadeStop]) -> Result<StopUpdates, AllocError> {
    let mut stops = Vec::new(alloc);
    for stop in made {
        stops.push(stop_update(alloc, *stop)?)?;
    }
    Ok(StopUpdates::new(stops))
}

/// The name of that number, or past the last one another, if there is a number.
pub(crate) fn named(
    alloc: Global,
    names: &[&'static str],
    number: Option<u32>,
    other: &'static str,
) -> Result<Option<Text>, AllocError> {
    match number {
        Some(number) => {
            let name = names.get(number as usize).copied().unwrap_or(other);
            Ok(Some(Text::new(alloc, name)?))
        }
        None => Ok(None),
    }
}

fn start_date(alloc: Global, made: MadeDate) -> Result<Option<Text>, AllocError> {
    match made {
        MadeDate::Absent => Ok(None),
        MadeDate::Empty => Ok(Some(Text::new(alloc, "")?)),
        MadeDate::Bad => Ok(Some(Text::new(alloc, "2025033")?)),
        MadeDate::On(day) => named(alloc, &DATES, Some(day), "20250401"),
    }
}

fn start_time(alloc: Global, made: MadeTime) -> Result<Option<Text>, AllocError> {
    match made {
        MadeTime::Absent => Ok(None),
        MadeTime::Bad => Ok(Some(Text::new(alloc, "8 o'clock")?)),
        MadeTime::At(seconds) => Ok(Some(Text::new(alloc, time(alloc, seconds)?.as_str())?)),
    }
}

fn trip_ref(alloc: Global, made: MadeRef) -> Result<TripRef, AllocError> {
    Ok(TripRef {
        trip_id: named(alloc, &TRIPS, made.trip, "T9")?,
        start_time: start_time(alloc, made.time)?,
        start_date: start_date(alloc, made.date)?,
        relation: made.relation,
        route_id: named(alloc, &ROUTES, made.route, "R9")?,
        direction_id: made.direction,
        unknown: no_bytes(alloc),
    })
}

pub(crate) fn optional_ref(
    alloc: Global,
    made: Option<MadeRef>,
) -> Result<Option<TripRef>, AllocError> {
    match made {
        Some(made) => Ok(Some(trip_ref(alloc, made)?)),
        None => Ok(None),
    }
}

fn trip_update(alloc: Global, made: &MadeUpdate) -> Result<TripUpdate, AllocError> {
    Ok(TripUpdate {
        trip: trip_ref(alloc, named_by(made))?,
        stop_time_update: stop_updates(alloc, made.stops.as_slice())?,
        vehicle: None,
        timestamp: made.stamp,
        delay: made.delay,
        unknown: no_bytes(alloc),
    })
}

fn shared_vehicle(
    alloc: Global,
    made: Option<MadeVehicle>,
) -> Result<Option<Shared<Vehicle>>, AllocError> {
    let Some(made) = made else {
        return Ok(None);
    };
    let vehicle = Vehicle {
        trip: optional_ref(alloc, made.trip)?,
        position: None,
        current_stop_sequence: None,
        current_status: None,
        timestamp: made.stamp,
        stop_id: None,
        vehicle: None,
        unknown: no_bytes(alloc),
    };
    Ok(Some(Shared::new(alloc, vehicle)?))
}

/// Appends the entities of a feed that have updates, each with the vehicle of its id.
fn push_updates(
    alloc: Global,
    world: &World,
    feed: u32,
    all: &mut Vec<Entity>,
) -> Result<(), AllocError> {
    for made in &world.updates {
        if made.feed == feed {
            let update = trip_update(alloc, made)?;
            all.push(Entity {
                id: Text::new(alloc, made.id)?,
                is_deleted: None,
                trip_update: Some(Shared::new(alloc, update)?),
                vehicle: shared_vehicle(alloc, world.vehicle(feed, made.id))?,
                alert: None,
                unknown: no_bytes(alloc),
            })?;
        }
    }
    Ok(())
}

/// Appends the entities of a feed that have a vehicle alone.
fn push_vehicles(
    alloc: Global,
    world: &World,
    feed: u32,
    all: &mut Vec<Entity>,
) -> Result<(), AllocError> {
    for made in &world.vehicles {
        if made.feed == feed && world.update(feed, made.id).is_none() {
            all.push(Entity {
                id: Text::new(alloc, made.id)?,
                is_deleted: None,
                trip_update: None,
                vehicle: shared_vehicle(alloc, Some(*made))?,
                alert: None,
                unknown: no_bytes(alloc),
            })?;
        }
    }
    Ok(())
}

/// Appends the entities of a feed that have alerts.
fn push_alerts(
    alloc: Global,
    world: &World,
    feed: u32,
    all: &mut Vec<Entity>,
) -> Result<(), AllocError> {
    for made in &world.alerts {
        if made.feed == feed {
            let alert = alert(alloc, made)?;
            all.push(Entity {
                id: Text::new(alloc, made.id)?,
                is_deleted: None,
                trip_update: None,
                vehicle: None,
                alert: Some(Shared::new(alloc, alert)?),
                unknown: no_bytes(alloc),
            })?;
        }
    }
    Ok(())
}

/// The entities of a feed.
pub(crate) fn entities(alloc: Global, world: &World, feed: u32) -> Result<Vec<Entity>, AllocError> {
    let mut all = Vec::new(alloc);
    push_updates(alloc, world, feed, &mut all)?;
    push_vehicles(alloc, world, feed, &mut all)?;
    push_alerts(alloc, world, feed, &mut all)?;
    Ok(all)
}
