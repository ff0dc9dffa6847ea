//! Trips with their places.

ghost use Rattle.std.specs.Prelude.{◌≡◌, IfOk, map, zip};
ghost use Rattle.sched_load_defs.specs.Frequencies as rule;

use sched_types::{Place, PlanName, Trip};
use std::alloc::{AllocError, Global};
use std::marker::Model;

/// A trip with its places. A contract sees the pair of both.
#[derive(Drop)]
pub(crate) struct TimedTrip {
    trip: Trip,
    places: Vec<Place>,
}

impl Model for TimedTrip {
    ghost use Rattle.std.specs.Prelude.{List};
    ghost use Rattle.sched_types.specs.declared.rows.Trip.{Trip};
    ghost use Rattle.sched_types.specs.declared.rows.Place.{Place};

    ghost Value = { Trip × List Place };

    ghost view = { λ timed. (timed.trip, timed.places.items) };
}

impl TimedTrip {
    /// This trip with these places. It takes no memory.
    pub(crate) fn new(trip: Trip, places: Vec<Place>) -> TimedTrip
        ensures { result ≡ (trip, places.items) }
    {
        TimedTrip { trip, places }
    }

    /// Its `trip_id`.
    pub(crate) fn id(&self) -> &PlanName
        ensures { result.now ≡ rule.id_of self.now }
    {
        &self.trip.id
    }

    /// The trip.
    pub(crate) fn trip(&self) -> &Trip
        ensures { result.now ≡ self.now.0 }
    {
        &self.trip
    }

    /// Its places.
    pub(crate) fn places(&self) -> &[Place]
        ensures { result.now ≡ self.now.1 }
    {
        self.places.as_slice()
    }

    /// The trip, and its places.
    fn into_parts(self) -> (Trip, Vec<Place>)
        ensures trip { result.0 ≡ self.0 }
        ensures places { result.1.items ≡ self.1 }
    {
        (self.trip, self.places)
    }
}

/// The trips with their places, where the places of each stand at its number.
pub(crate) fn timed_trips(
    alloc: Global,
    trips: Vec<Trip>,
    places: Vec<Vec<Place>>,
) -> Result<Vec<TimedTrip>, AllocError>
    ensures { IfOk result (λ timed. timed.items
        ≡ zip trips.items (map (λ v. v.items) places.items)) }
{
    let mut timed = Vec::with_capacity(alloc, trips.len())?;
    let mut lists = places.into_iter();
    for trip in trips {
        let Some(places) = lists.next() else {
            return Ok(timed);
        };
        timed.push(TimedTrip::new(trip, places))?;
    }
    Ok(timed)
}

/// Trips and, for each, its places.
#[derive(Drop)]
pub(crate) struct TripLists {
    pub(crate) trips: Vec<Trip>,
    pub(crate) places: Vec<Vec<Place>>,
}

/// The trips, and beside them their places.
pub(crate) fn untimed(alloc: Global, timed: Vec<TimedTrip>) -> Result<TripLists, AllocError>
    ensures trips { IfOk result (λ lists. lists.trips.items ≡ map (λ one. one.0) timed.items) }
    ensures places { IfOk result (λ lists. map (λ v. v.items) lists.places.items
        ≡ map (λ one. one.1) timed.items) }
{
    let mut trips = Vec::with_capacity(alloc, timed.len())?;
    let mut places = Vec::with_capacity(alloc, timed.len())?;
    for one in timed {
        let (trip, list) = one.into_parts();
        trips.push(trip)?;
        places.push(list)?;
    }
    Ok(TripLists { trips, places })
}
