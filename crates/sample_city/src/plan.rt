//! The timetable of the small city.

ghost use Rattle.std.specs.Prelude.{◌≡◌, map, IfOk};
ghost use Rattle.sched_types.specs.City as example;
ghost use Rattle.sched_types.specs.City.{city_stops, city_routes, city_trips, city_places, hill_trip, boarding};

use crate::NoMemory;
use sched_types::{Place, Plan, PlanName, PlanParts, Route, Stop, Trip};
use std::alloc::Global;

/// A stop of that id and name, and the number of its station.
pub fn stop(alloc: Global, id: &str, name: &str, parent: Option<u32>) -> Result<Stop, NoMemory>
    ensures { IfOk result (λ stop. stop
        ≡ record { id = id.now; name = name.now; parent = parent }) }
{
    Ok(Stop {
        id: PlanName::new(alloc, id)?,
        name: PlanName::new(alloc, name)?,
        parent,
    })
}

/// The five stops: two platforms of the market, the harbour, the hill, and the market.
pub fn stops(alloc: Global) -> Result<Vec<Stop>, NoMemory>
    ensures { IfOk result (λ stops. stops.items ≡ city_stops) }
{
    Ok(vec![in alloc;
        stop(alloc, "S1", "Market A", Some(4))?,
        stop(alloc, "S2", "Market B", Some(4))?,
        stop(alloc, "S3", "Harbour", None)?,
        stop(alloc, "S4", "Hill", None)?,
        stop(alloc, "ST", "Market", None)?,
    ]?)
}

/// The bus route 7.
pub fn routes(alloc: Global) -> Result<Vec<Route>, NoMemory>
    ensures { IfOk result (λ routes. routes.items ≡ city_routes) }
{
    Ok(vec![in alloc;
        Route {
            id: PlanName::new(alloc, "R7")?,
            agency: Some(0),
            short: PlanName::new(alloc, "7")?,
            long: PlanName::new(alloc, "")?,
            kind: 3,
        },
    ]?)
}

/// A trip of it to the hill.
pub fn trip(alloc: Global, id: &str) -> Result<Trip, NoMemory>
    ensures { IfOk result (λ trip. trip ≡ hill_trip id.now) }
{
    Ok(Trip {
        id: PlanName::new(alloc, id)?,
        route: 0,
        service: 0,
        headsign: PlanName::new(alloc, "Hill")?,
        direction: Some(0),
    })
}

/// The trips N1, T1 and T2.
pub fn trips(alloc: Global) -> Result<Vec<Trip>, NoMemory>
    ensures { IfOk result (λ trips. trips.items ≡ city_trips) }
{
    Ok(vec![in alloc; trip(alloc, "N1")?, trip(alloc, "T1")?, trip(alloc, "T2")?]?)
}

/// A place at which passengers get on and off.
pub fn place(stop: u32, sequence: u32, arrival: u32, departure: u32) -> Place
    ensures { result ≡ boarding stop sequence arrival departure }
{
    Place {
        stop,
        sequence,
        arrival,
        departure,
        pickup: 0,
    }
}

/// The places of the three trips.
fn places(alloc: Global) -> Result<Vec<Vec<Place>>, NoMemory>
    ensures { IfOk result (λ places. map (λ v. v.items) places.items ≡ city_places) }
{
    let night = vec![in alloc; place(0, 1, 90600, 90600), place(3, 2, 92400, 92400)]?;
    let first = vec![in alloc;
        place(0, 1, 28800, 28800),
        place(2, 2, 29400, 29400),
        place(1, 5, 30000, 30060),
        place(3, 9, 30600, 30600),
    ]?;
    let second = vec![in alloc; place(1, 1, 30060, 30060), place(3, 2, 31200, 31200)]?;
    Ok(vec![in alloc; night, first, second]?)
}

/// The city on 29 to 31 March 2025: T1 goes from S1 at 08:00 by S3 and S2 at 08:21 to S4, T2 from
/// S2 at 08:21 to S4, and N1 from S1 at 25:10 to S4.
pub fn city(alloc: Global) -> Result<Plan, NoMemory>
    ensures { IfOk result (λ plan. plan ≡ example.city) }
{
    let parts = PlanParts {
        agencies: vec![in alloc; PlanName::new(alloc, "A")?]?,
        stops: stops(alloc)?,
        routes: routes(alloc)?,
        trips: trips(alloc)?,
        places: places(alloc)?,
        active: vec![in alloc; vec![in alloc; 0, 1, 2]?]?,
        first: 20250329,
        bases: vec![in alloc; 1743202800, 1743285600, 1743372000]?,
        patterns: Vec::new(alloc),
        derived: Vec::new(alloc),
    };
    Plan::build(alloc, parts)
}
