//! A plan of the rows that were read.

ghost use Rattle.std.specs.Prelude.{◌≡◌, ◌≤◌, ◌<◌, ◌^◌, ◌+◌, List, IsTrue, IfOk, IfSome, Some, length, map, slice_get, [], bytes_eq, unwrap_or};
ghost use Rattle.std.specs.List.{range_with_len};
ghost use Rattle.text_defs.specs.Dates.{is_day, date_plus};
ghost use Rattle.service_day.specs.Zone.{base_of};
ghost use Rattle.sched_types.specs.Parts.{table_of};
ghost use Rattle.sched_types.specs.Timetable.{RisesById, number_of};
ghost use Rattle.freq_parts.specs.Conditions.{IsPlain};
ghost use Rattle.sched_load_defs.specs.Frequencies.{load_fault_of};
ghost use Rattle.sched_load_defs.specs.Numbers.{by_id, timetable_of};
ghost use Rattle.sched_load.specs.Built.{IsBuilt, AreSmall, agency_in, places_of_trip, plan_told, route_in, stop_in, trip_in};
ghost use Rattle.sched_load_defs.specs.Files.{most_rows};
ghost use Rattle.sched_load.specs.Tables.{AreRead, dataset_of};
ghost use Rattle.sched_load.specs.InOrder.{WereInOrder};
ghost use Rattle.std.specs.List.Sorted.{IsNonDecreasingBy};
ghost use Rattle.gtfs_rows.specs.declared.rows.StopTimeRow.{StopTimeRow};
ghost use Rattle.sched_load.specs.declared.visits.Visit.{Visit};

use crate::days::{active_lists, bases_of};
use crate::services::service_number;
use crate::tables::Tables;
use crate::times::places_of;
use crate::visits::{Visit, visits_of};
use freq_parts::with_frequencies;
use freq_runs::DeriveFault;
use gtfs_rows::{AgencyRow, RouteRow, RowFault, StopRow, TripRow};
use row_tables::Table;
use sched_load_defs::{File, LoadFault};
use sched_types::{Place, Plan, PlanName, PlanParts, Route, Stop, Trip};
use service_day::Zone;
use std::alloc::{AllocError, Global};

/// The agency_ids, rising.
fn agency_ids(alloc: Global, agencies: &Table<AgencyRow>) -> Result<Vec<PlanName>, AllocError>
    ensures { IfOk result (λ ids. ids.items
        ≡ map (λ row. row.agency_id) (by_id (λ row. row.agency_id) agencies.now)) }
{
    let mut ids = Vec::with_capacity(alloc, agencies.len())?;
    for number in 0..agencies.len() {
        let row = agencies.row(number);
        ids.push(PlanName::new(alloc, row.agency_id.as_str())?)?;
    }
    Ok(ids)
}

/// A number that fits a plan.
fn plan_number(number: Option<usize>) -> Option<u32>
    requires { IfSome number (λ n. n < 2 ^ 32) }
    ensures { result ≡ number }
{
    match number {
        Some(number) => Some(number as u32),
        None => None,
    }
}

/// A stop of the plan.
fn stop_of(alloc: Global, stops: &Table<StopRow>, row: &StopRow) -> Result<Stop, AllocError>
    requires { length (by_id (λ row. row.stop_id) stops.now) ≤ most_rows }
    ensures { IfOk result (λ stop. stop ≡ stop_in stops.now row.now) }
{
    Ok(Stop {
        id: PlanName::new(alloc, row.stop_id.as_str())?,
        name: PlanName::new(alloc, row.stop_name.as_str())?,
        parent: plan_number(stops.number_of(row.parent_station.as_str())),
    })
}

/// The stops by rising ids.
fn stops_of(alloc: Global, stops: &Table<StopRow>) -> Result<Vec<Stop>, AllocError>
    requires { length (by_id (λ row. row.stop_id) stops.now) ≤ most_rows }
    ensures { IfOk result (λ xs. xs.items
        ≡ map (stop_in stops.now) (by_id (λ row. row.stop_id) stops.now)) }
{
    let mut list = Vec::with_capacity(alloc, stops.len())?;
    for number in 0..stops.len() {
        list.push(stop_of(alloc, stops, stops.row(number))?)?;
    }
    Ok(list)
}

/// The number of a route's agency. An empty agency_id is the only agency's, where there is one
/// agency.
fn agency_number(agencies: &Table<AgencyRow>, id: &str) -> Option<u32>
    requires { length (by_id (λ row. row.agency_id) agencies.now) ≤ most_rows }
    ensures { result ≡ agency_in agencies.now id.now }
{
    if !id.is_empty() {
        return plan_number(agencies.number_of(id));
    }
    if agencies.rows().len() == 1 {
        return Some(0);
    }
    None
}

/// A route of the plan.
fn route_of(alloc: Global, agencies: &Table<AgencyRow>, row: &RouteRow) -> Result<Route, AllocError>
    requires { length (by_id (λ row. row.agency_id) agencies.now) ≤ most_rows }
    ensures { IfOk result (λ route. route ≡ route_in agencies.now row.now) }
{
    Ok(Route {
        id: PlanName::new(alloc, row.route_id.as_str())?,
        agency: agency_number(agencies, row.agency_id.as_str()),
        short: PlanName::new(alloc, row.route_short_name.as_str())?,
        long: PlanName::new(alloc, row.route_long_name.as_str())?,
        kind: row.route_type,
    })
}

/// The routes by rising ids.
fn routes_of(
    alloc: Global,
    routes: &Table<RouteRow>,
    agencies: &Table<AgencyRow>,
) -> Result<Vec<Route>, AllocError>
    requires { length (by_id (λ row. row.agency_id) agencies.now) ≤ most_rows }
    ensures { IfOk result (λ xs. xs.items
        ≡ map (route_in agencies.now) (by_id (λ row. row.route_id) routes.now)) }
{
    let mut list = Vec::with_capacity(alloc, routes.len())?;
    for number in 0..routes.len() {
        list.push(route_of(alloc, agencies, routes.row(number))?)?;
    }
    Ok(list)
}

/// A number that is there, which fits a plan.
fn known_number(number: Option<usize>) -> u32
    requires { IfSome number (λ n. n < 2 ^ 32) }
    ensures { result ≡ unwrap_or number 0 }
{
    match number {
        Some(number) => number as u32,
        None => 0,
    }
}

/// A trip of the plan.
fn trip_of(
    alloc: Global,
    routes: &Table<RouteRow>,
    services: &[PlanName],
    row: &TripRow,
) -> Result<Trip, AllocError>
    requires routes { length (by_id (λ row. row.route_id) routes.now) ≤ most_rows }
    requires services { length services.now < 2 ^ 32 }
    requires rise { RisesById (λ id. id) services.now }
    ensures { IfOk result (λ trip. trip ≡ trip_in routes.now services.now row.now) }
{
    Ok(Trip {
        id: PlanName::new(alloc, row.trip_id.as_str())?,
        route: known_number(routes.number_of(row.route_id.as_str())),
        service: known_number(service_number(services, row.service_id.as_str())),
        headsign: PlanName::new(alloc, row.trip_headsign.as_str())?,
        direction: row.direction_id,
    })
}

/// The trips by rising ids.
fn trips_of(
    alloc: Global,
    trips: &Table<TripRow>,
    routes: &Table<RouteRow>,
    services: &[PlanName],
) -> Result<Vec<Trip>, AllocError>
    requires routes { length (by_id (λ row. row.route_id) routes.now) ≤ most_rows }
    requires services { length services.now < 2 ^ 32 }
    requires rise { RisesById (λ id. id) services.now }
    ensures { IfOk result (λ xs. xs.items
        ≡ map (trip_in routes.now services.now) (by_id (λ row. row.trip_id) trips.now)) }
{
    let mut list = Vec::with_capacity(alloc, trips.len())?;
    for number in 0..trips.len() {
        list.push(trip_of(alloc, routes, services, trips.row(number))?)?;
    }
    Ok(list)
}

/// The places of so many trips, of which the visits are given trip by trip.
fn places_lists(
    alloc: Global,
    visits: &[Visit],
    trips: usize,
) -> Result<Vec<Vec<Place>>, AllocError>
    requires small { AreSmall visits.now }
    requires by_trip { IsNonDecreasingBy (λ (visit : Visit). visit.trip) visits.now }
    requires few { trips ≤ most_rows }
    ensures { IfOk result (λ lists. map (λ v. v.items) lists.items
        ≡ map (places_of_trip visits.now) (range_with_len 0 trips)) }
{
    let mut lists = Vec::with_capacity(alloc, trips)?;
    for trip in 0..trips {
        lists.push(places_of(alloc, visits_of(visits, trip as u32))?)?;
    }
    Ok(lists)
}

/// The lists of the plan as if there were no frequencies.txt, for a window of days from a first one
/// on.
fn parts_of(
    alloc: Global,
    zone: &Zone,
    first: u32,
    days: u32,
    tables: &Tables,
) -> Result<PlanParts, AllocError>
    requires read { WereInOrder tables.now }
    requires valid { IsTrue (is_day first) }
    requires early { 19700201 ≤ first }
    requires late { first ≤ 29991231 }
    requires few { days ≤ 400 }
    ensures table { (rows : List StopTimeRow) → AreRead tables.now rows
        → IfOk result (λ parts. table_of parts
        ≡ timetable_of zone.now first days (dataset_of tables.now rows)) }
    ensures plain { IfOk result (λ parts. IsPlain (table_of parts)) }
{
    let services = tables.services.as_slice();
    let agencies = agency_ids(alloc, &tables.agencies)?;
    let stops = stops_of(alloc, &tables.stops)?;
    let routes = routes_of(alloc, &tables.routes, &tables.agencies)?;
    let trips = trips_of(alloc, &tables.trips, &tables.routes, services)?;
    let places = places_lists(alloc, tables.visits.as_slice(), tables.trips.len())?;
    let active = active_lists(
        alloc,
        services,
        &tables.calendar,
        tables.active.as_slice(),
        first,
        days,
    )?;
    let bases = bases_of(alloc, zone, first, days)?;
    Ok(PlanParts {
        agencies,
        stops,
        routes,
        trips,
        places,
        active,
        first,
        bases,
        patterns: Vec::new(alloc),
        derived: Vec::new(alloc),
    })
}

/// What is told of the first fault of frequencies.txt that its derived trips have.
fn load_fault(fault: DeriveFault) -> LoadFault
    ensures { result ≡ load_fault_of fault }
{
    match fault {
        DeriveFault::TooMany => LoadFault::Rows(File::Frequencies, RowFault::TooMany),
        DeriveFault::Duplicate { row } => LoadFault::Duplicate {
            file: File::Frequencies,
            row,
        },
        DeriveFault::NoMemory => LoadFault::NoMemory,
    }
}

/// The plan of the rows, for a window of days from a first one on, with the trips of
/// frequencies.txt; or the first fault of these.
pub(crate) fn build_plan(
    alloc: Global,
    zone: &Zone,
    first: u32,
    days: u32,
    tables: &Tables,
) -> Result<Plan, LoadFault>
    requires read { WereInOrder tables.now }
    requires valid { IsTrue (is_day first) }
    requires early { 19700201 ≤ first }
    requires late { first ≤ 29991231 }
    requires few { days ≤ 400 }
    ensures { (rows : List StopTimeRow) → AreRead tables.now rows
        → IsBuilt (plan_told zone.now first days (dataset_of tables.now rows)) result }
{
    let parts = parts_of(alloc, zone, first, days, tables)?;
    match with_frequencies(alloc, parts, tables.frequencies.as_slice()) {
        Ok(parts) => Ok(Plan::build(alloc, parts)?),
        Err(fault) => Err(load_fault(fault)),
    }
}
