//! The files of a timetable.

ghost use Rattle.std.specs.Prelude.{◌≡◌, ◌≤◌, ◌<◌, [], ◌∷◌, ◌++◌, IfOk, OnOk};
ghost use Rattle.hub_gen_defs.specs.Network.{agency_txt, calendar_txt, routes_txt, stop_times_txt, stops_txt, trip_places, trips_txt};

use crate::NoMemory;
use crate::lines::{PLACES, ROUTES, STOPS, push_route, push_stop, push_stop_time, push_trip};
use std::alloc::Global;

/// The bytes of the longest line of stops.txt, of routes.txt, of trips.txt and of stop_times.txt,
/// or more.
const STOP_BYTES: usize = 16;

const ROUTE_BYTES: usize = 16;

const TRIP_BYTES: usize = 16;

const STOP_TIME_BYTES: usize = 34;

/// A file that has one line, and takes so many bytes more without asking for memory.
fn file_with(alloc: Global, columns: &[u8], room: usize) -> Result<Vec<u8>, NoMemory>
    requires { room < 1_000_000_000 }
    ensures { IfOk result (λ file. file.items ≡ columns.now) }
{
    let mut file = Vec::with_capacity(alloc, room)?;
    file.extend_from_slice(columns)?;
    Ok(file)
}

/// agency.txt, with one agency.
pub(crate) fn agency_txt(alloc: Global) -> Result<Vec<u8>, NoMemory>
    ensures { IfOk result (λ file. file.items ≡ agency_txt) }
{
    b"agency_id\nA\n".to_vec(alloc)
}

/// stops.txt.
pub(crate) fn stops_txt(alloc: Global) -> Result<Vec<u8>, NoMemory>
    ensures { IfOk result (λ file. file.items ≡ stops_txt) }
{
    let columns = b"stop_id,stop_name,location_type,parent_station\n";
    let mut file = file_with(alloc, columns, 64 + STOPS as usize * STOP_BYTES)?;
    for stop in 0..STOPS {
        push_stop(stop, &mut file)?;
    }
    Ok(file)
}

/// routes.txt.
pub(crate) fn routes_txt(alloc: Global) -> Result<Vec<u8>, NoMemory>
    ensures { IfOk result (λ file. file.items ≡ routes_txt) }
{
    let columns = b"route_id,agency_id,route_short_name,route_long_name,route_type\n";
    let mut file = file_with(alloc, columns, 64 + ROUTES as usize * ROUTE_BYTES)?;
    for route in 0..ROUTES {
        push_route(route, &mut file)?;
    }
    Ok(file)
}

/// trips.txt, with so many trips.
pub(crate) fn trips_txt(alloc: Global, trips: u32) -> Result<Vec<u8>, NoMemory>
    requires { trips ≤ 20000 }
    ensures { IfOk result (λ file. file.items ≡ trips_txt trips) }
{
    let columns = b"trip_id,route_id,service_id,trip_headsign,direction_id\n";
    let mut file = file_with(alloc, columns, 64 + trips as usize * TRIP_BYTES)?;
    for trip in 0..trips {
        push_trip(trip, &mut file)?;
    }
    Ok(file)
}

/// stop_times.txt, with all places of so many trips.
pub(crate) fn stop_times_txt(alloc: Global, trips: u32) -> Result<Vec<u8>, NoMemory>
    requires { trips ≤ 20000 }
    ensures { IfOk result (λ file. file.items ≡ stop_times_txt trips) }
{
    let columns = b"trip_id,stop_id,stop_sequence,arrival_time,departure_time,pickup_type\n";
    let room = 72 + trips as usize * PLACES as usize * STOP_TIME_BYTES;
    let mut file = file_with(alloc, columns, room)?;
    for trip in 0..trips {
        push_places(trip, &mut file)?;
    }
    Ok(file)
}

/// Appends the lines of a trip's places.
fn push_places(trip: u32, out: &mut Vec<u8>) -> Result<(), NoMemory>
    requires { trip < 20000 }
    ensures { OnOk result (out.new.items ≡ out.old.items ++ trip_places trip) }
{
    for place in 0..PLACES {
        push_stop_time(trip, place, out)?;
    }
    Ok(())
}

/// calendar.txt, with one service.
pub(crate) fn calendar_txt(alloc: Global) -> Result<Vec<u8>, NoMemory>
    ensures { IfOk result (λ file. file.items ≡ calendar_txt) }
{
    let mut file = b"service_id,monday,tuesday,wednesday,thursday,friday,saturday,sunday,".to_vec(
        alloc,
    )?;
    file.extend_from_slice(b"start_date,end_date\nX,1,1,1,1,1,1,1,20250101,20250107\n")?;
    Ok(file)
}
