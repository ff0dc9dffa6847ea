//! The rows of stop_times.txt, one after another.

ghost use Rattle.std.specs.Prelude.{◌≡◌, ◌≤◌, ◌<◌, ℕ, length, slice_get, Some, IfOk, IfSome, OnSome};
ghost use Rattle.sched_types.specs.Timetable.{number_of};
ghost use Rattle.gtfs_rows.specs.Files.{rows_of};
ghost use Rattle.gtfs_rows.specs.StopTimes.{IsOpen, row_to_come, rows_to_come};
ghost use Rattle.gtfs_rows.specs.Tables.{stop_times};
ghost use Rattle.sched_load_defs.specs.Numbers.{by_id};
ghost use Rattle.sched_load.specs.Gathering.{BelowAll};
ghost use Rattle.sched_load.specs.Listed.{stay_of};
ghost use Rattle.sched_load_defs.specs.Files.{most_rows};
ghost use Rattle.sched_load.specs.Visits.{Gathers, IsVisit, Skips};

use crate::visits::{Gathered, Stay, Visit};
use gtfs_rows::{Column, RowFault, StopRow, StopTimeRow, StopTimes, TripRow};
use row_tables::Table;
use std::alloc::Global;

/// The times of a row, of which an empty one takes the other.
fn stay_of(arrival: Option<u32>, departure: Option<u32>) -> Option<Stay>
    ensures { result ≡ stay_of arrival departure }
{
    match (arrival, departure) {
        (Some(arrival), Some(departure)) => Some(Stay { arrival, departure }),
        (Some(time), None) | (None, Some(time)) => Some(Stay {
            arrival: time,
            departure: time,
        }),
        (None, None) => None,
    }
}

/// The visit of a row, or its first column that refers to nothing. The trip is looked for first at
/// a number.
fn visit_of(
    trips: &Table<TripRow>,
    stops: &Table<StopRow>,
    near: u32,
    row: &StopTimeRow,
) -> Result<Visit, Column>
    requires trips { length trips.now ≤ most_rows }
    requires stops { length stops.now ≤ most_rows }
    ensures value { IsVisit trips.now stops.now row.now result }
    ensures below { IfOk result
        (λ visit. visit.trip < length (by_id (λ trip. trip.trip_id) trips.now)) }
{
    let Some(trip) = trips.number_near(near as usize, row.trip_id.as_str()) else {
        return Err(Column::TripId);
    };
    let Some(stop) = stops.number_of(row.stop_id.as_str()) else {
        return Err(Column::StopId);
    };
    Ok(Visit {
        trip: trip as u32,
        stop: stop as u32,
        sequence: row.stop_sequence,
        stay: stay_of(row.arrival_time, row.departure_time),
        pickup: row.pickup_type.unwrap_or(0),
    })
}

/// Passes over the rows to come, or gives the first fault of theirs.
fn skip(alloc: Global, rows: &mut StopTimes<'_>) -> Result<(), RowFault>
    requires { IsOpen rows.old }
    ensures { Skips (rows_to_come rows.old) result }
{
    'rows: loop {
        let Some(_) = rows.next(alloc)? else {
            return Ok(());
        };
    }
}

/// Gathers the visits of the rows to come, up to the first that refers to nothing, and passes over
/// those behind it.
fn gather(
    alloc: Global,
    rows: &mut StopTimes<'_>,
    trips: &Table<TripRow>,
    stops: &Table<StopRow>,
) -> Result<Gathered, RowFault>
    requires open { IsOpen rows.old }
    requires trips { length trips.now ≤ most_rows }
    requires stops { length stops.now ≤ most_rows }
    ensures value { Gathers trips.now stops.now (rows_to_come rows.old) result }
    ensures below { IfOk result
        (λ g. BelowAll (length (by_id (λ trip. trip.trip_id) trips.now)) g.visits.items) }
{
    let mut visits: Vec<Visit> = Vec::new(alloc);
    let mut near = 0;
    'rows: loop {
        let Some(row) = rows.next(alloc)? else {
            return Ok(Gathered {
                visits,
                unknown: None,
            });
        };
        match visit_of(trips, stops, near, &row) {
            Ok(visit) => {
                near = visit.trip;
                visits.push(visit)?;
            }
            Err(column) => {
                skip(alloc, rows)?;
                return Ok(Gathered {
                    visits,
                    unknown: Some(column),
                });
            }
        }
    }
}

/// The visits of the rows of stop_times.txt with these bytes, up to the first row that refers to
/// nothing; or the fault that the file has by itself.
pub(crate) fn gather_bytes(
    alloc: Global,
    bytes: &[u8],
    trips: &Table<TripRow>,
    stops: &Table<StopRow>,
) -> Result<Gathered, RowFault>
    requires trips { length trips.now ≤ most_rows }
    requires stops { length stops.now ≤ most_rows }
    ensures value { Gathers trips.now stops.now (rows_of stop_times bytes.now) result }
    ensures below { IfOk result
        (λ g. BelowAll (length (by_id (λ trip. trip.trip_id) trips.now)) g.visits.items) }
{
    let mut rows = StopTimes::open(alloc, bytes)?;
    gather(alloc, &mut rows, trips, stops)
}
