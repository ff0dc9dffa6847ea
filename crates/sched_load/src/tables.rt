//! The rows of the eight files of a folder.

ghost use Rattle.std.specs.Prelude.{◌≡◌, ◌≤◌, ℕ, List, Option, IfOk, Ok, length, true, [], ◌||◌, bytes_eq};
ghost use Rattle.hub_outside.specs.Files.{file_at};
ghost use Rattle.sched_load_defs.specs.Files.{path_of, stored_in, most_rows};
ghost use Rattle.sched_load_defs.specs.Loading.{dataset_in};
ghost use Rattle.sched_load_defs.specs.References.{consistent, consistent_stop_times, consistent_stops, has_id, with_parents};
ghost use Rattle.sched_load.specs.Answer.{AnswersFromFiles, and_next};
ghost use Rattle.sched_load.specs.Stages.{AreDays, IsNetwork, day_rows_in, days_where, network_where};
ghost use Rattle.sched_load.specs.Listed.{file_rows};
ghost use Rattle.row_tables.specs.Order.{same_id};
ghost use Rattle.sched_load.specs.Parents.{Checks};
ghost use Rattle.sched_load.specs.Stops.{StopsFile, StopsPart, StopsTables, StopsWith};
ghost use Rattle.sched_load.specs.Tables.{ReadsTables};
ghost use Rattle.sched_load.specs.Arranged.{ReadsArranged};
ghost use Rattle.gtfs_rows.specs.Tables.{stop_times, stops};
ghost use Rattle.sched_load_defs.specs.declared.fault.File.TheVariants as file;

use crate::files::{read_rows, read_visits};
use crate::frequencies::read_frequencies;
use crate::services::{group_exceptions, service_ids};
use crate::visits::{Visit, arrange};
use gtfs_rows::{
    AgencyRow, CalendarRow, Column, ExceptionRow, FrequencyRow, RouteRow, StopRow, TripRow,
};
use hub_outside::Files;
use row_tables::{
    IdRow, Judge, KnownAgencies, KnownRoutes, NoReference, Table, order_of, row_number,
};
use sched_load_defs::{File, LoadFault};
use sched_types::PlanName;
use service_day::Exception;
use std::alloc::Global;
use std::collections::BTreeMap;

/// What is kept of the rows of the eight files: those of stop_times.txt are kept as visits alone.
#[derive(Drop)]
pub(crate) struct Tables {
    pub(crate) agencies: Table<AgencyRow>,
    pub(crate) stops: Table<StopRow>,
    pub(crate) routes: Table<RouteRow>,
    pub(crate) trips: Table<TripRow>,
    /// The stop times trip by trip, those of a trip by rising stop_sequence.
    pub(crate) visits: Vec<Visit>,
    pub(crate) calendar: Table<CalendarRow>,
    pub(crate) exceptions: Vec<ExceptionRow>,
    /// The ids of the services, rising.
    pub(crate) services: Vec<PlanName>,
    /// For each service its exceptions by rising dates.
    pub(crate) active: Vec<BTreeMap<u32, Exception>>,
    pub(crate) frequencies: Vec<FrequencyRow>,
}

/// The rows of a file that has ids, or its first fault.
fn read_table<F: Files, R: IdRow, J: Judge<R>>(
    alloc: Global,
    files: &mut F,
    folder: &str,
    judge: &J,
) -> Result<Table<R>, LoadFault>
    ensures reads { AnswersFromFiles (F.contents files.old)
        (λ fs. and_next
        (file_rows R.required R.name R.columns (file_at fs (path_of folder.now R.name)))
        (consistent R.name (J.unknown_of judge.now)
        (same_id R.id_of)))
        (F.faults files.old) (F.faults files.new) result }
    ensures seen { IfOk result (λ rows. (bytes : Option (List ℕ))
        × (file_rows R.required R.name R.columns bytes ≡ Ok rows)) }
    ensures consistent { IfOk result
        (λ rows. consistent R.name (J.unknown_of judge.now) (same_id R.id_of) rows ≡ Ok rows) }
    ensures few { IfOk result (λ rows. length rows ≤ most_rows) }
    ensures same { F.contents files.new ≡ F.contents files.old }
    ensures stops { StopsWith result (StopsFile (F.last_fault files.new) folder.now R.name) }
{
    let rows: Vec<R> = read_rows(alloc, files, folder)?;
    let order = order_of(alloc, rows.as_slice(), judge)?;
    Ok(Table::new(rows, order))
}

/// Whether the stop's `parent_station` is a stop, where it has one.
fn has_parent(stops: &Table<StopRow>, row: &StopRow) -> bool
    ensures { result
        ≡ (bytes_eq row.now.parent_station []
        || has_id (λ stop. stop.stop_id) stops.now row.now.parent_station) }
{
    let parent = row.parent_station.as_str();
    parent.is_empty() || stops.has(parent)
}

/// Whether each `parent_station` is a stop, or the first row whose is not.
fn check_parents(stops: &Table<StopRow>) -> Result<(), LoadFault>
    requires { length stops.now ≤ most_rows }
    ensures { Checks (with_parents stops.now) stops.now result }
{
    for (place, row) in stops.rows().iter().enumerate() {
        if !has_parent(stops, row) {
            return Err(LoadFault::UnknownRef {
                file: File::Stops,
                row: row_number(place),
                column: Column::ParentStation,
            });
        }
    }
    Ok(())
}

/// The rows of stops.txt, or its first fault.
fn read_stops<F: Files>(
    alloc: Global,
    files: &mut F,
    folder: &str,
) -> Result<Table<StopRow>, LoadFault>
    ensures reads { AnswersFromFiles (F.contents files.old)
        (λ fs. and_next
        (file_rows true file.Stops stops
        (file_at fs (path_of folder.now file.Stops))) consistent_stops)
        (F.faults files.old) (F.faults files.new) result }
    ensures seen { IfOk result (λ rows. (bytes : Option (List ℕ))
        × (file_rows true file.Stops stops bytes ≡ Ok rows)) }
    ensures consistent { IfOk result (λ rows. consistent_stops rows ≡ Ok rows) }
    ensures few { IfOk result (λ rows. length rows ≤ most_rows) }
    ensures same { F.contents files.new ≡ F.contents files.old }
    ensures stops { StopsWith result (StopsFile (F.last_fault files.new) folder.now file.Stops) }
{
    let stops: Table<StopRow> = read_table(alloc, files, folder, &NoReference)?;
    check_parents(&stops)?;
    Ok(stops)
}

/// The visits of stop_times.txt, trip by trip, or its first fault.
fn arranged_visits<F: Files>(
    alloc: Global,
    files: &mut F,
    folder: &str,
    trips: &Table<TripRow>,
    stops: &Table<StopRow>,
) -> Result<Vec<Visit>, LoadFault>
    requires trips { length trips.now ≤ most_rows }
    requires stops { length stops.now ≤ most_rows }
    ensures reads { ReadsArranged trips.now stops.now (F.contents files.old)
        (λ fs. and_next
        (file_rows true file.StopTimes stop_times
        (file_at fs (path_of folder.now file.StopTimes)))
        (consistent_stop_times trips.now stops.now)) (F.faults files.old)
        (F.faults files.new) result }
    ensures same { F.contents files.new ≡ F.contents files.old }
    ensures stops { StopsWith result
        (StopsFile (F.last_fault files.new) folder.now file.StopTimes) }
{
    let gathered = read_visits(alloc, files, folder, trips, stops)?;
    let visits = arrange(alloc, gathered, trips.len())?;
    Ok(visits)
}

/// What is kept of the files on which stop times rest.
#[derive(Drop)]
struct NetworkTables {
    agencies: Table<AgencyRow>,
    stops: Table<StopRow>,
    routes: Table<RouteRow>,
    trips: Table<TripRow>,
}

/// The rows of agency.txt, stops.txt, routes.txt and trips.txt, or the first fault, file by file.
fn read_network<F: Files>(
    alloc: Global,
    files: &mut F,
    folder: &str,
) -> Result<NetworkTables, LoadFault>
    ensures reads { AnswersFromFiles (F.contents files.old)
        (λ fs. network_where (stored_in fs folder.now)) (F.faults files.old) (F.faults files.new)
        result }
    ensures sound { IfOk result (λ network. IsNetwork network) }
    ensures few_stops { IfOk result (λ network. length network.stops ≤ most_rows) }
    ensures few_trips { IfOk result (λ network. length network.trips ≤ most_rows) }
    ensures same { F.contents files.new ≡ F.contents files.old }
    ensures stops { StopsWith result
        (StopsPart network_where 0 (F.contents files.old) (F.last_fault files.new) folder.now) }
{
    let agencies: Table<AgencyRow> = read_table(alloc, files, folder, &NoReference)?;
    let stops = read_stops(alloc, files, folder)?;
    let known = KnownAgencies {
        agencies: &agencies,
    };
    let routes: Table<RouteRow> = read_table(alloc, files, folder, &known)?;
    let known = KnownRoutes { routes: &routes };
    let trips: Table<TripRow> = read_table(alloc, files, folder, &known)?;
    Ok(NetworkTables {
        agencies,
        stops,
        routes,
        trips,
    })
}

/// What is kept of the files that say on which days a service runs.
#[derive(Drop)]
struct DayTables {
    calendar: Table<CalendarRow>,
    exceptions: Vec<ExceptionRow>,
    /// The ids of the services, rising.
    services: Vec<PlanName>,
    /// For each service its exceptions by rising dates.
    active: Vec<BTreeMap<u32, Exception>>,
}

/// The rows of calendar.txt and calendar_dates.txt with the services that any file names, or the
/// first fault, file by file.
fn read_days<F: Files>(
    alloc: Global,
    files: &mut F,
    folder: &str,
    trips: &Table<TripRow>,
) -> Result<DayTables, LoadFault>
    ensures reads { AnswersFromFiles (F.contents files.old)
        (λ fs. days_where (stored_in fs folder.now)) (F.faults files.old) (F.faults files.new)
        (day_rows_in result) }
    ensures sound { IfOk result (λ days. AreDays trips.now days) }
    ensures same { F.contents files.new ≡ F.contents files.old }
    ensures stops { StopsWith result
        (StopsPart days_where 5 (F.contents files.old) (F.last_fault files.new) folder.now) }
{
    let calendar: Table<CalendarRow> = read_table(alloc, files, folder, &NoReference)?;
    let exceptions: Vec<ExceptionRow> = read_rows(alloc, files, folder)?;
    let services = service_ids(alloc, trips.rows(), calendar.rows(), &exceptions)?;
    let active = group_exceptions(alloc, &exceptions, &services)?;
    Ok(DayTables {
        calendar,
        exceptions,
        services,
        active,
    })
}

/// The rows of the eight files of the folder, or the first fault, file by file.
pub(crate) fn read_tables<F: Files>(
    alloc: Global,
    files: &mut F,
    folder: &str,
) -> Result<Tables, LoadFault>
    ensures reads { ReadsTables (F.contents files.old) (λ fs. dataset_in fs folder.now)
        (F.faults files.old) (F.faults files.new) result }
    ensures same { F.contents files.new ≡ F.contents files.old }
    ensures stops { StopsWith result
        (StopsTables (F.contents files.old) (F.last_fault files.new) folder.now) }
{
    let network = read_network(alloc, files, folder)?;
    let visits = arranged_visits(alloc, files, folder, &network.trips, &network.stops)?;
    let days = read_days(alloc, files, folder, &network.trips)?;
    let frequencies = read_frequencies(alloc, files, folder, &network.trips)?;
    let NetworkTables {
        agencies,
        stops,
        routes,
        trips,
    } = network;
    let DayTables {
        calendar,
        exceptions,
        services,
        active,
    } = days;
    Ok(Tables {
        agencies,
        stops,
        routes,
        trips,
        visits,
        calendar,
        exceptions,
        services,
        active,
        frequencies,
    })
}
