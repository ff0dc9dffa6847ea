//! The services of a dataset, and their exceptions.

ghost use Rattle.std.specs.Prelude.{◌≡◌, ◌≤◌, ◌<◌, ℕ, List, map, IfOk, IfSome, OnOk, length, slice_get, Some, ◌++◌};
ghost use Rattle.sched_types.specs.Timetable.{RisesById, number_of};
ghost use Rattle.gtfs_rows.specs.declared.rows.ExceptionRow.{ExceptionRow};
ghost use Rattle.sched_load_defs.specs.References.{consistent_exceptions, has_id};
ghost use Rattle.row_tables.specs.Order.{texts_seen};
ghost use Rattle.sched_load_defs.specs.Files.{most_rows};
ghost use Rattle.sched_load.specs.Groups.{Groups, exceptions_of};
ghost use Rattle.sched_load.specs.Services.{ids_gathered, services_of};

use crate::groups::{empty_maps, put_new};
use gtfs_rows::{CalendarRow, ExceptionRow, TripRow};
use row_tables::row_number;
use sched_load_defs::{File, LoadFault};
use sched_types::PlanName;
use service_day::Exception;
use std::alloc::{AllocError, Global};
use std::collections::BTreeMap;

/// A row that names a service.
trait ServiceRow {
    ghost service_of: { Self → List ℕ };

    /// Its `service_id`.
    fn service(&self) -> &str
        ensures { result.now ≡ service_of self.now };
}

impl ServiceRow for TripRow {
    ghost service_of = { λ row. row.service_id };

    fn service(&self) -> &str {
        self.service_id.as_str()
    }
}

impl ServiceRow for CalendarRow {
    ghost service_of = { λ row. row.service_id };

    fn service(&self) -> &str {
        self.service_id.as_str()
    }
}

impl ServiceRow for ExceptionRow {
    ghost service_of = { λ row. row.service_id };

    fn service(&self) -> &str {
        self.service_id.as_str()
    }
}

/// Adds the services that the rows name.
fn add_services<'a, R: ServiceRow>(
    rows: &'a [R],
    ids: &mut BTreeMap<&'a str, ()>,
) -> Result<(), AllocError>
    ensures { (before : List (List ℕ)) → texts_seen ids.old.entries ≡ ids_gathered before
        → OnOk result (texts_seen ids.new.entries
        ≡ ids_gathered (before ++ map R.service_of rows.entry.now)) }
{
    for row in rows {
        ids.insert(row.service(), ())?;
    }
    Ok(())
}

/// The ids of a map.
fn names_of(alloc: Global, ids: &BTreeMap<&str, ()>) -> Result<Vec<PlanName>, AllocError>
    ensures { IfOk result (λ names. names.items
        ≡ map (λ entry. entry.0) (texts_seen ids.now.entries)) }
{
    let mut names = Vec::with_capacity(alloc, ids.len())?;
    for (id, _) in ids {
        names.push(PlanName::new(alloc, id)?)?;
    }
    Ok(names)
}

/// The services that any file names, by rising ids.
pub(crate) fn service_ids(
    alloc: Global,
    trips: &[TripRow],
    calendar: &[CalendarRow],
    exceptions: &[ExceptionRow],
) -> Result<Vec<PlanName>, AllocError>
    ensures { IfOk result (λ ids. ids.items ≡ services_of trips.now calendar.now exceptions.now) }
{
    let mut ids = BTreeMap::new(alloc);
    add_services(trips, &mut ids)?;
    add_services(calendar, &mut ids)?;
    add_services(exceptions, &mut ids)?;
    names_of(alloc, &ids)
}

/// The number of a service.
pub(crate) fn service_number(services: &[PlanName], id: &str) -> Option<usize>
    requires { RisesById (λ id. id) services.now }
    ensures value { result ≡ number_of (λ id. id) services.now id.now }
    ensures within { IfSome result (λ number. number < length services.now) }
{
    match services.binary_search_by(|service| service.order(id)) {
        Ok(number) => Some(number),
        Err(_) => None,
    }
}

/// The exceptions of the services by rising dates, or the first row that has the service and the
/// date of an earlier one.
pub(crate) fn group_exceptions(
    alloc: Global,
    rows: &[ExceptionRow],
    services: &[PlanName],
) -> Result<Vec<BTreeMap<u32, Exception>>, LoadFault>
    requires few { length rows.now ≤ most_rows }
    requires rise { RisesById (λ id. id) services.now }
    requires known { (i : ℕ) (row : ExceptionRow) → slice_get rows.now i ≡ Some row → (number : ℕ)
        × (number_of (λ id. id) services.now row.service_id ≡ Some number) }
    requires kinds { (i : ℕ) (row : ExceptionRow) → slice_get rows.now i ≡ Some row
        → row.exception_type ≤ 2 }
    ensures { Groups (consistent_exceptions rows.now) rows.now
        (exceptions_of services.now rows.now) result }
{
    let mut exceptions = empty_maps(alloc, services.len())?;
    for (place, row) in rows.iter().enumerate() {
        let Some(service) = service_number(services, row.service_id.as_str()) else {
            unreachable!()
        };
        let exception = Exception {
            date: row.date,
            kind: row.exception_type as u8,
        };
        if !put_new(&mut exceptions, service, row.date, exception)? {
            return Err(LoadFault::Duplicate {
                file: File::CalendarDates,
                row: row_number(place),
            });
        }
    }
    Ok(exceptions)
}
