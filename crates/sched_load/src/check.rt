//! Whether the times of all trips are in order.

ghost use Rattle.std.specs.Prelude.{List};
ghost use Rattle.gtfs_rows.specs.declared.rows.StopTimeRow.{StopTimeRow};
ghost use Rattle.sched_load_defs.specs.Loading.{times_fault};
ghost use Rattle.sched_load.specs.Built.{TimesAre};
ghost use Rattle.sched_load.specs.Tables.{AreRead, WereRead, dataset_of};

use crate::tables::Tables;
use crate::times::are_times;
use crate::visits::visits_of;
use row_tables::row_number;
use sched_load_defs::LoadFault;

/// Whether the times of all trips are in order, or the first row of trips.txt whose trip's are not.
pub(crate) fn check_times(tables: &Tables) -> Result<(), LoadFault>
    requires { WereRead tables.now }
    ensures { (rows : List StopTimeRow) → AreRead tables.now rows
        → TimesAre (dataset_of tables.now rows) result }
{
    for (place, row) in tables.trips.rows().iter().enumerate() {
        let Some(trip) = tables.trips.number_of(row.trip_id.as_str()) else {
            unreachable!()
        };
        if !are_times(visits_of(tables.visits.as_slice(), trip as u32)) {
            return Err(LoadFault::TripTimes {
                row: row_number(place),
            });
        }
    }
    Ok(())
}
