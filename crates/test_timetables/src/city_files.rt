//! The small city as a folder of files, and what loading such a folder comes to.

use hub_outside::{MemoryFile, MemoryFiles};
use rt_types::Text;
use sched_load::{LoadFault, PlanConf, load};
use sched_types::Plan;
use std::alloc::{AllocError, Global};

pub(crate) const AGENCY: &[u8] = b"agency_id,agency_name\nA,City\n";

pub(crate) const STOPS: &[u8] =
    b"stop_id,stop_name,location_type,parent_station\nST,Market,1,\nS1,Market A,0,ST\nS2,Market B,0,ST\nS3,Harbour,,\nS4,Hill,,\n";

pub(crate) const ROUTES: &[u8] = b"route_id,agency_id,route_short_name,route_type\nR7,A,7,3\n";

pub(crate) const TRIPS: &[u8] =
    b"route_id,service_id,trip_id,trip_headsign,direction_id\nR7,WK,T1,Hill,0\nR7,WK,T2,Hill,0\nR7,WK,N1,Hill,0\n";

pub(crate) const STOP_TIMES: &[u8] =
    b"trip_id,arrival_time,departure_time,stop_id,stop_sequence,pickup_type\nT1,08:00:00,08:00:00,S1,1,\nT1,,,S3,2,\nT1,08:20:00,08:21:00,S2,5,\nT1,08:30:00,08:30:00,S4,9,\nT2,08:21:00,08:21:00,S2,1,0\nT2,8:40:00,8:40:00,S4,2,0\nN1,25:10:00,25:10:00,S1,1,\nN1,25:40:00,25:40:00,S4,2,\n";

pub(crate) const CALENDAR: &[u8] =
    b"service_id,monday,tuesday,wednesday,thursday,friday,saturday,sunday,start_date,end_date\nWK,1,1,1,1,1,1,1,20250329,20250331\n";

/// The rule of the city's zone.
pub(crate) const ZONE: &str = "CET-1CEST,M3.5.0,M10.5.0/3";

/// A file of a folder.
pub(crate) fn file(alloc: Global, path: &str, bytes: &[u8]) -> Result<MemoryFile, AllocError> {
    Ok(MemoryFile {
        path: String::from_str(alloc, path)?,
        bytes: Vec::from_slice(alloc, bytes)?,
    })
}

/// The timetable of a folder on 29 to 31 March 2025, or the fault.
pub(crate) fn loaded(
    alloc: Global,
    files: &mut MemoryFiles,
    folder: &str,
    zone: &str,
) -> Result<Plan, LoadFault> {
    let conf = PlanConf {
        zone: Text::new(alloc, zone)?,
        first: 20_250_329,
        days: 3,
    };
    load(alloc, files, folder, &conf)
}
