//! The files of the small city: a configuration with two feeds, and a timetable of three trips.
use crate::runs::ends;
use hub_outside::MemoryFile;
use std::alloc::Global;
use std::test::Fail;

pub(crate) const CITY_CONF: &str =
    "[[schedule]]\nname = \"city\"\nfolder = \"city\"\nzone = \"CET-1CEST,M3.5.0,M10.5.0/3\"\nfirst = \"20250329\"\ndays = 3\n\n[[feed]]\nname = \"a\"\nschedule = \"city\"\n\n[[feed]]\nname = \"b\"\nschedule = \"city\"\n";

const AGENCY: &str = "agency_id,agency_name\nA,City\n";

const STOPS: &str =
    "stop_id,stop_name,location_type,parent_station\nST,Market,1,\nS1,Market A,0,ST\nS2,Market B,0,ST\nS3,Harbour,,\nS4,Hill,,\n";

const ROUTES: &str = "route_id,agency_id,route_short_name,route_type\nR7,A,7,3\n";

const TRIPS: &str =
    "route_id,service_id,trip_id,trip_headsign,direction_id\nR7,WK,T1,Hill,0\nR7,WK,T2,Hill,0\nR7,WK,N1,Hill,0\n";

const STOP_TIMES: &str =
    "trip_id,arrival_time,departure_time,stop_id,stop_sequence,pickup_type\nT1,08:00:00,08:00:00,S1,1,\nT1,,,S3,2,\nT1,08:20:00,08:21:00,S2,5,\nT1,08:30:00,08:30:00,S4,9,\nT2,08:21:00,08:21:00,S2,1,0\nT2,8:40:00,8:40:00,S4,2,0\nN1,25:10:00,25:10:00,S1,1,\nN1,25:40:00,25:40:00,S4,2,\n";

const CALENDAR: &str =
    "service_id,monday,tuesday,wednesday,thursday,friday,saturday,sunday,start_date,end_date\nWK,1,1,1,1,1,1,1,20250329,20250331\n";

/// The files of the configuration and of the timetable.
pub(crate) const CITY: [(&str, &str); 7] = [
    ("city.toml", CITY_CONF),
    ("city/agency.txt", AGENCY),
    ("city/stops.txt", STOPS),
    ("city/routes.txt", ROUTES),
    ("city/trips.txt", TRIPS),
    ("city/stop_times.txt", STOP_TIMES),
    ("city/calendar.txt", CALENDAR),
];

/// A file in memory.
pub(crate) fn file(alloc: Global, path: &str, bytes: &[u8]) -> Result<MemoryFile, Fail> {
    Ok(MemoryFile {
        path: String::from_str(alloc, path)?,
        bytes: bytes.to_vec(alloc)?,
    })
}

/// The files of the city after these: the first of a path counts.
pub(crate) fn city_after(
    alloc: Global,
    mut files: Vec<MemoryFile>,
) -> Result<Vec<MemoryFile>, Fail> {
    for (path, text) in CITY {
        files.push(file(alloc, path, text.as_bytes())?)?;
    }
    Ok(files)
}

/// The files of the city, with that one in place of its own.
pub(crate) fn city_with(alloc: Global, path: &str, bytes: &[u8]) -> Result<Vec<MemoryFile>, Fail> {
    city_after(alloc, vec![in alloc; file(alloc, path, bytes)?]?)
}

/// The files of the city.
pub(crate) fn city(alloc: Global) -> Result<Vec<MemoryFile>, Fail> {
    city_after(alloc, Vec::new(alloc))
}

/// Whether a script on the city is done and prints just that.
pub(crate) fn plays(alloc: Global, script: &[u8], told: &str) -> Result<bool, Fail> {
    let words = ["replay", "city.toml"];
    ends(alloc, &words, city(alloc)?, script, 0, told.as_bytes())
}

/// The bytes of a text with its first `from` turned into `to`.
pub(crate) fn turned(alloc: Global, text: &str, from: &str, to: &[u8]) -> Result<Vec<u8>, Fail> {
    let Some((before, after)) = text.split_once(from) else {
        return Ok(text.as_bytes().to_vec(alloc)?);
    };
    let mut bytes = before.as_bytes().to_vec(alloc)?;
    bytes.extend_from_slice(to)?;
    bytes.extend_from_slice(after.as_bytes())?;
    Ok(bytes)
}
