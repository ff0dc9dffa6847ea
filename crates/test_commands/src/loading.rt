//! The sample timetable and its configuration, with ample memory.
use hub_load::{HubFault, load_plans};
use hub_outside::{MemoryFile, MemoryFiles};
use sched_types::{NamedFeed, NamedPlan};
use std::alloc::{AllocError, Global};
use std::test::Fail;

const FILES: [(&str, &str); 7] = [
    (
        "city.toml",
        "[[schedule]]\nname = \"city\"\nfolder = \"city\"\nzone = \"CET-1CEST,M3.5.0,M10.5.0/3\"\nfirst = \"20250329\"\ndays = 3\nprefix = \"c:\"\n\n[[feed]]\nname = \"a\"\nschedule = \"city\"\n\n[[feed]]\nname = \"b\"\nschedule = \"city\"\n",
    ),
    ("city/agency.txt", "agency_id,agency_name\nA,City\n"),
    (
        "city/stops.txt",
        "stop_id,stop_name,location_type,parent_station\nST,Market,1,\nS1,Market A,0,ST\nS2,Market B,0,ST\nS3,Harbour,,\nS4,Hill,,\n",
    ),
    (
        "city/routes.txt",
        "route_id,agency_id,route_short_name,route_type\nR7,A,7,3\n",
    ),
    (
        "city/trips.txt",
        "route_id,service_id,trip_id,trip_headsign,direction_id\nR7,WK,T1,Hill,0\nR7,WK,T2,Hill,0\nR7,WK,N1,Hill,0\n",
    ),
    (
        "city/stop_times.txt",
        "trip_id,arrival_time,departure_time,stop_id,stop_sequence,pickup_type\nT1,08:00:00,08:00:00,S1,1,\nT1,,,S3,2,\nT1,08:20:00,08:21:00,S2,5,\nT1,08:30:00,08:30:00,S4,9,\nT2,08:21:00,08:21:00,S2,1,0\nT2,8:40:00,8:40:00,S4,2,0\nN1,25:10:00,25:10:00,S1,1,\nN1,25:40:00,25:40:00,S4,2,\n",
    ),
    (
        "city/calendar.txt",
        "service_id,monday,tuesday,wednesday,thursday,friday,saturday,sunday,start_date,end_date\nWK,1,1,1,1,1,1,1,20250329,20250331\n",
    ),
];

/// The configuration and the files of the timetable. The calls of these numbers fail.
fn city(alloc: Global, failing: Vec<u64>) -> Result<MemoryFiles, AllocError> {
    let mut files = Vec::new(alloc);
    for (name, text) in FILES {
        files.push(MemoryFile {
            path: String::from_str(alloc, name)?,
            bytes: Vec::from_slice(alloc, text.as_bytes())?,
        })?;
    }
    Ok(MemoryFiles::new(files, failing))
}

/// Each timetable by its name, its prefix and how many stops it has.
fn shown_plans(alloc: Global, plans: &[NamedPlan]) -> Result<String, AllocError> {
    let mut shown = String::new(alloc);
    for plan in plans {
        let (name, prefix) = (plan.name.as_str(), plan.prefix.as_str());
        let stops = plan.plan.counts().stops;
        shown.push_str(format!(in alloc; "{name} {prefix} {stops}\n")?.as_str())?;
    }
    Ok(shown)
}

/// Each feed by its name and the number of its timetable.
fn shown_feeds(alloc: Global, feeds: &[NamedFeed]) -> Result<String, AllocError> {
    let mut shown = String::new(alloc);
    for feed in feeds {
        let name = feed.name.as_str();
        let plan = feed.plan;
        shown.push_str(format!(in alloc; "{name} {plan}\n")?.as_str())?;
    }
    Ok(shown)
}

/// Whether these timetables and feeds are loaded.
fn loads(alloc: Global, mut files: MemoryFiles, plans: &str, feeds: &str) -> Result<bool, Fail> {
    match load_plans(alloc, &mut files, "city.toml") {
        Ok(hub) => Ok(
            shown_plans(alloc, hub.plans())?.as_str() == plans
                && shown_feeds(alloc, hub.feeds())?.as_str() == feeds,
        ),
        Err(_) => Ok(false),
    }
}

#[test]
fn the_city_and_its_feeds(rt: HostRuntime) -> Result<(), Fail> {
    let alloc = rt.alloc();
    let files = city(alloc, Vec::new(alloc))?;
    assert!(rt; loads(alloc, files, "city c: 5\n", "a 0\nb 0\n")?);
    Ok(())
}

#[test]
fn a_file_that_cannot_be_read(rt: HostRuntime) -> Result<(), Fail> {
    let alloc = rt.alloc();
    for call in 1..8 {
        let mut files = city(alloc, vec![in alloc; call]?)?;
        let answer = load_plans(alloc, &mut files, "city.toml");
        assert!(rt; matches!(answer, Err(HubFault::FileFault)));
    }
    Ok(())
}
