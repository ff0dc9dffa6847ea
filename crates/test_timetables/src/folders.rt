//! Folders in memory, and what hinders their loading. Folders at fault are checked in
//! `test_program`.

use crate::city_files::{AGENCY, CALENDAR, ROUTES, STOP_TIMES, STOPS, TRIPS, ZONE, file, loaded};
use hub_outside::MemoryFiles;
use std::alloc::{AllocError, Global};
use std::test::Fail;

/// The folder `city`, of which the calls of these numbers fail.
fn city(alloc: Global, failing: Vec<u64>) -> Result<MemoryFiles, AllocError> {
    let files = vec![in alloc;
        file(alloc, "city/agency.txt", AGENCY)?,
        file(alloc, "city/stops.txt", STOPS)?,
        file(alloc, "city/routes.txt", ROUTES)?,
        file(alloc, "city/trips.txt", TRIPS)?,
        file(alloc, "city/stop_times.txt", STOP_TIMES)?,
        file(alloc, "city/calendar.txt", CALENDAR)?,
    ]?;
    Ok(MemoryFiles::new(files, failing))
}

/// What loading a folder comes to, as text.
fn outcome(alloc: Global, files: &mut MemoryFiles, folder: &str) -> Result<String, AllocError> {
    match loaded(alloc, files, folder, ZONE) {
        Ok(plan) => format!(in alloc; "{:?}", plan.counts()),
        Err(fault) => format!(in alloc; "{fault}"),
    }
}

#[test]
fn loads_a_city(rt: HostRuntime) -> Result<(), Fail> {
    let alloc = rt.alloc();
    let mut files = city(alloc, Vec::new(alloc))?;
    let shown = outcome(alloc, &mut files, "city")?;
    assert_eq!(rt;
        shown.as_str(),
        "Counts { agencies: 1, stops: 5, routes: 1, trips: 3, times: 8, days: 3 }"
    );
    Ok(())
}

#[test]
fn tells_what_hinders(rt: HostRuntime) -> Result<(), Fail> {
    let alloc = rt.alloc();
    let mut files = city(alloc, Vec::new(alloc))?;
    let shown = outcome(alloc, &mut files, "town")?;
    assert_eq!(rt; shown.as_str(), "agency.txt is missing");
    for call in 1..9 {
        let mut files = city(alloc, vec![in alloc; call]?)?;
        let shown = outcome(alloc, &mut files, "city")?;
        assert_eq!(rt; shown.as_str(), "a file could not be read");
    }
    Ok(())
}
