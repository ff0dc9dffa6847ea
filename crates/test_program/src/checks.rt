//! Checks of the small city and of changed copies of it.
use crate::city::{CITY, CITY_CONF, city, city_with, file, turned};
use crate::runs::{ends, run};
use hub_outside::{MemoryFile, MemoryFiles, MemorySource};
use std::alloc::Global;
use std::test::Fail;

const CITY_LINE: &str = "city agencies 1 stops 5 routes 1 trips 3 times 8 days 3\n";

/// Whether `check city.toml` on the files ends with that status and prints that.
fn checks(alloc: Global, files: Vec<MemoryFile>, status: u8, told: &str) -> Result<bool, Fail> {
    let words = ["check", "city.toml"];
    ends(alloc, &words, files, b"", status, told.as_bytes())
}

/// The same of the timetable with one file in place of its own.
fn changed(alloc: Global, path: &str, bytes: &[u8], status: u8, told: &str) -> Result<bool, Fail> {
    checks(alloc, city_with(alloc, path, bytes)?, status, told)
}

/// Files of the timetable with a byte order mark, swapped columns, a column more, and rows cut
/// before empty last fields.
const VARIANTS: [(&str, &str); 5] = [
    ("none", ""),
    ("city/agency.txt", "\u{feff}agency_id,agency_name\nA,City\n"),
    (
        "city/routes.txt",
        "route_type,agency_id,route_id,route_short_name\n3,A,R7,7\n",
    ),
    (
        "city/agency.txt",
        "agency_id,agency_name,agency_url\nA,City,none\n",
    ),
    (
        "city/stops.txt",
        "stop_id,stop_name,location_type,parent_station\nST,Market,1\nS1,Market A,0,ST\nS2,Market B,0,ST\nS3,Harbour\nS4,Hill\n",
    ),
];

#[test]
fn the_city_and_its_variants(rt: HostRuntime) -> Result<(), Fail> {
    for (path, text) in VARIANTS {
        assert!(rt; changed(rt.alloc(), path, text.as_bytes(), 0, CITY_LINE)?);
    }
    Ok(())
}

/// Other timetables that load: exceptions of two services on one day, two agencies, a trip whose
/// only place has no time, and a window that ends in the year 3001.
const LOADED: [(&str, &str, &str); 4] = [
    (
        "city/calendar_dates.txt",
        "service_id,date,exception_type\nWK,20250330,2\nXX,20250330,1\n",
        CITY_LINE,
    ),
    (
        "city/agency.txt",
        "agency_id,agency_name\nA,City\nB,Region\n",
        "city agencies 2 stops 5 routes 1 trips 3 times 8 days 3\n",
    ),
    (
        "city/stop_times.txt",
        "trip_id,arrival_time,departure_time,stop_id,stop_sequence\nT1,,,S1,1\n",
        "city agencies 1 stops 5 routes 1 trips 3 times 1 days 3\n",
    ),
    (
        "city.toml",
        "[[schedule]]\nname = \"city\"\nfolder = \"city\"\nzone = \"UTC0\"\nfirst = \"29991231\"\ndays = 400\n",
        "city agencies 1 stops 5 routes 1 trips 3 times 8 days 400\n",
    ),
];

#[test]
fn other_timetables(rt: HostRuntime) -> Result<(), Fail> {
    for (path, text, told) in LOADED {
        assert!(rt; changed(rt.alloc(), path, text.as_bytes(), 0, told)?);
    }
    Ok(())
}

/// Words, and how many files they read until one is there that may not be read.
const UNREADABLE: [(&[&str], u64); 4] = [
    (&["check", "city.toml"], 1),
    (&["check", "city.toml"], 8),
    (&["replay", "city.toml"], 2),
    (
        &[
            "board",
            "city.toml",
            "city",
            "ST",
            "1743314000",
            "3600",
            "2",
            "text",
        ],
        7,
    ),
];

/// Such a file is a fault, and not an absent one.
#[test]
fn a_file_that_cannot_be_read(rt: HostRuntime) -> Result<(), Fail> {
    let alloc = rt.alloc();
    for (words, call) in UNREADABLE {
        let files = MemoryFiles::new(city(alloc)?, vec![in alloc; call]?);
        let input = MemorySource::new(b"E\n".to_vec(alloc)?, Vec::new(alloc), Vec::new(alloc));
        let ran = run(alloc, words, files, input, Vec::new(alloc))?;
        assert_eq!(rt; ran.status, 4);
        assert_eq!(rt; ran.written.as_slice(), b"hub: file fault\n".as_slice());
    }
    Ok(())
}

/// A change of the city's files, and what is said then.
#[derive(Drop)]
struct Change {
    path: &'static str,
    turn: Turn,
    told: &'static str,
}

/// What becomes of a file.
#[derive(Clone, Copy)]
enum Turn {
    /// It is absent.
    Absent,
    /// The first of these texts in it is turned into these bytes.
    Into(&'static str, &'static [u8]),
}

const CHANGES: [Change; 13] = [
    Change {
        path: "city.toml",
        turn: Turn::Absent,
        told: "hub: config absent\n",
    },
    Change {
        path: "city.toml",
        turn: Turn::Into("[[schedule]]", b"readers = 0\n[[schedule]]"),
        told: "hub: config top 0 readers bad\n",
    },
    Change {
        path: "city.toml",
        turn: Turn::Into("[[schedule]]", b"="),
        told: "hub: config toml\n",
    },
    Change {
        path: "city.toml",
        turn: Turn::Into("CET-1CEST,M3.5.0,M10.5.0/3", b""),
        told: "hub: load city zone\n",
    },
    Change {
        path: "city/agency.txt",
        turn: Turn::Absent,
        told: "hub: load city missing agency.txt\n",
    },
    Change {
        path: "city/trips.txt",
        turn: Turn::Absent,
        told: "hub: load city missing trips.txt\n",
    },
    Change {
        path: "city/stop_times.txt",
        turn: Turn::Into("stop_sequence", b"place"),
        told: "hub: load city column stop_times.txt stop_sequence\n",
    },
    Change {
        path: "city/stop_times.txt",
        turn: Turn::Into("T1,08:00:00", b"T1,08:61:00"),
        told: "hub: load city value stop_times.txt 2 arrival_time\n",
    },
    Change {
        path: "city/trips.txt",
        turn: Turn::Into("R7,WK,T1", b"R8,WK,T1"),
        told: "hub: load city reference trips.txt 2 route_id\n",
    },
    Change {
        path: "city/stops.txt",
        turn: Turn::Into("S4,Hill,,\n", b"S4,Hill,,\nST,Market,1,\n"),
        told: "hub: load city duplicate stops.txt 7\n",
    },
    Change {
        path: "city/stops.txt",
        turn: Turn::Into("Market A,0,ST", b"Market A,0,SX"),
        told: "hub: load city reference stops.txt 3 parent_station\n",
    },
    Change {
        path: "city/stops.txt",
        turn: Turn::Into("Market B", b"Market \xff"),
        told: "hub: load city text stops.txt 4 stop_name\n",
    },
    Change {
        path: "city/stop_times.txt",
        turn: Turn::Into("08:20:00,08:21:00,S2,5", b"08:20:00,08:19:00,S2,5"),
        told: "hub: load city times 2\n",
    },
];

/// The files of the city after that change.
fn changed_city(alloc: Global, change: &Change) -> Result<Vec<MemoryFile>, Fail> {
    let mut files = Vec::new(alloc);
    for (path, text) in CITY {
        if path != change.path {
            files.push(file(alloc, path, text.as_bytes())?)?;
        } else if let Turn::Into(from, to) = change.turn {
            let bytes = turned(alloc, text, from, to)?;
            files.push(file(alloc, path, &bytes)?)?;
        }
    }
    Ok(files)
}

#[test]
fn changed_copies_of_the_city(rt: HostRuntime) -> Result<(), Fail> {
    for change in &CHANGES {
        let told = change.told;
        let files = changed_city(rt.alloc(), change)?;
        assert!(rt; checks(rt.alloc(), files, 3, told)?, "{told}");
    }
    Ok(())
}

#[test]
fn a_city_without_calendar(rt: HostRuntime) -> Result<(), Fail> {
    let alloc = rt.alloc();
    let change = Change {
        path: "city/calendar.txt",
        turn: Turn::Absent,
        told: CITY_LINE,
    };
    assert!(rt; checks(alloc, changed_city(alloc, &change)?, 0, change.told)?);
    Ok(())
}

/// The configuration with a comment that makes it so long.
fn long_conf(alloc: Global, length: usize) -> Result<Vec<u8>, Fail> {
    let mut conf = CITY_CONF.as_bytes().to_vec(alloc)?;
    conf.push(b'#')?;
    let rest = length.saturating_sub(conf.len());
    conf.extend_from_slice(&vec![in alloc; b' '; rest]?)?;
    Ok(conf)
}

#[test]
fn longest_configuration(rt: HostRuntime) -> Result<(), Fail> {
    let alloc = rt.alloc();
    let most = long_conf(alloc, 1_048_576)?;
    assert!(rt; changed(alloc, "city.toml", &most, 0, CITY_LINE)?);
    let more = long_conf(alloc, 1_048_577)?;
    assert!(rt; changed(alloc, "city.toml", &more, 3, "hub: config long\n")?);
    Ok(())
}
