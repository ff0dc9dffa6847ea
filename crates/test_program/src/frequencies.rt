//! The small city with a trip that frequencies.txt names.
use crate::city::{city_with, turned};
use crate::runs::ends;
use std::test::Fail;

const FREQUENCIES: &str = "city/frequencies.txt";

/// T2 runs every half hour from 09:00:00 on, for the last time at 09:30:00.
const HALF_HOURS: &str =
    "trip_id,start_time,end_time,headway_secs,exact_times\nT2,09:00:00,09:31:00,1800,1\n";

/// The same row twice.
const TWICE: &str =
    "trip_id,start_time,end_time,headway_secs,exact_times\nT2,09:00:00,09:31:00,1800,1\nT2,09:00:00,09:31:00,1800,1\n";

/// Files of which the city takes up one, each with what checking it says.
const CHECKED: [(&str, u8, &str); 6] = [
    // Patterns are counted as the rows of their files, and derived trips aren't.
    (
        HALF_HOURS,
        0,
        "city agencies 1 stops 5 routes 1 trips 3 times 8 days 3\n",
    ),
    (TWICE, 3, "hub: load city duplicate frequencies.txt 3\n"),
    (
        "trip_id,start_time,end_time,headway_secs\nT2,09:00:00,09:31:00,1800\nT3,09:00:00,09:31:00,1800\n",
        3,
        "hub: load city reference frequencies.txt 3 trip_id\n",
    ),
    (
        "trip_id,start_time,end_time,headway_secs,exact_times\nT2,09:00:00,09:31:00,0,1\n",
        3,
        "hub: load city value frequencies.txt 2 headway_secs\n",
    ),
    (
        "trip_id,start_time,end_time,exact_times\nT2,09:00:00,09:31:00,1\n",
        3,
        "hub: load city column frequencies.txt headway_secs\n",
    ),
    (
        "trip_id,start_time,end_time,headway_secs,exact_times\nT2,00:00:00,999:59:59,1,1\n",
        3,
        "hub: load city many frequencies.txt\n",
    ),
];

#[test]
fn frequencies_are_checked(rt: HostRuntime) -> Result<(), Fail> {
    let alloc = rt.alloc();
    for (text, status, told) in CHECKED {
        let files = city_with(alloc, FREQUENCIES, text.as_bytes())?;
        let words = ["check", "city.toml"];
        assert!(rt;
            ends(alloc, &words, files, b"", status, told.as_bytes())?,
            "{told}"
        );
    }
    Ok(())
}

/// Scripts on the city in which T2 runs every half hour, each with what it prints.
const PLAYED: [(&[u8], &str); 3] = [
    // By the timetable.
    (
        b"B city ST 1743314000 7200 50 text\nE\n",
        "board 322\nstop\tST\tMarket\nexpected\tscheduled\tdelay\tstate\troute\theadsign\ttrip\tdate\tplatform\n1743314400\t1743314400\t-\tscheduled\t7\tHill\tT1\t20250330\tS1\n1743315660\t1743315660\t-\tscheduled\t7\tHill\tT1\t20250330\tS2\n1743318000\t1743318000\t-\tscheduled\t7\tHill\tT2@09:00:00\t20250330\tS2\n1743319800\t1743319800\t-\tscheduled\t7\tHill\tT2@09:30:00\t20250330\tS2\n\n",
    ),
    // An update of T2 that doesn't say at which start.
    (
        b"M a 46\n\n\x0d\n\x032.0\x10\x00\x18\xd0\xb8\xa3\xbf\x06\x12\x1d\n\x01u\x1a\x18\n\x0e\n\x02T2\x1a\x0820250330\x12\x06\x08\x01\x1a\x02\x08<\nU city\nE\n",
        "accepted 1\nunmatched 37\nfeed\tid\tkind\treason\na\tu\ttrip\tseveral\n\n",
    ),
    // One that does.
    (
        b"M a 55\n\n\x0d\n\x032.0\x10\x00\x18\xd0\xb8\xa3\xbf\x06\x12&\n\x01u\x1a!\n\x17\n\x02T2\x12\x079:30:00\x1a\x0820250330\x12\x06\x08\x01\x1a\x02\x08<\nU city\nB city ST 1743314000 7200 50 text\nE\n",
        "accepted 1\nunmatched 20\nfeed\tid\tkind\treason\n\nboard 318\nstop\tST\tMarket\nexpected\tscheduled\tdelay\tstate\troute\theadsign\ttrip\tdate\tplatform\n1743314400\t1743314400\t-\tscheduled\t7\tHill\tT1\t20250330\tS1\n1743315660\t1743315660\t-\tscheduled\t7\tHill\tT1\t20250330\tS2\n1743318000\t1743318000\t-\tscheduled\t7\tHill\tT2@09:00:00\t20250330\tS2\n1743319860\t1743319800\t60\tlive\t7\tHill\tT2@09:30:00\t20250330\tS2\n\n",
    ),
];

#[test]
fn a_pattern_runs_at_its_starts(rt: HostRuntime) -> Result<(), Fail> {
    let alloc = rt.alloc();
    for (script, told) in PLAYED {
        let files = city_with(alloc, FREQUENCIES, HALF_HOURS.as_bytes())?;
        let words = ["replay", "city.toml"];
        assert!(rt; ends(alloc, &words, files, script, 0, told.as_bytes())?);
    }
    Ok(())
}

const INEXACT: &[u8] =
    b"M a 55\n\n\x0d\n\x032.0\x10\x00\x18\xd0\xb8\xa3\xbf\x06\x12&\n\x01u\x1a!\n\x17\n\x02T2\x12\x079:30:00\x1a\x0820250330\x12\x06\x08\x01\x1a\x02\x08<\nU city\nB city ST 1743314000 7200 50 text\nE\n";

const INEXACT_TOLD: &str =
    "accepted 1\nunmatched 36\nfeed\tid\tkind\treason\na\tu\ttrip\tnotrip\n\nboard 192\nstop\tST\tMarket\nexpected\tscheduled\tdelay\tstate\troute\theadsign\ttrip\tdate\tplatform\n1743314400\t1743314400\t-\tscheduled\t7\tHill\tT1\t20250330\tS1\n1743315660\t1743315660\t-\tscheduled\t7\tHill\tT1\t20250330\tS2\n\n";

/// Rows whose exact_times is 0 or empty: T2 isn't shown, and an update of it is of no trip.
#[test]
fn a_pattern_without_exact_times_has_no_runs(rt: HostRuntime) -> Result<(), Fail> {
    let alloc = rt.alloc();
    let text = turned(alloc, HALF_HOURS, "1800,1", b"1800,0")?;
    let files = city_with(alloc, FREQUENCIES, &text)?;
    let words = ["replay", "city.toml"];
    assert!(rt; ends(alloc, &words, files, INEXACT, 0, INEXACT_TOLD.as_bytes())?);
    Ok(())
}
