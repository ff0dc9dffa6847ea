//! Boards of the small city and of a line of twenty stops.
use crate::city::{city, city_after, file, plays};
use crate::runs::ends;
use hub_outside::MemoryFile;
use std::alloc::Global;
use std::test::Fail;

/// The stops P1 to P20, a trip that serves them from 08:00:00 on, a minute apart, and its times.
const LINE_STOPS: &str =
    "stop_id\nP1\nP2\nP3\nP4\nP5\nP6\nP7\nP8\nP9\nP10\nP11\nP12\nP13\nP14\nP15\nP16\nP17\nP18\nP19\nP20\n";

const LINE_TRIPS: &str = "route_id,service_id,trip_id\nR7,WK,T\n";

const LINE_TIMES: &str =
    "trip_id,arrival_time,departure_time,stop_id,stop_sequence\nT,08:00:00,08:00:00,P1,1\nT,08:01:00,08:01:00,P2,2\nT,08:02:00,08:02:00,P3,3\nT,08:03:00,08:03:00,P4,4\nT,08:04:00,08:04:00,P5,5\nT,08:05:00,08:05:00,P6,6\nT,08:06:00,08:06:00,P7,7\nT,08:07:00,08:07:00,P8,8\nT,08:08:00,08:08:00,P9,9\nT,08:09:00,08:09:00,P10,10\nT,08:10:00,08:10:00,P11,11\nT,08:11:00,08:11:00,P12,12\nT,08:12:00,08:12:00,P13,13\nT,08:13:00,08:13:00,P14,14\nT,08:14:00,08:14:00,P15,15\nT,08:15:00,08:15:00,P16,16\nT,08:16:00,08:16:00,P17,17\nT,08:17:00,08:17:00,P18,18\nT,08:18:00,08:18:00,P19,19\nT,08:19:00,08:19:00,P20,20\n";

/// The files of the line of twenty stops.
fn line_files(alloc: Global) -> Result<Vec<MemoryFile>, Fail> {
    let line = vec![in alloc;
        file(alloc, "city/stops.txt", LINE_STOPS.as_bytes())?,
        file(alloc, "city/trips.txt", LINE_TRIPS.as_bytes())?,
        file(alloc, "city/stop_times.txt", LINE_TIMES.as_bytes())?,
    ]?;
    city_after(alloc, line)
}

/// The board of the market by the timetable, and what is said where something isn't there.
const PLAIN: [(&[&str], u8, &str); 4] = [
    (
        &[
            "board",
            "city.toml",
            "city",
            "ST",
            "1743314000",
            "3600",
            "2",
            "text",
        ],
        0,
        "stop\tST\tMarket\nexpected\tscheduled\tdelay\tstate\troute\theadsign\ttrip\tdate\tplatform\n1743314400\t1743314400\t-\tscheduled\t7\tHill\tT1\t20250330\tS1\n1743315660\t1743315660\t-\tscheduled\t7\tHill\tT1\t20250330\tS2\n",
    ),
    (
        &[
            "board",
            "city.toml",
            "city",
            "ST",
            "1743314000",
            "3600",
            "1",
            "json",
        ],
        0,
        "{\"name\":\"Market\",\"rows\":[{\"date\":\"20250330\",\"delay\":null,\"expected\":1743314400,\"headsign\":\"Hill\",\"platform\":\"S1\",\"route\":\"7\",\"scheduled\":1743314400,\"state\":\"scheduled\",\"trip\":\"T1\"}],\"stop\":\"ST\"}",
    ),
    (
        &[
            "board",
            "city.toml",
            "city",
            "NO",
            "1743314000",
            "3600",
            "2",
            "text",
        ],
        8,
        "hub: not found\n",
    ),
    (
        &[
            "board",
            "city.toml",
            "town",
            "ST",
            "1743314000",
            "3600",
            "2",
            "text",
        ],
        8,
        "hub: not found\n",
    ),
];

#[test]
fn boards_by_the_timetable(rt: HostRuntime) -> Result<(), Fail> {
    let alloc = rt.alloc();
    for (words, status, told) in PLAIN {
        let told = told.as_bytes();
        assert!(rt; ends(alloc, words, city(alloc)?, b"", status, told)?);
    }
    Ok(())
}

/// Scripts on the city, each with what it prints.
pub(crate) const PLAYED: [(&[u8], &str); 5] = [
    // A trip that is late from its first stop on.
    (
        b"M a 47\n\n\x0d\n\x032.0\x10\x00\x18\xd0\xb8\xa3\xbf\x06\x12\x1e\n\x01u\x1a\x19\n\x0e\n\x02T1\x1a\x0820250330\x12\x07\x08\x01\x1a\x03\x08\xac\x02\nB city ST 1743314000 3600 50 text\nE\n",
        "accepted 1\nboard 242\nstop\tST\tMarket\nexpected\tscheduled\tdelay\tstate\troute\theadsign\ttrip\tdate\tplatform\n1743314700\t1743314400\t300\tlive\t7\tHill\tT1\t20250330\tS1\n1743315660\t1743315660\t-\tscheduled\t7\tHill\tT2\t20250330\tS2\n1743315960\t1743315660\t300\tlive\t7\tHill\tT1\t20250330\tS2\n\n",
    ),
    // The same trip, which moves from S1 to S2 there.
    (
        b"M a 53\n\n\x0d\n\x032.0\x10\x00\x18\xd0\xb8\xa3\xbf\x06\x12$\n\x01u\x1a\x1f\n\x0e\n\x02T1\x1a\x0820250330\x12\x0d\x08\x01\x1a\x03\x08\xac\x022\x04\n\x02S2\nB city ST 1743314000 3600 50 text\nB city S1 1743314000 3600 50 text\nE\n",
        "accepted 1\nboard 242\nstop\tST\tMarket\nexpected\tscheduled\tdelay\tstate\troute\theadsign\ttrip\tdate\tplatform\n1743314700\t1743314400\t300\tlive\t7\tHill\tT1\t20250330\tS2\n1743315660\t1743315660\t-\tscheduled\t7\tHill\tT2\t20250330\tS2\n1743315960\t1743315660\t300\tlive\t7\tHill\tT1\t20250330\tS2\n\nboard 82\nstop\tS1\tMarket A\nexpected\tscheduled\tdelay\tstate\troute\theadsign\ttrip\tdate\tplatform\n\n",
    ),
    // The same, to a stop that isn't there, which moves nothing.
    (
        b"M a 53\n\n\x0d\n\x032.0\x10\x00\x18\xd0\xb8\xa3\xbf\x06\x12$\n\x01u\x1a\x1f\n\x0e\n\x02T1\x1a\x0820250330\x12\x0d\x08\x01\x1a\x03\x08\xac\x022\x04\n\x02S9\nB city ST 1743314000 3600 50 text\nE\n",
        "accepted 1\nboard 242\nstop\tST\tMarket\nexpected\tscheduled\tdelay\tstate\troute\theadsign\ttrip\tdate\tplatform\n1743314700\t1743314400\t300\tlive\t7\tHill\tT1\t20250330\tS1\n1743315660\t1743315660\t-\tscheduled\t7\tHill\tT2\t20250330\tS2\n1743315960\t1743315660\t300\tlive\t7\tHill\tT1\t20250330\tS2\n\n",
    ),
    // Of two feeds with one stamp the first counts.
    (
        b"M a 46\n\n\x0d\n\x032.0\x10\x00\x18\xd0\xb8\xa3\xbf\x06\x12\x1d\n\x01u\x1a\x18\n\x0e\n\x02T1\x1a\x0820250330\x12\x06\x08\x01\x1a\x02\x08<\nM b 46\n\n\x0d\n\x032.0\x10\x00\x18\xd0\xb8\xa3\xbf\x06\x12\x1d\n\x01u\x1a\x18\n\x0e\n\x02T1\x1a\x0820250330\x12\x06\x08\x01\x1a\x02\x08x\nB city ST 1743314000 3600 1 text\nE\n",
        "accepted 1\naccepted 2\nboard 132\nstop\tST\tMarket\nexpected\tscheduled\tdelay\tstate\troute\theadsign\ttrip\tdate\tplatform\n1743314460\t1743314400\t60\tlive\t7\tHill\tT1\t20250330\tS1\n\n",
    ),
    // JSON, a stop and a schedule that are not there, an escaped word, the combined feed of nobody.
    (
        b"B city ST 1743314000 3600 1 json\nB city NO 1743314000 3600 1 text\nB town ST 1743314000 3600 1 text\nB %63ity ST 1743314000 3600 1 json\nO town\nE\n",
        "board 194\n{\"name\":\"Market\",\"rows\":[{\"date\":\"20250330\",\"delay\":null,\"expected\":1743314400,\"headsign\":\"Hill\",\"platform\":\"S1\",\"route\":\"7\",\"scheduled\":1743314400,\"state\":\"scheduled\",\"trip\":\"T1\"}],\"stop\":\"ST\"}\nboard none\nboard none\nboard 194\n{\"name\":\"Market\",\"rows\":[{\"date\":\"20250330\",\"delay\":null,\"expected\":1743314400,\"headsign\":\"Hill\",\"platform\":\"S1\",\"route\":\"7\",\"scheduled\":1743314400,\"state\":\"scheduled\",\"trip\":\"T1\"}],\"stop\":\"ST\"}\nfeed none\n",
    ),
];

#[test]
fn boards_with_messages(rt: HostRuntime) -> Result<(), Fail> {
    for (script, told) in PLAYED {
        assert!(rt; plays(rt.alloc(), script, told)?);
    }
    Ok(())
}

/// Delays along the line: 300 seconds from P3 on, 60 from P8 on, and nothing known from P10 on; and
/// the same with P5 skipped.
const ALONG: [(&[u8], &str); 2] = [
    (
        b"M a 60\n\n\x0d\n\x032.0\x10\x00\x18\xd0\xb8\xa3\xbf\x06\x12+\n\x01u\x1a&\n\x0d\n\x01T\x1a\x0820250330\x12\x07\x08\x03\x1a\x03\x08\xac\x02\x12\x06\x08\x08\x1a\x02\x08<\x12\x04\x08\n(\x02\nB city P2 1743314000 7200 50 text\nB city P7 1743314000 7200 50 text\nB city P9 1743314000 7200 50 text\nB city P10 1743314000 7200 50 text\nE\n",
        "accepted 1\nboard 125\nstop\tP2\t\nexpected\tscheduled\tdelay\tstate\troute\theadsign\ttrip\tdate\tplatform\n1743314460\t1743314460\t-\tscheduled\t7\t\tT\t20250330\tP2\n\nboard 122\nstop\tP7\t\nexpected\tscheduled\tdelay\tstate\troute\theadsign\ttrip\tdate\tplatform\n1743315060\t1743314760\t300\tlive\t7\t\tT\t20250330\tP7\n\nboard 121\nstop\tP9\t\nexpected\tscheduled\tdelay\tstate\troute\theadsign\ttrip\tdate\tplatform\n1743314940\t1743314880\t60\tlive\t7\t\tT\t20250330\tP9\n\nboard 127\nstop\tP10\t\nexpected\tscheduled\tdelay\tstate\troute\theadsign\ttrip\tdate\tplatform\n1743314940\t1743314940\t-\tscheduled\t7\t\tT\t20250330\tP10\n\n",
    ),
    (
        b"M a 66\n\n\x0d\n\x032.0\x10\x00\x18\xd0\xb8\xa3\xbf\x06\x121\n\x01u\x1a,\n\x0d\n\x01T\x1a\x0820250330\x12\x07\x08\x03\x1a\x03\x08\xac\x02\x12\x04\x08\x05(\x01\x12\x06\x08\x08\x1a\x02\x08<\x12\x04\x08\n(\x02\nB city P5 1743314000 7200 50 text\nB city P6 1743314000 7200 50 text\nE\n",
        "accepted 1\nboard 123\nstop\tP5\t\nexpected\tscheduled\tdelay\tstate\troute\theadsign\ttrip\tdate\tplatform\n1743314640\t1743314640\t-\tskipped\t7\t\tT\t20250330\tP5\n\nboard 122\nstop\tP6\t\nexpected\tscheduled\tdelay\tstate\troute\theadsign\ttrip\tdate\tplatform\n1743315000\t1743314700\t300\tlive\t7\t\tT\t20250330\tP6\n\n",
    ),
];

#[test]
fn delays_along_a_line(rt: HostRuntime) -> Result<(), Fail> {
    let alloc = rt.alloc();
    for (script, told) in ALONG {
        let files = line_files(alloc)?;
        let words = ["replay", "city.toml"];
        assert!(rt; ends(alloc, &words, files, script, 0, told.as_bytes())?);
    }
    Ok(())
}
