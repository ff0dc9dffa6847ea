//! Two timetables in one hub, and corners of boards and lists that they bring along. Each script is
//! played on the two timetables, with what it prints.
use crate::city::{CITY, file};
use crate::runs::ends;
use hub_outside::MemoryFile;
use std::alloc::Global;
use std::test::Fail;

/// The small city with a feed, and a region with two feeds and a window of 400 days.
const CONF: &str =
    "[[schedule]]\nname = \"city\"\nfolder = \"city\"\nzone = \"CET-1CEST,M3.5.0,M10.5.0/3\"\nfirst = \"20250329\"\ndays = 3\n\n[[schedule]]\nname = \"region\"\nfolder = \"region\"\nzone = \"UTC0\"\nfirst = \"20250328\"\ndays = 400\n\n[[feed]]\nname = \"a\"\nschedule = \"city\"\n\n[[feed]]\nname = \"b\"\nschedule = \"region\"\n\n[[feed]]\nname = \"c\"\nschedule = \"region\"\n";

/// The region: a route without a short name, two trips a day, and two on Tuesdays.
const REGION: [(&str, &str); 6] = [
    ("region/agency.txt", "agency_id\nB\n"),
    ("region/stops.txt", "stop_id,stop_name\nQ1,Quay\nQ2,Lake\n"),
    (
        "region/routes.txt",
        "route_id,route_short_name,route_long_name,route_type\nX1,,Lake Express,2\n",
    ),
    (
        "region/trips.txt",
        "route_id,service_id,trip_id,direction_id\nX1,D,T10,1\nX1,D,T2,0\nX1,W,W1,0\nX1,W,W2,0\n",
    ),
    (
        "region/stop_times.txt",
        "trip_id,arrival_time,departure_time,stop_id,stop_sequence\nT10,08:00:00,08:00:00,Q1,1\nT10,09:00:00,09:00:00,Q2,2\nT2,08:00:00,08:00:00,Q1,1\nT2,08:50:00,08:50:00,Q2,2\nW1,10:00:00,10:00:00,Q1,1\nW1,11:00:00,11:00:00,Q2,2\nW2,10:00:00,10:00:00,Q1,1\nW2,11:00:00,11:00:00,Q2,2\n",
    ),
    (
        "region/calendar.txt",
        "service_id,monday,tuesday,wednesday,thursday,friday,saturday,sunday,start_date,end_date\nD,1,1,1,1,1,1,1,20250101,20261231\nW,0,1,0,0,0,0,0,20250101,20261231\n",
    ),
];

/// A script, and what it prints.
type Played = (&'static [u8], &'static [u8]);

const PLAYED: [Played; 13] = [
    // The second timetable: a route without a short name, trips in byte order, live and scheduled;
    // the higher feed counts for its later stamp, and the feeds of the first schedule have no part
    // in it.
    (
        b"M a 47\n\n\x0d\n\x032.0\x10\x00\x18\x80\xf4\xa3\xbf\x06\x12\x1e\n\x01u\x1a\x19\n\x0f\n\x03T10\x1a\x0820250330\x12\x06\x08\x01\x1a\x02\x08<\nM b 43\n\n\t\n\x032.0\x10\x00\x18d\x12\x1e\n\x01u\x1a\x19\n\x0f\n\x03T10\x1a\x0820250330\x12\x06\x08\x01\x1a\x02\x08x\nM c 76\n\n\n\n\x032.0\x10\x00\x18\xc8\x01\x12\x1f\n\x01u\x1a\x1a\n\x0f\n\x03T10\x1a\x0820250330\x12\x07\x08\x01\x1a\x03\x08\xac\x02\x12\x1d\n\x01v\x1a\x18\n\x0e\n\x02T1\x1a\x0820250330\x12\x06\x08\x01\x1a\x02\x08\x05\nB region Q1 1743321000 3600 50 text\nU region\nU city\nS\nE\n",
        b"accepted 1\naccepted 2\naccepted 3\nboard 202\nstop\tQ1\tQuay\nexpected\tscheduled\tdelay\tstate\troute\theadsign\ttrip\tdate\tplatform\n1743321600\t1743321600\t-\tscheduled\tLake Express\t\tT2\t20250330\tQ1\n1743321900\t1743321600\t300\tlive\tLake Express\t\tT10\t20250330\tQ1\n\nunmatched 36\nfeed\tid\tkind\treason\nc\tv\ttrip\tnotrip\n\nunmatched 36\nfeed\tid\tkind\treason\na\tu\ttrip\tnotrip\n\nstatus 75\nentries\t3\nfeed\taccepted\tlast\tentities\na\t1\t1743321600\t1\nb\t1\t100\t1\nc\t1\t200\t2\n\n",
    ),
    // A day in the second year of a window of 400 days.
    (
        b"B region Q1 1774425000 3600 50 text\nB region Q1 1778745000 3600 50 text\nE\n",
        b"board 205\nstop\tQ1\tQuay\nexpected\tscheduled\tdelay\tstate\troute\theadsign\ttrip\tdate\tplatform\n1774425600\t1774425600\t-\tscheduled\tLake Express\t\tT10\t20260325\tQ1\n1774425600\t1774425600\t-\tscheduled\tLake Express\t\tT2\t20260325\tQ1\n\nboard 78\nstop\tQ1\tQuay\nexpected\tscheduled\tdelay\tstate\troute\theadsign\ttrip\tdate\tplatform\n\n",
    ),
    // The combined feed of the second schedule has its feeds alone.
    (
        b"M a 17\n\n\n\n\x032.0\x10\x00\x18\xac\x02\x12\x03\n\x01x\nM b 16\n\n\t\n\x032.0\x10\x00\x18d\x12\x03\n\x01x\nM c 17\n\n\n\n\x032.0\x10\x00\x18\xc8\x01\x12\x03\n\x01x\nO region\nE\n",
        b"accepted 1\naccepted 2\naccepted 3\nfeed 26\n\n\n\n\x032.0\x10\x00\x18\xc8\x01\x12\x05\n\x03b:x\x12\x05\n\x03c:x\n",
    ),
    // Alerts next to a board of the second schedule, by the feeds of that schedule. Of a heading
    // the first translation without a language counts, and an empty language is one.
    (
        b"M a 45\n\n\x0d\n\x032.0\x10\x00\x18\xd0\xb8\xa3\xbf\x06\x12\x1c\n\x01w*\x17*\x04*\x02Q1R\x0f\n\x0d\n\x0bOf the city\nM c 57\n\n\x0d\n\x032.0\x10\x00\x18\xd0\xb8\xa3\xbf\x06\x12(\n\x01w*#*\x04*\x02Q1R\x1b\n\n\n\x06Kai zu\x12\x00\n\x0d\n\x0bQuay closed\nA region Q1 1743321600 3600 50\nE\n",
        b"accepted 1\naccepted 2\nalerts 48\nfeed\tid\tcause\teffect\theader\nc\tw\t-\t-\tQuay closed\n\n",
    ),
    // A text of a selector that is given and empty is the id of nothing.
    (
        b"M a 70\n\n\x0d\n\x032.0\x10\x00\x18\xd0\xb8\xa3\xbf\x06\x12\x19\n\x01v*\x14*\x02*\x00R\x0e\n\x0c\n\nOf nothing\x12\x1a\n\x01w*\x15*\x06\x12\x00*\x02S3R\x0b\n\t\n\x07Harbour\nA city S3 1743314000 3600 50\nE\n",
        b"accepted 1\nalerts 28\nfeed\tid\tcause\teffect\theader\n\n",
    ),
    // An update's own stamp of 0, or of the year 10000, leaves that of its message.
    (
        b"M b 84\n\n\t\n\x032.0\x10\x00\x18d\x12%\n\x01u\x1a \n\x0f\n\x03T10\x1a\x0820250330\x12\x06\x08\x01\x1a\x02\x08x \x80\x83\xd1\xff\xaf\x07\x12 \n\x01v\x1a\x1b\n\x0e\n\x02T2\x1a\x0820250330\x12\x07\x08\x01\x1a\x03\x08\xb4\x01 \x00\nM c 75\n\n\t\n\x032.0\x10\x00\x18c\x12\x1e\n\x01u\x1a\x19\n\x0f\n\x03T10\x1a\x0820250330\x12\x06\x08\x01\x1a\x02\x08<\x12\x1e\n\x01v\x1a\x19\n\x0e\n\x02T2\x1a\x0820250330\x12\x07\x08\x01\x1a\x03\x08\xf0\x01\nB region Q1 1743321000 3600 50 text\nE\n",
        b"accepted 1\naccepted 2\nboard 199\nstop\tQ1\tQuay\nexpected\tscheduled\tdelay\tstate\troute\theadsign\ttrip\tdate\tplatform\n1743321720\t1743321600\t120\tlive\tLake Express\t\tT10\t20250330\tQ1\n1743321780\t1743321600\t180\tlive\tLake Express\t\tT2\t20250330\tQ1\n\n",
    ),
    // is_deleted that is false keeps an entity; one that is true takes it away, with its alert.
    (
        b"M a 49\n\n\x0d\n\x032.0\x10\x01\x18\xd0\xb8\xa3\xbf\x06\x12\x05\n\x01x\x10\x00\x12\x19\n\x01w*\x14*\x04*\x02S3R\x0c\n\n\n\x08Lift out\nA city S3 1743314000 3600 50\nM a 44\n\n\x0d\n\x032.0\x10\x01\x18\xd1\xb8\xa3\xbf\x06\x12\x1b\n\x01w\x10\x01*\x14*\x04*\x02S3R\x0c\n\n\n\x08Lift out\nA city S3 1743314000 3600 50\nO city\nE\n",
        b"accepted 1\nalerts 45\nfeed\tid\tcause\teffect\theader\na\tw\t-\t-\tLift out\n\naccepted 2\nalerts 28\nfeed\tid\tcause\teffect\theader\n\nfeed 24\n\n\x0d\n\x032.0\x10\x00\x18\xd1\xb8\xa3\xbf\x06\x12\x07\n\x03a:x\x10\x00\n",
    ),
    // Added trips with a start_date that is none, and without a trip_id, have no row and are
    // unmatched.
    (
        b"M a 116\n\n\x0d\n\x032.0\x10\x00\x18\xd0\xb8\xa3\xbf\x06\x122\n\x01u\x1a-\n\x0f\n\x02X9\x1a\x072025033 \x01\x12\x0c\x1a\x06\x10\xc4\xbc\xa3\xbf\x06\"\x02S3\x12\x0c\x12\x06\x10\xf0\xbe\xa3\xbf\x06\"\x02S4\x12/\n\x01v\x1a*\n\x0c\x1a\x0820250330 \x01\x12\x0c\x1a\x06\x10\xc4\xbc\xa3\xbf\x06\"\x02S3\x12\x0c\x12\x06\x10\xf0\xbe\xa3\xbf\x06\"\x02S4\nB city S3 1743314000 3600 1 text\nU city\nE\n",
        b"accepted 1\nboard 137\nstop\tS3\tHarbour\nexpected\tscheduled\tdelay\tstate\troute\theadsign\ttrip\tdate\tplatform\n1743315000\t1743315000\t-\tscheduled\t7\tHill\tT1\t20250330\tS3\n\nunmatched 50\nfeed\tid\tkind\treason\na\tu\ttrip\ttext\na\tv\ttrip\tnotrip\n\n",
    ),
    // An empty start_date and an absent one are one added trip.
    (
        b"M a 103\n\n\x0d\n\x032.0\x10\x00\x18\xd0\xb8\xa3\xbf\x06\x12+\n\x01u\x1a&\n\x08\n\x02X9\x1a\x00 \x01\x12\x0c\x1a\x06\x10\xc4\xbc\xa3\xbf\x06\"\x02S3\x12\x0c\x12\x06\x10\xf0\xbe\xa3\xbf\x06\"\x02S4\x12)\n\x01v\x1a$\n\x06\n\x02X9 \x01\x12\x0c\x1a\x06\x10\x80\xbd\xa3\xbf\x06\"\x02S3\x12\x0c\x12\x06\x10\xac\xbf\xa3\xbf\x06\"\x02S4\nB city S3 1743314000 3600 1 text\nE\n",
        b"accepted 1\nboard 111\nstop\tS3\tHarbour\nexpected\tscheduled\tdelay\tstate\troute\theadsign\ttrip\tdate\tplatform\n1743314560\t-\t-\tadded\t\t\tX9\t\tS3\n\n",
    ),
    // Of each reason one: two trips of the route that leave so, a start_time that is none, a day
    // outside of the window, a DUPLICATED trip, a start_date that is no day, a trip that rests, and
    // a vehicle on no trip.
    (
        b"M c 192\n\n\x0d\n\x032.0\x10\x00\x18\xd0\xb8\xa3\xbf\x06\x12!\n\x01a\x1a\x1c\n\x1a\x12\x0810:00:00\x1a\x0820250401*\x02X10\x00\x12\x1e\n\x01b\x1a\x19\n\x17\x12\x058:0:0\x1a\x0820250330*\x02X10\x01\x12\x16\n\x01c\x1a\x11\n\x0f\n\x03T10\x1a\x0820250101\x12\x18\n\x01d\x1a\x13\n\x11\n\x03T10\x1a\x0820250330 \x06\x12\x16\n\x01e\x1a\x11\n\x0f\n\x03T10\x1a\x0820250230\x12\x15\n\x01f\x1a\x10\n\x0e\n\x02W1\x1a\x0820250330\x12\x0b\n\x01g\"\x06\n\x04\n\x02T1\nU region\nE\n",
        b"accepted 1\nunmatched 136\nfeed\tid\tkind\treason\nc\ta\ttrip\tseveral\nc\tb\ttrip\ttext\nc\tc\ttrip\tnoday\nc\td\ttrip\trelation\nc\te\ttrip\ttext\nc\tf\ttrip\tnotactive\nc\tg\tvehicle\tnotrip\n\n",
    ),
    // A departure at just the moment is shown, and one at the end of the span isn't; a negative
    // delay moves one in.
    (
        b"B city S1 1743314400 1 50 text\nB city S1 1743314399 1 50 text\nB city S1 1743314401 1 50 text\nM a 55\n\n\x0d\n\x032.0\x10\x00\x18\xd0\xb8\xa3\xbf\x06\x12&\n\x01u\x1a!\n\x0e\n\x02T1\x1a\x0820250330\x12\x0f\x08\x01\x1a\x0b\x08\x9c\xff\xff\xff\xff\xff\xff\xff\xff\x01\nB city S1 1743314300 1 50 text\nE\n",
        b"board 138\nstop\tS1\tMarket A\nexpected\tscheduled\tdelay\tstate\troute\theadsign\ttrip\tdate\tplatform\n1743314400\t1743314400\t-\tscheduled\t7\tHill\tT1\t20250330\tS1\n\nboard 82\nstop\tS1\tMarket A\nexpected\tscheduled\tdelay\tstate\troute\theadsign\ttrip\tdate\tplatform\n\nboard 82\nstop\tS1\tMarket A\nexpected\tscheduled\tdelay\tstate\troute\theadsign\ttrip\tdate\tplatform\n\naccepted 1\nboard 136\nstop\tS1\tMarket A\nexpected\tscheduled\tdelay\tstate\troute\theadsign\ttrip\tdate\tplatform\n1743314300\t1743314400\t-100\tlive\t7\tHill\tT1\t20250330\tS1\n\n",
    ),
    // A child stop is asked for by itself; a canceled trip and a skipped stop are shown as such; a
    // deleted trip isn't.
    (
        b"M a 69\n\n\x0d\n\x032.0\x10\x00\x18\xd0\xb8\xa3\xbf\x06\x12\x17\n\x01u\x1a\x12\n\x10\n\x02T1\x1a\x0820250330 \x03\x12\x1b\n\x01v\x1a\x16\n\x0e\n\x02T2\x1a\x0820250330\x12\x04\x08\x01(\x01\nB city S2 1743314000 3600 50 text\nM a 40\n\n\x0d\n\x032.0\x10\x00\x18\xd1\xb8\xa3\xbf\x06\x12\x17\n\x01u\x1a\x12\n\x10\n\x02T1\x1a\x0820250330 \x07\nB city S2 1743314000 3600 50 text\nE\n",
        b"accepted 1\nboard 191\nstop\tS2\tMarket B\nexpected\tscheduled\tdelay\tstate\troute\theadsign\ttrip\tdate\tplatform\n1743315660\t1743315660\t-\tcanceled\t7\tHill\tT1\t20250330\tS2\n1743315660\t1743315660\t-\tskipped\t7\tHill\tT2\t20250330\tS2\n\naccepted 2\nboard 138\nstop\tS2\tMarket B\nexpected\tscheduled\tdelay\tstate\troute\theadsign\ttrip\tdate\tplatform\n1743315660\t1743315660\t-\tscheduled\t7\tHill\tT2\t20250330\tS2\n\n",
    ),
    // Feeds are counted over all schedules.
    (
        b"M c 21\n\n\t\n\x032.0\x10\x00\x18\x07\x12\x03\n\x01x\x12\x03\n\x01y\nS\nE\n",
        b"accepted 1\nstatus 62\nentries\t1\nfeed\taccepted\tlast\tentities\na\t0\t0\t0\nb\t0\t0\t0\nc\t1\t7\t2\n\n",
    ),
];

/// The files of the two timetables, without this one.
fn files_without(alloc: Global, absent: &str) -> Result<Vec<MemoryFile>, Fail> {
    let mut files = vec![in alloc; file(alloc, "city.toml", CONF.as_bytes())?]?;
    for (path, text) in CITY {
        files.push(file(alloc, path, text.as_bytes())?)?;
    }
    for (path, text) in REGION {
        if path != absent {
            files.push(file(alloc, path, text.as_bytes())?)?;
        }
    }
    Ok(files)
}

#[test]
fn scripts_of_two_timetables(rt: HostRuntime) -> Result<(), Fail> {
    let alloc = rt.alloc();
    for (script, told) in PLAYED {
        let files = files_without(alloc, "")?;
        assert!(rt; ends(alloc, &["replay", "city.toml"], files, script, 0, told)?);
    }
    Ok(())
}

/// Each timetable has its line, and a fault of the second is told with its name, and alone.
#[test]
fn two_timetables_are_checked(rt: HostRuntime) -> Result<(), Fail> {
    let alloc = rt.alloc();
    let words = ["check", "city.toml"];
    let told =
        b"city agencies 1 stops 5 routes 1 trips 3 times 8 days 3\nregion agencies 1 stops 2 routes 1 trips 4 times 8 days 400\n";
    assert!(rt; ends(alloc, &words, files_without(alloc, "")?, b"", 0, told)?);
    let files = files_without(alloc, "region/trips.txt")?;
    let told = b"hub: load region missing trips.txt\n";
    assert!(rt; ends(alloc, &words, files, b"", 3, told)?);
    Ok(())
}
