//! The lists next to a board, and the row of an added trip, of the small city and of a hub without
//! a timetable.
use crate::city::plays;
use crate::runs::replays;
use std::test::Fail;

/// The lift is out: an alert on the stop S3 from 07:53:20 up to 08:10, with its heading alone.
const LIFT_OUT: &[u8] =
    b"M a 52\n\x0a\x09\x0a\x032.0\x10\x00\x18\x05\x12'\x0a\x01w*\"\x0a\x0c\x08\xd0\xb8\xa3\xbf\x06\x10\xb8\xc0\xa3\xbf\x06*\x04*\x02S3R\x0c\x0a\x0a\x0a\x08Lift out\nA city S3 1743314999 3600 50\nA city S3 1743315000 3600 50\nA city NO 1743314999 3600 50\nA town S3 1743314999 3600 50\nE\n";

const LIFT_OUT_TOLD: &str =
    "accepted 1\nalerts 45\nfeed\tid\tcause\teffect\theader\na\tw\t-\t-\tLift out\n\nalerts 28\nfeed\tid\tcause\teffect\theader\n\nalerts none\nalerts none\n";

/// An alert without selectors, and one on the route R7 at the stop S3: the first is never listed,
/// the second where a departure of the route is among the rows, and not for the stop alone.
const ROUTE_LATE: &[u8] =
    b"M a 65\n\x0a\x09\x0a\x032.0\x10\x00\x18\x05\x12\x15\x0a\x01v*\x10R\x0e\x0a\x0c\x0a\x0aOf nothing\x12\x1d\x0a\x01w*\x18*\x08\x12\x02R7*\x02S30\x098\x03R\x08\x0a\x06\x0a\x04Late\nA city S3 1743314000 3600 50\nA city S3 1743314000 600 50\nE\n";

const ROUTE_LATE_TOLD: &str =
    "accepted 1\nalerts 41\nfeed\tid\tcause\teffect\theader\na\tw\t9\t3\tLate\n\nalerts 28\nfeed\tid\tcause\teffect\theader\n\n";

/// An update of a trip that isn't there.
const STRANGER: &[u8] =
    b"M a 47\n\x0a\x0d\x0a\x032.0\x10\x00\x18\xd0\xb8\xa3\xbf\x06\x12\x1e\x0a\x01u\x1a\x19\x0a\x0e\x0a\x02T8\x1a\x0820250330\x12\x07\x08\x01\x1a\x03\x08\xac\x02\nU city\nU town\nS\nE\n";

const STRANGER_TOLD: &str =
    "accepted 1\nunmatched 36\nfeed\tid\tkind\treason\na\tu\ttrip\tnotrip\n\nunmatched none\nstatus 63\nentries\t1\nfeed\taccepted\tlast\tentities\na\t1\t1743314000\t1\nb\t0\t0\t0\n\n";

/// The same alert, asked for as JSON on a connection.
const LIFT_OUT_SERVED: &[u8] =
    b"M a 52\n\x0a\x09\x0a\x032.0\x10\x00\x18\x05\x12'\x0a\x01w*\"\x0a\x0c\x08\xd0\xb8\xa3\xbf\x06\x10\xb8\xc0\xa3\xbf\x06*\x04*\x02S3R\x0c\x0a\x0a\x0a\x08Lift out\nQ 1743314999 44\nGET /alerts/city/S3?format=json HTTP/1.1\r\n\r\n\nE\n";

const LIFT_OUT_SERVED_TOLD: &str =
    "accepted 1\nconnection 233 ended\nHTTP/1.1 200 OK\r\nContent-Type: application/json\r\nContent-Length: 93\r\nX-Hub-Sequence: 1\r\nX-Hub-Moment: 1743314999\r\nConnection: keep-alive\r\n\r\n{\"alerts\":[{\"cause\":null,\"effect\":null,\"feed\":\"a\",\"header\":\"Lift out\",\"id\":\"w\"}],\"stop\":\"S3\"}\n";

#[test]
fn alerts_are_served_as_json(rt: HostRuntime) -> Result<(), Fail> {
    assert!(rt; plays(rt.alloc(), LIFT_OUT_SERVED, LIFT_OUT_SERVED_TOLD)?);
    Ok(())
}

#[test]
fn alerts_are_listed_while_they_are_active(rt: HostRuntime) -> Result<(), Fail> {
    assert!(rt; plays(rt.alloc(), LIFT_OUT, LIFT_OUT_TOLD)?);
    Ok(())
}

#[test]
fn alerts_on_a_route_are_listed_with_its_rows(rt: HostRuntime) -> Result<(), Fail> {
    assert!(rt; plays(rt.alloc(), ROUTE_LATE, ROUTE_LATE_TOLD)?);
    Ok(())
}

#[test]
fn updates_of_unknown_trips_are_listed(rt: HostRuntime) -> Result<(), Fail> {
    assert!(rt; plays(rt.alloc(), STRANGER, STRANGER_TOLD)?);
    Ok(())
}

/// An added trip of the route R7 that leaves S3 at 08:01:40 and arrives at S4 five minutes later.
/// It tells no date.
const ADDED_TRIP: &[u8] =
    b"M a 62\n\x0a\x0d\x0a\x032.0\x10\x00\x18\xd0\xb8\xa3\xbf\x06\x12-\x0a\x01u\x1a(\x0a\x0a\x0a\x02X9 \x01*\x02R7\x12\x0c\x1a\x06\x10\xc4\xbc\xa3\xbf\x06\"\x02S3\x12\x0c\x12\x06\x10\xf0\xbe\xa3\xbf\x06\"\x02S4\nB city S3 1743314000 3600 50 text\nU city\nE\n";

/// It has a row in front of the timetable's, and isn't unmatched.
const ADDED_TRIP_TOLD: &str =
    "accepted 1\nboard 168\nstop\tS3\tHarbour\nexpected\tscheduled\tdelay\tstate\troute\theadsign\ttrip\tdate\tplatform\n1743314500\t-\t-\tadded\t7\t\tX9\t\tS3\n1743315000\t1743315000\t-\tscheduled\t7\tHill\tT1\t20250330\tS3\n\nunmatched 20\nfeed\tid\tkind\treason\n\n";

#[test]
fn an_added_trip_has_a_row(rt: HostRuntime) -> Result<(), Fail> {
    assert!(rt; plays(rt.alloc(), ADDED_TRIP, ADDED_TRIP_TOLD)?);
    Ok(())
}

/// The status after one message without an entity.
const STATUS_TOLD: &[u8] =
    b"accepted 1\nstatus 46\nentries\t1\nfeed\taccepted\tlast\tentities\na\t1\t5\t0\n\n";

#[test]
fn the_status_counts_messages(rt: HostRuntime) -> Result<(), Fail> {
    let script = b"F a\nM a 11\n\x0a\x09\x0a\x032.0\x10\x00\x18\x05\nS\nE\n";
    assert!(rt; replays(rt.alloc(), script, 0, STATUS_TOLD)?);
    Ok(())
}
