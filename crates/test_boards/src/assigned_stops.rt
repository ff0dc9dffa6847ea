//! Departures that an update moves to another stop, in the small city (GTFS Realtime,
//! StopTimeProperties, assigned_stop_id).

ghost use Rattle.std.specs.Prelude.{◌≡◌, Some, IfOk};
ghost use Rattle.view_answers.specs.Questions.{question_seen};
ghost use Rattle.board_text_defs.specs.Answers.{IsAsked};

use crate::boards::board;
use board_core::{HubView, Row, RowsFault};
use board_parts::Oracle;
use board_text_defs::BoardAsked;
use hub_state::ReplayHub;
use rt_types::{
    Entity, FeedMessage, Shared, StopProps, StopRelation, StopUpdate, StopUpdates, Text, TripRef,
    TripRelation, TripUpdate,
};
use sample_city::{MOMENT, MOVED, NoMemory, UPDATE, dataset_of, last_stamp, no_bytes, two_feeds};
use std::alloc::{AllocError, Global};
use std::test::Fail;
use view_answers::{Question, answer};

/// A message of stamp 1743314000 with the alerts `at1` and `at2`, on departures of the route R7 at
/// S1 and at S2.
const NOTICES: [u8; 53] = [
    0x0a, 0x0d, 0x0a, 0x03, 0x32, 0x2e, 0x30, 0x10, 0x00, 0x18, 0xd0, 0xb8, 0xa3, 0xbf, 0x06, 0x12,
    0x11, 0x0a, 0x03, 0x61, 0x74, 0x31, 0x2a, 0x0a, 0x2a, 0x08, 0x12, 0x02, 0x52, 0x37, 0x2a, 0x02,
    0x53, 0x31, 0x12, 0x11, 0x0a, 0x03, 0x61, 0x74, 0x32, 0x2a, 0x0a, 0x2a, 0x08, 0x12, 0x02, 0x52,
    0x37, 0x2a, 0x02, 0x53, 0x32,
];

/// The board of a stop for an hour.
fn board_of<'a>(stop: &'a str) -> Question<'a>
    ensures { IsAsked (question_seen result) }
{
    Question::Board(BoardAsked {
        schedule: "city",
        stop,
        at: 1_743_314_000,
        span: 3600,
        limit: 50,
        json: false,
    })
}

/// The alerts beside the first departure of the market.
fn first_alerts<'a>() -> Question<'a>
    ensures { IsAsked (question_seen result) }
{
    Question::Alerts(BoardAsked {
        schedule: "city",
        stop: "ST",
        at: 1_743_314_000,
        span: 3600,
        limit: 1,
        json: false,
    })
}

/// Whether a question is answered by that text after a message of the feed a, and the alerts of b.
fn answers(alloc: Global, message: &[u8], question: &Question<'_>, text: &str) -> Result<bool, Fail>
    requires { IsAsked (question_seen question.now) }
{
    let mut hub = ReplayHub::new(alloc, two_feeds(alloc)?)?;
    hub.offer(0, message)?;
    hub.offer(1, &NOTICES)?;
    let mut out = Vec::new(alloc);
    let is_there = answer(alloc, hub.view(), question, &mut out)?;
    Ok(is_there && out.as_slice() == text.as_bytes())
}

/// The board of the market where T1 leaves its first stop late, as the timetable has it from S1.
const LATE_AT_S1: &str = "stop\tST\tMarket\n\
    expected\tscheduled\tdelay\tstate\troute\theadsign\ttrip\tdate\tplatform\n\
    1743314700\t1743314400\t300\tlive\t7\tHill\tT1\t20250330\tS1\n\
    1743315660\t1743315660\t-\tscheduled\t7\tHill\tT2\t20250330\tS2\n\
    1743315960\t1743315660\t300\tlive\t7\tHill\tT1\t20250330\tS2\n";

/// The same, from S2.
const LATE_AT_S2: &str = "stop\tST\tMarket\n\
    expected\tscheduled\tdelay\tstate\troute\theadsign\ttrip\tdate\tplatform\n\
    1743314700\t1743314400\t300\tlive\t7\tHill\tT1\t20250330\tS2\n\
    1743315660\t1743315660\t-\tscheduled\t7\tHill\tT2\t20250330\tS2\n\
    1743315960\t1743315660\t300\tlive\t7\tHill\tT1\t20250330\tS2\n";

/// The board of S1 without a departure.
const NONE_AT_S1: &str = "stop\tS1\tMarket A\n\
    expected\tscheduled\tdelay\tstate\troute\theadsign\ttrip\tdate\tplatform\n";

/// The update that moves T1, with S9 in place of S2.
fn moved_nowhere() -> [u8; 53] {
    let mut bytes = MOVED;
    bytes[52] = b'9';
    bytes
}

#[test]
fn a_departure_is_shown_at_its_new_platform(rt: HostRuntime) -> Result<(), Fail> {
    let alloc = rt.alloc();
    assert!(rt; answers(alloc, &UPDATE, &board_of("ST"), LATE_AT_S1)?);
    assert!(rt; answers(alloc, &MOVED, &board_of("ST"), LATE_AT_S2)?);
    assert!(rt; answers(alloc, &MOVED, &board_of("S1"), NONE_AT_S1)?);
    assert!(rt; answers(alloc, &moved_nowhere(), &board_of("ST"), LATE_AT_S1)?);
    Ok(())
}

const ON_S1: &str = "feed\tid\tcause\teffect\theader\nb\tat1\t-\t-\t\n";

const ON_S2: &str = "feed\tid\tcause\teffect\theader\nb\tat2\t-\t-\t\n";

#[test]
fn an_alert_touches_it_at_its_new_platform(rt: HostRuntime) -> Result<(), Fail> {
    let alloc = rt.alloc();
    assert!(rt; answers(alloc, &UPDATE, &first_alerts(), ON_S1)?);
    assert!(rt; answers(alloc, &MOVED, &first_alerts(), ON_S2)?);
    assert!(rt; answers(alloc, &moved_nowhere(), &first_alerts(), ON_S1)?);
    Ok(())
}

/// What a test's message says of trip T1 on 30 March: of the place with that sequence, or of the
/// one at that stop by the timetable.
#[derive(Clone, Copy)]
struct Said {
    trip: Option<TripRelation>,
    sequence: Option<u32>,
    stop: Option<&'static str>,
    relation: Option<StopRelation>,
    assigned: &'static str,
}

/// That its first place is at that stop, and nothing of times.
fn first_at(assigned: &'static str) -> Said {
    Said {
        trip: None,
        sequence: Some(1),
        stop: None,
        relation: None,
        assigned,
    }
}

/// An id, if there is one.
fn optional(alloc: Global, id: Option<&str>) -> Result<Option<Text>, NoMemory> {
    match id {
        Some(id) => Ok(Some(Text::new(alloc, id)?)),
        None => Ok(None),
    }
}

fn stop_update(alloc: Global, said: Said) -> Result<StopUpdate, NoMemory> {
    Ok(StopUpdate {
        stop_sequence: said.sequence,
        arrival: None,
        departure: None,
        stop_id: optional(alloc, said.stop)?,
        relation: said.relation,
        properties: Some(StopProps {
            assigned_stop_id: optional(alloc, Some(said.assigned))?,
            unknown: no_bytes(alloc),
        }),
        unknown: no_bytes(alloc),
    })
}

fn trip_update(alloc: Global, said: Said) -> Result<TripUpdate, NoMemory> {
    Ok(TripUpdate {
        trip: TripRef {
            trip_id: Some(Text::new(alloc, "T1")?),
            start_time: None,
            start_date: Some(Text::new(alloc, "20250330")?),
            relation: said.trip,
            route_id: None,
            direction_id: None,
            unknown: no_bytes(alloc),
        },
        stop_time_update: StopUpdates::new(vec![in alloc; stop_update(alloc, said)?]?),
        vehicle: None,
        timestamp: None,
        delay: None,
        unknown: no_bytes(alloc),
    })
}

/// A message with one such update.
fn message(alloc: Global, said: Said) -> Result<FeedMessage, NoMemory>
    ensures { IfOk result (λ message. message.header.timestamp ≡ Some 1743314000) }
{
    let entity = Entity {
        id: Text::new(alloc, "u")?,
        is_deleted: None,
        trip_update: Some(Shared::new(alloc, trip_update(alloc, said)?)?),
        vehicle: None,
        alert: None,
        unknown: no_bytes(alloc),
    };
    dataset_of(alloc, MOMENT, vec![in alloc; entity]?)
}

/// The view of a hub after such a message of the feed a.
fn view_of(alloc: Global, said: Said) -> Result<HubView, NoMemory> {
    let view = HubView::first(alloc, two_feeds(alloc)?)?;
    if view.plans().feeds().is_empty() {
        return Err(AllocError);
    }
    if last_stamp(&view, 0) >= MOMENT {
        return Err(AllocError);
    }
    view.after(alloc, 0, message(alloc, said)?)
}

/// A trip, and the stop at which it leaves.
type Departure = (&'static str, &'static str);

fn are_at(rows: &[Row], wanted: &[Departure]) -> bool {
    rows.len() == wanted.len()
        && rows.iter().zip(wanted).all(|(row, one)| row.trip.as_str() == one.0
            && row.platform.as_str() == one.1)
}

/// Whether the board of a stop for an hour has just these departures after such a message.
fn shows(alloc: Global, said: Said, stop: &str, wanted: &[Departure]) -> Result<bool, RowsFault> {
    let view = view_of(alloc, said)?;
    let rows = board(alloc, &view, stop, 50)?;
    Ok(are_at(rows.as_slice(), wanted))
}

#[test]
fn one_place_is_moved(rt: HostRuntime) -> Result<(), Fail> {
    let alloc = rt.alloc();
    // T1 calls at S3 by the timetable too, after that at S2.
    let to_harbour = first_at("S3");
    assert!(rt; shows(alloc, to_harbour, "ST", &[("T1", "S2"), ("T2", "S2")])?);
    assert!(rt; shows(alloc, to_harbour, "S3", &[("T1", "S3"), ("T1", "S3")])?);
    assert!(rt; shows(alloc, first_at("ST"), "S1", &[])?);
    assert!(rt;
        shows(
            alloc,
            first_at("ST"),
            "ST",
            &[("T1", "ST"), ("T1", "S2"), ("T2", "S2")]
        )?
    );
    Ok(())
}

/// An update that gives no stop_sequence is about the place at that stop, and not about the one
/// where it moves it.
#[test]
fn an_update_finds_its_place_by_the_timetable(rt: HostRuntime) -> Result<(), Fail> {
    let alloc = rt.alloc();
    let second = Said {
        sequence: None,
        stop: Some("S2"),
        ..first_at("S1")
    };
    assert!(rt; shows(alloc, second, "S1", &[("T1", "S1"), ("T1", "S1")])?);
    assert!(rt; shows(alloc, second, "S2", &[("T2", "S2")])?);
    Ok(())
}

/// A place that isn't served as scheduled, one of a trip that doesn't run, and one whose assigned
/// stop isn't there keep their stops; and nobody boards at the last place, wherever that is.
#[test]
fn other_departures_keep_their_platforms(rt: HostRuntime) -> Result<(), Fail> {
    let alloc = rt.alloc();
    let plain = first_at("S3");
    let cases = [
        Said {
            relation: Some(StopRelation::Skipped),
            ..plain
        },
        Said {
            relation: Some(StopRelation::NoData),
            ..plain
        },
        Said {
            relation: Some(StopRelation::Unscheduled),
            ..plain
        },
        Said {
            trip: Some(TripRelation::Canceled),
            ..plain
        },
        Said {
            sequence: Some(9),
            ..plain
        },
        first_at("S9"),
    ];
    for said in cases {
        let at_market = shows(
            alloc,
            said,
            "ST",
            &[("T1", "S1"), ("T1", "S2"), ("T2", "S2")],
        )?;
        let at_harbour = shows(alloc, said, "S3", &[("T1", "S3")])?;
        assert!(rt; at_market && at_harbour);
    }
    Ok(())
}
