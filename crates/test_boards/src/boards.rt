//! A hub with the small city's timetable and two feeds, and its boards.

ghost use Rattle.std.specs.Prelude.{◌≡◌, ◌≤◌, Some, IfOk};
ghost use Rattle.text_defs.specs.Moments.{last_moment};

use board_core::{BoardQuery, HubView, Row, RowState, RowsFault, Subject, rows, subjects};
use rt_types::{
    Entity, Event, FeedMessage, Shared, StopRelation, StopUpdate, StopUpdates, Text, TripRef,
    TripRelation, TripUpdate,
};
use sample_city::{NoMemory, dataset_of, last_stamp, no_bytes, two_feeds};
use sched_types::Plans;
use std::alloc::{AllocError, Global};
use std::sync::Arc;
use std::test::Fail;

/// 07:53:20 on 30 March 2025, when the messages are made and boards begin.
const MOMENT: u64 = 1_743_314_000;

/// What a test's message says of the first place of trip T1.
#[derive(Clone, Copy)]
pub(crate) struct Told {
    relation: Option<TripRelation>,
    delay: Option<i32>,
    place: Option<StopRelation>,
}

/// An update of the place with sequence 1.
fn stop_update(alloc: Global, told: Told) -> StopUpdate {
    let departure = match told.delay {
        Some(delay) => Some(Event {
            delay: Some(delay),
            time: None,
            uncertainty: None,
            unknown: no_bytes(alloc),
        }),
        None => None,
    };
    StopUpdate {
        stop_sequence: Some(1),
        arrival: None,
        departure,
        stop_id: None,
        relation: told.place,
        properties: None,
        unknown: no_bytes(alloc),
    }
}

/// An update of trip T1 on 30 March.
fn trip_update(alloc: Global, told: Told) -> Result<TripUpdate, NoMemory> {
    Ok(TripUpdate {
        trip: TripRef {
            trip_id: Some(Text::new(alloc, "T1")?),
            start_time: None,
            start_date: Some(Text::new(alloc, "20250330")?),
            relation: told.relation,
            route_id: None,
            direction_id: None,
            unknown: no_bytes(alloc),
        },
        stop_time_update: StopUpdates::new(vec![in alloc; stop_update(alloc, told)]?),
        vehicle: None,
        timestamp: None,
        delay: None,
        unknown: no_bytes(alloc),
    })
}

/// A message with one such update.
fn message(alloc: Global, told: Told) -> Result<FeedMessage, NoMemory>
    ensures { IfOk result (λ message. message.header.timestamp ≡ Some 1743314000) }
{
    let entity = Entity {
        id: Text::new(alloc, "u")?,
        is_deleted: None,
        trip_update: Some(Shared::new(alloc, trip_update(alloc, told)?)?),
        vehicle: None,
        alert: None,
        unknown: no_bytes(alloc),
    };
    dataset_of(alloc, MOMENT, vec![in alloc; entity]?)
}

/// The view after such a message of a feed, which sent none before.
fn after(alloc: Global, view: &HubView, feed: u32, told: Told) -> Result<HubView, NoMemory> {
    if feed as usize >= view.plans().feeds().len() {
        return Err(AllocError);
    }
    if last_stamp(view, feed) >= MOMENT {
        return Err(AllocError);
    }
    view.after(alloc, feed, message(alloc, told)?)
}

/// The rows at a stop in the hour from a moment on.
fn board_at(
    alloc: Global,
    view: &HubView,
    stop: &str,
    at: u64,
    limit: u32,
) -> Result<Vec<Row>, RowsFault>
    requires { at ≤ last_moment }
{
    if view.plans().plans().is_empty() {
        return Err(RowsFault::NoMemory);
    }
    let query = BoardQuery {
        plan: 0,
        stop: Text::new(alloc, stop)?,
        at,
        span: 3600,
        limit,
    };
    rows(alloc, view, &query)
}

/// The rows in the hour after the messages.
pub(crate) fn board(
    alloc: Global,
    view: &HubView,
    stop: &str,
    limit: u32,
) -> Result<Vec<Row>, RowsFault> {
    board_at(alloc, view, stop, MOMENT, limit)
}

/// How many rows that board has, by what they are about; a row of an added trip counts for none.
fn runs_at(alloc: Global, view: &HubView, stop: &str) -> Result<usize, RowsFault> {
    if view.plans().plans().is_empty() {
        return Err(RowsFault::NoMemory);
    }
    let query = BoardQuery {
        plan: 0,
        stop: Text::new(alloc, stop)?,
        at: MOMENT,
        span: 3600,
        limit: 50,
    };
    let subjects = subjects(alloc, view, &query)?;
    Ok(
        subjects
            .iter()
            .filter(|subject| matches!(subject, Subject::Row(_, _)))
            .count(),
    )
}

/// What a test wants of a row.
#[derive(Clone, Copy)]
pub(crate) struct Wanted {
    expected: i64,
    state: RowState,
    trip: &'static str,
    platform: &'static str,
}

fn is_wanted(row: &Row, wanted: &Wanted) -> bool {
    row.expected == wanted.expected
        && row.state == wanted.state
        && row.trip.as_str() == wanted.trip
        && row.platform.as_str() == wanted.platform
        && row.date.as_str() == "20250330"
        && row.route.as_str() == "7"
        && row.headsign.as_str() == "Hill"
}

fn are_wanted(rows: &[Row], wanted: &[Wanted]) -> bool {
    rows.len() == wanted.len() && rows.iter().zip(wanted).all(|(row, w)| is_wanted(row, w))
}

pub(crate) const FIRST: Wanted = Wanted {
    expected: 1743314400,
    state: RowState::Scheduled,
    trip: "T1",
    platform: "S1",
};

const SECOND: Wanted = Wanted {
    expected: 1743315660,
    state: RowState::Scheduled,
    trip: "T1",
    platform: "S2",
};

const OTHER: Wanted = Wanted {
    expected: 1743315660,
    state: RowState::Scheduled,
    trip: "T2",
    platform: "S2",
};

/// The first departure so late.
pub(crate) const fn late(expected: i64) -> Wanted {
    Wanted {
        expected,
        state: RowState::Live,
        trip: "T1",
        platform: "S1",
    }
}

/// The view of a hub after a message of the feed a, and after one of b where there is one.
fn view_of(
    alloc: Global,
    plans: Arc<Plans>,
    first: Told,
    second: Option<Told>,
) -> Result<HubView, NoMemory> {
    let view = HubView::first(alloc, plans)?;
    let view = after(alloc, &view, 0, first)?;
    match second {
        Some(second) => after(alloc, &view, 1, second),
        None => Ok(view),
    }
}

/// Whether the board of the market has these rows after such messages.
fn shows(
    alloc: Global,
    first: Told,
    second: Option<Told>,
    limit: u32,
    wanted: &[Wanted],
) -> Result<bool, RowsFault> {
    let view = view_of(alloc, two_feeds(alloc)?, first, second)?;
    let rows = board(alloc, &view, "ST", limit)?;
    Ok(are_wanted(rows.as_slice(), wanted))
}

/// Whether the board of the market at a moment begins with that row after such messages.
pub(crate) fn begins_with(
    alloc: Global,
    plans: Arc<Plans>,
    first: Told,
    second: Option<Told>,
    at: u64,
    wanted: Wanted,
) -> Result<bool, RowsFault>
    requires { at ≤ last_moment }
{
    let view = view_of(alloc, plans, first, second)?;
    let rows = board_at(alloc, &view, "ST", at, 50)?;
    Ok(match rows.first() {
        Some(row) => is_wanted(row, &wanted),
        None => false,
    })
}

/// An update with that relation, late by so many seconds.
pub(crate) fn said(relation: Option<TripRelation>, seconds: i32) -> Told {
    Told {
        relation,
        delay: Some(seconds),
        place: None,
    }
}

#[test]
fn a_hub_goes_on_from_one_view_to_the_next(rt: HostRuntime) -> Result<(), Fail> {
    let alloc = rt.alloc();
    let first = HubView::first(alloc, two_feeds(alloc)?)?;
    assert_eq!(rt; first.entries(), 0);
    assert_eq!(rt; first.feeds().len(), 2);
    let next = after(alloc, &first, 1, said(None, 60))?;
    assert_eq!(rt; next.entries(), 1);
    assert_eq!(rt; next.feeds().len(), 2);
    Ok(())
}

#[test]
fn without_messages_all_is_as_scheduled(rt: HostRuntime) -> Result<(), Fail> {
    let alloc = rt.alloc();
    let view = HubView::first(alloc, two_feeds(alloc)?)?;
    let rows = board(alloc, &view, "ST", 50)?;
    assert!(rt; are_wanted(rows.as_slice(), &[FIRST, SECOND, OTHER]));
    let rows = board(alloc, &view, "S1", 50)?;
    assert!(rt; are_wanted(rows.as_slice(), &[FIRST]));
    assert_eq!(rt; runs_at(alloc, &view, "ST")?, 3);
    assert_eq!(rt; runs_at(alloc, &view, "NO").err(), Some(RowsFault::NoStop));
    // Nobody boards at the last place.
    let rows = board(alloc, &view, "S4", 50)?;
    assert!(rt; rows.is_empty());
    assert_eq!(rt;
        board(alloc, &view, "NO", 50).err(),
        Some(RowsFault::NoStop)
    );
    Ok(())
}

#[test]
fn updates_change_the_rows(rt: HostRuntime) -> Result<(), Fail> {
    let alloc = rt.alloc();
    assert!(rt; shows(alloc, said(None, 300), None, 2, &[late(1743314700), OTHER])?);
    // Of two updates with one stamp that of the lower feed number counts.
    assert!(rt;
        shows(
            alloc,
            said(None, 60),
            Some(said(None, 120)),
            1,
            &[late(1743314460)]
        )?
    );
    Ok(())
}

#[test]
fn skipped_canceled_and_deleted_places_are_told(rt: HostRuntime) -> Result<(), Fail> {
    let alloc = rt.alloc();
    let skipped = Told {
        relation: None,
        delay: None,
        place: Some(StopRelation::Skipped),
    };
    let row = Wanted {
        state: RowState::Skipped,
        ..FIRST
    };
    assert!(rt; shows(alloc, skipped, None, 1, &[row])?);
    let row = Wanted {
        state: RowState::Canceled,
        ..FIRST
    };
    assert!(rt;
        shows(
            alloc,
            said(Some(TripRelation::Canceled), 300),
            None,
            1,
            &[row]
        )?
    );
    assert!(rt;
        shows(
            alloc,
            said(Some(TripRelation::Deleted), 300),
            None,
            50,
            &[OTHER]
        )?
    );
    Ok(())
}
