//! Whole data sets, of which several threads make the views.

ghost use Rattle.std.specs.Prelude.{◌≡◌, Some, true, IfOk};
ghost use Rattle.feed_defs.specs.History.{is_full};
ghost use Rattle.view_answers.specs.Questions.{question_seen};
ghost use Rattle.board_text_defs.specs.Answers.{IsAsked};

use board_parts::HubView;
use feed_view::FeedView;
use hub_state::HubCore;
use rt_types::{Entity, FeedMessage, Shared, StopUpdates, Text, TripRef, TripUpdate};
use sample_city::{NoMemory, dataset_of, no_bytes, two_feeds};
use sched_types::Run;
use std::alloc::Global;
use std::test::Fail;
use view_answers::{BoardAsked, Question, answer};

/// 07:53:20 on 30 March 2025, when the messages are made and boards begin.
const MOMENT: u64 = 1_743_314_000;

/// More updates than one thread is given.
const MANY: u32 = 3_000;

/// The trips of the city.
const TRIPS: [&str; 3] = ["T1", "T2", "N1"];

/// An update of a trip on 30 March, by a delay that its number gives.
fn late(alloc: Global, number: u32) -> Result<Entity, NoMemory> {
    let trip = TripRef {
        trip_id: Some(Text::new(alloc, TRIPS[(number % 3) as usize])?),
        start_time: None,
        start_date: Some(Text::new(alloc, "20250330")?),
        relation: None,
        route_id: None,
        direction_id: None,
        unknown: no_bytes(alloc),
    };
    let update = TripUpdate {
        trip,
        stop_time_update: StopUpdates::new(Vec::new(alloc)),
        vehicle: None,
        timestamp: None,
        delay: Some((number % 600) as i32),
        unknown: no_bytes(alloc),
    };
    Ok(Entity {
        id: Text::new(alloc, format!(in alloc; "u{number}")?.as_str())?,
        is_deleted: None,
        trip_update: Some(Shared::new(alloc, update)?),
        vehicle: None,
        alert: None,
        unknown: no_bytes(alloc),
    })
}

/// A whole data set of so many updates.
fn data_set(alloc: Global) -> Result<FeedMessage, NoMemory>
    ensures stamp { IfOk result (λ message. message.header.timestamp ≡ Some 1743314000) }
    ensures whole { IfOk result (λ message. is_full message ≡ true) }
{
    let mut entities = Vec::with_capacity(alloc, MANY as usize)?;
    for number in 0..MANY {
        entities.push(late(alloc, number)?)?;
    }
    dataset_of(alloc, MOMENT, entities)
}

/// A board of an hour.
fn board(stop: &str) -> Question<'_>
    ensures { IsAsked (question_seen result) }
{
    Question::Board(BoardAsked {
        schedule: "city",
        stop,
        at: MOMENT,
        span: 3600,
        limit: 50,
        json: false,
    })
}

/// What a view answers.
fn answered(alloc: Global, view: &HubView, question: &Question<'_>) -> Result<Vec<u8>, NoMemory>
    requires { IsAsked (question_seen question.now) }
{
    let mut out = Vec::new(alloc);
    answer(alloc, view, question, &mut out)?;
    Ok(out)
}

/// Whether two views answer the same bytes.
fn are_alike(
    alloc: Global,
    one: &HubView,
    other: &HubView,
    question: &Question<'_>,
) -> Result<bool, NoMemory>
    requires { IsAsked (question_seen question.now) }
{
    let first = answered(alloc, one, question)?;
    let second = answered(alloc, other, question)?;
    Ok(!first.is_empty() && first.as_slice() == second.as_slice())
}

#[test]
fn a_whole_data_set_is_the_same_on_several_threads(rt: HostRuntime) -> Result<(), Fail> {
    let alloc = rt.alloc();
    let core = HubCore::new(alloc, two_feeds(alloc)?)?;
    let one = core.prepare(alloc, 1, data_set(alloc)?)?;
    let many = core.prepare_full(&rt, alloc, 1, data_set(alloc)?)?;
    assert_eq!(rt; many.entries(), 1);
    assert!(rt; are_alike(alloc, &one, &many, &Question::Feed { schedule: "city" })?);
    assert!(rt; are_alike(alloc, &one, &many, &board("S1"))?);
    assert!(rt; are_alike(alloc, &one, &many, &board("S2"))?);
    Ok(())
}

#[test]
fn a_view_is_built_of_what_a_feed_holds(rt: HostRuntime) -> Result<(), Fail> {
    let alloc = rt.alloc();
    let core = HubCore::new(alloc, two_feeds(alloc)?)?;
    let hub = core.prepare(alloc, 1, data_set(alloc)?)?;
    let view = hub.feed(1);
    let table = view.table().share()?;
    let built = FeedView::build(
        &rt,
        alloc,
        hub.timetable(0),
        table,
        view.stamp(),
        view.count(),
    )?;
    let run = Run { trip: 0, day: 1 };
    assert!(rt; matches!(built.overlay().chosen(run), Some(chosen) if chosen.stamp == MOMENT));
    let mut own = built.overlay().at_stop(1, 0, i64::MAX);
    let mut given = view.overlay().at_stop(1, 0, i64::MAX);
    assert!(rt; own.next().is_some() && given.next().is_some());
    assert!(rt; own.next() == given.next());
    assert!(rt; own.next() == given.next());
    Ok(())
}
