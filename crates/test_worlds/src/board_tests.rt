//! Boards of a thousand worlds.

use crate::scan::{Question, Seen, lies_in, scan};
use board_core::{BoardQuery, HubView, Row, RowState, RowsFault, Subject, rows, subjects};
use rt_types::Text;
use sample_worlds::{DATES, Dice, ROUTE_NAMES, STOPS, TRIPS, World, hub_of, made_world, moment};
use std::alloc::Global;
use std::test::Fail;
use texts::LAST_MOMENT;

/// The short name of a route; empty where there is none.
fn route_name(route: Option<u32>) -> &'static str {
    match route {
        Some(route) => ROUTE_NAMES.get(route as usize).copied().unwrap_or(""),
        None => "",
    }
}

/// Whether a row says what was seen.
fn is_seen(row: &Row, seen: &Seen) -> bool {
    row.expected == seen.key.expected
        && row.scheduled == seen.scheduled
        && row.delay == seen.delay
        && row.state == seen.state
        && row.trip.as_str() == TRIPS.get(seen.key.trip as usize).copied().unwrap_or("T9")
        && row.date.as_str()
            == DATES
                .get(seen.key.day as usize)
                .copied()
                .unwrap_or("20250401")
        && STOPS.get(seen.stop as usize).copied() == Some(row.platform.as_str())
        && row.route.as_str() == route_name(seen.route)
        && row.headsign.as_str() == if seen.key.is_added { "" } else { "Hill" }
}

/// The board of a stop.
fn board(
    alloc: Global,
    view: &HubView,
    stop: &str,
    question: Question,
) -> Result<Vec<Row>, RowsFault> {
    if view.plans().plans().is_empty() || question.at > LAST_MOMENT {
        return Err(RowsFault::NoMemory);
    }
    let query = BoardQuery {
        plan: 0,
        stop: Text::new(alloc, stop)?,
        at: question.at,
        span: question.span,
        limit: question.limit,
    };
    rows(alloc, view, &query)
}

/// Whether a row of the board is about what was seen. The numbers of stops and trips go by their
/// ids.
fn is_about(subject: &Subject<'_>, seen: &Seen) -> bool {
    match *subject {
        Subject::Row(run, stop) => {
            !seen.key.is_added
                && run.trip == seen.key.trip
                && run.day == seen.key.day
                && stop == seen.stop
        }
        Subject::AddedRow(key, stop) => {
            seen.key.is_added
                && key.trip == TRIPS.get(seen.key.trip as usize).copied().unwrap_or("T9")
                && key.date
                    == DATES
                        .get(seen.key.day as usize)
                        .copied()
                        .unwrap_or("20250401")
                && key.route == seen.route
                && stop == seen.stop
        }
        Subject::Stop(_) => false,
    }
}

/// Whether the rows of the board of a stop are about what a scan of the world sees there.
fn are_about(
    alloc: Global,
    view: &HubView,
    seen: &[Seen],
    stop: &str,
    question: Question,
) -> Result<bool, RowsFault> {
    if view.plans().plans().is_empty() || question.at > LAST_MOMENT {
        return Err(RowsFault::NoMemory);
    }
    let query = BoardQuery {
        plan: 0,
        stop: Text::new(alloc, stop)?,
        at: question.at,
        span: question.span,
        limit: question.limit,
    };
    let subjects = subjects(alloc, view, &query)?;
    Ok(
        subjects.len() == seen.len()
            && subjects
                .iter()
                .zip(seen)
                .all(|(subject, one)| is_about(subject, one)),
    )
}

/// Whether the board of a stop is what a scan of the world sees there.
fn agrees(
    alloc: Global,
    view: &HubView,
    seen: &[Seen],
    question: Question,
) -> Result<bool, RowsFault> {
    let stop = STOPS.get(question.stop as usize).copied().unwrap_or("X");
    let rows = board(alloc, view, stop, question)?;
    let is_same = rows.len() == seen.len()
        && rows.iter().zip(seen).all(|(row, one)| is_seen(row, one));
    Ok(is_same && are_about(alloc, view, seen, stop, question)?)
}

/// A question for some stop, from some moment of the morning of some day on.
pub(crate) fn question(dice: &mut Dice) -> Question {
    let at = moment(dice);
    Question {
        stop: dice.below(5),
        at,
        span: 600 * (1 + dice.below(12)),
        limit: 1 + dice.below(8),
    }
}

/// How many rows of each state were seen, so that a test can tell that it has seen enough.
#[derive(Clone, Copy, Debug)]
struct Count {
    scheduled: u32,
    live: u32,
    skipped: u32,
    canceled: u32,
    added: u32,
    moves: MoveCount,
}

/// How many rows were seen at another stop of their station, how many at a stop of the other
/// station, and how many where they were planned, since the assigned stop isn't there.
#[derive(Clone, Copy, Debug)]
struct MoveCount {
    sibling: u32,
    other_station: u32,
    nowhere: u32,
}

/// Whether a row was moved to the other stop of its station.
fn is_at_sibling(world: &World, seen: &Seen) -> bool {
    seen.stop != seen.planned && lies_in(world, seen.planned, 3) && lies_in(world, seen.stop, 3)
}

/// Whether a row was moved to a stop of the other station.
fn is_at_other_station(world: &World, seen: &Seen) -> bool {
    (lies_in(world, seen.planned, 3) && lies_in(world, seen.stop, 4))
        || (lies_in(world, seen.planned, 4) && lies_in(world, seen.stop, 3))
}

impl MoveCount {
    fn with(self, world: &World, seen: &Seen) -> MoveCount {
        let sibling = u32::from(is_at_sibling(world, seen));
        let other_station = u32::from(is_at_other_station(world, seen));
        let nowhere = u32::from(seen.assigned == Some(5));
        MoveCount {
            sibling: self.sibling.saturating_add(sibling),
            other_station: self.other_station.saturating_add(other_station),
            nowhere: self.nowhere.saturating_add(nowhere),
        }
    }
}

impl Count {
    fn with(self, seen: &Seen) -> Count {
        match seen.state {
            RowState::Scheduled => Count {
                scheduled: self.scheduled.saturating_add(1),
                ..self
            },
            RowState::Live => Count {
                live: self.live.saturating_add(1),
                ..self
            },
            RowState::Skipped => Count {
                skipped: self.skipped.saturating_add(1),
                ..self
            },
            RowState::Canceled => Count {
                canceled: self.canceled.saturating_add(1),
                ..self
            },
            RowState::Added => Count {
                added: self.added.saturating_add(1),
                ..self
            },
        }
    }
}

/// The count with what eight questions to a world see; none where a board is another.
fn judged(
    alloc: Global,
    world: &World,
    dice: &mut Dice,
    count: Count,
) -> Result<Option<Count>, Fail> {
    let view = hub_of(alloc, world)?;
    let mut count = count;
    for _ in 0..8u8 {
        let question = question(dice);
        let seen = scan(alloc, world, question)?;
        if !agrees(alloc, &view, seen.as_slice(), question)? {
            return Ok(None);
        }
        for one in &seen {
            let moves = count.moves.with(world, one);
            count = Count {
                moves,
                ..count.with(one)
            };
        }
    }
    Ok(Some(count))
}

#[test]
fn boards_are_what_a_scan_sees(rt: HostRuntime) -> Result<(), Fail> {
    let alloc = rt.alloc();
    let mut dice = Dice::new(7);
    let mut count = Count {
        scheduled: 0,
        live: 0,
        skipped: 0,
        canceled: 0,
        added: 0,
        moves: MoveCount {
            sibling: 0,
            other_station: 0,
            nowhere: 0,
        },
    };
    for number in 0..1000u32 {
        let world = made_world(alloc, &mut dice)?;
        match judged(alloc, &world, &mut dice, count)? {
            Some(next) => count = next,
            None => assert!(rt; false, "another board in world {number}"),
        }
    }
    assert!(rt; count.scheduled > 2000 && count.live > 500, "{count:?}");
    assert!(rt;
        count.skipped > 50 && count.canceled > 150 && count.added > 100,
        "{count:?}"
    );
    let moves = count.moves;
    assert!(rt;
        moves.sibling > 5 && moves.other_station > 10 && moves.nowhere > 10,
        "{count:?}"
    );
    Ok(())
}
