//! The lists beside the boards of a thousand worlds, and what is unmatched in two hundred.

use crate::board_tests::question;
use crate::lists::{AlertKey, Fate, MadeUnmatched, fate_of, listed, made_unmatched};
use crate::meaning::meant;
use crate::scan::{Question, Seen, scan, stamp_of};
use board_core::{BoardQuery, HubView};
use board_lists::{AlertRow, RowsFault, Unmatched, alerts, unmatched};
use rt_types::{Text, TripRelation};
use sample_worlds::{Dice, MadeWords, STOPS, World, hub_of, made_world, named_by};
use std::alloc::Global;
use std::test::Fail;
use texts::LAST_MOMENT;
use trip_match_defs::{Found, Why};

/// The first text that tells no language.
fn plain(words: &[MadeWords]) -> Option<&'static str> {
    for one in words {
        if one.language.is_none() {
            return Some(one.text);
        }
    }
    None
}

/// The heading of an alert: the first text that tells no language, else the first, else nothing.
fn heading(made: &Option<Vec<MadeWords>>) -> &'static str {
    let Some(words) = made else {
        return "";
    };
    match (plain(words.as_slice()), words.first()) {
        (Some(text), _) => text,
        (None, Some(first)) => first.text,
        (None, None) => "",
    }
}

/// The number of a cause or an effect, from 1 on.
fn number(place: Option<u32>) -> Option<u32> {
    match place {
        Some(place) => place.checked_add(1),
        None => None,
    }
}

/// Whether a row tells of the alert of that key.
fn tells_of(world: &World, row: &AlertRow, key: AlertKey) -> bool {
    let Some(made) = world.alert(key.feed, key.id) else {
        return false;
    };
    row.feed == made.feed
        && row.id.as_str() == made.id
        && row.cause == number(made.cause)
        && row.effect == number(made.effect)
        && row.header.as_str() == heading(&made.header)
}

/// The alerts beside the board that is asked for.
fn alerts_beside(
    alloc: Global,
    view: &HubView,
    question: Question,
) -> Result<Vec<AlertRow>, RowsFault> {
    if view.plans().plans().is_empty() || question.at > LAST_MOMENT {
        return Err(RowsFault::NoMemory);
    }
    let stop = STOPS.get(question.stop as usize).copied().unwrap_or("X");
    let query = BoardQuery {
        plan: 0,
        stop: Text::new(alloc, stop)?,
        at: question.at,
        span: question.span,
        limit: question.limit,
    };
    alerts(alloc, view, &query)
}

/// Whether the alerts beside a board are those that a scan of the world lists.
fn alerts_agree(
    alloc: Global,
    view: &HubView,
    world: &World,
    question: Question,
    seen: &[Seen],
) -> Result<bool, RowsFault> {
    let listed = listed(alloc, world, question, seen)?;
    let rows = alerts_beside(alloc, view, question)?;
    Ok(
        rows.len() == listed.len()
            && rows
                .iter()
                .zip(listed.as_slice())
                .all(|(row, key)| tells_of(world, row, *key)),
    )
}

/// Whether an unmatched trip is that one, for the same reason.
fn is_same_unmatched(row: &Unmatched, one: &MadeUnmatched) -> bool {
    row.feed == one.feed
        && row.id.as_str() == one.id
        && row.vehicle == one.vehicle
        && row.why == one.why
}

/// Whether what is unmatched is what a scan of the world finds so.
fn unmatched_agree(
    alloc: Global,
    view: &HubView,
    made: &[MadeUnmatched],
) -> Result<bool, RowsFault> {
    if view.plans().plans().is_empty() {
        return Err(RowsFault::NoMemory);
    }
    let rows = unmatched(alloc, view, 0)?;
    Ok(
        rows.len() == made.len()
            && rows
                .iter()
                .zip(made)
                .all(|(row, one)| is_same_unmatched(row, one)),
    )
}

/// How many alerts came to what, so that a test can tell that it has seen enough, and of how many
/// that was decided by where the rows are, which were planned elsewhere.
#[derive(Clone, Copy, Debug)]
struct AlertCount {
    listed: u32,
    inactive: u32,
    untouched: u32,
    by_move: u32,
}

impl AlertCount {
    fn with(self, fate: Fate) -> AlertCount {
        match fate {
            Fate::Listed => AlertCount {
                listed: self.listed.saturating_add(1),
                ..self
            },
            Fate::Inactive => AlertCount {
                inactive: self.inactive.saturating_add(1),
                ..self
            },
            Fate::Untouched => AlertCount {
                untouched: self.untouched.saturating_add(1),
                ..self
            },
        }
    }

    /// The count with what becomes of all alerts of a world at a question.
    fn with_all(self, world: &World, question: Question, seen: &[Seen]) -> AlertCount {
        let mut count = self;
        for alert in &world.alerts {
            count = count.with(fate_of(world, alert, question, seen));
        }
        count
    }

    /// The count with the alerts of a world to which something else would come if all rows were
    /// where they were planned.
    fn with_moves(
        self,
        world: &World,
        question: Question,
        seen: &[Seen],
        planned: &[Seen],
    ) -> AlertCount {
        let mut by_move = self.by_move;
        for alert in &world.alerts {
            let fate = fate_of(world, alert, question, seen);
            if fate != fate_of(world, alert, question, planned) {
                by_move = by_move.saturating_add(1);
            }
        }
        AlertCount { by_move, ..self }
    }
}

/// How many were unmatched for each reason, how many of them were vehicles, and how many runs were
/// deleted, which leaves them matched.
#[derive(Clone, Copy, Debug)]
struct UnmatchedCount {
    no_trip: u32,
    no_day: u32,
    not_active: u32,
    several: u32,
    relation: u32,
    bad_text: u32,
    vehicles: u32,
    deleted: u32,
}

impl UnmatchedCount {
    fn with_reason(self, why: Why) -> UnmatchedCount {
        match why {
            Why::NoTrip => UnmatchedCount {
                no_trip: self.no_trip.saturating_add(1),
                ..self
            },
            Why::NoDay => UnmatchedCount {
                no_day: self.no_day.saturating_add(1),
                ..self
            },
            Why::NotActive => UnmatchedCount {
                not_active: self.not_active.saturating_add(1),
                ..self
            },
            Why::Several => UnmatchedCount {
                several: self.several.saturating_add(1),
                ..self
            },
            Why::Relation => UnmatchedCount {
                relation: self.relation.saturating_add(1),
                ..self
            },
            Why::BadText => UnmatchedCount {
                bad_text: self.bad_text.saturating_add(1),
                ..self
            },
        }
    }

    /// The count with those of a world.
    fn with_all(self, made: &[MadeUnmatched]) -> UnmatchedCount {
        let mut count = self;
        for one in made {
            count = count.with_reason(one.why);
            if one.vehicle {
                count.vehicles = count.vehicles.saturating_add(1);
            }
        }
        count
    }

    /// The count with the runs of a world that are deleted.
    fn with_deleted(self, world: &World) -> UnmatchedCount {
        let mut deleted = self.deleted;
        for update in &world.updates {
            let found = meant(world, named_by(update), stamp_of(world, update));
            let is_deleted = update.relation == Some(TripRelation::Deleted);
            if is_deleted && matches!(found, Found::Run(_)) {
                deleted = deleted.saturating_add(1);
            }
        }
        UnmatchedCount { deleted, ..self }
    }
}

/// The rows as if each were at its planned stop.
fn as_planned(alloc: Global, seen: &[Seen]) -> Result<Vec<Seen>, Fail> {
    let mut planned = Vec::new(alloc);
    for row in seen {
        planned.push(Seen {
            stop: row.planned,
            ..*row
        })?;
    }
    Ok(planned)
}

/// The count with what eight questions to a world list; none where a list is another.
fn alerts_judged(
    alloc: Global,
    view: &HubView,
    world: &World,
    dice: &mut Dice,
    count: AlertCount,
) -> Result<Option<AlertCount>, Fail> {
    let mut count = count;
    for _ in 0..8u8 {
        let question = question(dice);
        let seen = scan(alloc, world, question)?;
        if !alerts_agree(alloc, view, world, question, seen.as_slice())? {
            return Ok(None);
        }
        let planned = as_planned(alloc, seen.as_slice())?;
        count = count
            .with_all(world, question, seen.as_slice())
            .with_moves(world, question, seen.as_slice(), planned.as_slice());
    }
    Ok(Some(count))
}

#[test]
fn alerts_are_what_a_scan_lists(rt: HostRuntime) -> Result<(), Fail> {
    let alloc = rt.alloc();
    let mut dice = Dice::new(11);
    let mut count = AlertCount {
        listed: 0,
        inactive: 0,
        untouched: 0,
        by_move: 0,
    };
    for number in 0..1000u32 {
        let world = made_world(alloc, &mut dice)?;
        let view = hub_of(alloc, &world)?;
        match alerts_judged(alloc, &view, &world, &mut dice, count)? {
            Some(next) => count = next,
            None => assert!(rt; false, "other alerts in world {number}"),
        }
    }
    assert!(rt;
        count.listed > 2000 && count.inactive > 5000 && count.untouched > 5000,
        "{count:?}"
    );
    assert!(rt; count.by_move > 5, "{count:?}");
    Ok(())
}

#[test]
fn what_is_unmatched_is_what_a_scan_finds(rt: HostRuntime) -> Result<(), Fail> {
    let alloc = rt.alloc();
    let mut dice = Dice::new(13);
    let mut count = UnmatchedCount {
        no_trip: 0,
        no_day: 0,
        not_active: 0,
        several: 0,
        relation: 0,
        bad_text: 0,
        vehicles: 0,
        deleted: 0,
    };
    for number in 0..200u32 {
        let world = made_world(alloc, &mut dice)?;
        let view = hub_of(alloc, &world)?;
        let found = made_unmatched(alloc, &world)?;
        let agrees = unmatched_agree(alloc, &view, found.as_slice())?;
        assert!(rt; agrees, "others are unmatched in world {number}");
        count = count.with_all(found.as_slice()).with_deleted(&world);
    }
    assert!(rt;
        count.no_trip > 50 && count.no_day > 20 && count.not_active > 50,
        "{count:?}"
    );
    assert!(rt;
        count.relation > 20 && count.bad_text > 5 && count.several > 0,
        "{count:?}"
    );
    assert!(rt; count.vehicles > 50 && count.deleted > 10, "{count:?}");
    Ok(())
}
