//! The order of departures of runs and of added trips, by texts.

ghost use Rattle.std.specs.Prelude.{◌≡◌, take, IfOk};
ghost use Rattle.order.specs.Order.{ordered};
ghost use Rattle.board_core.specs.Lines as rule;
ghost use Rattle.board_core.specs.Lines.{later_cmp, line_cmp};

use crate::NoMemory;
use crate::line::{Line, date_of, expected_of, is_added, place_of, trip_of};
use crate::row_texts::date_text;
use rt_types::Text;
use sched_types::Plan;
use std::alloc::Global;
use std::cmp::Ordering;

/// The texts of the timetable's dates; or want of memory.
fn date_texts(alloc: Global, plan: &Plan) -> Result<Vec<Text>, NoMemory>
    ensures { IfOk result (λ dates. dates.items ≡ rule.date_texts plan.now) }
{
    let mut dates = Vec::new(alloc);
    for day in 0..plan.days() {
        dates.push(date_text(alloc, plan, day)?)?;
    }
    Ok(dates)
}

/// By the date, runs before added trips, and the place.
fn later_order(dates: &[Text], a: &Line<'_>, b: &Line<'_>) -> Ordering
    ensures { result ≡ later_cmp dates.now a.now b.now }
{
    let by_kind = is_added(a).cmp(&is_added(b));
    let by_place = place_of(a).cmp(&place_of(b));
    date_of(dates, a)
        .cmp(date_of(dates, b))
        .then(by_kind.then(by_place))
}

/// By the expected instant, the trip_id, the date, runs before added trips, and the place.
fn line_order(plan: &Plan, dates: &[Text], a: &Line<'_>, b: &Line<'_>) -> Ordering
    ensures { result ≡ line_cmp plan.now dates.now a.now b.now }
{
    let by_trip = trip_of(plan, a).cmp(trip_of(plan, b));
    expected_of(a)
        .cmp(&expected_of(b))
        .then(by_trip.then(later_order(dates, a, b)))
}

/// The first so many lines in order; or want of memory.
pub(crate) fn first_lines<'a>(
    alloc: Global,
    plan: &Plan,
    lines: Vec<Line<'a>>,
    limit: u32,
) -> Result<Vec<Line<'a>>, NoMemory>
    ensures { IfOk result (λ first. first.items
        ≡ take limit (ordered (line_cmp plan.now (rule.date_texts plan.now)) lines.entry.items)) }
{
    let dates = date_texts(alloc, plan)?;
    let texts = dates.as_slice();
    let mut first = lines;
    first.sort_by(|a, b| line_order(plan, texts, a, b))?;
    first.truncate(limit as usize);
    Ok(first)
}
