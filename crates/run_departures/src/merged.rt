//! Departures of several sources, in order.

ghost use Rattle.std.specs.Prelude.{◌≡◌, ◌<◌, ◌≤◌, ◌++◌, ℕ, List, length, map, filter, IfOk, OnOk};
ghost use Rattle.std.specs.Iterator.{YieldsFirst, item_count};
ghost use Rattle.std.specs.List.{All, flat_map};
ghost use Rattle.std.specs.Option.{option_map};
ghost use Rattle.text_defs.specs.Moments.{last_moment};
ghost use Rattle.order.specs.Order.{ordered};
ghost use Rattle.sched_types.specs.declared.plans.NamedFeed.{NamedFeed};
ghost use Rattle.sched_types.specs.Runs.{all_runs};
ghost use Rattle.stop_index.specs.Index.{index_of};
ghost use Rattle.board_defs.specs.Choice.{updates_at};
ghost use Rattle.board_defs.specs.Feeds.{schedule_feeds};
ghost use Rattle.board_defs.specs.Fold.{FeedFold};
ghost use Rattle.board_defs.specs.Rows.{is_within, row_cmp, run_rows};
ghost use Rattle.run_departures.specs.Bids.{live_feed};
ghost use Rattle.run_departures.specs.Board.{departures_of_board, sources, AreLive};
ghost use Rattle.run_departures.specs.Departures.{as_row, departure_cmp, IsThere};
ghost use Rattle.run_departures.specs.Merge as merge;
ghost use Rattle.run_departures.specs.Merge.{joined, first_head};
ghost use Rattle.run_departures.specs.Queued.{AreRising};
ghost use Rattle.run_departures.specs.Sources.{sources_at};

use crate::NoMemory;
use crate::asked::Asked;
use crate::departure::Departure;
use crate::feed::LiveFeed;
use crate::live::Live;
use crate::queue::Queue;
use crate::scheduled::Scheduled;
use crate::source::Source;
use sched_types::Plan;
use std::alloc::Global;
use std::marker::Model;
use stop_index::StopIndex;

/// Departures of runs, in order of the expected instant, the trip, the day and the place. A
/// contract sees the list of those that are left. No step takes memory.
#[derive(Drop)]
pub struct RunDepartures<'a> {
    queues: Vec<Queue<'a>>,
}

impl<'a> Model for RunDepartures<'a> {
    ghost use Rattle.std.specs.Prelude.{List};
    ghost use Rattle.order.specs.Order.{ordered};
    ghost use Rattle.run_departures.specs.declared.departure.Departure.{Departure};

    ghost Value = { List Departure };

    ghost use Rattle.run_departures.specs.Departures.{departure_cmp};
    ghost use Rattle.run_departures.specs.Merge.{joined};
    ghost use Rattle.run_departures.specs.Queued.{AreRising};

    ghost view = { λ d. ordered departure_cmp (joined d.queues.items) };

    ghost invariant = { λ d. AreRising d.queues.items };
}

impl<'a> Iterator for RunDepartures<'a> {
    type Item = Departure;

    ghost next_gives = { YieldsFirst (λ left. left) };

    ghost remaining = { item_count (λ left. left) };

    fn next(&mut self) -> Option<Departure> {
        next_of(&mut self.queues)
    }
}

/// The first departure of all queues, which goes.
fn next_of(queues: &mut Vec<Queue<'_>>) -> Option<Departure>
    requires { AreRising queues.old.items }
    ensures next { YieldsFirst (λ all. ordered departure_cmp (joined all))
        queues.old.items result queues.new.items }
    ensures rise { AreRising queues.new.items }
{
    match first_queue(queues.as_slice()) {
        Some(first) => queues[first].take(),
        None => None,
    }
}

/// The sooner of two heads with the places of their queues; of two that tie the former.
fn sooner(
    best: Option<(usize, Departure)>,
    place: usize,
    head: Option<Departure>,
) -> Option<(usize, Departure)>
    ensures { result ≡ merge.sooner departure_cmp best place head }
{
    match head {
        Some(head) => match best {
            Some(best) => {
                if best.1.order(&head).is_gt() {
                    Some((place, head))
                } else {
                    Some(best)
                }
            }
            None => Some((place, head)),
        },
        None => best,
    }
}

/// The place of the first queue whose head no other head goes before.
fn first_queue(queues: &[Queue<'_>]) -> Option<usize>
    ensures { result
        ≡ option_map (λ best. best.0) (first_head departure_cmp queues.entry.now) }
{
    let mut best = None;
    for (place, queue) in queues.iter().enumerate() {
        best = sooner(best, place, queue.head());
    }
    match best {
        Some(best) => Some(best.0),
        None => None,
    }
}

/// Appends the sources of a stop: by the timetable, and then by each feed; or wants memory.
fn push_stop<'a>(
    queues: &mut Vec<Queue<'a>>,
    plan: &'a Plan,
    index: &'a StopIndex,
    feeds: &'a [LiveFeed<'a>],
    asked: Asked,
    stop: u32,
) -> Result<(), NoMemory>
    requires index { index.now ≡ index_of plan.now }
    requires moment { asked.at ≤ last_moment }
    ensures { OnOk result (queues.new.items
        ≡ queues.old.items ++ sources_at plan.entry.now feeds.entry.now asked stop) }
{
    let scheduled = Scheduled::at_stop(plan, index, feeds, asked, stop);
    queues.push(Queue::over(Source::Scheduled(scheduled)))?;
    for feed in feeds {
        let live = Live::at_stop(plan, feeds, asked, stop, feed);
        queues.push(Queue::over(Source::Live(live)))?;
    }
    Ok(())
}

/// The sources of the asked stop and of its children; or want of memory.
fn queues_of<'a>(
    alloc: Global,
    plan: &'a Plan,
    index: &'a StopIndex,
    feeds: &'a [LiveFeed<'a>],
    asked: Asked,
) -> Result<Vec<Queue<'a>>, NoMemory>
    requires index { index.now ≡ index_of plan.now }
    requires stop { asked.stop < length plan.now.stops }
    requires moment { asked.at ≤ last_moment }
    ensures { IfOk result (λ queues. queues.items
        ≡ sources plan.entry.now feeds.entry.now asked) }
{
    let mut queues = Vec::new(alloc);
    push_stop(&mut queues, plan, index, feeds, asked, asked.stop)?;
    for child in plan.children(asked.stop) {
        if *child != asked.stop {
            push_stop(&mut queues, plan, index, feeds, asked, *child)?;
        }
    }
    Ok(queues)
}

/// The departures of runs at the asked stop, and at the stops that name it as `parent_station`,
/// that are expected in the window; or out of memory. There is one for each place but the last of a
/// run of the timetable at which passengers may board, by the update that counts for the run, in
/// order of the expected instant, the trip, the day and the place. It is at the stop to which the
/// update moves it, and else at that of the timetable. The index is that of the timetable, and the
/// overlays are those of what the feeds of a schedule hold on it.
pub fn departures<'a>(
    alloc: Global,
    plan: &'a Plan,
    index: &'a StopIndex,
    feeds: &'a [LiveFeed<'a>],
    asked: Asked,
) -> Result<RunDepartures<'a>, NoMemory>
    requires index { index.now ≡ index_of plan.now }
    requires live { AreLive plan.now feeds.now }
    requires stop { asked.stop < length plan.now.stops }
    requires moment { asked.at ≤ last_moment }
    ensures list { IfOk result (λ left. left
        ≡ departures_of_board plan.entry.now feeds.entry.now asked) }
    ensures said { IfOk result (λ left. (p : ℕ) (named : List NamedFeed) (folds : List FeedFold)
        → feeds.entry.now ≡ map (live_feed plan.entry.now) (schedule_feeds p named folds)
        → map (as_row plan.entry.now) left
        ≡ ordered row_cmp (filter (is_within asked.at asked.span)
        (flat_map (run_rows plan.entry.now asked.stop (updates_at p asked.at named folds))
        (all_runs plan.entry.now)))) }
    ensures there { IfOk result (All (IsThere plan.entry.now)) }
{
    plan.sound();
    let queues = queues_of(alloc, plan, index, feeds, asked)?;
    Ok(RunDepartures { queues })
}
