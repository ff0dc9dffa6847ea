//! What a selector touches.

ghost use Rattle.std.specs.Prelude.{◌≡◌, ◌<◌, Bool, ◌||◌, ◌&&◌, length, map, slice_get, IfSome};
ghost use Rattle.std.specs.List.{All, list_any};
ghost use Rattle.std.specs.Option.{is_some, option_and_then, option_map};
ghost use Rattle.sched_types.specs.Timetable.{is_given, names_parent};
ghost use Rattle.board_defs.specs.Choice.{is_run_found};
ghost use Rattle.board_defs.specs.Rows.Subject.{RunOf, AddedTrip};
ghost use Rattle.alert_defs.specs.Alerts as listing;
ghost use Rattle.alert_defs.specs.Touching as rule;
ghost use Rattle.alert_defs.specs.Touching.{holds_if_given};
ghost use Rattle.alert_select.specs.Aims.{IsAim};
ghost use Rattle.alert_select.specs.Subjects.{touched_by, IsWithin};

use crate::aim::{Aim, aim_of};
use crate::holding::{added_holds, fits, gives_more, gives_one, is_stop_or_kin, run_holds};
use crate::subject::{AddedKey, Subject};
use rt_types::{Alert, Selector};
use sched_types::{Plan, Run};

/// Whether the selector of an alert touches the subject: a stop where it gives a stop_id alone, of
/// the stop, its parent or one of its children; a row where each field that it gives holds, and it
/// gives one (GTFS Realtime 2.0, EntitySelector). A trip is taken as it is meant at the stamp of
/// the alert's message, in seconds since 1970. It takes no memory.
pub fn touches(plan: &Plan, selector: &Selector, stamp: u64, subject: Subject<'_>) -> bool
    requires { IsWithin plan.now subject }
    ensures { result ≡ rule.touches plan.now selector.now stamp (touched_by subject.entry) }
{
    let aim = aim_of(plan, selector, stamp);
    hits(plan, &aim, &subject)
}

/// Whether one of the alert's selectors touches the stop or one of the rows. It takes no memory.
#[tactic(auto, unfolding(alert_defs::specs::Alerts::concerns))]
pub fn concerns(plan: &Plan, alert: &Alert, stamp: u64, stop: u32, rows: &[Subject<'_>]) -> bool
    requires stop { stop < length plan.now.stops }
    requires rows { All (IsWithin plan.now) rows.now }
    ensures { result
        ≡ listing.concerns plan.now alert.now stamp stop (map touched_by rows.now) }
{
    alert
        .informed_entity
        .as_slice()
        .iter()
        .any(|selector| touches_any(plan, selector, stamp, stop, rows))
}

/// Whether the selector touches the stop or one of the rows.
fn touches_any(
    plan: &Plan,
    selector: &Selector,
    stamp: u64,
    stop: u32,
    rows: &[Subject<'_>],
) -> bool
    requires stop { stop < length plan.now.stops }
    requires rows { All (IsWithin plan.now) rows.now }
    ensures { result
        ≡ listing.touches_any plan.now stamp stop (map touched_by rows.now) selector.now }
{
    let aim = aim_of(plan, selector, stamp);
    hits(plan, &aim, &Subject::Stop(stop)) || hits_one(plan, &aim, rows)
}

/// Whether one of the rows is hit.
fn hits_one(plan: &Plan, aim: &Aim<'_>, rows: &[Subject<'_>]) -> bool
    requires aim { IsAim plan.now aim.now }
    requires rows { All (IsWithin plan.now) rows.now }
    ensures { result ≡ list_any (λ row. rule.touches plan.now aim.now.selector.now aim.now.stamp
        (touched_by row)) rows.now }
{
    rows.iter().any(|row| hits(plan, aim, row))
}

/// Whether the subject is hit.
#[tactic(auto, unfolding(alert_defs::specs::Touching::touches))]
fn hits(plan: &Plan, aim: &Aim<'_>, subject: &Subject<'_>) -> bool
    requires aim { IsAim plan.now aim.now }
    requires within { IsWithin plan.now subject.now }
    ensures { result
        ≡ rule.touches plan.now aim.now.selector.now aim.now.stamp (touched_by subject.now) }
{
    match *subject {
        Subject::Stop(stop) => hits_stop(plan, aim, stop),
        Subject::Row(run, stop) => hits_run(plan, aim, run, stop),
        Subject::AddedRow(key, stop) => hits_added(plan, aim, &key, stop),
    }
}

/// Whether the stop is hit.
fn hits_stop(plan: &Plan, aim: &Aim<'_>, stop: u32) -> bool
    requires aim { IsAim plan.now aim.now }
    requires within { stop < length plan.now.stops }
    ensures { result ≡ rule.touches_stop plan.now aim.now.selector.now stop
        aim.now.selector.now.stop_id }
{
    aim.selector.stop_id.is_some()
        && !gives_more(aim.selector)
        && is_stop_or_kin(plan, stop, aim.stop)
}

/// Whether the row of the run at the stop is hit.
fn hits_run(plan: &Plan, aim: &Aim<'_>, run: Run, stop: u32) -> bool
    requires aim { IsAim plan.now aim.now }
    requires trip { run.trip < length plan.now.trips }
    requires stop { stop < length plan.now.stops }
    ensures { result
        ≡ rule.touches_row plan.now aim.now.selector.now aim.now.stamp (RunOf run) stop }
{
    let trip = plan.trip(run.trip);
    gives_one(aim.selector)
        && fits(plan, aim, Some(trip.route), trip.direction, stop)
        && run_holds(plan, aim, run)
}

/// Whether the row of the added trip at the stop is hit.
fn hits_added(plan: &Plan, aim: &Aim<'_>, key: &AddedKey<'_>, stop: u32) -> bool
    requires aim { IsAim plan.now aim.now }
    requires route { IfSome key.now.route (λ route. route < length plan.now.routes) }
    requires stop { stop < length plan.now.stops }
    ensures { result ≡ rule.touches_row plan.now aim.now.selector.now aim.now.stamp
        (AddedTrip key.now.trip.now key.now.date.now key.now.route) stop }
{
    gives_one(aim.selector) && fits(plan, aim, key.route, None, stop) && added_holds(plan, aim, key)
}
