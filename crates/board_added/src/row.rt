//! A row of an added trip, before its texts are made.

ghost use Rattle.std.specs.Prelude.{◌≡◌, ◌<◌, ◌≤◌, length, IfSome};
ghost use Rattle.std.specs.Option.{option_map};
ghost use Rattle.text_defs.specs.Moments.{last_moment};
ghost use Rattle.board_defs.specs.Choice as choosing;
ghost use Rattle.board_defs.specs.Rows.{route_named};
ghost use Rattle.board_added.specs.Added.{as_row, row_by, IsThere};

use alert_select::AddedKey;
use board_defs::{BoardQuery, Call};
use board_parts::{is_asked, is_within, route_named, text_of};
use rt_types::TripRef;
use sched_types::Plan;

/// A row of an added trip.
#[derive(Clone, Copy)]
pub struct AddedRow<'a> {
    /// When it leaves, in seconds since 1970.
    pub expected: i64,
    /// Which added trip it is.
    pub key: AddedKey<'a>,
    /// The number of the call, from 0 on.
    pub place: usize,
    /// The number of the stop.
    pub stop: u32,
}

/// Which added trip a descriptor tells.
pub(crate) fn key_of<'a>(plan: &Plan, trip: &'a TripRef) -> AddedKey<'a>
    ensures trip { result.trip.now ≡ choosing.text_or_none trip.now.trip_id }
    ensures date { result.date.now ≡ choosing.text_or_none trip.now.start_date }
    ensures route { result.route ≡ route_named plan.now trip.now.route_id }
    ensures within { IfSome result.route (λ route. route < length plan.now.routes) }
{
    AddedKey {
        trip: text_of(&trip.trip_id),
        date: text_of(&trip.start_date),
        route: route_named(plan, &trip.route_id),
    }
}

/// The row of a call of an added trip, if it is one of the board at the stop.
pub(crate) fn row_at<'a>(
    plan: &Plan,
    query: &BoardQuery,
    stop: u32,
    key: AddedKey<'a>,
    place: usize,
    call: Call,
) -> Option<AddedRow<'a>>
    requires stop { call.stop < length plan.now.stops }
    requires route { IfSome key.route (λ route. route < length plan.now.routes) }
    requires moment { query.now.at ≤ last_moment }
    ensures value { option_map (as_row plan.now) result
        ≡ row_by plan.now query.now stop key.entry.trip.now key.entry.date.now key.entry.route
        (place, call) }
    ensures there { IfSome result (IsThere plan.now) }
{
    if is_asked(plan, stop, call.stop) && is_within(query.at, query.span, call.leaves) {
        Some(AddedRow {
            expected: call.leaves,
            key,
            place,
            stop: call.stop,
        })
    } else {
        None
    }
}
