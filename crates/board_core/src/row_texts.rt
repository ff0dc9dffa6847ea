//! The texts of rows of runs.

ghost use Rattle.std.specs.Prelude.{◌≡◌, ◌<◌, [], length, slice_get, unwrap_or, IfOk};
ghost use Rattle.std.specs.Fmt.{decimal};
ghost use Rattle.std.specs.Option.{option_map};
ghost use Rattle.board_defs.specs.Rows.{route_text, date_text};
ghost use Rattle.run_departures.specs.Departures.{as_row, IsThere};

use crate::NoMemory;
use board_defs::Row;
use board_parts::{route_name, stop_id};
use itoa::Buffer;
use rt_types::Text;
use run_departures::Departure;
use sched_types::Plan;
use std::alloc::Global;

/// The name of a trip's route.
fn route_of(plan: &Plan, trip: u32) -> &str
    requires { trip < length plan.now.trips }
    ensures { result.now ≡ route_text plan.now (slice_get plan.now.trips trip) }
{
    route_name(plan.route(plan.trip(trip).route))
}

/// The headsign of a trip.
fn headsign_of(plan: &Plan, trip: u32) -> &str
    requires { trip < length plan.now.trips }
    ensures { result.now
        ≡ unwrap_or (option_map (λ x. x.headsign) (slice_get plan.now.trips trip)) [] }
{
    plan.trip(trip).headsign.as_str()
}

/// The id of a trip.
fn trip_id(plan: &Plan, trip: u32) -> &str
    requires { trip < length plan.now.trips }
    ensures { result.now ≡ unwrap_or (option_map (λ x. x.id) (slice_get plan.now.trips trip)) [] }
{
    plan.trip(trip).id.as_str()
}

/// A number in decimal digits; or want of memory.
fn decimal_text(alloc: Global, number: u32) -> Result<Text, NoMemory>
    ensures { IfOk result (λ text. text ≡ decimal number) }
{
    let mut buffer = Buffer::new();
    Text::new(alloc, buffer.format(number))
}

/// The date of a day, in eight digits; or want of memory.
pub(crate) fn date_text(alloc: Global, plan: &Plan, day: u32) -> Result<Text, NoMemory>
    requires { day < length plan.now.bases }
    ensures { IfOk result (λ text. text ≡ date_text plan.now day) }
{
    plan.sound();
    decimal_text(alloc, plan.date(day))
}

/// The row of a departure of a run; or want of memory.
pub(crate) fn row_of_run(alloc: Global, plan: &Plan, departure: Departure) -> Result<Row, NoMemory>
    requires { IsThere plan.now departure }
    ensures { IfOk result (λ row. row ≡ (as_row plan.now departure).row) }
{
    let run = departure.run;
    Ok(Row {
        expected: departure.expected,
        scheduled: Some(departure.scheduled),
        delay: departure.delay,
        state: departure.state,
        route: Text::new(alloc, route_of(plan, run.trip))?,
        headsign: Text::new(alloc, headsign_of(plan, run.trip))?,
        trip: Text::new(alloc, trip_id(plan, run.trip))?,
        date: date_text(alloc, plan, run.day)?,
        platform: Text::new(alloc, stop_id(plan, departure.stop))?,
    })
}
