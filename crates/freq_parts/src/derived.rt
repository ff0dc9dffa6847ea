//! The derived trips, with their places and among all trips.

ghost use Rattle.std.specs.Prelude.{◌≡◌, ◌++◌, ◌∷◌, [], ◌^◌, ◌<◌, Some, IfOk, OnOk, length, map, zip};
ghost use Rattle.sched_types.specs.Timetable.{RisesById};
ghost use Rattle.sched_load_defs.specs.Frequencies as rule;
ghost use Rattle.freq_parts.specs.Differ.{Differ, IsListed, text_cmp};
ghost use Rattle.freq_parts.specs.Joined.{joined, key_of};

use crate::patterns::number_in;
use crate::timed::TimedTrip;
use freq_runs::{Derived, PlaceTime};
use rt_types::Text;
use sched_types::{Place, PlanDerived, Trip};
use std::alloc::{AllocError, Global};

/// A place of a pattern at another time.
fn at_time(place: Place, time: PlaceTime) -> Place
    ensures { result ≡ rule.at_time (place, time) }
{
    Place {
        arrival: time.arrival,
        departure: time.departure,
        ..place
    }
}

/// The places of a pattern at other times.
fn at_times(alloc: Global, places: &[Place], times: &[PlaceTime]) -> Result<Vec<Place>, AllocError>
    ensures { IfOk result (λ list. list.items ≡ map rule.at_time (zip places.now times.now)) }
{
    let mut list = Vec::with_capacity(alloc, places.len())?;
    for (place, time) in places.iter().zip(times) {
        list.push(at_time(*place, *time))?;
    }
    Ok(list)
}

/// A derived trip with its places.
fn timed_of(alloc: Global, pattern: &TimedTrip, derived: &Derived) -> Result<TimedTrip, AllocError>
    ensures { IfOk result
        (λ timed. rule.trip_of_pattern derived.now (Some pattern.now) ≡ timed ∷ []) }
{
    let of = pattern.trip();
    let trip = Trip {
        id: Text::new(alloc, derived.id.as_str())?,
        route: of.route,
        service: of.service,
        headsign: Text::new(alloc, of.headsign.as_str())?,
        direction: of.direction,
    };
    let places = at_times(alloc, pattern.places(), derived.times.as_slice())?;
    Ok(TimedTrip::new(trip, places))
}

/// Puts a derived trip at the end, if its pattern is there.
fn add_derived(
    alloc: Global,
    all: &mut Vec<TimedTrip>,
    patterns: &[TimedTrip],
    derived: &Derived,
) -> Result<(), AllocError>
    ensures { OnOk result (all.new.items
        ≡ all.old.items ++ rule.timed_of patterns.now derived.now) }
{
    match patterns.get(derived.pattern as usize) {
        Some(pattern) => {
            all.push(timed_of(alloc, pattern, derived)?)?;
            Ok(())
        }
        None => Ok(()),
    }
}

/// The trips, and after them the derived ones.
fn with_derived(
    alloc: Global,
    others: Vec<TimedTrip>,
    patterns: &[TimedTrip],
    derived: &[Derived],
) -> Result<Vec<TimedTrip>, AllocError>
    ensures { IfOk result (λ all. all.items ≡ joined patterns.now others.items derived.now) }
{
    let mut all = others;
    all.reserve(derived.len())?;
    for one in derived {
        add_derived(alloc, &mut all, patterns, one)?;
    }
    Ok(all)
}

/// All trips by rising bytes of their ids: the others, and the derived ones.
pub(crate) fn all_trips(
    alloc: Global,
    others: Vec<TimedTrip>,
    patterns: &[TimedTrip],
    derived: &[Derived],
) -> Result<Vec<TimedTrip>, AllocError>
    requires { Differ text_cmp rule.id_of (joined patterns.now others.items derived.now) }
    ensures { IfOk result (λ all. IsListed text_cmp rule.id_of
        (joined patterns.now others.items derived.now) all.items) }
{
    let mut all = with_derived(alloc, others, patterns, derived)?;
    all.sort_by(|one, other| one.id().order(other.id().as_str()))?;
    Ok(all)
}

/// Which of the trips a derived one is.
fn plan_derived(timed: &[TimedTrip], derived: &Derived) -> PlanDerived
    requires few { length timed.now < 2 ^ 32 }
    requires rises { RisesById rule.id_of timed.now }
    ensures { result ≡ rule.plan_derived timed.now derived.now }
{
    PlanDerived {
        pattern: derived.pattern,
        start: derived.start,
        trip: number_in(timed, derived.id.as_str()),
    }
}

/// Which of the trips the derived ones are, in their order.
fn numbered(
    alloc: Global,
    timed: &[TimedTrip],
    derived: &[Derived],
) -> Result<Vec<PlanDerived>, AllocError>
    requires few { length timed.now < 2 ^ 32 }
    requires rises { RisesById rule.id_of timed.now }
    ensures { IfOk result (λ list. list.items ≡ map (rule.plan_derived timed.now) derived.now) }
{
    let mut list = Vec::with_capacity(alloc, derived.len())?;
    for one in derived {
        list.push(plan_derived(timed, one))?;
    }
    Ok(list)
}

/// Which of the trips the derived ones are, by their patterns and then by their starts.
pub(crate) fn plan_deriveds(
    alloc: Global,
    timed: &[TimedTrip],
    derived: &[Derived],
) -> Result<Vec<PlanDerived>, AllocError>
    requires few { length timed.now < 2 ^ 32 }
    requires rises { RisesById rule.id_of timed.now }
    requires differ { Differ rule.start_cmp key_of derived.now }
    ensures { IfOk result (λ list. IsListed rule.start_cmp rule.start_of
        (map (rule.plan_derived timed.now) derived.now) list.items) }
{
    let mut list = numbered(alloc, timed, derived)?;
    list.sort_by(|one, other| (one.pattern, one.start).cmp(&(other.pattern, other.start)))?;
    Ok(list)
}
