//! Gathers the departures of each stop, trip by trip.

ghost use Rattle.std.specs.Prelude.{◌≡◌, ◌<◌, [], length, map, IfOk, OnOk};
ghost use Rattle.std.specs.List.{range_with_len};
ghost use Rattle.stop_index.specs.Gathered.{AddsTrip, gathered};

use crate::NoMemory;
use crate::trip_departure::TripDeparture;
use sched_types::Plan;
use std::alloc::Global;

/// So many empty lists; or out of memory.
fn empty_lists(alloc: Global, count: u32) -> Result<Vec<Vec<TripDeparture>>, NoMemory>
    ensures { IfOk result (λ lists. map (λ v. v.items) lists.items
        ≡ map (λ _. []) (range_with_len 0 count)) }
{
    let mut lists = Vec::with_capacity(alloc, count as usize)?;
    for _ in 0..count {
        lists.push(Vec::new(alloc))?;
    }
    Ok(lists)
}

/// Appends the departures of a trip to the lists of their stops; or runs out of memory.
fn add_trip(plan: &Plan, trip: u32, lists: &mut Vec<Vec<TripDeparture>>) -> Result<(), NoMemory>
    requires trip { trip < length plan.now.trips }
    requires stops { length lists.old.items ≡ length plan.now.stops }
    ensures { OnOk result (AddsTrip plan.now trip (map (λ v. v.items) lists.old.items)
        (map (λ v. v.items) lists.new.items)) }
{
    plan.sound();
    let places = plan.stop_times(trip);
    // Nobody leaves from the last place.
    let places = &places[..places.len().saturating_sub(1)];
    for (i, place) in places.iter().enumerate() {
        let list = &mut lists[place.stop as usize];
        list.push(TripDeparture {
            seconds: place.departure,
            trip,
            place: i as u32,
        })?;
    }
    Ok(())
}

/// The departures of each stop, by trip and then by place; or out of memory.
pub(crate) fn by_stop(alloc: Global, plan: &Plan) -> Result<Vec<Vec<TripDeparture>>, NoMemory>
    ensures { IfOk result (λ lists. map (λ v. v.items) lists.items
        ≡ gathered plan.now (length plan.now.trips)) }
{
    let mut lists = empty_lists(alloc, plan.counts().stops)?;
    for trip in 0..plan.trips() {
        add_trip(plan, trip, &mut lists)?;
    }
    Ok(lists)
}
