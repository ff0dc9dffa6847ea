//! The trips that frequencies.txt derives, and how many rows they and their patterns are.
ghost use Rattle.std.specs.Prelude.{◌≡◌, ◌+◌, ◌-◌, ◌^◌, ◌<◌, [], length, map, slice_get, sum_by, unwrap_or};
ghost use Rattle.sched_types.specs.Timetable.{RiseByStart, derived_in, has_derived_in, places_derived};

use crate::rows::{Place, PlanDerived, PlanPattern};

/// The number of the trip that a pattern gives at a start.
pub(crate) fn derived_at(derived: &[PlanDerived], pattern: u32, start: u32) -> Option<u32>
    requires { RiseByStart derived.now }
    ensures { result ≡ derived_in derived.now pattern start }
{
    match derived.binary_search_by(|trip| (trip.pattern, trip.start).cmp(&(pattern, start))) {
        Ok(found) => Some(derived[found].trip),
        Err(_) => None,
    }
}

/// Whether a pattern gives any trip.
pub(crate) fn has_derived(derived: &[PlanDerived], pattern: u32) -> bool
    requires { RiseByStart derived.now }
    ensures { result ≡ has_derived_in derived.now pattern }
{
    derived
        .binary_search_by(|trip| trip.pattern.cmp(&pattern))
        .is_ok()
}

/// How many places a trip has; none past the last trip.
fn count_at(places: &[Vec<Place>], trip: u32) -> u64
    ensures { result ≡ length (unwrap_or (slice_get (map (λ v. v.items) places.now) trip) []) }
{
    match places.get(trip as usize) {
        Some(places) => places.len() as u64,
        None => 0,
    }
}

/// So many places without those of the derived trips.
pub(crate) fn without_derived(total: u32, places: &[Vec<Place>], derived: &[PlanDerived]) -> u32
    ensures { result ≡ total - places_derived (map (λ v. v.items) places.now) derived.now }
{
    let mut left = total as u64;
    for trip in derived {
        left = left.saturating_sub(count_at(places, trip.trip));
    }
    left as u32
}

/// So many places and those of the patterns.
pub(crate) fn with_patterns(count: u32, patterns: &[PlanPattern]) -> u32
    requires { count + sum_by (λ pattern. pattern.places) patterns.now < 2 ^ 32 }
    ensures { result ≡ count + sum_by (λ pattern. pattern.places) patterns.now }
{
    let mut total = count;
    for pattern in patterns {
        total += pattern.places;
    }
    total
}
