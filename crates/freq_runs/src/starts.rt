//! How often a row has its pattern start.

ghost use Rattle.std.specs.Prelude.{◌≡◌, ◌+◌, ◌*◌, ◌<◌, ◌≤◌, ℕ, length, map, IfSome, IfNone};
ghost use Rattle.std.specs.List.{range_with_len};
ghost use Rattle.freq_runs.specs.Trips.{starts_of, trips_of_pattern, trip_at};
ghost use Rattle.freq_runs.specs.Faults.{most_places};

use crate::rows::{Frequency, Pattern};

/// The most places that derived trips may have in all.
pub const MOST_PLACES: u64 = 4_000_000;

/// How often the row would start, were it exact: at `start`, and after each headway, as long as
/// this is below `end`.
fn starts(row: &Frequency) -> u32
    requires { 1 ≤ row.now.headway }
    ensures starts { starts_of row.now ≡ map
        (λ x. row.now.start + x * row.now.headway) (range_with_len 0 result) }
    ensures below { (x : ℕ) → x < result → row.now.start + x * row.now.headway < row.now.end }
{
    row.end.saturating_sub(row.start).div_ceil(row.headway)
}

/// How many trips the row derives of its pattern.
pub(crate) fn trip_count(pattern: &Pattern, row: &Frequency) -> u32
    requires { 1 ≤ row.now.headway }
    ensures trips { trips_of_pattern pattern.now row.now ≡ map
        (λ x. trip_at row.now.pattern pattern.now (row.now.start + x * row.now.headway))
        (range_with_len 0 result) }
    ensures below { (x : ℕ) → x < result → row.now.start + x * row.now.headway < row.now.end }
    ensures two { 0 < result → 2 ≤ length pattern.now.times }
{
    if row.exact && pattern.times.as_slice().len() >= 2 {
        starts(row)
    } else {
        0
    }
}

/// How many places there are with those of so many trips more, if these aren't too many.
pub(crate) fn places_with(places: u64, trips: u32, each: usize) -> Option<u64>
    requires { places ≤ most_places }
    ensures sum { IfSome result (λ more. more ≡ places + trips * each) }
    ensures few { IfSome result (λ more. more ≤ most_places) }
    ensures many { IfNone result (most_places < places + trips * each) }
{
    let more = u64::from(trips).checked_mul(each as u64)?;
    if more > MOST_PLACES - places {
        return None;
    }
    Some(places + more)
}
