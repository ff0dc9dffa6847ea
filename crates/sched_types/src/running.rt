//! Which services are active on which days of the window.
ghost use Rattle.std.specs.Prelude.{◌≡◌, ℕ, ◌<◌, false, Some, [], map, slice_get, unwrap_or, IfOk};
ghost use Rattle.sched_types.specs.Sound.{days_marked};

use std::alloc::{AllocError, Global};

/// For each of so many days whether it is one of those.
fn marked_days(alloc: Global, days: &[u32], count: usize) -> Result<Vec<bool>, AllocError>
    requires { (i day : ℕ) → slice_get days.now i ≡ Some day → day < count }
    ensures { IfOk result (λ marks. marks.items ≡ days_marked count days.now) }
{
    let mut marks = vec![in alloc; false; count]?;
    for day in days {
        marks[*day as usize] = true;
    }
    Ok(marks)
}

/// For each service, of those that are active on these days, a mark for each of so many days.
pub(crate) fn running_lists(
    alloc: Global,
    active: &[Vec<u32>],
    count: usize,
) -> Result<Vec<Vec<bool>>, AllocError>
    requires { (service i day : ℕ)
        → slice_get (unwrap_or (slice_get (map (λ v. v.items) active.now) service) []) i ≡ Some day
        → day < count }
    ensures { IfOk result
        (λ lists. map (λ v. v.items) lists.items
        ≡ map (days_marked count) (map (λ v. v.items) active.now)) }
{
    let mut lists = Vec::new(alloc);
    for days in active {
        lists.push(marked_days(alloc, days.as_slice(), count)?)?;
    }
    Ok(lists)
}

/// Whether that day is marked; past the last none is.
pub(crate) fn is_marked(marks: &[bool], day: u32) -> bool
    ensures { result ≡ unwrap_or (slice_get marks.now day) false }
{
    marks.get(day as usize).copied().unwrap_or(false)
}
