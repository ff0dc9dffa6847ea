//! The children of each stop.
ghost use Rattle.std.specs.Prelude.{◌≡◌, ℕ, ◌^◌, ◌<◌, Some, [], length, slice_get, map, IfOk};
ghost use Rattle.std.specs.List.{range_with_len};
ghost use Rattle.sched_types.specs.declared.rows.Stop.{Stop};
ghost use Rattle.sched_types.specs.Sound.{all_children};

use crate::rows::Stop;
use std::alloc::{AllocError, Global};

/// So many empty lists.
fn empty_lists(alloc: Global, count: usize) -> Result<Vec<Vec<u32>>, AllocError>
    ensures { IfOk result (λ lists. map (λ v. v.items) lists.items
        ≡ map (λ _. []) (range_with_len 0 count)) }
{
    let mut lists = Vec::new(alloc);
    for _ in 0..count {
        lists.push(Vec::new(alloc))?;
    }
    Ok(lists)
}

/// For each stop the numbers of the stops that name it as parent, rising.
pub(crate) fn children_lists(alloc: Global, stops: &[Stop]) -> Result<Vec<Vec<u32>>, AllocError>
    requires few { length stops.now < 2 ^ 32 }
    requires parents { (i parent : ℕ) (stop : Stop) → slice_get stops.now i ≡ Some stop
        → stop.parent ≡ Some parent → parent < length stops.now }
    ensures { IfOk result (λ lists. map (λ v. v.items) lists.items ≡ all_children stops.now) }
{
    let mut lists = empty_lists(alloc, stops.len())?;
    for (number, stop) in stops.iter().enumerate() {
        if let Some(parent) = stop.parent {
            let list = &mut lists[parent as usize];
            list.push(number as u32)?;
        }
    }
    Ok(lists)
}
