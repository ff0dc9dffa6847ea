//! Rows in groups, each in order of a number.

ghost use Rattle.std.specs.Prelude.{◌≡◌, ◌<◌, [], length, map, IfOk};
ghost use Rattle.std.specs.List.{range_with_len};
ghost use Rattle.sched_load.specs.Listed.{PutsNew, entries_of};

use std::alloc::{AllocError, Global};
use std::collections::BTreeMap;

/// So many empty maps.
pub(crate) fn empty_maps<V: Drop>(
    alloc: Global,
    count: usize,
) -> Result<Vec<BTreeMap<u32, V>>, AllocError>
    ensures { IfOk result (λ maps. entries_of maps.items ≡ map (λ _. []) (range_with_len 0 count)) }
{
    let mut maps = Vec::with_capacity(alloc, count)?;
    for _ in 0..count {
        maps.push(BTreeMap::new(alloc))?;
    }
    Ok(maps)
}

/// Puts the value under its key into the map of that number, and says whether nothing stood there.
pub(crate) fn put_new<V: Drop>(
    maps: &mut Vec<BTreeMap<u32, V>>,
    number: usize,
    key: u32,
    value: V,
) -> Result<bool, AllocError>
    requires { number < length maps.old.items }
    ensures { IfOk result
        (λ fresh. PutsNew (entries_of maps.old.items)
        (entries_of maps.new.items) number key value fresh) }
{
    let map = &mut maps[number];
    Ok(map.insert(key, value)?.is_none())
}
