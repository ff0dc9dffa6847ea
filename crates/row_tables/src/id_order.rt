//! The order of the rows of one file, and its first fault.

ghost use Rattle.std.specs.Prelude.{◌≡◌, ◌≤◌, ◌<◌, ◌+◌, ◌^◌, length, map, IfOk};
ghost use Rattle.sched_load_defs.specs.References.{consistent, row_at};
ghost use Rattle.row_tables.specs.Order.{Orders, same_id, texts_seen};
ghost use Rattle.sched_load_defs.specs.Files.{most_rows};

use crate::judges::Judge;
use crate::rows::IdRow;
use sched_load_defs::LoadFault;
use std::alloc::{AllocError, Global};
use std::collections::BTreeMap;

/// The number of a row of data by its place: the header is row 1.
pub fn row_number(place: usize) -> u32
    requires { place < most_rows }
    ensures { result ≡ row_at place }
{
    place as u32 + 2
}

/// The values of a map by rising keys.
fn values(alloc: Global, places: &BTreeMap<&str, u32>) -> Result<Vec<u32>, AllocError>
    ensures { IfOk result (λ xs. xs.items
        ≡ map (λ entry. entry.1) (texts_seen places.now.entries)) }
{
    let mut values = Vec::with_capacity(alloc, places.len())?;
    for (_, value) in places {
        values.push(*value)?;
    }
    Ok(values)
}

/// The places of the rows by rising ids, or the first row that refers to nothing or has the id of
/// an earlier one.
pub fn order_of<R: IdRow, J: Judge<R>>(
    alloc: Global,
    rows: &[R],
    judge: &J,
) -> Result<Vec<u32>, LoadFault>
    requires { length rows.now ≤ most_rows }
    ensures { Orders
        (consistent R.name (J.unknown_of judge.now)
        (same_id R.id_of) rows.now) R.id_of rows.now result }
{
    let mut places = BTreeMap::new(alloc);
    for (place, row) in rows.iter().enumerate() {
        if let Some(column) = judge.unknown(row) {
            let row = row_number(place);
            return Err(LoadFault::UnknownRef {
                file: R::file(),
                row,
                column,
            });
        }
        if places.insert(row.id(), place as u32)?.is_some() {
            let row = row_number(place);
            return Err(LoadFault::Duplicate {
                file: R::file(),
                row,
            });
        }
    }
    Ok(values(alloc, &places)?)
}
