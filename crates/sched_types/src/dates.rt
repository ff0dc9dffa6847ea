//! The dates of a window's days.
ghost use Rattle.std.specs.Prelude.{◌≡◌, ◌+◌, ◌<◌, IsTrue, IfOk, map};
ghost use Rattle.std.specs.List.{range_with_len};
ghost use Rattle.text_defs.specs.Dates.{is_day, day_number, date_plus};

use std::alloc::{AllocError, Global};
use texts::day_after;

/// So many dates one after another, as the numbers of eight digits YYYYMMDD.
pub(crate) fn dates_from(alloc: Global, first: u32, count: usize) -> Result<Vec<u32>, AllocError>
    requires valid { IsTrue (is_day first) }
    requires in_time { day_number first + count < 3_652_425 }
    ensures { IfOk result (λ dates. dates.items ≡ map (date_plus first) (range_with_len 0 count)) }
{
    let mut dates = Vec::new(alloc);
    let mut date = first;
    for _ in 0..count {
        dates.push(date)?;
        date = day_after(date);
    }
    Ok(dates)
}
