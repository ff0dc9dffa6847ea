//! Opening a desk.

ghost use Rattle.std.specs.Prelude.{◌≡◌, replicate, IfOk};
ghost use Rattle.feed_permits.specs.Seen.{fresh_keys};

use crate::NoMemory;
use crate::desk::Desk;
use crate::opening::Permits;
use std::alloc::Global;

/// How many numbers there are: a hub has at most so many feeds.
const NUMBERS: usize = 64;

/// A desk whose counts are 0, with the keys of the numbers 0 to 63, none of which was granted; or
/// want of memory.
pub fn permits(alloc: Global) -> Result<Permits, NoMemory>
    ensures counts { IfOk result (λ all. all.desk.counts ≡ replicate 64 0) }
    ensures keys { IfOk result (λ all. all.keys.items ≡ fresh_keys all.desk.table 64) }
{
    let mut desk = Desk::open(alloc)?;
    let mut keys = Vec::with_capacity(alloc, NUMBERS)?;
    for number in 0..NUMBERS {
        keys.push(desk.deal(number))?;
    }
    Ok(Permits { desk, keys })
}
