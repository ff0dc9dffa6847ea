//! Boards of two feeds, of which the first has a max_age.

ghost use Rattle.std.specs.Prelude.{◌≤◌};
ghost use Rattle.text_defs.specs.Moments.{last_moment};

use crate::boards::{FIRST, Told, Wanted, begins_with, late, said};
use board_core::RowsFault;
use sample_city::{NoMemory, feed, named_city};
use sched_types::{NamedFeed, Plans};
use std::alloc::Global;
use std::sync::Arc;
use std::test::Fail;

/// The city with the feeds `a`, of which an update counts for a minute, and `b`, of which it counts
/// for ever.
fn ageing_feeds(alloc: Global) -> Result<Arc<Plans>, NoMemory> {
    let plans = vec![in alloc; named_city(alloc)?]?;
    let first = NamedFeed {
        max_age: 60,
        ..feed(alloc, "a")?
    };
    let feeds = vec![in alloc; first, feed(alloc, "b")?]?;
    Ok(Arc::new(alloc, Plans::new(plans, feeds))?)
}

/// Whether the board of the market at a moment begins with that row after a message of a, and after
/// one of b where there is one, all of 1743314000.
fn shows_at(
    alloc: Global,
    first: Told,
    second: Option<Told>,
    at: u64,
    wanted: Wanted,
) -> Result<bool, RowsFault>
    requires { at ≤ last_moment }
{
    begins_with(alloc, ageing_feeds(alloc)?, first, second, at, wanted)
}

#[test]
fn an_update_counts_for_its_feeds_max_age(rt: HostRuntime) -> Result<(), Fail> {
    let alloc = rt.alloc();
    let told = said(None, 300);
    assert!(rt; shows_at(alloc, told, None, 1_743_314_060, late(1743314700))?);
    assert!(rt; shows_at(alloc, told, None, 1_743_314_061, FIRST)?);
    Ok(())
}

#[test]
fn the_update_of_another_feed_counts_after_it(rt: HostRuntime) -> Result<(), Fail> {
    let alloc = rt.alloc();
    let (first, second) = (said(None, 60), Some(said(None, 120)));
    assert!(rt; shows_at(alloc, first, second, 1_743_314_060, late(1743314460))?);
    assert!(rt; shows_at(alloc, first, second, 1_743_314_061, late(1743314520))?);
    Ok(())
}
