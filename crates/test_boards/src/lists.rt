//! Lists of a hub whose timetable has no row. Scripts ask for lists with rows.

use crate::bare::bare_hub;
use board_defs::BoardQuery;
use board_lists::{NoMemory, RowsFault, alerts, unmatched};
use rt_types::Text;
use std::alloc::Global;
use std::test::Fail;

/// Whether nothing is unmatched, and no alert is listed at a stop that isn't there.
fn is_bare(alloc: Global) -> Result<bool, NoMemory> {
    let view = bare_hub(alloc)?;
    let listed = unmatched(alloc, &view, 0)?;
    let query = BoardQuery {
        plan: 0,
        stop: Text::new(alloc, "S3")?,
        at: 1_743_314_000,
        span: 3600,
        limit: 50,
    };
    let refused = alerts(alloc, &view, &query);
    Ok(listed.is_empty() && matches!(refused, Err(RowsFault::NoStop)))
}

#[test]
fn a_bare_hub_lists_nothing(rt: HostRuntime) -> Result<(), Fail> {
    assert!(rt; is_bare(rt.alloc())?);
    Ok(())
}
