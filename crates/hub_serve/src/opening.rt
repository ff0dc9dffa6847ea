//! What a run needs before it begins.

ghost use Rattle.std.specs.Prelude.{◌≡◌, [], map, vec_len, IfOk};
ghost use Rattle.std.specs.List.{All};
ghost use Rattle.hub_shared.specs.Calls.{IsFresh};

use crate::NoMemory;
use crate::naming::OfHub;
use crate::readers::{HubPass, Post};
use delta_out::Kept;
use http_door::{DoorEnd, DoorReport};
use hub_shared::{PortEnd, PortReport};
use snapshot_cell::Pass;
use std::alloc::Global;

/// The reports of so many ports that were asked nothing.
pub(crate) fn port_reports(alloc: Global, count: usize) -> Result<Vec<PortReport>, NoMemory>
    ensures { IfOk result (λ reports. vec_len reports ≡ count) }
{
    let unasked = PortReport {
        accepted: 0,
        refused: 0,
        starved: 0,
        too_long: 0,
        end: PortEnd::NoMemory,
    };
    let mut reports = Vec::new(alloc);
    reports.resize(count, unasked)?;
    Ok(reports)
}

/// A post for each clock, in their order, of doors that were asked nothing; or want of memory.
pub(crate) fn posts_of<C: Drop>(alloc: Global, clocks: Vec<C>) -> Result<Vec<Post<C>>, NoMemory>
    ensures clocks { IfOk result (λ posts. map (λ post. post.clock) posts.items ≡ clocks.items) }
    ensures kept { IfOk result (λ posts. All (λ post. post.kept ≡ []) posts.items) }
{
    let mut posts = Vec::with_capacity(alloc, clocks.len())?;
    for clock in clocks {
        let post = post_of(alloc, clock)?;
        posts.push(post)?;
    }
    Ok(posts)
}

/// The post of a reader with that clock, which has kept no view; or want of memory.
fn post_of<C: Drop>(alloc: Global, clock: C) -> Result<Post<C>, NoMemory>
    ensures clock { IfOk result (λ post. post.clock ≡ clock) }
    ensures kept { IfOk result (λ post. post.kept ≡ []) }
{
    Ok(Post {
        clock,
        kept: Kept::new(alloc)?,
        report: DoorReport {
            end: DoorEnd::Ended,
            connections: 0,
            responses: 0,
            starved: 0,
        },
    })
}

/// The passes of readers at the hub.
pub(crate) fn passes_at<H: OfHub>(
    alloc: Global,
    passes: Vec<Pass>,
) -> Result<Vec<HubPass<H>>, NoMemory>
    requires { All (IsFresh H.ties) passes.items }
    ensures { IfOk result (λ same. same.items ≡ passes.items) }
{
    let mut same = Vec::with_capacity(alloc, passes.len())?;
    for pass in passes {
        same.push(HubPass::new(pass))?;
    }
    Ok(same)
}
