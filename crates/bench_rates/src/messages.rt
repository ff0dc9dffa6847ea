//! The messages of a run, and the feed that sends them.

ghost use Rattle.std.specs.Prelude.{◌≡◌, length, IfOk};
ghost use Rattle.std.specs.Arc.{arc_value};

use sched_types::{NamedFeed, NamedPlan, Plan, PlanName, Plans};
use std::alloc::{AllocError as NoMemory, Global};
use std::sync::Arc;

/// The stamp of the first message.
const FIRST: u64 = 1_743_314_000;

/// The feed `a` of a timetable without rows.
pub fn one_feed(alloc: Global) -> Result<Arc<Plans>, NoMemory>
    ensures { IfOk result (λ plans. length (arc_value plans).feeds ≡ 1) }
{
    let plans = vec![in alloc;
        NamedPlan {
            name: PlanName::new(alloc, "plain")?,
            prefix: PlanName::new(alloc, "")?,
            plan: Plan::plain(alloc),
        },
    ]?;
    let feeds = vec![in alloc; feed(alloc, "a")?]?;
    Ok(Arc::new(alloc, Plans::new(plans, feeds))?)
}

fn feed(alloc: Global, name: &str) -> Result<NamedFeed, NoMemory>
    ensures { IfOk result (λ feed. feed ≡ record { name = name.now; plan = 0; max_age = 0 }) }
{
    Ok(NamedFeed {
        name: PlanName::new(alloc, name)?,
        plan: 0,
        max_age: 0,
    })
}

/// The message of that place: a whole data set with a delay of 300 seconds for one trip. Each is
/// made a second behind the one before it, and the stamp of each is below 2^35.
pub fn message(place: u64) -> [u8; 47] {
    let stamp = FIRST.saturating_add(place);
    let mut bytes =
        *b"\x0a\x0d\x0a\x032.0\x10\x00\x18\x80\x80\x80\x80\x00\x12\x1e\x0a\x01u\x1a\x19\x0a\x0e\x0a\x02T1\x1a\x0820250330\x12\x07\x08\x01\x1a\x03\x08\xac\x02";
    bytes[10] = (stamp % 128) as u8 + 128;
    bytes[11] = (stamp / 128 % 128) as u8 + 128;
    bytes[12] = (stamp / 16_384 % 128) as u8 + 128;
    bytes[13] = (stamp / 2_097_152 % 128) as u8 + 128;
    bytes[14] = (stamp / 268_435_456 % 128) as u8;
    bytes
}
