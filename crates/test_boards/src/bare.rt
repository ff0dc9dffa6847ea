//! A hub whose timetable has no row.

ghost use Rattle.std.specs.Prelude.{◌≡◌, length, IfOk};

use board_parts::HubView;
use rt_types::Text;
use sample_city::{NoMemory, feed};
use sched_types::{NamedPlan, Plan, Plans};
use std::alloc::Global;
use std::sync::Arc;

/// A hub with a timetable without rows as `city`, and with the feed `a`.
#[tactic(auto, unfolding(text_defs::specs::Names::is_name))]
pub(crate) fn bare_hub(alloc: Global) -> Result<HubView, NoMemory>
    ensures { IfOk result (λ view. length view.plans.plans ≡ 1) }
{
    let plans = vec![in alloc;
        NamedPlan {
            name: Text::new(alloc, "city")?,
            prefix: Text::new(alloc, "")?,
            plan: Plan::plain(alloc),
        },
    ]?;
    let feeds = vec![in alloc; feed(alloc, "a")?]?;
    HubView::first(alloc, Arc::new(alloc, Plans::new(plans, feeds))?)
}
