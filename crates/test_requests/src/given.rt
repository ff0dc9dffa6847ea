//! What tests of connections and of doors share: their hub, a refusal of it, and heads of a given
//! length.
use hub_state::{NoMemory, ReplayHub};
use rt_types::Text;
use sched_types::{NamedFeed, NamedPlan, Plan, Plans};
use std::alloc::Global;
use std::sync::Arc;

/// What that hub says of a stop or a schedule that it doesn't know.
pub(crate) const NOT_FOUND: &[u8] =
    b"HTTP/1.1 404 Not Found\r\nContent-Type: text/plain; charset=utf-8\r\nContent-Length: 10\r\nX-Hub-Sequence: 0\r\nX-Hub-Moment: 7\r\nConnection: keep-alive\r\n\r\nnot found\n";

/// A hub with a timetable without rows as `city`, and with the feed `a`.
#[tactic(auto, unfolding(text_defs::specs::Names::is_name))]
pub(crate) fn hub(alloc: Global) -> Result<ReplayHub, NoMemory> {
    let plans = vec![in alloc;
        NamedPlan {
            name: Text::new(alloc, "city")?,
            prefix: Text::new(alloc, "")?,
            plan: Plan::plain(alloc),
        },
    ]?;
    let feeds = vec![in alloc;
        NamedFeed {
            name: Text::new(alloc, "a")?,
            plan: 0,
            max_age: 0,
        },
    ]?;
    ReplayHub::new(alloc, Arc::new(alloc, Plans::new(plans, feeds))?)
}

/// A request that begins so, with a head of so many bytes.
pub(crate) fn head_of(alloc: Global, front: &[u8], count: usize) -> Result<Vec<u8>, NoMemory> {
    let mut bytes = Vec::from_slice(alloc, front)?;
    bytes.resize(count.saturating_sub(13), b'a')?;
    bytes.extend_from_slice(b" HTTP/1.1\r\n\r\n".as_slice())?;
    Ok(bytes)
}
