//! A hub with the timetable of a world and two feeds.

ghost use Rattle.std.specs.Prelude.{◌≡◌, IfOk};

use crate::entities::entities;
use crate::files::folder;
use crate::world::World;
use board_parts::HubView;
use rt_types::Text;
use sample_city::{dataset_of, feed, last_stamp};
use sched_load::{LoadFault, PlanConf, load};
use sched_types::{NamedPlan, Plan, PlanName, Plans};
use std::alloc::{AllocError, Global};
use std::sync::Arc;
use texts::LAST_MOMENT;

/// The timetable of a world.
fn plan(alloc: Global, world: &World) -> Result<Plan, LoadFault> {
    let conf = PlanConf {
        zone: Text::new(alloc, "CET-1CEST,M3.5.0,M10.5.0/3")?,
        first: 20_250_329,
        days: 3,
    };
    let mut files = folder(alloc, world)?;
    load(alloc, &mut files, "city", &conf)
}

/// That timetable under a name, without a prefix.
fn named(alloc: Global, name: &str, plan: Plan) -> Result<NamedPlan, AllocError>
    ensures { IfOk result (λ named. named.name ≡ name.now) }
{
    Ok(NamedPlan {
        name: PlanName::new(alloc, name)?,
        prefix: PlanName::new(alloc, "")?,
        plan,
    })
}

/// The timetable with the feeds `a` and `b`.
fn schedules(alloc: Global, plan: Plan) -> Result<Plans, AllocError> {
    let plans = vec![in alloc; named(alloc, "city", plan)?]?;
    let feeds = vec![in alloc; feed(alloc, "a")?, feed(alloc, "b")?]?;
    Ok(Plans::new(plans, feeds))
}

/// The view after the message of a feed, which sent none before.
fn spoken(alloc: Global, view: &HubView, world: &World, feed: u32) -> Result<HubView, AllocError> {
    let stamp = world.stamps.get(feed as usize).copied().unwrap_or(0);
    if feed as usize >= view.plans().feeds().len() || stamp == 0 || stamp > LAST_MOMENT {
        return Err(AllocError);
    }
    if last_stamp(view, feed) >= stamp {
        return Err(AllocError);
    }
    let message = dataset_of(alloc, stamp, entities(alloc, world, feed)?)?;
    view.after(alloc, feed, message)
}

/// The view of a hub after both feeds of a world have spoken.
pub fn hub_of(alloc: Global, world: &World) -> Result<HubView, LoadFault> {
    let schedules = schedules(alloc, plan(alloc, world)?)?;
    let first = HubView::first(alloc, Arc::new(alloc, schedules)?)?;
    let second = spoken(alloc, &first, world, 0)?;
    Ok(spoken(alloc, &second, world, 1)?)
}
