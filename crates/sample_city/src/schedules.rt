//! The city as the timetable of a hub, with one feed, two or four.

ghost use Rattle.std.specs.Prelude.{◌≡◌, [], ◌∷◌, length, codes, IfOk};
ghost use Rattle.std.specs.Arc.{arc_value};
ghost use Rattle.sample_city.specs.CityFeeds as example;
ghost use Rattle.sample_city.specs.CityFeeds.{city_with};

use crate::NoMemory;
use crate::plan::city;
use sched_types::{NamedFeed, NamedPlan, PlanName, Plans};
use std::alloc::Global;
use std::sync::Arc;

/// The city under the name `city`, without a prefix.
pub fn named_city(alloc: Global) -> Result<NamedPlan, NoMemory>
    ensures { IfOk result (λ named. named ≡ example.named_city) }
{
    Ok(NamedPlan {
        name: PlanName::new(alloc, "city")?,
        prefix: PlanName::new(alloc, "")?,
        plan: city(alloc)?,
    })
}

/// A feed of that name, of the first timetable.
pub fn feed(alloc: Global, name: &str) -> Result<NamedFeed, NoMemory>
    ensures { IfOk result (λ feed. feed ≡ record { name = name.now; plan = 0; max_age = 0 }) }
{
    Ok(NamedFeed {
        name: PlanName::new(alloc, name)?,
        plan: 0,
        max_age: 0,
    })
}

/// The city with the feed `a`.
pub fn one_feed(alloc: Global) -> Result<Arc<Plans>, NoMemory>
    ensures value { IfOk result (λ plans. arc_value plans ≡ city_with (codes "a" ∷ [])) }
    ensures count { IfOk result (λ plans. length (arc_value plans).feeds ≡ 1) }
{
    let plans = vec![in alloc; named_city(alloc)?]?;
    let feeds = vec![in alloc; feed(alloc, "a")?]?;
    Ok(Arc::new(alloc, Plans::new(plans, feeds))?)
}

/// The city with the feeds `a` and `b`.
pub fn two_feeds(alloc: Global) -> Result<Arc<Plans>, NoMemory>
    ensures value { IfOk result (λ plans. arc_value plans ≡ city_with (codes "a" ∷ codes "b" ∷ [])) }
    ensures count { IfOk result (λ plans. length (arc_value plans).feeds ≡ 2) }
{
    let plans = vec![in alloc; named_city(alloc)?]?;
    let feeds = vec![in alloc; feed(alloc, "a")?, feed(alloc, "b")?]?;
    Ok(Arc::new(alloc, Plans::new(plans, feeds))?)
}

/// The city with the feeds `a` to `d`.
pub fn four_feeds(alloc: Global) -> Result<Arc<Plans>, NoMemory>
    ensures value { IfOk result (λ plans. arc_value plans
        ≡ city_with (codes "a" ∷ codes "b" ∷ codes "c" ∷ codes "d" ∷ [])) }
    ensures count { IfOk result (λ plans. length (arc_value plans).feeds ≡ 4) }
{
    let plans = vec![in alloc; named_city(alloc)?]?;
    let feeds = vec![in alloc;
        feed(alloc, "a")?,
        feed(alloc, "b")?,
        feed(alloc, "c")?,
        feed(alloc, "d")?,
    ]?;
    Ok(Arc::new(alloc, Plans::new(plans, feeds))?)
}
