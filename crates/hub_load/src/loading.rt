//! The timetables and the feeds of a configuration.
ghost use Rattle.std.specs.Prelude.{◌≡◌, IfErr, IfOk, IfSome, map, true};
ghost use Rattle.std.specs.List.{list_all};
ghost use Rattle.hub_config_defs.specs.Right.{IsLegal, has_window};
ghost use Rattle.hub_main_defs.specs.Hubs.{configured_at, named_feed, schedules_at};
ghost use Rattle.hub_load.specs.Configuring.{configured_seen};
ghost use Rattle.hub_load.specs.Stops.{LoadingStopped, PlanStopped, PlansStopped, StopsWith};
ghost use Rattle.hub_load.specs.Told.{HasCause, IsAsTold, named_plan_told, named_plans_told, schedules_told};

use crate::conf::conf_at;
use crate::fault::HubFault;
use crate::plan::load_plan;
use hub_config_defs::{FeedConf, HubConf, ScheduleConf};
use hub_outside::Files;
use rt_types::Copied;
use sched_types::{NamedFeed, NamedPlan, Plans};
use std::alloc::{AllocError, Global};

/// A configuration, and the timetables and feeds that it describes.
#[derive(Drop)]
pub struct Configured {
    /// The configuration.
    pub conf: HubConf,
    /// Its timetables in the order of its schedules, each under its schedule's name and prefix, and
    /// its feeds, each with the number of its schedule.
    pub plans: Plans,
}

/// Loads the configuration at the path and all its timetables: these in the order of its schedules,
/// each under its schedule's name and prefix, and its feeds, each with the number of its schedule;
/// or the line of the first fault. The configuration counts first, and then its timetables in
/// order.
pub fn load_plans<F: Files>(alloc: Global, files: &mut F, path: &str) -> Result<Plans, HubFault>
    ensures told { IfSome (F.contents files.old)
        (λ fs. IsAsTold (λ plans. plans) (schedules_at fs path.now) result) }
    ensures cause { HasCause result (F.faults files.old) (F.faults files.new) }
    ensures same { F.contents files.new ≡ F.contents files.old }
    ensures stops { StopsWith result
        (LoadingStopped (F.contents files.old) (F.last_fault files.new) path.now) }
{
    let conf = conf_at(alloc, files, path)?;
    plans_of(alloc, files, conf)
}

/// The same with the configuration beside it, of one reading of its file.
pub fn load_configured<F: Files>(
    alloc: Global,
    files: &mut F,
    path: &str,
) -> Result<Configured, HubFault>
    ensures told { IfSome (F.contents files.old)
        (λ fs. IsAsTold configured_seen (configured_at fs path.now) result) }
    ensures feeds { IfOk result (λ configured.
        configured.plans.feeds ≡ map named_feed configured.conf.feeds) }
    ensures legal { IfOk result (λ configured. IsLegal configured.conf) }
    ensures cause { HasCause result (F.faults files.old) (F.faults files.new) }
    ensures same { F.contents files.new ≡ F.contents files.old }
    ensures stops { StopsWith result
        (LoadingStopped (F.contents files.old) (F.last_fault files.new) path.now) }
{
    let conf = conf_at(alloc, files, path)?;
    let copy = copied(&conf)?;
    let plans = plans_of(alloc, files, copy)?;
    Ok(Configured { conf, plans })
}

/// A copy of a configuration.
fn copied(conf: &HubConf) -> Result<HubConf, HubFault>
    ensures copy { IfOk result (λ copy. copy ≡ conf.now) }
    ensures memory { IfErr result (λ fault. fault ≡ HubFault.NoMemory) }
{
    Ok(conf.copy()?)
}

/// The timetables and feeds of a configuration.
fn plans_of<F: Files>(alloc: Global, files: &mut F, conf: HubConf) -> Result<Plans, HubFault>
    requires legal { IsLegal conf }
    ensures told { IfSome (F.contents files.old)
        (λ fs. IsAsTold (λ plans. plans) (schedules_told fs conf) result) }
    ensures feeds { IfOk result (λ plans. plans.feeds ≡ map named_feed conf.feeds) }
    ensures cause { HasCause result (F.faults files.old) (F.faults files.new) }
    ensures same { F.contents files.new ≡ F.contents files.old }
    ensures stops { StopsWith result
        (PlansStopped (F.contents files.old) (F.last_fault files.new) conf.schedules) }
{
    let plans = named_plans(alloc, files, conf.schedules.into_vec())?;
    let feeds = named_feeds(alloc, conf.feeds.into_vec())?;
    Ok(Plans::new(plans, feeds))
}

/// The timetables of the schedules, in their order, or the line of the first fault.
fn named_plans<F: Files>(
    alloc: Global,
    files: &mut F,
    schedules: Vec<ScheduleConf>,
) -> Result<Vec<NamedPlan>, HubFault>
    requires { list_all has_window schedules.items ≡ true }
    ensures told { IfSome (F.contents files.old)
        (λ fs. IsAsTold (λ plans. plans.items) (named_plans_told fs schedules.items) result) }
    ensures names { IfOk result (λ plans. map (λ plan. plan.name) plans.items
        ≡ map (λ schedule. schedule.name) schedules.items) }
    ensures cause { HasCause result (F.faults files.old) (F.faults files.new) }
    ensures same { F.contents files.new ≡ F.contents files.old }
    ensures stops { StopsWith result
        (PlansStopped (F.contents files.old) (F.last_fault files.new) schedules.items) }
{
    let mut plans = Vec::new(alloc);
    for schedule in schedules {
        let plan = named_plan(alloc, files, schedule)?;
        plans.push(plan)?;
    }
    Ok(plans)
}

/// The timetable of a schedule, under its name and prefix.
fn named_plan<F: Files>(
    alloc: Global,
    files: &mut F,
    schedule: ScheduleConf,
) -> Result<NamedPlan, HubFault>
    requires { has_window schedule ≡ true }
    ensures told { IfSome (F.contents files.old)
        (λ fs. IsAsTold (λ plan. plan) (named_plan_told fs schedule) result) }
    ensures name { IfOk result (λ plan. plan.name ≡ schedule.name) }
    ensures cause { HasCause result (F.faults files.old) (F.faults files.new) }
    ensures same { F.contents files.new ≡ F.contents files.old }
    ensures stops { StopsWith result
        (PlanStopped (F.contents files.old) (F.last_fault files.new) schedule) }
{
    let plan = load_plan(alloc, files, &schedule)?;
    Ok(NamedPlan {
        name: schedule.name,
        prefix: schedule.prefix,
        plan,
    })
}

/// The feeds, each with the number of its schedule.
fn named_feeds(alloc: Global, feeds: Vec<FeedConf>) -> Result<Vec<NamedFeed>, AllocError>
    ensures { IfOk result (λ named. named.items ≡ map named_feed feeds.items) }
{
    let mut named = Vec::new(alloc);
    for feed in feeds {
        named.push(NamedFeed {
            name: feed.name,
            plan: feed.schedule,
            max_age: feed.max_age,
        })?;
    }
    Ok(named)
}
