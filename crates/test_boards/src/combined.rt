//! Combined feeds, byte by byte.

ghost use Rattle.std.specs.Prelude.{◌≡◌, ◌<◌, length, IfOk};
ghost use Rattle.std.specs.Arc.{arc_value};
ghost use Rattle.board_defs.specs.Views.{hub_first};

use board_parts::HubView;
use feed_out::{NoMemory, combined};
use rt_types::{Entity, Shared, Text, Vehicle};
use sample_city::{dataset_of, no_bytes};
use sched_types::{NamedFeed, NamedPlan, Plan, PlanName, Plans};
use std::alloc::Global;
use std::sync::Arc;
use std::test::Fail;

/// A timetable without rows, under that name and prefix.
fn plan(alloc: Global, name: &str, prefix: &str) -> Result<NamedPlan, NoMemory>
    ensures name { IfOk result (λ plan. plan.name ≡ name.now) }
{
    Ok(NamedPlan {
        name: PlanName::new(alloc, name)?,
        prefix: PlanName::new(alloc, prefix)?,
        plan: Plan::plain(alloc),
    })
}

/// A feed of the timetable of that number.
fn feed(alloc: Global, name: &str, plan: u32) -> Result<NamedFeed, NoMemory>
    ensures { IfOk result (λ feed. feed ≡ record { name = name.now; plan = plan; max_age = 0 }) }
{
    Ok(NamedFeed {
        name: PlanName::new(alloc, name)?,
        plan,
        max_age: 0,
    })
}

/// The feeds `a` of a first schedule, and `b` of a second one with the prefix `s-`.
fn two_schedules(alloc: Global) -> Result<Arc<Plans>, Fail>
    ensures plans { IfOk result (λ plans. length (arc_value plans).plans ≡ 2) }
    ensures feeds { IfOk result (λ plans. length (arc_value plans).feeds ≡ 2) }
{
    let plans = vec![in alloc; plan(alloc, "north", "")?, plan(alloc, "south", "s-")?]?;
    let feeds = vec![in alloc; feed(alloc, "a", 0)?, feed(alloc, "b", 1)?]?;
    Ok(Arc::new(alloc, Plans::new(plans, feeds))?)
}

/// The entity `x`.
fn entity(alloc: Global, vehicle: Option<Shared<Vehicle>>) -> Result<Entity, NoMemory> {
    Ok(Entity {
        id: Text::new(alloc, "x")?,
        is_deleted: None,
        trip_update: None,
        vehicle,
        alert: None,
        unknown: no_bytes(alloc),
    })
}

/// A vehicle at a stop.
fn vehicle_at(alloc: Global, stop: &str) -> Result<Shared<Vehicle>, NoMemory> {
    let vehicle = Vehicle {
        trip: None,
        position: None,
        current_stop_sequence: None,
        current_status: None,
        timestamp: None,
        stop_id: Some(Text::new(alloc, stop)?),
        vehicle: None,
        unknown: no_bytes(alloc),
    };
    Shared::new(alloc, vehicle)
}

/// The combined feed of the schedule of that number, after the feed of that number sent the entity
/// `x`.
fn combined_after(
    alloc: Global,
    feed: u32,
    vehicle: Option<Shared<Vehicle>>,
    plan: u32,
) -> Result<Vec<u8>, Fail>
    requires feed { feed < 2 }
    requires plan { plan < 2 }
{
    let first = HubView::first(alloc, two_schedules(alloc)?)?;
    let entities = vec![in alloc; entity(alloc, vehicle)?]?;
    let view = first.after(alloc, feed, dataset_of(alloc, 5, entities)?)?;
    Ok(combined(alloc, &view, plan)?)
}

#[test]
fn a_feed_of_no_entity_is_a_header(rt: HostRuntime) -> Result<(), Fail> {
    let bytes = combined_after(rt.alloc(), 1, None, 0)?;
    assert_eq!(rt;
        bytes.as_slice(),
        b"\x0a\x09\x0a\x032.0\x10\x00\x18\x00".as_slice()
    );
    Ok(())
}

#[test]
fn an_entity_goes_out_under_its_feed(rt: HostRuntime) -> Result<(), Fail> {
    let bytes = combined_after(rt.alloc(), 0, None, 0)?;
    let feed = b"\x0a\x09\x0a\x032.0\x10\x00\x18\x05\x12\x05\x0a\x03a:x";
    assert_eq!(rt; bytes.as_slice(), feed.as_slice());
    Ok(())
}

#[test]
fn ids_go_out_under_the_prefix_of_their_schedule(rt: HostRuntime) -> Result<(), Fail> {
    let vehicle = vehicle_at(rt.alloc(), "S")?;
    let bytes = combined_after(rt.alloc(), 1, Some(vehicle), 1)?;
    let feed = b"\x0a\x09\x0a\x032.0\x10\x00\x18\x05\x12\x0c\x0a\x03b:x\x22\x05\x3a\x03s-S";
    assert_eq!(rt; bytes.as_slice(), feed.as_slice());
    Ok(())
}

#[test]
fn an_empty_id_stays_empty(rt: HostRuntime) -> Result<(), Fail> {
    let vehicle = vehicle_at(rt.alloc(), "")?;
    let bytes = combined_after(rt.alloc(), 1, Some(vehicle), 1)?;
    let feed = b"\x0a\x09\x0a\x032.0\x10\x00\x18\x05\x12\x09\x0a\x03b:x\x22\x02\x3a\x00";
    assert_eq!(rt; bytes.as_slice(), feed.as_slice());
    Ok(())
}
