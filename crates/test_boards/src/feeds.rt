//! A feed that speaks of an alert, and then of something else.

ghost use Rattle.std.specs.Prelude.{◌≡◌, Some, IfOk};

use feed_view::FeedView;
use rt_types::{
    Alert, Entities, Entity, FeedMessage, Header, Incrementality, Periods, Selectors, Shared, Text,
};
use sample_city::{NoMemory, no_bytes};
use sched_types::Plan;
use std::alloc::Global;
use std::test::Fail;

/// An alert that says nothing.
fn alert(alloc: Global) -> Result<Shared<Alert>, NoMemory> {
    let alert = Alert {
        active_period: Periods::new(Vec::new(alloc)),
        informed_entity: Selectors::new(Vec::new(alloc)),
        cause: None,
        effect: None,
        header_text: None,
        description_text: None,
        unknown: no_bytes(alloc),
    };
    Ok(Shared::new(alloc, alert)?)
}

/// A message that adds an entity of that id.
fn message(
    alloc: Global,
    stamp: u64,
    id: &str,
    alert: Option<Shared<Alert>>,
) -> Result<FeedMessage, NoMemory>
    ensures { IfOk result (λ message. message.header.timestamp ≡ Some stamp) }
{
    let entity = Entity {
        id: Text::new(alloc, id)?,
        is_deleted: None,
        trip_update: None,
        vehicle: None,
        alert,
        unknown: no_bytes(alloc),
    };
    Ok(FeedMessage {
        header: Header {
            version: Text::new(alloc, "2.0")?,
            incrementality: Some(Incrementality::Differential),
            timestamp: Some(stamp),
            unknown: no_bytes(alloc),
        },
        entity: Entities::new(vec![in alloc; entity]?),
        unknown: no_bytes(alloc),
    })
}

/// The view of a feed that sent two messages.
fn spoken(alloc: Global) -> Result<FeedView, NoMemory> {
    let plan = Plan::plain(alloc);
    let none = FeedView::empty(alloc);
    let alerted = message(alloc, 5, "a", Some(alert(alloc)?))?;
    let first = FeedView::after(alloc, &plan, &none, alerted)?;
    FeedView::after(alloc, &plan, &first, message(alloc, 7, "b", None)?)
}

#[test]
fn a_view_goes_on_from_the_one_before(rt: HostRuntime) -> Result<(), Fail> {
    let view = spoken(rt.alloc())?;
    assert_eq!(rt; view.count(), 2);
    assert_eq!(rt; view.stamp(), 7);
    assert_eq!(rt; view.table().len(), 2);
    assert_eq!(rt; view.alerts().iter().count(), 1);
    Ok(())
}
