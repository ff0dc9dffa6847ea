//! Periods, and the alerts of a small table after two messages.

use alert_select::{AlertIndex, NoMemory, active};
use entity_table::{SharedStored, Stored, Table};
use rt_types::{
    Alert, Copied, Entities, Entity, FeedMessage, Header, Incrementality, Period, Periods,
    Selectors, Shared, StopUpdates, Text, TripRef, TripUpdate,
};
use sample_city::no_bytes;
use std::alloc::Global;
use std::test::Fail;

/// An alert of one period.
fn alert(alloc: Global, start: Option<u64>, end: Option<u64>) -> Result<Alert, NoMemory> {
    let period = Period {
        start,
        end,
        unknown: no_bytes(alloc),
    };
    Ok(Alert {
        active_period: Periods::new(vec![in alloc; period]?),
        informed_entity: Selectors::new(Vec::new(alloc)),
        cause: None,
        effect: None,
        header_text: None,
        description_text: None,
        unknown: no_bytes(alloc),
    })
}

/// Whether an alert of that period is active at the moment.
fn is_active(
    alloc: Global,
    start: Option<u64>,
    end: Option<u64>,
    at: u64,
) -> Result<bool, NoMemory> {
    Ok(active(&alert(alloc, start, end)?, at))
}

#[test]
fn a_period_holds_from_its_start_up_to_its_end(rt: HostRuntime) -> Result<(), Fail> {
    let alloc = rt.alloc();
    assert!(rt; is_active(alloc, Some(10), Some(20), 10)?);
    assert!(rt; is_active(alloc, Some(10), Some(20), 19)?);
    assert!(rt; !is_active(alloc, Some(10), Some(20), 20)?);
    assert!(rt; !is_active(alloc, Some(10), Some(20), 9)?);
    assert!(rt; is_active(alloc, None, Some(20), 0)?);
    assert!(rt; is_active(alloc, Some(10), None, 253402300799)?);
    Ok(())
}

/// An update of trip T1.
fn trip_update(alloc: Global) -> Result<TripUpdate, NoMemory> {
    Ok(TripUpdate {
        trip: TripRef {
            trip_id: Some(Text::new(alloc, "T1")?),
            start_time: None,
            start_date: None,
            relation: None,
            route_id: None,
            direction_id: None,
            unknown: no_bytes(alloc),
        },
        stop_time_update: StopUpdates::new(Vec::new(alloc)),
        vehicle: None,
        timestamp: None,
        delay: None,
        unknown: no_bytes(alloc),
    })
}

/// An entity of that id.
fn entity(
    alloc: Global,
    id: &str,
    deleted: Option<bool>,
    trip_update: Option<Shared<TripUpdate>>,
    alert: Option<Shared<Alert>>,
) -> Result<Entity, NoMemory> {
    Ok(Entity {
        id: Text::new(alloc, id)?,
        is_deleted: deleted,
        trip_update,
        vehicle: None,
        alert,
        unknown: no_bytes(alloc),
    })
}

/// The entity that a word tells: an alert as `!id`, a trip update as `+id`, and `-id` takes an id
/// away.
fn told(alloc: Global, word: &str) -> Result<Entity, NoMemory> {
    if let Some(id) = word.strip_prefix("!") {
        let alert = Shared::new(alloc, alert(alloc, None, None)?)?;
        return entity(alloc, id, None, None, Some(alert));
    }
    if let Some(id) = word.strip_prefix("+") {
        let update = Shared::new(alloc, trip_update(alloc)?)?;
        return entity(alloc, id, None, Some(update), None);
    }
    let id = word.strip_prefix("-").unwrap_or(word);
    entity(alloc, id, Some(true), None, None)
}

/// The message of these words.
fn message(alloc: Global, kind: Incrementality, words: &[&str]) -> Result<FeedMessage, NoMemory> {
    let mut entities = Vec::new(alloc);
    for word in words {
        entities.push(told(alloc, word)?)?;
    }
    Ok(FeedMessage {
        header: Header {
            version: Text::new(alloc, "2.0")?,
            incrementality: Some(kind),
            timestamp: Some(5),
            unknown: no_bytes(alloc),
        },
        entity: Entities::new(entities),
        unknown: no_bytes(alloc),
    })
}

/// A table with its index, after the message, entity by entity.
fn after(
    alloc: Global,
    table: &Table,
    index: &AlertIndex,
    message: &FeedMessage,
) -> Result<(Table, AlertIndex), NoMemory> {
    let mut next = table.start(alloc, message)?;
    let mut alerts = index.start(alloc, message)?;
    for entity in message.entity.as_slice() {
        let entity = entity.copy()?;
        let stored = SharedStored::new(alloc, Stored { entity, stamp: 5 })?;
        let changed = next.with(stored.copy()?)?;
        alerts = alerts.with(&stored, changed.before)?;
        next = changed.table;
    }
    Ok((next, alerts))
}

/// The index after two messages, made message by message, and that of the whole table.
fn indexes(
    alloc: Global,
    first: &FeedMessage,
    second: &FeedMessage,
) -> Result<(AlertIndex, AlertIndex), NoMemory> {
    let (table, index) = after(
        alloc,
        &Table::empty(alloc),
        &AlertIndex::empty(alloc),
        first,
    )?;
    let (table, index) = after(alloc, &table, &index, second)?;
    let whole = AlertIndex::build(alloc, &table)?;
    Ok((index, whole))
}

/// Whether an index holds just the alerts of these ids, in their order.
fn holds(index: &AlertIndex, ids: &[&str]) -> bool {
    let mut place = 0usize;
    for stored in index.iter() {
        match ids.get(place) {
            Some(id) => {
                if stored.entity.id.as_str() != *id || stored.entity.alert.is_none() {
                    return false;
                }
            }
            None => return false,
        }
        place = place.wrapping_add(1);
    }
    place == ids.len()
}

/// Whether an index lists just these ids, in their order.
fn lists(index: &AlertIndex, ids: &[&str]) -> bool {
    let mut place = 0usize;
    for id in index.ids() {
        if ids.get(place).copied() != Some(id.as_str()) {
            return false;
        }
        place = place.wrapping_add(1);
    }
    place == ids.len()
}

/// Whether the alerts `c`, `a` and `e` and a trip update `b`, and then that message, leave the
/// alerts of these ids, whether the index goes from message to message or is made of the whole
/// table.
fn leave(
    alloc: Global,
    kind: Incrementality,
    words: &[&str],
    ids: &[&str],
) -> Result<bool, NoMemory> {
    let first = message(
        alloc,
        Incrementality::FullDataset,
        &["!c", "+b", "!a", "!e"],
    )?;
    let second = message(alloc, kind, words)?;
    let (after, whole) = indexes(alloc, &first, &second)?;
    Ok(holds(&after, ids) && holds(&whole, ids) && lists(&whole, ids))
}

#[test]
fn an_index_is_that_of_its_table(rt: HostRuntime) -> Result<(), Fail> {
    let alloc = rt.alloc();
    assert!(rt; leave(alloc, Incrementality::Differential, &[], &["a", "c", "e"])?);
    assert!(rt;
        leave(
            alloc,
            Incrementality::Differential,
            &["!d", "+a", "-e", "!b"],
            &["b", "c", "d"]
        )?
    );
    assert!(rt; leave(alloc, Incrementality::FullDataset, &["+c", "!x"], &["x"])?);
    Ok(())
}
