//! Tables of few ids and of several hundred, with ample memory.

use entity_table::{NoMemory, SharedStored, Stored, Table, apply, first_table};
use rt_types::{Bytes, Entities, Entity, FeedMessage, Header, Incrementality, Text};
use std::alloc::Global;
use std::test::Fail;

/// An entity of that id, with one unknown byte that tells two of one id apart.
fn entity(alloc: Global, id: &str, deleted: Option<bool>, mark: u8) -> Result<Entity, NoMemory> {
    Ok(Entity {
        id: Text::new(alloc, id)?,
        is_deleted: deleted,
        trip_update: None,
        vehicle: None,
        alert: None,
        unknown: Bytes::new(alloc, &[mark])?,
    })
}

/// A message of these entities.
fn message(
    alloc: Global,
    kind: Option<Incrementality>,
    stamp: u64,
    entities: Vec<Entity>,
) -> Result<FeedMessage, NoMemory> {
    Ok(FeedMessage {
        header: Header {
            version: Text::new(alloc, "2.0")?,
            incrementality: kind,
            timestamp: Some(stamp),
            unknown: Bytes::new(alloc, b"")?,
        },
        entity: Entities::new(entities),
        unknown: Bytes::new(alloc, b"")?,
    })
}

/// The kind of a message that is told by words: `~` where it is differential.
fn kind_told(words: &str) -> Option<Incrementality> {
    if words.starts_with("~") {
        Some(Incrementality::Differential)
    } else {
        None
    }
}

/// The entities that are told by words as `+id` or `-id`, each with the mark of its place.
fn entities_told(alloc: Global, words: &str) -> Result<Vec<Entity>, NoMemory> {
    let mut entities = Vec::new(alloc);
    let mut mark = b'0';
    for word in words.split(' ') {
        if let Some(id) = word.strip_prefix("+") {
            entities.push(entity(alloc, id, None, mark)?)?;
        } else if let Some(id) = word.strip_prefix("-") {
            entities.push(entity(alloc, id, Some(true), mark)?)?;
        }
        mark = mark.wrapping_add(1);
    }
    Ok(entities)
}

/// The table after the message of these words.
fn after(alloc: Global, table: &Table, stamp: u64, words: &str) -> Result<Table, NoMemory> {
    let entities = entities_told(alloc, words)?;
    apply(
        alloc,
        table,
        &message(alloc, kind_told(words), stamp, entities)?,
    )
}

/// The table after messages of these words, whose stamps are 1, 2 and so on.
fn after_all(alloc: Global, messages: &[&str]) -> Result<Table, NoMemory> {
    let mut table = Table::empty(alloc);
    let mut stamp = 0u64;
    for words in messages {
        stamp = stamp.wrapping_add(1);
        table = after(alloc, &table, stamp, words)?;
    }
    Ok(table)
}

/// Whether a table holds just what is told as `id stamp mark`, in its order.
fn holds(table: &Table, told: &[(&str, u64, u8)]) -> bool {
    let mut place = 0usize;
    for stored in table.iter() {
        match told.get(place) {
            Some((id, stamp, mark)) => {
                let same = stored.entity.id.as_str() == *id && stored.stamp == *stamp;
                if !same || stored.entity.unknown.as_slice() != [*mark].as_slice() {
                    return false;
                }
            }
            None => return false,
        }
        place = place.wrapping_add(1);
    }
    place == told.len() && table.len() == place
}

/// Whether the messages leave just that.
fn leave(alloc: Global, messages: &[&str], told: &[(&str, u64, u8)]) -> Result<bool, NoMemory> {
    Ok(holds(&after_all(alloc, messages)?, told))
}

#[test]
fn entities_come_change_and_go(rt: HostRuntime) -> Result<(), Fail> {
    let alloc = rt.alloc();
    let first = "+b +a +c +a";
    let second = "~ -a +d +b -x -d +d";
    assert!(rt;
        leave(
            alloc,
            &[first],
            &[("a", 1, b'3'), ("b", 1, b'0'), ("c", 1, b'2')]
        )?
    );
    assert!(rt;
        leave(
            alloc,
            &[first, second],
            &[("b", 2, b'3'), ("c", 1, b'2'), ("d", 2, b'6')]
        )?
    );
    assert!(rt; leave(alloc, &[first, second, "+e -e"], &[])?);
    Ok(())
}

/// Whether a table that begins with the message of these words holds just what is told.
fn begins(alloc: Global, words: &str, told: &[(&str, u64, u8)]) -> Result<bool, NoMemory> {
    let entities = entities_told(alloc, words)?;
    let first = message(alloc, kind_told(words), 1, entities)?;
    Ok(holds(&first_table(alloc, first)?, told))
}

/// Whether tables begin with messages in which ids rise, come in any order or twice, and go.
fn begin(alloc: Global) -> Result<bool, NoMemory> {
    Ok(
        begins(alloc, "+a +b", &[("a", 1, b'0'), ("b", 1, b'1')])?
            && begins(alloc, "+b +a +b", &[("a", 1, b'1'), ("b", 1, b'2')])?
            && begins(alloc, "~ +b -b +a", &[("a", 1, b'3')])?
            && begins(alloc, "", &[])?,
    )
}

#[test]
fn a_table_begins_with_a_message(rt: HostRuntime) -> Result<(), Fail> {
    assert!(rt; begin(rt.alloc())?);
    Ok(())
}

/// Whether the given table stays, and ids are found whole.
fn stays(alloc: Global) -> Result<bool, NoMemory> {
    let old = after(alloc, &Table::empty(alloc), 7, "~ +ab +b")?;
    let new = after(alloc, &old, 8, "~ -ab")?;
    let found = old.get("ab").map(|stored| stored.stamp) == Some(7);
    let front = old.get("a").is_some() || old.get("abc").is_some() || old.get("").is_some();
    Ok(found && !front && new.get("ab").is_none() && new.len() == 1)
}

#[test]
fn the_given_table_stays(rt: HostRuntime) -> Result<(), Fail> {
    assert!(rt; stays(rt.alloc())?);
    Ok(())
}

/// That entity at the stamp 9, for a table to hold.
fn stored(
    alloc: Global,
    id: &str,
    deleted: Option<bool>,
    mark: u8,
) -> Result<SharedStored, NoMemory> {
    let entity = entity(alloc, id, deleted, mark)?;
    SharedStored::new(alloc, Stored { entity, stamp: 9 })
}

/// Whether a share that is changed entity by entity holds what is told, and the given table stays.
fn changes_one_by_one(alloc: Global) -> Result<bool, NoMemory> {
    let old = after(alloc, &Table::empty(alloc), 7, "~ +a +b +c")?;
    let new = old.share()?;
    let new = new.with(stored(alloc, "d", None, b'x')?)?.table;
    let new = new.with(stored(alloc, "a", Some(true), b'y')?)?.table;
    let new = new.without("b")?.table;
    let told = holds(&new, &[("c", 7, b'3'), ("d", 9, b'x')]);
    Ok(told && holds(&old, &[("a", 7, b'1'), ("b", 7, b'2'), ("c", 7, b'3')]))
}

#[test]
fn a_share_is_changed_by_one_entity(rt: HostRuntime) -> Result<(), Fail> {
    assert!(rt; changes_one_by_one(rt.alloc())?);
    Ok(())
}

/// So many of 997 ids in an order far from rising.
fn many(alloc: Global, count: u64, deleted: Option<bool>) -> Result<Vec<Entity>, NoMemory> {
    let mut entities = Vec::new(alloc);
    for n in 0..count {
        let number = 1000 + n % 997 * 367 % 997;
        let id = format!(in alloc; "{number}")?;
        entities.push(entity(alloc, id.as_str(), deleted, 0)?)?;
    }
    Ok(entities)
}

/// How many of the table's ids, which are numbers, are found, each above the one before.
fn in_order(table: &Table) -> usize {
    let mut count = 0usize;
    let mut last = 0u64;
    for stored in table.iter() {
        let id = stored.entity.id.as_str();
        let number = id.parse::<u64>().unwrap_or(0);
        if last < number && table.get(id).is_some() {
            count = count.wrapping_add(1);
        }
        last = number;
    }
    count
}

/// Whether so many ids are left after each of several large messages.
fn large_ones(alloc: Global) -> Result<bool, NoMemory> {
    let mut table = Table::empty(alloc);
    for (count, deleted, left) in [
        (997, None, 997),
        (600, Some(true), 397),
        (997, Some(true), 0),
        (300, None, 300),
    ] {
        let entities = many(alloc, count, deleted)?;
        table = apply(
            alloc,
            &table,
            &message(alloc, Some(Incrementality::Differential), 1, entities)?,
        )?;
        if table.len() != left || in_order(&table) != left {
            return Ok(false);
        }
    }
    Ok(true)
}

#[test]
fn hundreds_of_ids_stand_in_order(rt: HostRuntime) -> Result<(), Fail> {
    assert!(rt; large_ones(rt.alloc())?);
    Ok(())
}

/// Whether those ids have what is newer than the stamp.
fn newer_are(table: &Table, than: u64, ids: &[&str]) -> bool {
    let mut place = 0usize;
    for stored in table.newer(than) {
        match ids.get(place) {
            Some(id) => {
                if stored.entity.id.as_str() != *id || stored.stamp <= than {
                    return false;
                }
            }
            None => return false,
        }
        place = place.wrapping_add(1);
    }
    place == ids.len()
}

/// Whether what is newer is found: none, some and all of few ids, and of hundreds those that a
/// message changed, and what is left of them.
fn newer_ones(alloc: Global) -> Result<bool, NoMemory> {
    let few = after_all(alloc, &["~ +a +b +c", "~ +b +d", "~ -a +c"])?;
    let old = first_table(alloc, message(alloc, None, 1, many(alloc, 997, None)?)?)?;
    let changes = many(alloc, 5, None)?;
    let kind = Some(Incrementality::Differential);
    let new = apply(alloc, &old, &message(alloc, kind, 2, changes)?)?;
    let gone = new.share()?.without("1367")?.table;
    Ok(
        newer_are(&few, 3, &[])
            && newer_are(&few, 2, &["c"])
            && newer_are(&few, 0, &["b", "c", "d"])
            && newer_are(&old, 1, &[])
            && newer_are(&new, 2, &[])
            && newer_are(&new, 1, &["1000", "1104", "1367", "1471", "1734"])
            && newer_are(&gone, 1, &["1000", "1104", "1471", "1734"]),
    )
}

#[test]
fn newer_entities_are_found(rt: HostRuntime) -> Result<(), Fail> {
    assert!(rt; newer_ones(rt.alloc())?);
    Ok(())
}
