//! What becomes of the ids of entities.

ghost use Rattle.std.specs.Prelude.{◌≡◌, map, IfOk};
ghost use Rattle.std.specs.FinMap.{find};
ghost use Rattle.std.specs.Option.{option_map};
ghost use Rattle.run_overlay.specs.Changing.{id_before, id_change, id_change_new};
ghost use Rattle.run_overlay.specs.Keys.{id_cmp};

use crate::NoMemory;
use crate::link::Link;
use crate::mention::{About, Mention, about_held, about_stored};
use copying::Copied;
use entity_table::{Stored, Table};
use rt_types::{Entity, Text};
use sched_types::Plan;
use shared_list::SharedList;
use std::alloc::Global;

/// The id of an entity of a message, and the run that the update under it was about before, if it
/// was about one.
#[derive(Drop)]
pub(crate) struct IdBefore {
    pub(crate) id: Text,
    pub(crate) before: Option<Mention>,
}

/// The same, and what the update is about that the table has under the id now.
#[derive(Drop)]
pub(crate) struct IdChange {
    pub(crate) id: Text,
    pub(crate) before: Option<Mention>,
    pub(crate) after: About,
}

/// An id with the run that its update was about, by the links that are kept; or out of memory.
fn before_of(links: &SharedList<Link>, id: &Text) -> Result<IdBefore, NoMemory>
    ensures { IfOk result (λ one. one ≡ id_before links.now id.now) }
{
    Ok(IdBefore {
        id: id.copy()?,
        before: links.get(id.as_str()).map(|link| link.mention),
    })
}

/// The ids of some entities, with what their updates were about, by the links that are kept; or out
/// of memory.
pub(crate) fn ids_before(
    alloc: Global,
    links: &SharedList<Link>,
    entities: &[Entity],
) -> Result<Vec<IdBefore>, NoMemory>
    ensures { IfOk result (λ ids. ids.items
        ≡ map (λ entity. id_before links.now entity.id) entities.now) }
{
    let mut ids = Vec::with_capacity(alloc, entities.len())?;
    for entity in entities {
        ids.push(before_of(links, &entity.id)?)?;
    }
    Ok(ids)
}

/// What becomes of some ids, by the table that there is now; or out of memory.
pub(crate) fn changes_of_ids(
    alloc: Global,
    plan: &Plan,
    table: &Table,
    ids: Vec<IdBefore>,
) -> Result<Vec<IdChange>, NoMemory>
    ensures { IfOk result (λ changes. changes.items
        ≡ map (id_change plan.now table.now) ids.items) }
{
    let mut changes = Vec::with_capacity(alloc, ids.len())?;
    for one in ids {
        let after = about_held(plan, table, one.id.as_str());
        changes.push(IdChange {
            id: one.id,
            before: one.before,
            after,
        })?;
    }
    Ok(changes)
}

/// What becomes of an id that had nothing; or out of memory. The trip is looked for near the given
/// one first.
pub(crate) fn change_of_stored(
    plan: &Plan,
    stored: &Stored,
    near: Option<u32>,
) -> Result<IdChange, NoMemory>
    ensures { IfOk result (λ one. one ≡ id_change_new plan.now stored.now) }
{
    Ok(IdChange {
        id: stored.entity.id.copy()?,
        before: None,
        after: about_stored(plan, stored, near),
    })
}

/// The trip of the run that an update is about, or else the one that was given.
fn trip_after(after: About, before: Option<u32>) -> Option<u32> {
    match after {
        About::Run(mention) => Some(mention.run.trip),
        About::Added | About::Nothing => before,
    }
}

/// What becomes of all ids of a table, where there was nothing before; or out of memory. Updates
/// often come in the order of their trips: so each trip is looked for near the one before.
pub(crate) fn changes_of_table(
    alloc: Global,
    plan: &Plan,
    table: &Table,
) -> Result<Vec<IdChange>, NoMemory>
    ensures { IfOk result (λ ids. ids.items
        ≡ map (λ change. id_change_new plan.now change.1) table.now) }
{
    let mut ids = Vec::with_capacity(alloc, table.len())?;
    let mut near = None;
    for stored in table.iter() {
        let one = change_of_stored(plan, stored, near)?;
        near = trip_after(one.after, near);
        ids.push(one)?;
    }
    Ok(ids)
}
