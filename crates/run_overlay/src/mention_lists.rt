//! The lists of what updates are about.

ghost use Rattle.std.specs.Prelude.{◌≡◌, ◌++◌, ◌∷◌, [], IfOk, OnOk};
ghost use Rattle.std.specs.List.{flat_map};
ghost use Rattle.run_overlay.specs.Changing as rule;
ghost use Rattle.run_overlay.specs.Changing.{mentions_after};
ghost use Rattle.keyed_lists.specs.Keyed.{naming_key, naming_keys};
ghost use Rattle.run_overlay.specs.Kept.{no_mentions};
ghost use Rattle.run_overlay.specs.Sought.{candidate_at, id_at};

use crate::NoMemory;
use crate::candidate::{Candidate, CandidateAt};
use crate::id_changes::IdChange;
use crate::link::Link;
use crate::mention::{About, mention_in};
use copying::Copied;
use entity_table::{SharedStored, Stored, Table};
use keyed_lists::changed;
use shared_list::{Change, SharedList};
use std::alloc::Global;
use std::marker::Model;

/// What the updates of a feed are about. A contract sees it as `Mentions`.
#[derive(Drop)]
pub(crate) struct MentionLists {
    // Updates about runs, by the ids of their entities.
    links: SharedList<Link>,
    // The same by run, the one that counts first.
    candidates: SharedList<Candidate>,
    // The entities with updates of added trips, by their ids.
    added: SharedList<SharedStored>,
}

impl Model for MentionLists {
    ghost use Rattle.run_overlay.specs.Kept.{Mentions};

    ghost Value = { Mentions };

    ghost view = { λ lists. record {
      links = lists.links;
      candidates = lists.candidates;
      added = lists.added;
    } };
}

impl MentionLists {
    /// The lists of a feed that holds nothing. They take no memory.
    pub(crate) fn empty(alloc: Global) -> MentionLists
        ensures { result ≡ no_mentions }
    {
        MentionLists {
            links: SharedList::empty(alloc),
            candidates: SharedList::empty(alloc),
            added: SharedList::empty(alloc),
        }
    }

    /// The lists after those changes of ids, of a feed that holds now what the table has; or out of
    /// memory. Each list is changed once, and these stay as they are.
    pub(crate) fn after(
        &self,
        alloc: Global,
        table: &Table,
        ids: &[IdChange],
    ) -> Result<MentionLists, NoMemory>
        ensures { IfOk result (λ next. next ≡ mentions_after table.now ids.now self.now) }
    {
        let links = changed(&self.links, link_changes(alloc, ids)?)?;
        let candidates = changed(&self.candidates, candidate_changes(alloc, ids)?)?;
        let added = changed(&self.added, added_changes(alloc, table, ids)?)?;
        Ok(MentionLists {
            links,
            candidates,
            added,
        })
    }

    /// Updates about runs, by the ids of their entities.
    pub(crate) fn links(&self) -> &SharedList<Link>
        ensures { result.now ≡ self.now.links }
    {
        &self.links
    }

    /// The same by run, the one that counts first.
    pub(crate) fn candidates(&self) -> &SharedList<Candidate>
        ensures { result.now ≡ self.now.candidates }
    {
        &self.candidates
    }

    /// The entities with updates of added trips, by their ids.
    pub(crate) fn added(&self) -> &SharedList<SharedStored>
        ensures { result.now ≡ self.now.added }
    {
        &self.added
    }
}

/// Appends what the change of an id comes to in the links.
fn push_link<'a>(one: &'a IdChange, out: &mut Vec<Change<Link, &'a str>>) -> Result<(), NoMemory>
    ensures { OnOk result (naming_keys id_at out.new.items
        ≡ naming_keys id_at out.old.items ++ rule.link_changes one.entry.now) }
{
    match (one.before, mention_in(one.after)) {
        (_, Some(mention)) => out.push(Change::Put(Link {
            id: one.id.copy()?,
            mention,
        }))?,
        (Some(_), None) => out.push(Change::Remove(one.id.as_str()))?,
        (None, None) => {}
    }
    Ok(())
}

/// What changes of ids come to in the links; or out of memory.
fn link_changes<'a>(
    alloc: Global,
    ids: &'a [IdChange],
) -> Result<Vec<Change<Link, &'a str>>, NoMemory>
    ensures { IfOk result (λ changes. naming_keys id_at changes.items
        ≡ flat_map rule.link_changes ids.entry.now) }
{
    let mut changes = Vec::with_capacity(alloc, ids.len())?;
    for one in ids {
        push_link(one, &mut changes)?;
    }
    Ok(changes)
}

/// Appends the removal of what was a candidate.
fn push_going<'a>(
    one: &'a IdChange,
    out: &mut Vec<Change<Candidate, CandidateAt<'a>>>,
) -> Result<(), NoMemory>
    ensures { OnOk result (naming_keys candidate_at out.new.items
        ≡ naming_keys candidate_at out.old.items
        ++ rule.going one.entry.now.id one.entry.now.before) }
{
    if let Some(mention) = one.before {
        let id = one.id.as_str();
        out.push(Change::Remove(CandidateAt { mention, id }))?;
    }
    Ok(())
}

/// Appends what is a candidate now.
fn push_coming<'a>(
    one: &'a IdChange,
    out: &mut Vec<Change<Candidate, CandidateAt<'a>>>,
) -> Result<(), NoMemory>
    ensures { OnOk result (naming_keys candidate_at out.new.items
        ≡ naming_keys candidate_at out.old.items
        ++ rule.coming one.entry.now.id (rule.mention_now one.entry.now)) }
{
    if let Some(mention) = mention_in(one.after) {
        out.push(Change::Put(Candidate {
            mention,
            id: one.id.copy()?,
        }))?;
    }
    Ok(())
}

/// What changes of ids come to in the candidates; or out of memory.
fn candidate_changes<'a>(
    alloc: Global,
    ids: &'a [IdChange],
) -> Result<Vec<Change<Candidate, CandidateAt<'a>>>, NoMemory>
    ensures { IfOk result (λ changes. naming_keys candidate_at changes.items
        ≡ flat_map rule.candidate_changes ids.entry.now) }
{
    let mut changes = Vec::with_capacity(alloc, ids.len())?;
    for one in ids {
        push_going(one, &mut changes)?;
        push_coming(one, &mut changes)?;
    }
    Ok(changes)
}

/// A copy of an entity with its stamp, for lists to hold; or out of memory.
fn copy_of(alloc: Global, stored: &Stored) -> Result<SharedStored, NoMemory>
    ensures { IfOk result (λ shared. shared ≡ stored.now) }
{
    let entity = stored.entity.copy()?;
    let stamp = stored.stamp;
    SharedStored::new(alloc, Stored { entity, stamp })
}

/// What the change of an id comes to in the entities with updates of added trips; or out of memory.
fn added_change<'a>(
    alloc: Global,
    table: &Table,
    one: &'a IdChange,
) -> Result<Change<SharedStored, &'a str>, NoMemory>
    ensures { IfOk result (λ change. naming_key id_at change ∷ []
        ≡ rule.added_changes table.now one.entry.now) }
{
    let id = one.id.as_str();
    match one.after {
        About::Added => match table.get(id) {
            Some(stored) => Ok(Change::Put(copy_of(alloc, stored)?)),
            None => Ok(Change::Remove(id)),
        },
        About::Run(_) | About::Nothing => Ok(Change::Remove(id)),
    }
}

/// What changes of ids come to in them; or out of memory.
fn added_changes<'a>(
    alloc: Global,
    table: &Table,
    ids: &'a [IdChange],
) -> Result<Vec<Change<SharedStored, &'a str>>, NoMemory>
    ensures { IfOk result (λ changes. naming_keys id_at changes.items
        ≡ flat_map (rule.added_changes table.now) ids.entry.now) }
{
    let mut changes = Vec::with_capacity(alloc, ids.len())?;
    for one in ids {
        changes.push(added_change(alloc, table, one)?)?;
    }
    Ok(changes)
}
