//! Where the updates that count for runs may stand in a table.

ghost use Rattle.std.specs.Prelude.{◌≡◌, List, map, IfOk, IfSome};
ghost use Rattle.feed_defs.specs.History.{Change};
ghost use Rattle.run_overlay.specs.Sought.{AreHeld, IsHeld};

use crate::NoMemory;
use crate::id_changes::IdChange;
use crate::mention::About;
use entity_table::{Stored, Table};
use sched_types::Run;
use std::alloc::Global;

/// All that a table holds, in order of the ids, and for each of some runs the place of an entity
/// whose update may be the one that counts for it. A place is a guess: what stands there is
/// compared with what is looked for.
#[derive(Drop)]
pub(crate) struct Hints<'a> {
    held: Vec<&'a Stored>,
    places: Vec<usize>,
}

/// What a table holds, in order of the ids; or out of memory.
pub(crate) fn held_in<'a>(alloc: Global, table: &'a Table) -> Result<Vec<&'a Stored>, NoMemory>
    ensures all { IfOk result (λ held. map (λ stored. stored.now) held.items
        ≡ map (λ change. change.1) table.entry.now) }
    ensures held { IfOk result (λ held. AreHeld table.entry.now held.items) }
{
    let mut held = Vec::with_capacity(alloc, table.len())?;
    for stored in table.iter() {
        held.push(stored)?;
    }
    Ok(held)
}

/// The number of a run among some that rise, or that at which it would come. It is looked for at
/// the given one first.
fn number_of(runs: &[Run], run: Run, near: usize) -> usize {
    match runs.get(near) {
        Some(other) if *other == run => near,
        _ => match runs.binary_search(&run) {
            Ok(at) | Err(at) => at,
        },
    }
}

/// For each run the place of the last change of an id whose update is about it now; or out of
/// memory. The runs rise, and updates often come in their order: so each run is looked for behind
/// the one before.
fn places_of(alloc: Global, ids: &[IdChange], runs: &[Run]) -> Result<Vec<usize>, NoMemory> {
    let mut places = vec![in alloc; 0usize; runs.len()]?;
    let mut next: usize = 0;
    for (number, one) in ids.iter().enumerate() {
        if let About::Run(mention) = one.after {
            let at = number_of(runs, mention.run, next);
            if let Some(place) = places.get_mut(at) {
                *place = number;
            }
            next = at.wrapping_add(1);
        }
    }
    Ok(places)
}

impl<'a> Hints<'a> {
    /// Those of the runs that updates are about after changes of ids; or out of memory. They are
    /// worth what they cost where the changes are those of all ids that the table has, in order.
    pub(crate) fn of(
        alloc: Global,
        table: &'a Table,
        ids: &[IdChange],
        runs: &[Run],
    ) -> Result<Hints<'a>, NoMemory>
        ensures { IfOk result (λ hints. AreHeld table.entry.now hints.held.items) }
    {
        if ids.len() < table.len() {
            let held = Vec::new(alloc);
            let places = Vec::new(alloc);
            return Ok(Hints { held, places });
        }
        let held = held_in(alloc, table)?;
        let places = places_of(alloc, ids, runs)?;
        Ok(Hints { held, places })
    }

    /// What may have the update that counts for the run of that number.
    pub(crate) fn at(&self, run: usize) -> Option<&'a Stored>
        ensures { (table : List Change) → AreHeld table self.now.held.items
            → IfSome result (λ stored. IsHeld table stored.now) }
    {
        let place = self.places.get(run)?;
        self.held.get(*place).copied()
    }
}
