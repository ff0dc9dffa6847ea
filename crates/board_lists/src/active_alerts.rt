//! The alerts of a schedule's feeds that count and are active at a moment.

ghost use Rattle.std.specs.Prelude.{◌≡◌, IfOk};
ghost use Rattle.std.specs.List.{filter_map};
ghost use Rattle.board_lists.specs.Active.{active_in};

use crate::NoMemory;
use alert_select::active;
use board_parts::{HeldEntities, HeldEntity, counts_at};
use rt_types::Alert;
use std::alloc::Global;
use std::marker::Model;

/// An alert that is active, with its entity. A contract sees it as `Active`.
#[derive(Drop)]
pub(crate) struct ActiveAlert<'a> {
    held: HeldEntity<'a>,
    alert: &'a Alert,
}

impl<'a> Model for ActiveAlert<'a> {
    ghost use Rattle.board_lists.specs.Active.{Active};

    ghost Value = { Active };

    ghost view = { λ a. record { held = a.held; alert = a.alert.now } };
}

impl<'a> ActiveAlert<'a> {
    /// Its entity.
    pub(crate) fn held(&self) -> &HeldEntity<'a>
        ensures { result.now ≡ self.entry.now.held }
    {
        &self.held
    }

    /// The alert.
    pub(crate) fn alert(&self) -> &'a Alert
        ensures { result.now ≡ self.entry.now.alert }
    {
        self.alert
    }
}

/// The active alerts of some entities, in their order; or want of memory.
pub(crate) fn all_active<'a>(
    alloc: Global,
    at: u64,
    entities: HeldEntities<'a>,
) -> Result<Vec<ActiveAlert<'a>>, NoMemory>
    ensures { IfOk result (λ all. all.items ≡ filter_map (active_in at) entities.entry) }
{
    let mut all = Vec::new(alloc);
    for held in entities {
        if let Some(found) = active_of(at, held) {
            all.push(found)?;
        }
    }
    Ok(all)
}

/// The alert of an entity, where it has one that counts and is active.
fn active_of<'a>(at: u64, held: HeldEntity<'a>) -> Option<ActiveAlert<'a>>
    ensures { result ≡ active_in at held.entry }
{
    match &held.stored().entity.alert {
        Some(alert) => {
            let alert = alert.get();
            if counts_at(held.feed().max_age, held.stored().stamp, at) && active(alert, at) {
                return Some(ActiveAlert { held, alert });
            }
            None
        }
        None => None,
    }
}
