//! The ids that a message names.

ghost use Rattle.std.specs.Prelude.{◌≡◌, IfOk};
ghost use Rattle.std.specs.Option.{option_map};
ghost use Rattle.run_overlay.specs.Named.{ids_named};

use crate::NoMemory;
use crate::id_changes::{IdBefore, ids_before};
use crate::link::Link;
use rt_types::{FeedMessage, Incrementality};
use shared_list::SharedList;
use std::alloc::Global;
use std::marker::Model;

/// The ids that a message names, as [`crate::Overlay::change_by`] takes them when the message's
/// entities are in the table. A contract sees it as `NamedIds`.
#[derive(Drop)]
pub struct MessageIds {
    // How many entities the message has.
    count: usize,
    // Their ids, with what the updates under them were about; none where it is a whole data set.
    ids: Option<Vec<IdBefore>>,
}

impl Model for MessageIds {
    ghost use Rattle.std.specs.Option.{option_map};
    ghost use Rattle.run_overlay.specs.Named.{NamedIds};

    ghost Value = { NamedIds };

    ghost view = { λ named. record {
      count = named.count;
      ids = option_map (λ ids. ids.items) named.ids;
    } };
}

impl MessageIds {
    /// Those of a message, by the links that are kept before it; or out of memory.
    pub(crate) fn of(
        alloc: Global,
        links: &SharedList<Link>,
        message: &FeedMessage,
    ) -> Result<MessageIds, NoMemory>
        ensures { IfOk result (λ named. named ≡ ids_named links.now message.now) }
    {
        let entities = message.entity.as_slice();
        let count = entities.len();
        let ids = match message.header.incrementality {
            Some(Incrementality::Differential) => Some(ids_before(alloc, links, entities)?),
            Some(Incrementality::FullDataset) | None => None,
        };
        Ok(MessageIds { count, ids })
    }

    /// The ids, where the message is no whole data set.
    pub(crate) fn into_ids(self) -> Option<Vec<IdBefore>>
        ensures { option_map (λ ids. ids.items) result ≡ self.ids }
    {
        self.ids
    }
}
