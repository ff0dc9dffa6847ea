//! What a feed sends: its header and its entities (GTFS Realtime 2.0, FeedMessage).

ghost use Rattle.std.specs.Prelude.{◌≡◌, ◌++◌, OnOk};
ghost use Rattle.feed_defs.specs.Table.{header, entity, feed};
ghost use Rattle.feed_defs.specs.Renamed.{renamed_entity};
ghost use Rattle.feed_write.specs.Entities.{renamed_message, content_bytes};
ghost use Rattle.feed_write.specs.Puts.{StartsWith};

use crate::NoMemory;
use crate::fields::{put_items, put_message, put_scalar, put_shared, put_text, put_unknown};
use crate::message::Message;
use rt_types::{Entity, FeedMessage, Header};

impl Message for Header {
    ghost table = { header };

    ghost renamed = { λ _ m. m };

    #[tactic(auto, unfolding(feed_defs::specs::Rows::message_bytes), using(crate::proofs::Spelling::puts))]
    fn put(&self, _prefix: &str, out: &mut Vec<u8>) -> Result<(), NoMemory> {
        put_text(1, &self.version, out)?;
        put_scalar(2, self.incrementality, out)?;
        put_scalar(3, self.timestamp, out)?;
        put_unknown(&self.unknown, out)
    }
}

impl Message for Entity {
    ghost table = { entity };

    ghost renamed = { renamed_entity };

    /// A trip update makes it long, and hardly anything else does.
    fn is_long(&self) -> bool {
        self.trip_update.is_some()
    }

    #[tactic(auto, unfolding(feed_defs::specs::Rows::message_bytes), using(crate::proofs::Spelling::puts))]
    fn put(&self, prefix: &str, out: &mut Vec<u8>) -> Result<(), NoMemory> {
        put_text(1, &self.id, out)?;
        put_content(self, prefix, out)
    }
}

/// Appends what an entity has behind its id, with the prefix before its ids of the timetable.
#[tactic(auto, unfolding(crate::specs::Entities::content_bytes), using(crate::proofs::Spelling::puts))]
pub(crate) fn put_content(entity: &Entity, prefix: &str, out: &mut Vec<u8>) -> Result<(), NoMemory>
    ensures written { OnOk result (out.new.items
        ≡ out.old.items ++ content_bytes (renamed_entity prefix.now entity.now)) }
    ensures begins { StartsWith out.old.items out.new.items }
{
    put_scalar(2, entity.is_deleted, out)?;
    put_shared(3, &entity.trip_update, prefix, out)?;
    put_shared(4, &entity.vehicle, prefix, out)?;
    put_shared(5, &entity.alert, prefix, out)?;
    put_unknown(&entity.unknown, out)
}

impl Message for FeedMessage {
    ghost table = { feed };

    ghost renamed = { renamed_message };

    #[tactic(auto, unfolding(feed_defs::specs::Rows::message_bytes), using(crate::proofs::Spelling::puts))]
    fn put(&self, prefix: &str, out: &mut Vec<u8>) -> Result<(), NoMemory> {
        put_message(1, &self.header, prefix, out)?;
        put_items(2, &self.entity, prefix, out)?;
        put_unknown(&self.unknown, out)
    }
}
