//! The messages of a feed, as their tables list their fields.

ghost use Rattle.feed_defs.specs.Table.{header, entity, feed};

use crate::NoMemory;
use crate::message::{Message, needed};
use crate::nested::{embedded, numbered, shared};
use field_read::{Fields, ReadFault, is_scalar, is_span, last, text};
use pb_wire::Part;
use rt_types::{Bytes, Entity, FeedMessage, Header, Incrementality, Items, Kind, Text};
use std::alloc::Global;

impl Message for Header {
    ghost table = { header };

    fn kind() -> Kind {
        Kind::FeedHeader
    }

    fn knows(part: &Part<'_>) -> bool {
        is_span(1, part) || (is_scalar::<Incrementality>(2, part) || is_scalar::<u64>(3, part))
    }

    fn blank(alloc: Global) -> Result<Header, NoMemory> {
        Ok(Header {
            version: Text::new(alloc, "")?,
            incrementality: None,
            timestamp: None,
            unknown: Bytes::from_vec(Vec::new(alloc)),
        })
    }

    fn fill(
        &mut self,
        alloc: Global,
        fields: &Fields<'_, '_>,
        unknown: Bytes,
    ) -> Result<(), ReadFault> {
        let version = text(alloc, Kind::FeedHeader, 1, fields)?;
        self.incrementality = last(2, fields);
        self.timestamp = last(3, fields);
        self.version = needed(Kind::FeedHeader, 1, version)?;
        self.unknown = unknown;
        Ok(())
    }
}

impl Message for Entity {
    ghost table = { entity };

    fn kind() -> Kind {
        Kind::FeedEntity
    }

    fn knows(part: &Part<'_>) -> bool {
        is_span(1, part)
            || (is_scalar::<bool>(2, part)
                || (is_span(3, part) || (is_span(4, part) || is_span(5, part))))
    }

    fn blank(alloc: Global) -> Result<Entity, NoMemory> {
        Ok(Entity {
            id: Text::new(alloc, "")?,
            is_deleted: None,
            trip_update: None,
            vehicle: None,
            alert: None,
            unknown: Bytes::from_vec(Vec::new(alloc)),
        })
    }

    fn fill(
        &mut self,
        alloc: Global,
        fields: &Fields<'_, '_>,
        unknown: Bytes,
    ) -> Result<(), ReadFault> {
        let id = text(alloc, Kind::FeedEntity, 1, fields)?;
        self.is_deleted = last(2, fields);
        self.trip_update = shared(alloc, 3, fields)?;
        self.vehicle = shared(alloc, 4, fields)?;
        self.alert = shared(alloc, 5, fields)?;
        self.id = needed(Kind::FeedEntity, 1, id)?;
        self.unknown = unknown;
        Ok(())
    }
}

impl Message for FeedMessage {
    ghost table = { feed };

    fn kind() -> Kind {
        Kind::FeedMessage
    }

    fn knows(part: &Part<'_>) -> bool {
        is_span(1, part) || is_span(2, part)
    }

    fn blank(alloc: Global) -> Result<FeedMessage, NoMemory> {
        Ok(FeedMessage {
            header: Header::blank(alloc)?,
            entity: Items::new(Vec::new(alloc)),
            unknown: Bytes::from_vec(Vec::new(alloc)),
        })
    }

    fn fill(
        &mut self,
        alloc: Global,
        fields: &Fields<'_, '_>,
        unknown: Bytes,
    ) -> Result<(), ReadFault> {
        let mut header = None;
        embedded(alloc, 1, fields, &mut header)?;
        self.entity = numbered(alloc, 2, fields)?;
        self.header = needed(Kind::FeedMessage, 1, header)?;
        self.unknown = unknown;
        Ok(())
    }
}
