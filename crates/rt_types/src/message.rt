//! What a feed sends (GTFS Realtime 2.0, FeedMessage).

use crate::NoMemory;
use crate::alert::Alert;
use crate::bytes::Bytes;
use crate::enums::Incrementality;
use crate::items::Items;
use crate::shared::Shared;
use crate::trip_update::TripUpdate;
use crate::vehicle::Vehicle;
use copying::Copied;
use texts::ShortText as Text;

/// A FeedHeader.
#[derive(Drop)]
pub struct Header {
    /// The version of the reference that the feed follows, `1.0` or `2.0`.
    pub version: Text,
    /// Absent means `FullDataset`.
    pub incrementality: Option<Incrementality>,
    /// When the message was made, in seconds since 1970.
    pub timestamp: Option<u64>,
    /// The fields that this profile does not know, as they came.
    pub unknown: Bytes,
}

/// A FeedEntity.
#[derive(Drop)]
pub struct Entity {
    /// Its id within its feed.
    pub id: Text,
    /// Whether a differential message takes the entity away; absent means no.
    pub is_deleted: Option<bool>,
    /// What is known of a trip's times.
    pub trip_update: Option<Shared<TripUpdate>>,
    /// Where a vehicle is.
    pub vehicle: Option<Shared<Vehicle>>,
    /// What passengers are told.
    pub alert: Option<Shared<Alert>>,
    /// The fields that this profile does not know, as they came.
    pub unknown: Bytes,
}

/// The entities of a message, in their order.
pub type Entities = Items<Entity>;

/// A FeedMessage, which is what a feed sends at a time.
#[derive(Drop)]
pub struct FeedMessage {
    /// What is said of the whole message.
    pub header: Header,
    /// What is said of trips, vehicles and the network, in the order given.
    pub entity: Entities,
    /// The fields that this profile does not know, as they came.
    pub unknown: Bytes,
}

impl Copied for Header {
    fn copy(&self) -> Result<Self, NoMemory> {
        Ok(Header {
            version: self.version.copy()?,
            incrementality: self.incrementality,
            timestamp: self.timestamp,
            unknown: self.unknown.copy()?,
        })
    }
}

impl Copied for Entity {
    fn copy(&self) -> Result<Self, NoMemory> {
        Ok(Entity {
            id: self.id.copy()?,
            is_deleted: self.is_deleted,
            trip_update: self.trip_update.copy()?,
            vehicle: self.vehicle.copy()?,
            alert: self.alert.copy()?,
            unknown: self.unknown.copy()?,
        })
    }
}

impl Copied for FeedMessage {
    fn copy(&self) -> Result<Self, NoMemory> {
        Ok(FeedMessage {
            header: self.header.copy()?,
            entity: self.entity.copy()?,
            unknown: self.unknown.copy()?,
        })
    }
}
