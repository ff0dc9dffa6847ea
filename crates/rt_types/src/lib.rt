//! The values of GTFS Realtime messages.
//!
//! Each message of the reference is a struct with an `Option` for each optional field, a list type
//! for each repeated one, and the bytes of the fields that this profile does not know. A contract
//! sees a `Text` and `Bytes` as a list of bytes and a list type as a list, so it compares messages
//! by what they say. `Copied::copy` gives an equal value. `Kind` and `What` name a message and what
//! may be wrong in it.
//!
//! The crate stands on `copying` and `texts`; the definitions of the crates above speak of its
//! types.
#![tactic(auto)]

mod alert;
mod bytes;
mod descriptor;
mod enums;
mod fault;
mod items;
mod message;
mod shared;
mod trip_update;
mod vehicle;

pub use alert::{
    Alert, Period, Periods, Selector, Selectors, Translated, Translation, Translations,
};
pub use bytes::Bytes;
pub use copying::Copied;
pub use descriptor::TripRef;
pub use enums::{Cause, Effect, Incrementality, StopRelation, StopStatus, TripRelation};
pub use fault::{Kind, What};
pub use items::Items;
pub use message::{Entities, Entity, FeedMessage, Header};
pub use shared::Shared;
pub use std::alloc::AllocError as NoMemory;
pub use texts::ShortText as Text;
pub use trip_update::{Event, StopProps, StopUpdate, StopUpdates, TripUpdate};
pub use vehicle::{Degrees, Position, Vehicle, VehicleRef};
