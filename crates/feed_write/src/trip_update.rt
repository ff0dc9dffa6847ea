//! Updates of trips (GTFS Realtime 2.0, TripUpdate), each a listing of its fields by rising number.

ghost use Rattle.feed_defs.specs.Table.{stop_time_event, stop_time_properties, stop_time_update, trip_update};
ghost use Rattle.feed_defs.specs.Renamed.{renamed_properties, renamed_stop, renamed_update};

use crate::NoMemory;
use crate::fields::{put_embedded, put_items, put_message, put_scalar, put_unknown};
use crate::ids::put_id;
use crate::message::Message;
use rt_types::{Event, StopProps, StopUpdate, TripUpdate};

impl Message for Event {
    ghost table = { stop_time_event };

    ghost renamed = { λ _ m. m };

    #[tactic(auto, unfolding(feed_defs::specs::Rows::message_bytes), using(crate::proofs::Spelling::puts))]
    fn put(&self, _prefix: &str, out: &mut Vec<u8>) -> Result<(), NoMemory> {
        put_scalar(1, self.delay, out)?;
        put_scalar(2, self.time, out)?;
        put_scalar(3, self.uncertainty, out)?;
        put_unknown(&self.unknown, out)
    }
}

impl Message for StopProps {
    ghost table = { stop_time_properties };

    ghost renamed = { renamed_properties };

    #[tactic(auto, unfolding(feed_defs::specs::Rows::message_bytes), using(crate::proofs::Spelling::puts))]
    fn put(&self, prefix: &str, out: &mut Vec<u8>) -> Result<(), NoMemory> {
        put_id(1, &self.assigned_stop_id, prefix, out)?;
        put_unknown(&self.unknown, out)
    }
}

impl Message for StopUpdate {
    ghost table = { stop_time_update };

    ghost renamed = { renamed_stop };

    #[tactic(auto, unfolding(feed_defs::specs::Rows::message_bytes), using(crate::proofs::Spelling::puts))]
    fn put(&self, prefix: &str, out: &mut Vec<u8>) -> Result<(), NoMemory> {
        put_scalar(1, self.stop_sequence, out)?;
        put_embedded(2, &self.arrival, prefix, out)?;
        put_embedded(3, &self.departure, prefix, out)?;
        put_id(4, &self.stop_id, prefix, out)?;
        put_scalar(5, self.relation, out)?;
        put_embedded(6, &self.properties, prefix, out)?;
        put_unknown(&self.unknown, out)
    }
}

impl Message for TripUpdate {
    ghost table = { trip_update };

    ghost renamed = { renamed_update };

    /// Most foretell several stops; one of a few delays alone is shorter.
    fn is_long(&self) -> bool {
        true
    }

    #[tactic(auto, unfolding(feed_defs::specs::Rows::message_bytes), using(crate::proofs::Spelling::puts))]
    fn put(&self, prefix: &str, out: &mut Vec<u8>) -> Result<(), NoMemory> {
        put_message(1, &self.trip, prefix, out)?;
        put_items(2, &self.stop_time_update, prefix, out)?;
        put_embedded(3, &self.vehicle, prefix, out)?;
        put_scalar(4, self.timestamp, out)?;
        put_scalar(5, self.delay, out)?;
        put_unknown(&self.unknown, out)
    }
}
