//! Positions of vehicles (GTFS Realtime 2.0, VehiclePosition), each a listing of its fields by
//! rising number.

ghost use Rattle.feed_defs.specs.Table.{vehicle_descriptor, position, vehicle_position};
ghost use Rattle.feed_defs.specs.Renamed.{renamed_vehicle};

use crate::NoMemory;
use crate::fields::{put_degrees, put_embedded, put_scalar, put_text_if, put_unknown};
use crate::ids::put_id;
use crate::message::Message;
use rt_types::{Position, Vehicle, VehicleRef};

impl Message for VehicleRef {
    ghost table = { vehicle_descriptor };

    ghost renamed = { λ _ m. m };

    #[tactic(auto, unfolding(feed_defs::specs::Rows::message_bytes), using(crate::proofs::Spelling::puts))]
    fn put(&self, _prefix: &str, out: &mut Vec<u8>) -> Result<(), NoMemory> {
        put_text_if(1, &self.id, out)?;
        put_text_if(2, &self.label, out)?;
        put_text_if(3, &self.license_plate, out)?;
        put_unknown(&self.unknown, out)
    }
}

impl Message for Position {
    ghost table = { position };

    ghost renamed = { λ _ m. m };

    #[tactic(auto, unfolding(feed_defs::specs::Rows::message_bytes), using(crate::proofs::Spelling::puts))]
    fn put(&self, _prefix: &str, out: &mut Vec<u8>) -> Result<(), NoMemory> {
        put_degrees(1, self.latitude, out)?;
        put_degrees(2, self.longitude, out)?;
        put_unknown(&self.unknown, out)
    }
}

impl Message for Vehicle {
    ghost table = { vehicle_position };

    ghost renamed = { renamed_vehicle };

    #[tactic(auto, unfolding(feed_defs::specs::Rows::message_bytes), using(crate::proofs::Spelling::puts))]
    fn put(&self, prefix: &str, out: &mut Vec<u8>) -> Result<(), NoMemory> {
        put_embedded(1, &self.trip, prefix, out)?;
        put_embedded(2, &self.position, prefix, out)?;
        put_scalar(3, self.current_stop_sequence, out)?;
        put_scalar(4, self.current_status, out)?;
        put_scalar(5, self.timestamp, out)?;
        put_id(7, &self.stop_id, prefix, out)?;
        put_embedded(8, &self.vehicle, prefix, out)?;
        put_unknown(&self.unknown, out)
    }
}
