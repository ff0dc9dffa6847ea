//! Which trip a message speaks of (GTFS Realtime 2.0, TripDescriptor), by rising number of its
//! fields.

ghost use Rattle.feed_defs.specs.Table.{trip_descriptor};
ghost use Rattle.feed_defs.specs.Renamed.{renamed_trip};

use crate::NoMemory;
use crate::fields::{put_scalar, put_text_if, put_unknown};
use crate::ids::put_id;
use crate::message::Message;
use rt_types::TripRef;

impl Message for TripRef {
    ghost table = { trip_descriptor };

    ghost renamed = { renamed_trip };

    #[tactic(auto, unfolding(feed_defs::specs::Rows::message_bytes), using(crate::proofs::Spelling::puts))]
    fn put(&self, prefix: &str, out: &mut Vec<u8>) -> Result<(), NoMemory> {
        put_id(1, &self.trip_id, prefix, out)?;
        put_text_if(2, &self.start_time, out)?;
        put_text_if(3, &self.start_date, out)?;
        put_scalar(4, self.relation, out)?;
        put_id(5, &self.route_id, prefix, out)?;
        put_scalar(6, self.direction_id, out)?;
        put_unknown(&self.unknown, out)
    }
}
