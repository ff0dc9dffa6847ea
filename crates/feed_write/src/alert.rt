//! Alerts (GTFS Realtime 2.0, Alert), each a listing of its fields by rising number.

ghost use Rattle.feed_defs.specs.Table.{time_range, entity_selector, translation, translated_string, alert};
ghost use Rattle.feed_defs.specs.Renamed.{renamed_selector, renamed_alert};

use crate::NoMemory;
use crate::fields::{put_embedded, put_items, put_scalar, put_text, put_text_if, put_unknown};
use crate::ids::put_id;
use crate::message::Message;
use rt_types::{Alert, Period, Selector, Translated, Translation};

impl Message for Period {
    ghost table = { time_range };

    ghost renamed = { λ _ m. m };

    #[tactic(auto, unfolding(feed_defs::specs::Rows::message_bytes), using(crate::proofs::Spelling::puts))]
    fn put(&self, _prefix: &str, out: &mut Vec<u8>) -> Result<(), NoMemory> {
        put_scalar(1, self.start, out)?;
        put_scalar(2, self.end, out)?;
        put_unknown(&self.unknown, out)
    }
}

impl Message for Selector {
    ghost table = { entity_selector };

    ghost renamed = { renamed_selector };

    #[tactic(auto, unfolding(feed_defs::specs::Rows::message_bytes), using(crate::proofs::Spelling::puts))]
    fn put(&self, prefix: &str, out: &mut Vec<u8>) -> Result<(), NoMemory> {
        put_id(1, &self.agency_id, prefix, out)?;
        put_id(2, &self.route_id, prefix, out)?;
        put_scalar(3, self.route_type, out)?;
        put_embedded(4, &self.trip, prefix, out)?;
        put_id(5, &self.stop_id, prefix, out)?;
        put_scalar(6, self.direction_id, out)?;
        put_unknown(&self.unknown, out)
    }
}

impl Message for Translation {
    ghost table = { translation };

    ghost renamed = { λ _ m. m };

    #[tactic(auto, unfolding(feed_defs::specs::Rows::message_bytes), using(crate::proofs::Spelling::puts))]
    fn put(&self, _prefix: &str, out: &mut Vec<u8>) -> Result<(), NoMemory> {
        put_text(1, &self.text, out)?;
        put_text_if(2, &self.language, out)?;
        put_unknown(&self.unknown, out)
    }
}

impl Message for Translated {
    ghost table = { translated_string };

    ghost renamed = { λ _ m. m };

    #[tactic(auto, unfolding(feed_defs::specs::Rows::message_bytes), using(crate::proofs::Spelling::puts))]
    fn put(&self, prefix: &str, out: &mut Vec<u8>) -> Result<(), NoMemory> {
        put_items(1, &self.translation, prefix, out)?;
        put_unknown(&self.unknown, out)
    }
}

impl Message for Alert {
    ghost table = { alert };

    ghost renamed = { renamed_alert };

    #[tactic(auto, unfolding(feed_defs::specs::Rows::message_bytes), using(crate::proofs::Spelling::puts))]
    fn put(&self, prefix: &str, out: &mut Vec<u8>) -> Result<(), NoMemory> {
        put_items(1, &self.active_period, prefix, out)?;
        put_items(5, &self.informed_entity, prefix, out)?;
        put_scalar(6, self.cause, out)?;
        put_scalar(7, self.effect, out)?;
        put_embedded(10, &self.header_text, prefix, out)?;
        put_embedded(11, &self.description_text, prefix, out)?;
        put_unknown(&self.unknown, out)
    }
}
