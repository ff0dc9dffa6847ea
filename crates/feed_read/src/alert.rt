//! Alerts, as their tables list their fields.

ghost use Rattle.feed_defs.specs.Table.{alert, time_range, entity_selector, translated_string, translation};

use crate::NoMemory;
use crate::message::{Message, needed};
use crate::nested::{all, embedded};
use field_read::{Fields, ReadFault, is_scalar, is_span, last, text};
use pb_wire::Part;
use rt_types::{
    Alert, Bytes, Cause, Effect, Items, Kind, Period, Selector, Text, Translated, Translation,
};
use std::alloc::Global;

impl Message for Alert {
    ghost table = { alert };

    fn kind() -> Kind {
        Kind::Alert
    }

    fn knows(part: &Part<'_>) -> bool {
        is_span(1, part)
            || (is_span(5, part)
                || (is_scalar::<Cause>(6, part)
                    || (is_scalar::<Effect>(7, part) || (is_span(10, part) || is_span(11, part)))))
    }

    fn blank(alloc: Global) -> Result<Alert, NoMemory> {
        Ok(Alert {
            active_period: Items::new(Vec::new(alloc)),
            informed_entity: Items::new(Vec::new(alloc)),
            cause: None,
            effect: None,
            header_text: None,
            description_text: None,
            unknown: Bytes::from_vec(Vec::new(alloc)),
        })
    }

    fn fill(
        &mut self,
        alloc: Global,
        fields: &Fields<'_, '_>,
        unknown: Bytes,
    ) -> Result<(), ReadFault> {
        self.active_period = all(alloc, 1, fields)?;
        self.informed_entity = all(alloc, 5, fields)?;
        self.cause = last(6, fields);
        self.effect = last(7, fields);
        embedded(alloc, 10, fields, &mut self.header_text)?;
        embedded(alloc, 11, fields, &mut self.description_text)?;
        self.unknown = unknown;
        Ok(())
    }
}

impl Message for Period {
    ghost table = { time_range };

    fn kind() -> Kind {
        Kind::TimeRange
    }

    fn knows(part: &Part<'_>) -> bool {
        is_scalar::<u64>(1, part) || is_scalar::<u64>(2, part)
    }

    fn blank(alloc: Global) -> Result<Period, NoMemory> {
        Ok(Period {
            start: None,
            end: None,
            unknown: Bytes::from_vec(Vec::new(alloc)),
        })
    }

    fn fill(
        &mut self,
        _alloc: Global,
        fields: &Fields<'_, '_>,
        unknown: Bytes,
    ) -> Result<(), ReadFault> {
        self.start = last(1, fields);
        self.end = last(2, fields);
        self.unknown = unknown;
        Ok(())
    }
}

impl Message for Selector {
    ghost table = { entity_selector };

    fn kind() -> Kind {
        Kind::EntitySelector
    }

    fn knows(part: &Part<'_>) -> bool {
        is_span(1, part)
            || (is_span(2, part)
                || (is_scalar::<i32>(3, part)
                    || (is_span(4, part) || (is_span(5, part) || is_scalar::<u32>(6, part)))))
    }

    fn blank(alloc: Global) -> Result<Selector, NoMemory> {
        Ok(Selector {
            agency_id: None,
            route_id: None,
            route_type: None,
            trip: None,
            stop_id: None,
            direction_id: None,
            unknown: Bytes::from_vec(Vec::new(alloc)),
        })
    }

    fn fill(
        &mut self,
        alloc: Global,
        fields: &Fields<'_, '_>,
        unknown: Bytes,
    ) -> Result<(), ReadFault> {
        self.agency_id = text(alloc, Kind::EntitySelector, 1, fields)?;
        self.route_id = text(alloc, Kind::EntitySelector, 2, fields)?;
        self.route_type = last(3, fields);
        embedded(alloc, 4, fields, &mut self.trip)?;
        self.stop_id = text(alloc, Kind::EntitySelector, 5, fields)?;
        self.direction_id = last(6, fields);
        self.unknown = unknown;
        Ok(())
    }
}

impl Message for Translated {
    ghost table = { translated_string };

    fn kind() -> Kind {
        Kind::TranslatedString
    }

    fn knows(part: &Part<'_>) -> bool {
        is_span(1, part)
    }

    fn blank(alloc: Global) -> Result<Translated, NoMemory> {
        Ok(Translated {
            translation: Items::new(Vec::new(alloc)),
            unknown: Bytes::from_vec(Vec::new(alloc)),
        })
    }

    fn fill(
        &mut self,
        alloc: Global,
        fields: &Fields<'_, '_>,
        unknown: Bytes,
    ) -> Result<(), ReadFault> {
        self.translation = all(alloc, 1, fields)?;
        self.unknown = unknown;
        Ok(())
    }
}

impl Message for Translation {
    ghost table = { translation };

    fn kind() -> Kind {
        Kind::Translation
    }

    fn knows(part: &Part<'_>) -> bool {
        is_span(1, part) || is_span(2, part)
    }

    fn blank(alloc: Global) -> Result<Translation, NoMemory> {
        Ok(Translation {
            text: Text::new(alloc, "")?,
            language: None,
            unknown: Bytes::from_vec(Vec::new(alloc)),
        })
    }

    fn fill(
        &mut self,
        alloc: Global,
        fields: &Fields<'_, '_>,
        unknown: Bytes,
    ) -> Result<(), ReadFault> {
        let translated = text(alloc, Kind::Translation, 1, fields)?;
        self.language = text(alloc, Kind::Translation, 2, fields)?;
        self.text = needed(Kind::Translation, 1, translated)?;
        self.unknown = unknown;
        Ok(())
    }
}
