//! Alerts (GTFS Realtime 2.0, Alert).

use crate::NoMemory;
use crate::bytes::Bytes;
use crate::descriptor::TripRef;
use crate::enums::{Cause, Effect};
use crate::items::Items;
use copying::Copied;
use texts::ShortText as Text;

/// An Alert: what passengers are told about a part of the network.
#[derive(Drop)]
pub struct Alert {
    /// When it is shown; always, where there is none.
    pub active_period: Periods,
    /// What it is about.
    pub informed_entity: Selectors,
    /// Why it was given; absent means `UnknownCause`.
    pub cause: Option<Cause>,
    /// What it means for passengers; absent means `UnknownEffect`.
    pub effect: Option<Effect>,
    /// Its heading, a few words of plain text.
    pub header_text: Option<Translated>,
    /// What it says in full, in plain text.
    pub description_text: Option<Translated>,
    /// The fields that this profile does not know, as they came.
    pub unknown: Bytes,
}

/// A TimeRange, in seconds since 1970. An absent bound is open.
#[derive(Drop)]
pub struct Period {
    /// Its first second.
    pub start: Option<u64>,
    /// The second behind its last.
    pub end: Option<u64>,
    /// The fields that this profile does not know, as they came.
    pub unknown: Bytes,
}

/// The periods of an alert, in their order.
pub type Periods = Items<Period>;

/// An EntitySelector: what an alert is about. All that is given must hold.
#[derive(Drop)]
pub struct Selector {
    /// An agency_id of the timetable: all that the agency runs.
    pub agency_id: Option<Text>,
    /// A route_id of the timetable: all trips of the route.
    pub route_id: Option<Text>,
    /// A route_type of the timetable, as 3 for buses: all routes of that kind.
    pub route_type: Option<i32>,
    /// A trip, or the trips that fit it.
    pub trip: Option<TripRef>,
    /// A stop_id of the timetable.
    pub stop_id: Option<Text>,
    /// A direction_id of the timetable, 0 or 1, beside a route_id.
    pub direction_id: Option<u32>,
    /// The fields that this profile does not know, as they came.
    pub unknown: Bytes,
}

/// What an alert is about, in the order given.
pub type Selectors = Items<Selector>;

/// A TranslatedString: one text in several languages.
#[derive(Drop)]
pub struct Translated {
    /// The text in each language, in the order given.
    pub translation: Translations,
    /// The fields that this profile does not know, as they came.
    pub unknown: Bytes,
}

/// A Translation: a text in one language.
#[derive(Drop)]
pub struct Translation {
    /// The text.
    pub text: Text,
    /// A BCP 47 code, as `de`; absent where the language is not known.
    pub language: Option<Text>,
    /// The fields that this profile does not know, as they came.
    pub unknown: Bytes,
}

/// The translations of a text, in their order.
pub type Translations = Items<Translation>;

impl Copied for Alert {
    fn copy(&self) -> Result<Self, NoMemory> {
        Ok(Alert {
            active_period: self.active_period.copy()?,
            informed_entity: self.informed_entity.copy()?,
            cause: self.cause,
            effect: self.effect,
            header_text: self.header_text.copy()?,
            description_text: self.description_text.copy()?,
            unknown: self.unknown.copy()?,
        })
    }
}

impl Copied for Period {
    fn copy(&self) -> Result<Self, NoMemory> {
        Ok(Period {
            start: self.start,
            end: self.end,
            unknown: self.unknown.copy()?,
        })
    }
}

impl Copied for Selector {
    fn copy(&self) -> Result<Self, NoMemory> {
        Ok(Selector {
            agency_id: self.agency_id.copy()?,
            route_id: self.route_id.copy()?,
            route_type: self.route_type,
            trip: self.trip.copy()?,
            stop_id: self.stop_id.copy()?,
            direction_id: self.direction_id,
            unknown: self.unknown.copy()?,
        })
    }
}

impl Copied for Translated {
    fn copy(&self) -> Result<Self, NoMemory> {
        Ok(Translated {
            translation: self.translation.copy()?,
            unknown: self.unknown.copy()?,
        })
    }
}

impl Copied for Translation {
    fn copy(&self) -> Result<Self, NoMemory> {
        Ok(Translation {
            text: self.text.copy()?,
            language: self.language.copy()?,
            unknown: self.unknown.copy()?,
        })
    }
}
