//! The alerts of a world's messages.

use crate::entities::{named, optional_ref};
use crate::notice::{MadeAlert, MadePeriod, MadeSelector, MadeWords};
use crate::world::{AGENCIES, ROUTES, STOPS};
use rt_types::{
    Alert, Cause, Effect, Period, Periods, Selector, Selectors, Text, Translated, Translation,
    Translations,
};
use sample_city::no_bytes;
use std::alloc::{AllocError, Global};

/// The causes in the order of their numbers, from 1 on.
const CAUSES: [Cause; 12] = [
    Cause::UnknownCause,
    Cause::OtherCause,
    Cause::TechnicalProblem,
    Cause::Strike,
    Cause::Demonstration,
    Cause::Accident,
    Cause::Holiday,
    Cause::Weather,
    Cause::Maintenance,
    Cause::Construction,
    Cause::PoliceActivity,
    Cause::MedicalEmergency,
];

/// The effects in the order of their numbers, from 1 on.
const EFFECTS: [Effect; 11] = [
    Effect::NoService,
    Effect::ReducedService,
    Effect::SignificantDelays,
    Effect::Detour,
    Effect::AdditionalService,
    Effect::ModifiedService,
    Effect::OtherEffect,
    Effect::UnknownEffect,
    Effect::StopMoved,
    Effect::NoEffect,
    Effect::AccessibilityIssue,
];

fn periods(alloc: Global, made: &[MadePeriod]) -> Result<Periods, AllocError> {
    let mut periods = Vec::new(alloc);
    for period in made {
        periods.push(Period {
            start: period.start,
            end: period.end,
            unknown: no_bytes(alloc),
        })?;
    }
    Ok(Periods::new(periods))
}

fn selector(alloc: Global, made: MadeSelector) -> Result<Selector, AllocError> {
    Ok(Selector {
        agency_id: named(alloc, &AGENCIES, made.agency, "Q")?,
        route_id: named(alloc, &ROUTES, made.route, "R9")?,
        route_type: made.kind,
        trip: optional_ref(alloc, made.trip)?,
        stop_id: named(alloc, &STOPS, made.stop, "Z")?,
        direction_id: made.direction,
        unknown: no_bytes(alloc),
    })
}

fn selectors(alloc: Global, made: &[MadeSelector]) -> Result<Selectors, AllocError> {
    let mut selectors = Vec::new(alloc);
    for one in made {
        selectors.push(selector(alloc, *one)?)?;
    }
    Ok(Selectors::new(selectors))
}

/// A language, if one is told.
fn language(alloc: Global, made: Option<&str>) -> Result<Option<Text>, AllocError> {
    match made {
        Some(language) => Ok(Some(Text::new(alloc, language)?)),
        None => Ok(None),
    }
}

fn translated(alloc: Global, made: &[MadeWords]) -> Result<Translated, AllocError> {
    let mut texts = Vec::new(alloc);
    for words in made {
        texts.push(Translation {
            text: Text::new(alloc, words.text)?,
            language: language(alloc, words.language)?,
            unknown: no_bytes(alloc),
        })?;
    }
    Ok(Translated {
        translation: Translations::new(texts),
        unknown: no_bytes(alloc),
    })
}

fn header(alloc: Global, made: &Option<Vec<MadeWords>>) -> Result<Option<Translated>, AllocError> {
    match made {
        Some(words) => Ok(Some(translated(alloc, words.as_slice())?)),
        None => Ok(None),
    }
}

/// What is said in full, which no list shows.
const IN_FULL: [MadeWords; 1] = [MadeWords {
    text: "In full",
    language: None,
}];

fn cause(place: Option<u32>) -> Option<Cause> {
    match place {
        Some(place) => CAUSES.get(place as usize).copied(),
        None => None,
    }
}

fn effect(place: Option<u32>) -> Option<Effect> {
    match place {
        Some(place) => EFFECTS.get(place as usize).copied(),
        None => None,
    }
}

/// An alert of a message.
pub(crate) fn alert(alloc: Global, made: &MadeAlert) -> Result<Alert, AllocError> {
    Ok(Alert {
        active_period: periods(alloc, made.periods.as_slice())?,
        informed_entity: selectors(alloc, made.selectors.as_slice())?,
        cause: cause(made.cause),
        effect: effect(made.effect),
        header_text: header(alloc, &made.header)?,
        description_text: Some(translated(alloc, &IN_FULL)?),
        unknown: no_bytes(alloc),
    })
}
