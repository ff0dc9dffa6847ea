//! The row of an alert.

ghost use Rattle.std.specs.Prelude.{◌≡◌, unwrap_or, find as first_that, IfOk};
ghost use Rattle.std.specs.Option.{option_copied, option_map, is_none};
ghost use Rattle.feed_defs.specs.Enums as enums;
ghost use Rattle.alert_defs.specs.Alerts as rule;

use crate::NoMemory;
use crate::active_alerts::ActiveAlert;
use alert_defs::AlertRow;
use rt_types::{Cause, Effect, Text, Translated, Translation};
use std::alloc::Global;

/// The row of an alert, with its heading; or want of memory.
pub(crate) fn row_of(alloc: Global, active: &ActiveAlert<'_>) -> Result<AlertRow, NoMemory>
    ensures { IfOk result (λ row. row ≡ rule.alert_row active.now.held active.now.alert) }
{
    let (held, alert) = (active.held(), active.alert());
    Ok(AlertRow {
        feed: held.number(),
        id: Text::new(alloc, held.stored().entity.id.as_str())?,
        cause: cause_of(alert.cause),
        effect: effect_of(alert.effect),
        header: Text::new(alloc, header_of(&alert.header_text))?,
    })
}

/// The heading: the first translation that tells no language, else the first, else nothing (GTFS
/// Realtime 2.0, TranslatedString).
fn header_of(header: &Option<Translated>) -> &str
    ensures { result.now ≡ rule.header_of header.now }
{
    match header {
        Some(translated) => text_among(translated.translation.as_slice()),
        None => "",
    }
}

/// The text among translations.
fn text_among(all: &[Translation]) -> &str
    ensures { result.now ≡ rule.text_among all.now }
{
    match all.first() {
        Some(first) => plain_or(first, all),
        None => "",
    }
}

/// The text of the first translation that tells no language, else of the given one.
fn plain_or<'a>(first: &'a Translation, all: &'a [Translation]) -> &'a str
    ensures { result.now
        ≡ (unwrap_or (first_that (λ one. is_none one.language) all.now) first.now).text }
{
    match plain_among(all) {
        Some(plain) => plain.text.as_str(),
        None => first.text.as_str(),
    }
}

/// The first translation that tells no language.
fn plain_among(all: &[Translation]) -> Option<&Translation>
    ensures { option_copied result ≡ first_that (λ one. is_none one.language) all.entry.now }
{
    all.iter().find(|one| one.language.is_none())
}

/// The number of a cause (GTFS Realtime 2.0, Alert, `cause`).
fn cause_of(cause: Option<Cause>) -> Option<u32>
    ensures { result ≡ option_map enums.cause_number cause }
{
    match cause {
        Some(cause) => Some(cause_number(cause)),
        None => None,
    }
}

/// The number of an effect (Alert, `effect`).
fn effect_of(effect: Option<Effect>) -> Option<u32>
    ensures { result ≡ option_map enums.effect_number effect }
{
    match effect {
        Some(effect) => Some(effect_number(effect)),
        None => None,
    }
}

fn cause_number(cause: Cause) -> u32
    ensures { result ≡ enums.cause_number cause }
{
    match cause {
        Cause::UnknownCause => 1,
        Cause::OtherCause => 2,
        Cause::TechnicalProblem => 3,
        Cause::Strike => 4,
        Cause::Demonstration => 5,
        Cause::Accident => 6,
        Cause::Holiday => 7,
        Cause::Weather => 8,
        Cause::Maintenance => 9,
        Cause::Construction => 10,
        Cause::PoliceActivity => 11,
        Cause::MedicalEmergency => 12,
    }
}

fn effect_number(effect: Effect) -> u32
    ensures { result ≡ enums.effect_number effect }
{
    match effect {
        Effect::NoService => 1,
        Effect::ReducedService => 2,
        Effect::SignificantDelays => 3,
        Effect::Detour => 4,
        Effect::AdditionalService => 5,
        Effect::ModifiedService => 6,
        Effect::OtherEffect => 7,
        Effect::UnknownEffect => 8,
        Effect::StopMoved => 9,
        Effect::NoEffect => 10,
        Effect::AccessibilityIssue => 11,
    }
}
