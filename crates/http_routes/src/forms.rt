//! The values of a form.
ghost use Rattle.std.specs.Prelude.{◌≡◌, ℕ, List, Some, None, if◌then◌else◌, bytes_eq, IfOk, OnOk};
ghost use Rattle.std.specs.Option.{option_or};
ghost use Rattle.text_defs.specs.Numbers.{number};
ghost use Rattle.http_defs.specs.Targets as rule;
ghost use Rattle.http_routes.specs.Given.{IsGiven};

use crate::NoMemory;
use http_defs::Choices;
use long_numbers::read_long_number;
use rt_types::Text;
use std::alloc::Global;
use texts::read_number;

/// The first value that a form gives to each name that is read; `None` where it gives none.
#[derive(Drop)]
struct Given {
    span: Option<Text>,
    limit: Option<Text>,
    format: Option<Text>,
    since: Option<Text>,
}

/// Sets the place to the value of a pair, if the pair has the name and nothing set the place
/// before.
fn note(
    alloc: Global,
    name: &str,
    key: &str,
    value: &str,
    place: &mut Option<Text>,
) -> Result<(), NoMemory>
    ensures { OnOk result (place.new ≡ option_or place.old
        (if bytes_eq key.now name.now then Some value.now else None)) }
{
    if place.is_none() && key == name {
        *place = Some(Text::new(alloc, value)?);
    }
    Ok(())
}

/// The first values of a form, whose pairs are gone over once.
#[tactic(auto, unfolding(http_defs::specs::Targets::first_value))]
fn given_in(alloc: Global, form: &[u8]) -> Result<Given, NoMemory>
    ensures { IfOk result (λ given. IsGiven form.now given) }
{
    let mut given = Given {
        span: None,
        limit: None,
        format: None,
        since: None,
    };
    for pair in form_urlencoded::parse(alloc, form) {
        let (key, value) = match pair {
            Ok(texts) => texts,
            Err(_) => return Err(NoMemory),
        };
        let (key, value) = (key.as_str(), value.as_str());
        note(alloc, "span", key, value, &mut given.span)?;
        note(alloc, "limit", key, value, &mut given.limit)?;
        note(alloc, "format", key, value, &mut given.format)?;
        note(alloc, "since", key, value, &mut given.since)?;
    }
    Ok(given)
}

fn small_number(digits: &[u8], high: u32) -> Option<u32>
    ensures { result ≡ number 5 1 high digits.now }
{
    match read_number(digits, 5, 1, u64::from(high)) {
        Some(value) => Some(value as u32),
        None => None,
    }
}

/// The number of 1 to 5 digits from 1 to `high` that a value is, or `absent` where there is none.
fn number_or(absent: u32, high: u32, value: &Option<Text>) -> Option<u32>
    ensures { result ≡ rule.number_or absent high value.now }
{
    match value {
        Some(value) => small_number(value.as_str().as_bytes(), high),
        None => Some(absent),
    }
}

fn is_json(format: &Option<Text>) -> Option<bool>
    ensures { result ≡ rule.is_json format.now }
{
    match format {
        Some(format) => match format.as_str() {
            "text" => Some(false),
            "json" => Some(true),
            _ => None,
        },
        None => Some(false),
    }
}

/// What the values ask of a board or of alerts, or none where one of them has another form or is
/// out of range.
#[tactic(auto, unfolding(http_defs::specs::Targets::choices_in))]
fn choices_of(given: &Given) -> Option<Choices>
    ensures { (form : List ℕ) → IsGiven form given.now → result ≡ rule.choices_in form }
{
    Some(Choices {
        span: number_or(3600, 86_400, &given.span)?,
        limit: number_or(50, 1000, &given.limit)?,
        json: is_json(&given.format)?,
    })
}

/// What a form asks of a board or of alerts, or none where one of its values has another form or is
/// out of range.
pub(crate) fn choices_in(alloc: Global, form: &[u8]) -> Result<Option<Choices>, NoMemory>
    ensures { IfOk result (λ choices. choices ≡ rule.choices_in form.now) }
{
    let given = given_in(alloc, form)?;
    Ok(choices_of(&given))
}

/// The number of 1 to 20 digits that a value is, `Some(None)` where there is no value, and `None`
/// where it has another form or more than 64 bits.
fn look_or_none(since: &Option<Text>) -> Option<Option<u64>>
    ensures { result ≡ rule.look_or_none since.now }
{
    match since {
        Some(value) => match read_long_number(value.as_str().as_bytes(), 0, u64::MAX) {
            Some(look) => Some(Some(look)),
            None => None,
        },
        None => Some(None),
    }
}

/// The look since which a form asks for changes, `Some(None)` where it asks for none, and `None`
/// where its value has another form or is out of range.
#[tactic(auto, unfolding(http_defs::specs::Targets::since_in))]
pub(crate) fn since_in(alloc: Global, form: &[u8]) -> Result<Option<Option<u64>>, NoMemory>
    ensures { IfOk result (λ since. since ≡ rule.since_in form.now) }
{
    let given = given_in(alloc, form)?;
    Ok(look_or_none(&given.since))
}
