//! What the value at a key says.

ghost use Rattle.std.specs.Prelude.{◌≡◌, ◌≤◌, ◌&&◌, nat_le, true, length, option_map, IfSome};
ghost use Rattle.std.specs.List.{list_all};
ghost use Rattle.toml.specs.Data.{get_member};
ghost use Rattle.toml.specs.View.{view, table_view, items_view};
ghost use Rattle.hub_config_defs.specs.Rules.{rule_of};
ghost use Rattle.hub_config.specs.Seen.{absent_seen};
ghost use Rattle.hub_config_defs.specs.Values as values;

use crate::rule::{Absent, rule_for};
use hub_config_defs::{Holds, Key, PortKind};
use texts::{is_name, is_valid_date, read_date};
use toml::{Table, Value};

/// The value at a key.
pub fn value_at<'a>(table: &'a Table, name: &str) -> Option<&'a Value>
    ensures { option_map (λ v. view v.now) result ≡ get_member name.now (table_view table.now) }
{
    table.get(name)
}

fn number_within(number: i64, least: u32, most: u32) -> Option<u32>
    ensures { result ≡ values.within least most number }
{
    match u32::try_from(number) {
        Ok(number) if least <= number && number <= most => Some(number),
        _ => None,
    }
}

/// The number of eight digits YYYYMMDD of a day of the Gregorian calendar from 1 February 1970 to
/// 31 December 2999 (GTFS Schedule, "Field Types", Date).
#[tactic(auto, unfolding(hub_config_defs::specs::Values::date_of))]
fn date_of(text: &str) -> Option<u32>
    ensures { result ≡ values.date_of text.now }
{
    match read_date(text.as_bytes()) {
        Some(date) if is_window_date(date) => Some(date),
        _ => None,
    }
}

fn is_window_date(date: u32) -> bool
    ensures { result ≡ values.is_window_date date }
{
    19_700_201 <= date && date <= 29_991_231 && is_valid_date(date)
}

/// The way that a word names in which messages come to a feed.
#[tactic(auto, unfolding(hub_config_defs::specs::Values::port_of))]
pub fn port_of(text: &str) -> Option<PortKind>
    ensures { result ≡ values.port_of text.now }
{
    if text == "none" {
        Some(PortKind::Nothing)
    } else if text == "spool" {
        Some(PortKind::Spool)
    } else if text == "stream" {
        Some(PortKind::Stream)
    } else if text == "poll" {
        Some(PortKind::Poll)
    } else {
        None
    }
}

/// Whether messages come as replies to polls.
pub fn is_polled(kind: Option<PortKind>) -> bool
    ensures { result ≡ values.is_polled kind }
{
    match kind {
        Some(PortKind::Poll) => true,
        _ => false,
    }
}

fn is_visible(byte: u8) -> bool
    ensures { result ≡ values.is_visible byte }
{
    33 <= byte && byte <= 126
}

fn are_visible(bytes: &[u8]) -> bool
    ensures { result ≡ list_all values.is_visible bytes.now }
{
    bytes.iter().all(|byte| is_visible(*byte))
}

/// Whether a `/` stands behind at least one byte.
fn has_path(bytes: &[u8]) -> bool
    ensures { result ≡ values.has_path bytes.now }
{
    match bytes {
        [_, behind @ ..] => behind.contains(&b'/'),
        [] => false,
    }
}

/// Whether a text is the place of a feed that is polled: a host and a path in visible ASCII.
#[tactic(auto, unfolding(hub_config_defs::specs::Values::is_poll_place))]
pub fn is_poll_place(text: &str) -> bool
    ensures { result ≡ values.is_poll_place text.now }
{
    are_visible(text.as_bytes()) && has_path(text.as_bytes())
}

/// The number that a value says, where its key may hold that.
#[tactic(auto, unfolding(hub_config_defs::specs::Values::number_of))]
pub fn number_of(holds: Holds, value: &Value) -> Option<u32>
    ensures { result ≡ values.number_of holds (view value.now) }
{
    match holds {
        Holds::Number(least, most) => match value.as_integer() {
            Some(number) => number_within(number, least, most),
            None => None,
        },
        Holds::Date => match value.as_str() {
            Some(text) => date_of(text),
            None => None,
        },
        _ => None,
    }
}

#[tactic(auto, unfolding(hub_config_defs::specs::Values::is_text_for))]
fn is_text_for(holds: Holds, text: &str) -> bool
    ensures { result ≡ values.is_text_for holds text.now }
{
    match holds {
        Holds::AnyText | Holds::KnownSchedule => true,
        Holds::ShortText(most) => text.len() <= most as usize,
        Holds::NewSchedule | Holds::NewFeed => is_name(text.as_bytes()),
        Holds::Port => port_of(text).is_some(),
        Holds::Number(_, _) | Holds::Date | Holds::Tables(_, _) => false,
    }
}

/// The text that a value says, where its key may hold that.
#[tactic(auto, unfolding(hub_config_defs::specs::Values::text_of))]
pub fn text_of(holds: Holds, value: &Value) -> Option<&str>
    ensures { option_map (λ t. t.now) result ≡ values.text_of holds (view value.now) }
{
    match value.as_str() {
        Some(text) if is_text_for(holds, text) => Some(text),
        _ => None,
    }
}

fn is_table(row: &Value) -> bool
    ensures { result ≡ values.is_table (view row.now) }
{
    row.as_table().is_some()
}

fn are_tables(rows: &[Value]) -> bool
    ensures { result ≡ list_all (λ row. values.is_table (view row)) rows.now }
{
    rows.iter().all(|row| is_table(row))
}

fn is_long(length: usize, least: u32, most: u32) -> bool
    ensures { result ≡ (nat_le least length && nat_le length most) }
{
    least as usize <= length && length <= most as usize
}

#[tactic(auto, unfolding(hub_config_defs::specs::Values::is_array_for), using(crate::proofs::Views::array_views))]
fn is_array_for(holds: Holds, rows: &[Value]) -> bool
    ensures value { result ≡ values.is_array_for holds (items_view rows.now) }
    ensures few { result ≡ true → length rows.now ≤ values.most_tables holds }
{
    match holds {
        Holds::Tables(least, most) => is_long(rows.len(), least, most) && are_tables(rows),
        _ => false,
    }
}

/// The tables that a value says, where its key may hold them.
#[tactic(auto, unfolding(hub_config_defs::specs::Values::tables_of))]
pub fn tables_of(holds: Holds, value: &Value) -> Option<&[Value]>
    ensures value { option_map (λ rows. items_view rows.now) result ≡ values.tables_of holds
        (view value.now) }
    ensures few { IfSome result (λ rows. length rows.now ≤ values.most_tables holds) }
{
    match value.as_array() {
        Some(rows) if is_array_for(holds, rows.as_slice()) => Some(rows.as_slice()),
        _ => None,
    }
}

impl Absent {
    fn number(self) -> u32
        ensures { result ≡ values.default_number (absent_seen self) }
    {
        match self {
            Absent::Number(number) => number,
            _ => 0,
        }
    }

    fn text(self) -> &'static str
        ensures { result.now ≡ values.default_text (absent_seen self) }
    {
        match self {
            Absent::Text(text) => text,
            _ => "",
        }
    }
}

/// The number that a table says at a key, or the one that stands for it there.
#[tactic(auto, unfolding(hub_config_defs::specs::Values::number_at))]
pub fn number_at(table: &Table, key: Key) -> u32
    ensures { result ≡ values.number_at key (table_view table.now) }
{
    let rule = rule_for(key);
    let said = match value_at(table, rule.name) {
        Some(value) => number_of(rule.holds, value),
        None => None,
    };
    said.unwrap_or(rule.absent.number())
}

/// The text that a table says at a key, or the one that stands for it there.
#[tactic(auto, unfolding(hub_config_defs::specs::Values::text_at))]
pub fn text_at(table: &Table, key: Key) -> &str
    ensures { result.now ≡ values.text_at key (table_view table.now) }
{
    let rule = rule_for(key);
    let said = match value_at(table, rule.name) {
        Some(value) => text_of(rule.holds, value),
        None => None,
    };
    said.unwrap_or(rule.absent.text())
}

/// The tables that a table says at a key, or none.
#[tactic(auto, unfolding(hub_config_defs::specs::Values::tables_at))]
pub fn tables_at(table: &Table, key: Key) -> &[Value]
    ensures value { items_view result.now ≡ values.tables_at key (table_view table.now) }
    ensures few { length result.now ≤ values.most_tables (rule_of key).holds }
{
    let rule = rule_for(key);
    let said = match value_at(table, rule.name) {
        Some(value) => tables_of(rule.holds, value),
        None => None,
    };
    said.unwrap_or(&[])
}
