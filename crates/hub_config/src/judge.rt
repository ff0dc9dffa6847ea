//! The first fault of a table.

ghost use Rattle.std.specs.Prelude.{◌≡◌, not, option_map, string_bytes};
ghost use Rattle.std.specs.BTreeMap as tree;
ghost use Rattle.std.specs.List.{find};
ghost use Rattle.std.specs.Option.{option_copied};
ghost use Rattle.toml.specs.View.{view, table_view};
ghost use Rattle.hub_config_defs.specs.Faults as faults;
ghost use Rattle.hub_config_defs.specs.Rules.{rule_of};
ghost use Rattle.hub_config.specs.Seen.{absent_seen};
ghost use Rattle.hub_config.specs.Answer.{PassesUnless};

use crate::rule::{Absent, keys, rule_for};
use crate::value::{
    is_poll_place, is_polled, number_of, port_of, tables_of, text_at, text_of, value_at,
};
use hub_config_defs::{ConfFault, ConfWhy, FeedConf, Holds, Key, ScheduleConf, TableName};
use rt_types::Text;
use std::alloc::Global;
use toml::{Table, Value};

fn has_schedule(name: &str, schedules: &[ScheduleConf]) -> bool
    ensures { result ≡ faults.has_schedule name.now schedules.now }
{
    schedules
        .iter()
        .any(|schedule| schedule.name.as_str() == name)
}

fn has_feed(name: &str, feeds: &[FeedConf]) -> bool
    ensures { result ≡ faults.has_feed name.now feeds.now }
{
    feeds.iter().any(|feed| feed.name.as_str() == name)
}

/// What is wrong with a name beside the schedules and the feeds so far.
#[tactic(auto, unfolding(hub_config_defs::specs::Faults::name_fault))]
fn name_fault(
    holds: Holds,
    name: &str,
    schedules: &[ScheduleConf],
    feeds: &[FeedConf],
) -> Option<ConfWhy>
    ensures { result ≡ faults.name_fault holds name.now schedules.now feeds.now }
{
    let (is_wrong, why) = match holds {
        Holds::NewSchedule => (has_schedule(name, schedules), ConfWhy::Twice),
        Holds::NewFeed => (has_feed(name, feeds), ConfWhy::Twice),
        Holds::KnownSchedule => (!has_schedule(name, schedules), ConfWhy::NoName),
        _ => return None,
    };
    if is_wrong { Some(why) } else { None }
}

#[tactic(auto, unfolding(hub_config_defs::specs::Faults::is_held))]
fn is_held(holds: Holds, value: &Value) -> bool
    ensures { result ≡ faults.is_held holds (view value.now) }
{
    number_of(holds, value).is_some()
        || text_of(holds, value).is_some()
        || tables_of(holds, value).is_some()
}

/// What is wrong with a value: its type or range, or else the name that it says.
#[tactic(auto, unfolding(hub_config_defs::specs::Faults::value_fault))]
fn value_fault(
    holds: Holds,
    value: &Value,
    schedules: &[ScheduleConf],
    feeds: &[FeedConf],
) -> Option<ConfWhy>
    ensures { result ≡ faults.value_fault holds (view value.now) schedules.now feeds.now }
{
    if !is_held(holds, value) {
        return Some(ConfWhy::Bad);
    }
    match text_of(holds, value) {
        Some(name) => name_fault(holds, name, schedules, feeds),
        None => None,
    }
}

impl Absent {
    fn fault(self) -> Option<ConfWhy>
        ensures { result ≡ faults.absent_fault (absent_seen self) }
    {
        match self {
            Absent::Refused => Some(ConfWhy::Missing),
            _ => None,
        }
    }
}

/// Whether a table says of a feed that it is polled, and no place for that.
fn is_unfit_place(key: Key, table: &Table) -> bool
    ensures { result ≡ faults.is_unfit_place key (table_view table.now) }
{
    match key {
        Key::Place => {
            is_polled(port_of(text_at(table, Key::Kind)))
                && !is_poll_place(text_at(table, Key::Place))
        }
        _ => false,
    }
}

/// What is wrong with a key of a table.
#[tactic(auto, unfolding(hub_config_defs::specs::Faults::key_fault))]
fn key_fault(
    key: Key,
    table: &Table,
    schedules: &[ScheduleConf],
    feeds: &[FeedConf],
) -> Option<ConfWhy>
    ensures { result ≡ faults.key_fault key (table_view table.now) schedules.now feeds.now }
{
    if is_unfit_place(key, table) {
        return Some(ConfWhy::Bad);
    }
    let rule = rule_for(key);
    match value_at(table, rule.name) {
        Some(value) => value_fault(rule.holds, value, schedules, feeds),
        None => rule.absent.fault(),
    }
}

fn has_name(key: Key, name: &str) -> bool
    ensures { result ≡ faults.has_name name.now key }
{
    rule_for(key).name == name
}

#[tactic(auto, unfolding(hub_config_defs::specs::Faults::is_known))]
fn is_known(keys: &[Key], name: &str) -> bool
    ensures { result ≡ faults.is_known keys.now name.now }
{
    keys.iter().any(|key| has_name(*key, name))
}

/// The first name of a table, in byte order, that none of the keys has.
fn first_unknown<'a>(keys: &[Key], table: &'a Table) -> Option<&'a String>
    ensures { option_copied result ≡ find (λ name.
        not (faults.is_known keys.now (string_bytes name))) (tree.keys table.entry.now) }
{
    table.keys().find(|name| !is_known(keys, name.as_str()))
}

fn unknown_in<'a>(keys: &[Key], table: &'a Table) -> Option<&'a str>
    ensures { option_map (λ name. name.now) result ≡ faults.unknown_in keys.now
        (table_view table.entry.now) }
{
    match first_unknown(keys, table) {
        Some(name) => Some(name.as_str()),
        None => None,
    }
}

/// The first of the keys with which something is wrong.
fn wrong_in(
    keys: &[Key],
    table: &Table,
    schedules: &[ScheduleConf],
    feeds: &[FeedConf],
) -> Option<(Key, ConfWhy)>
    ensures { option_map (λ wrong. ((rule_of wrong.0).name, wrong.1)) result ≡ faults.wrong_in
        keys.now (table_view table.now) schedules.now feeds.now }
{
    for key in keys {
        if let Some(why) = key_fault(*key, table, schedules, feeds) {
            return Some((*key, why));
        }
    }
    None
}

/// The first fault of a table: a name that no key has, else the first of the keys with which
/// something is wrong.
#[tactic(auto, unfolding(hub_config_defs::specs::Faults::first_wrong))]
fn first_wrong<'a>(
    name: TableName,
    table: &'a Table,
    schedules: &[ScheduleConf],
    feeds: &[FeedConf],
) -> Option<(&'a str, ConfWhy)>
    ensures { option_map (λ wrong. (wrong.0.now, wrong.1)) result ≡ faults.first_wrong name
        (table_view table.entry.now) schedules.now feeds.now }
{
    let keys = keys(name);
    match unknown_in(keys, table) {
        Some(unknown) => Some((unknown, ConfWhy::Unknown)),
        None => match wrong_in(keys, table, schedules, feeds) {
            Some((key, why)) => Some((rule_for(key).name, why)),
            None => None,
        },
    }
}

/// Refuses a table for its first fault.
pub fn judge(
    alloc: Global,
    name: TableName,
    row: u32,
    table: &Table,
    schedules: &[ScheduleConf],
    feeds: &[FeedConf],
) -> Result<(), ConfFault>
    ensures { PassesUnless (faults.fault_in name row (table_view table.now) schedules.now feeds.now)
        result }
{
    match first_wrong(name, table, schedules, feeds) {
        Some((key, why)) => Err(ConfFault::Bad {
            table: name,
            row,
            key: Text::new(alloc, key)?,
            why,
        }),
        None => Ok(()),
    }
}
