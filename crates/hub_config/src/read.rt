//! The configuration of a document.

ghost use Rattle.std.specs.Prelude.{◌≡◌, ℕ, ◌+◌, ◌<◌, ◌≤◌, ◌^◌, List, [], length, Result, IfOk, IfSome};
ghost use Rattle.std.specs.List.{position};
ghost use Rattle.std.specs.Str.{bytes_eq};
ghost use Rattle.toml.specs.Data.{Members};
ghost use Rattle.toml.specs.View.{items_view, table_view};
ghost use Rattle.hub_config_defs.specs.Conf as conf;
ghost use Rattle.answer_defs.specs.Defined.{AsDefined};
ghost use Rattle.hub_config.specs.Answer.{IsFaultOf, cause_of};
ghost use Rattle.hub_config_defs.specs.declared.conf.ScheduleConf.{ScheduleConf as Schedule};
ghost use Rattle.hub_config_defs.specs.declared.fault.ConfFault.{ConfFault as Fault};

use crate::NoMemory;
use crate::judge::judge;
use crate::value::{number_at, port_of, tables_at, text_at};
use hub_config_defs::{ConfFault, FeedConf, HubConf, Key, PortKind, ScheduleConf, TableName};
use rt_types::{Items, Text};
use std::alloc::Global;
use toml::de::Error;
use toml::{Table, Value};

/// What a table of an array of tables says.
trait Row: Drop {
    ghost row_of: { List Schedule → ℕ → List Self → Members → Result Self Fault };

    /// The row of a table behind those before it, or the first fault of the table.
    fn read(
        alloc: Global,
        table: &Table,
        schedules: &[ScheduleConf],
        row: u32,
        before: &[Self],
    ) -> Result<Self, ConfFault>
        requires { length schedules.now < 2 ^ 32 }
        ensures { AsDefined (λ x. x) cause_of
            (row_of schedules.now row before.now (table_view table.now)) result };
}

#[tactic(auto, unfolding(hub_config_defs::specs::Conf::schedule_of))]
fn schedule_of(alloc: Global, table: &Table) -> Result<ScheduleConf, NoMemory>
    ensures { IfOk result (λ schedule. schedule ≡ conf.schedule_of (table_view table.now)) }
{
    Ok(ScheduleConf {
        name: Text::new(alloc, text_at(table, Key::ScheduleName))?,
        folder: Text::new(alloc, text_at(table, Key::Folder))?,
        zone: Text::new(alloc, text_at(table, Key::Zone))?,
        first: number_at(table, Key::First),
        days: number_at(table, Key::Days),
        prefix: Text::new(alloc, text_at(table, Key::Prefix))?,
    })
}

impl Row for ScheduleConf {
    ghost use Rattle.hub_config_defs.specs.Conf.{schedule_row};

    ghost row_of = { λ schedules row before ms. schedule_row row before ms };

    fn read(
        alloc: Global,
        table: &Table,
        _schedules: &[ScheduleConf],
        row: u32,
        before: &[ScheduleConf],
    ) -> Result<ScheduleConf, ConfFault> {
        judge(alloc, TableName::Schedule, row, table, before, &[])?;
        Ok(schedule_of(alloc, table)?)
    }
}

fn position_of(name: &str, schedules: &[ScheduleConf]) -> Option<usize>
    ensures value { result ≡ position (λ s. bytes_eq s.name name.now) schedules.now }
    ensures within { IfSome result (λ index. index < length schedules.now) }
{
    schedules
        .iter()
        .position(|schedule| schedule.name.as_str() == name)
}

/// The index of the schedule of a name.
#[tactic(auto, unfolding(hub_config_defs::specs::Conf::index_of))]
fn index_of(name: &str, schedules: &[ScheduleConf]) -> u32
    requires { length schedules.now < 2 ^ 32 }
    ensures { result ≡ conf.index_of name.now schedules.now }
{
    match position_of(name, schedules) {
        Some(index) => index as u32,
        None => 0,
    }
}

#[tactic(auto, unfolding(hub_config_defs::specs::Conf::feed_of))]
fn feed_of(alloc: Global, table: &Table, schedules: &[ScheduleConf]) -> Result<FeedConf, NoMemory>
    requires { length schedules.now < 2 ^ 32 }
    ensures { IfOk result (λ feed. feed ≡ conf.feed_of schedules.now (table_view table.now)) }
{
    Ok(FeedConf {
        name: Text::new(alloc, text_at(table, Key::FeedName))?,
        schedule: index_of(text_at(table, Key::FeedSchedule), schedules),
        kind: port_of(text_at(table, Key::Kind)).unwrap_or(PortKind::Nothing),
        place: Text::new(alloc, text_at(table, Key::Place))?,
        max_age: u64::from(number_at(table, Key::MaxAge)),
        every: u64::from(number_at(table, Key::Every)),
        polls: u64::from(number_at(table, Key::Polls)),
        tries: number_at(table, Key::Tries),
    })
}

impl Row for FeedConf {
    ghost use Rattle.hub_config_defs.specs.Conf.{feed_row};

    ghost row_of = { feed_row };

    fn read(
        alloc: Global,
        table: &Table,
        schedules: &[ScheduleConf],
        row: u32,
        before: &[FeedConf],
    ) -> Result<FeedConf, ConfFault> {
        judge(alloc, TableName::Feed, row, table, schedules, before)?;
        Ok(feed_of(alloc, table, schedules)?)
    }
}

/// The rows of an array of tables, or the first fault among them.
fn read_rows<R: Row>(
    alloc: Global,
    values: &[Value],
    schedules: &[ScheduleConf],
) -> Result<Items<R>, ConfFault>
    requires few { length values.now ≤ 64 }
    requires few_schedules { length schedules.now < 2 ^ 32 }
    ensures rows { AsDefined (λ x. x) cause_of
        (conf.rows_from (R.row_of schedules.now) 1 [] (items_view values.now)) result }
    ensures few { IfOk result (λ rows. length rows ≤ length values.now) }
{
    let mut rows = Vec::new(alloc);
    let mut row = 1u32;
    for value in values {
        if let Some(table) = value.as_table() {
            let said = R::read(alloc, table, schedules, row, rows.as_slice())?;
            rows.push(said)?;
        }
        row += 1;
    }
    Ok(Items::new(rows))
}

#[tactic(auto, unfolding(hub_config_defs::specs::Conf::hub_of))]
fn hub_of(
    alloc: Global,
    table: &Table,
    schedules: Items<ScheduleConf>,
    feeds: Items<FeedConf>,
) -> Result<HubConf, NoMemory>
    ensures { IfOk result (λ hub. hub ≡ conf.hub_of (table_view table.now) schedules feeds) }
{
    Ok(HubConf {
        readers: number_at(table, Key::Readers),
        listen: Text::new(alloc, text_at(table, Key::Listen))?,
        connections: u64::from(number_at(table, Key::Connections)),
        schedules,
        feeds,
    })
}

/// The configuration of a document, or its first fault.
#[tactic(auto, unfolding(hub_config_defs::specs::Rules::rule_of))]
fn conf_in(alloc: Global, table: &Table) -> Result<HubConf, ConfFault>
    ensures { AsDefined (λ x. x) cause_of (conf.conf_in (table_view table.now)) result }
{
    judge(alloc, TableName::Top, 0, table, &[], &[])?;
    let schedules = read_rows::<ScheduleConf>(alloc, tables_at(table, Key::Schedules), &[])?;
    let feeds = read_rows::<FeedConf>(alloc, tables_at(table, Key::Feeds), schedules.as_slice())?;
    Ok(hub_of(alloc, table, schedules, feeds)?)
}

/// Reads a configuration, a document of TOML 1.1 in UTF-8: the configuration, or the first fault.
/// The document's own keys are judged first, then the schedules by row, and then the feeds. Of a
/// table the unknown names come first, in byte order, and then its keys in the order of their
/// table, each for all that may be wrong with it.
pub fn read_conf(alloc: Global, bytes: &[u8]) -> Result<HubConf, ConfFault>
    ensures { AsDefined (λ x. x) cause_of (conf.conf_of bytes.now) result }
{
    match toml::table_from_slice(alloc, bytes) {
        Ok(table) => conf_in(alloc, &table),
        Err(error) => Err(fault_of(&error)),
    }
}

/// Why bytes are no document: they aren't TOML, or memory ran out.
fn fault_of(error: &Error) -> ConfFault
    ensures { IsFaultOf error.now result }
{
    if error.is_memory() {
        ConfFault::NoMemory
    } else {
        ConfFault::Toml
    }
}
