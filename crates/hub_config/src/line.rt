//! The line that a command prints for a fault.

ghost use Rattle.std.specs.Prelude.{◌≡◌, ◌++◌, codes, IfOk, string_bytes};
ghost use Rattle.std.specs.Fmt.{decimal};
ghost use Rattle.hub_config_defs.specs.Lines as lines;

use crate::NoMemory;
use hub_config_defs::{ConfFault, ConfWhy, TableName};
use std::alloc::Global;
use texts::push_cleaned;

/// The table's word in a printed fault.
fn table_word(table: TableName) -> &'static str
    ensures { result.now ≡ lines.table_word table }
{
    match table {
        TableName::Top => "top",
        TableName::Schedule => "schedule",
        TableName::Feed => "feed",
    }
}

/// The word in a printed fault for what is wrong.
fn why_word(why: ConfWhy) -> &'static str
    ensures { result.now ≡ lines.why_word why }
{
    match why {
        ConfWhy::Unknown => "unknown",
        ConfWhy::Missing => "missing",
        ConfWhy::Bad => "bad",
        ConfWhy::Twice => "twice",
        ConfWhy::NoName => "noname",
    }
}

/// The front of a line: where the fault is.
fn place(alloc: Global, table: TableName, row: u32) -> Result<String, NoMemory>
    ensures { IfOk result (λ text. string_bytes text ≡ codes "hub: config "
        ++ (lines.table_word table ++ (codes " " ++ (decimal row ++ codes " ")))) }
{
    format!(in alloc; "hub: config {} {} ", table_word(table), row)
}

/// The line that a command prints for a fault, without the LF at its end: `hub: config toml`, or
/// `hub: config <table> <row> <key> <why>` with a space for each control character of ASCII in the
/// key. The line for want of memory is empty: it is no fault of the configuration, and nothing is
/// printed for it.
#[tactic(auto, unfolding(hub_config_defs::specs::Lines::line_of))]
pub fn fault_line(alloc: Global, fault: &ConfFault) -> Result<Vec<u8>, NoMemory>
    ensures { IfOk result (λ line. line.items ≡ lines.line_of fault.now) }
{
    match fault {
        ConfFault::Toml => Vec::from_slice(alloc, b"hub: config toml"),
        ConfFault::Bad {
            table,
            row,
            key,
            why,
        } => {
            let place = place(alloc, *table, *row)?;
            let mut line = Vec::from_slice(alloc, place.as_bytes())?;
            push_cleaned(key.as_str().as_bytes(), &mut line)?;
            line.extend_from_slice(b" ")?;
            line.extend_from_slice(why_word(*why).as_bytes())?;
            Ok(line)
        }
        ConfFault::NoMemory => Ok(Vec::new(alloc)),
    }
}
