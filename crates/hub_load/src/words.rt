//! The line of a timetable that is refused.
ghost use Rattle.std.specs.Prelude.{◌≡◌, ◌++◌, IfOk, codes};
ghost use Rattle.std.specs.String.{string_bytes};
ghost use Rattle.std.specs.Fmt.{decimal};
ghost use Rattle.sched_load_defs.specs.Files.{file_name};
ghost use Rattle.hub_main_defs.specs.Faults as told;
ghost use Rattle.hub_load.specs.Told.{load_line};

use gtfs_rows::{Column, RowFault};
use sched_load_defs::{File, LoadFault};
use std::alloc::{AllocError, Global};

/// The line of a timetable's fault: its schedule's name and what is wrong, with LF.
pub(crate) fn load_line(alloc: Global, name: &str, fault: LoadFault) -> Result<Vec<u8>, AllocError>
    ensures { IfOk result (λ line. line.items ≡ load_line name.now fault) }
{
    let words = load_words(alloc, fault)?;
    let line = format!(in alloc; "hub: load {name} {words}\n")?;
    Ok(line.into_bytes())
}

/// What is wrong with a timetable. Of want of memory and of a file that can't be read nothing is
/// said.
fn load_words(alloc: Global, fault: LoadFault) -> Result<String, AllocError>
    ensures { IfOk result (λ words. string_bytes words ≡ told.load_words fault) }
{
    match fault {
        LoadFault::BadZone => String::from_str(alloc, "zone"),
        LoadFault::MissingFile(file) => file_words(alloc, "missing", file),
        LoadFault::TooLong(file) => file_words(alloc, "long", file),
        LoadFault::Rows(file, fault) => row_words(alloc, file, fault),
        LoadFault::UnknownRef { file, row, column } => cell_words(
            alloc,
            "reference",
            file.name(),
            row,
            column.name(),
        ),
        LoadFault::Duplicate { file, row } => duplicate_words(alloc, file, row),
        LoadFault::TripTimes { row } => format!(in alloc; "times {row}"),
        LoadFault::FileFault | LoadFault::NoMemory => Ok(String::new(alloc)),
    }
}

/// What is wrong with the rows of a file.
fn row_words(alloc: Global, file: File, fault: RowFault) -> Result<String, AllocError>
    ensures { IfOk result (λ words. string_bytes words ≡ told.row_words file fault) }
{
    match fault {
        RowFault::MissingColumn(column) => column_words(alloc, file, column),
        RowFault::BadValue { row, column } => cell_words(
            alloc,
            "value",
            file.name(),
            row,
            column.name(),
        ),
        RowFault::NotText { row, column } => cell_words(
            alloc,
            "text",
            file.name(),
            row,
            column.name(),
        ),
        RowFault::TooMany => file_words(alloc, "many", file),
        RowFault::NoMemory => Ok(String::new(alloc)),
    }
}

fn file_words(alloc: Global, what: &str, file: File) -> Result<String, AllocError>
    ensures { IfOk result (λ words. string_bytes words ≡ what.now ++ codes " " ++ file_name file) }
{
    format!(in alloc; "{what} {}", file.name())
}

fn column_words(alloc: Global, file: File, column: Column) -> Result<String, AllocError>
    ensures { IfOk result (λ words. string_bytes words ≡ codes "column "
        ++ told.column_words file column) }
{
    format!(in alloc; "column {} {}", file.name(), column.name())
}

fn duplicate_words(alloc: Global, file: File, row: u32) -> Result<String, AllocError>
    ensures { IfOk result (λ words. string_bytes words ≡ codes "duplicate " ++ file_name file
        ++ codes " " ++ decimal row) }
{
    format!(in alloc; "duplicate {} {row}", file.name())
}

fn cell_words(
    alloc: Global,
    what: &str,
    file: &str,
    row: u32,
    column: &str,
) -> Result<String, AllocError>
    ensures { IfOk result (λ words. string_bytes words ≡ what.now ++ codes " "
        ++ (file.now ++ codes " " ++ decimal row ++ codes " " ++ column.now)) }
{
    format!(in alloc; "{what} {file} {row} {column}")
}
