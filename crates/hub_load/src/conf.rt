//! The configuration in a file.
ghost use Rattle.std.specs.Prelude.{◌≡◌, ◌++◌, IfOk, IfSome};
ghost use Rattle.hub_outside.specs.Files.{file_at};
ghost use Rattle.hub_config_defs.specs.Conf.{conf_of};
ghost use Rattle.hub_config_defs.specs.Lines.{line_of};
ghost use Rattle.text_defs.specs.Cleaned.{line_feed};
ghost use Rattle.hub_config_defs.specs.Right.{IsLegal};
ghost use Rattle.hub_main_defs.specs.Checks.{conf_in, conf_or_line};
ghost use Rattle.hub_load.specs.Stops.{StopsWith};
ghost use Rattle.hub_load.specs.Told.{HasCause, IsRefusedWith, IsConfRefusal, NeedsNoFile, IsAsTold};

use crate::fault::HubFault;
use hub_config::{fault_line, read_conf};
use hub_config_defs::{ConfFault, HubConf};
use hub_outside::{Buf, FileAnswer, Files};
use std::alloc::{AllocError, Global};

/// The most bytes of a configuration.
const LONGEST_CONF: u64 = 1_048_576;

/// The configuration in the file at the path, or the line that tells why there is none. It has 1 to
/// 8 schedules and up to 64 feeds, with distinct names and with all numbers in their ranges, and
/// each schedule has a window of days for which a timetable can be loaded.
pub fn conf_at<F: Files>(alloc: Global, files: &mut F, path: &str) -> Result<HubConf, HubFault>
    ensures told { IfSome (F.contents files.old)
        (λ fs. IsAsTold (λ conf. conf) (conf_in (file_at fs path.now)) result) }
    ensures legal { IfOk result (λ conf. IsLegal conf) }
    ensures cause { HasCause result (F.faults files.old) (F.faults files.new) }
    ensures same { F.contents files.new ≡ F.contents files.old }
    ensures stops { StopsWith result
        (IfSome (F.last_fault files.new) (λ place. place ≡ path.now)) }
{
    let mut bytes = Buf::new(alloc);
    match files.read_file(path, LONGEST_CONF, &mut bytes) {
        FileAnswer::Read => conf_in(alloc, bytes.as_slice()),
        FileAnswer::Absent => Err(refused(alloc, b"hub: config absent\n")),
        FileAnswer::TooLong(_) => Err(refused(alloc, b"hub: config long\n")),
        FileAnswer::Failed => Err(HubFault::FileFault),
        FileAnswer::NoMemory => Err(HubFault::NoMemory),
    }
}

/// The configuration of the bytes, or the line of its fault.
fn conf_in(alloc: Global, bytes: &[u8]) -> Result<HubConf, HubFault>
    ensures told { IsAsTold (λ conf. conf) (conf_or_line (conf_of bytes.now)) result }
    ensures legal { IfOk result (λ conf. IsLegal conf) }
    ensures files { NeedsNoFile result }
{
    match read_conf(alloc, bytes) {
        Ok(conf) => Ok(conf),
        Err(fault) => Err(conf_fault(alloc, &fault)),
    }
}

/// What a fault of a configuration comes to.
fn conf_fault(alloc: Global, fault: &ConfFault) -> HubFault
    ensures { IsConfRefusal fault.now result }
{
    match fault {
        ConfFault::NoMemory => HubFault::NoMemory,
        _ => match conf_line(alloc, fault) {
            Ok(line) => HubFault::Refused(line),
            Err(_) => HubFault::NoMemory,
        },
    }
}

/// The line of a fault, with LF.
fn conf_line(alloc: Global, fault: &ConfFault) -> Result<Vec<u8>, AllocError>
    ensures { IfOk result (λ line. line.items ≡ line_of fault.now ++ line_feed) }
{
    let mut line = fault_line(alloc, fault)?;
    line.push(b'\n')?;
    Ok(line)
}

/// A refusal with that line.
fn refused(alloc: Global, line: &[u8]) -> HubFault
    ensures { IsRefusedWith line.now result }
{
    match Vec::from_slice(alloc, line) {
        Ok(line) => HubFault::Refused(line),
        Err(_) => HubFault::NoMemory,
    }
}
