//! What `serve` needs before a hub is opened.
ghost use Rattle.std.specs.Prelude.{◌≡◌, Some};
ghost use Rattle.hub_outside.specs.Outside.{file_store, stream};
ghost use Rattle.hub_main_defs.specs.Words.{serve_of};
ghost use Rattle.hub_main.specs.Serving.{IsSharing, PrepareOutcome};

use crate::boards::shared;
use crate::offline::{run_usage, write_fault};
use exit_status::ExitStatus;
use hub_config_defs::HubConf;
use hub_load::{Configured, load_configured};
use hub_outside::{Files, Sink};
use hub_words::serve_path;
use rt_types::Text;
use sched_types::Plans;
use std::alloc::Global;
use std::sync::Arc;

/// What a hub is opened and served with.
#[derive(Drop)]
pub struct ServeConf {
    /// The timetables and feeds of the configuration, in its order.
    pub plans: Arc<Plans>,
    /// The configuration.
    pub conf: HubConf,
}

/// What preparing to serve comes to.
#[derive(Drop)]
pub enum Prepared {
    /// Words, configuration and timetables are accepted, and nothing was written.
    Ready(ServeConf),
    /// The program's exit status, with which it ends: 2 where the words aren't `serve CONFIG`, 3
    /// where the configuration or a timetable is refused, 4 where a file failed, 5 where the output
    /// did, and 6 where memory ran out.
    Status(u8),
}

/// Reads the words, which are those behind the program's name, and then the configuration and its
/// timetables. What is wrong is written as one line, and only the first of it.
pub fn prepare_serve<F: Files, K: Sink>(
    alloc: Global,
    words: &[Text],
    files: &mut F,
    out: &mut K,
) -> Prepared
    ensures outcome { PrepareOutcome (serve_of words.now)
        (file_store (F.contents files.old) (F.faults files.old) (F.last_fault files.old))
        (file_store (F.contents files.new) (F.faults files.new) (F.last_fault files.new))
        (stream (K.written out.old) (K.faults out.old))
        (stream (K.written out.new) (K.faults out.new))
        result }
    ensures same { F.contents files.new ≡ F.contents files.old }
{
    match serve_path(words) {
        Some(path) => prepare_at(alloc, path, files, out),
        None => Prepared::Status(run_usage(out).code()),
    }
}

/// The same with the configuration at the path.
fn prepare_at<F: Files, K: Sink>(alloc: Global, path: &str, files: &mut F, out: &mut K) -> Prepared
    ensures outcome { PrepareOutcome (Some path.now)
        (file_store (F.contents files.old) (F.faults files.old) (F.last_fault files.old))
        (file_store (F.contents files.new) (F.faults files.new) (F.last_fault files.new))
        (stream (K.written out.old) (K.faults out.old))
        (stream (K.written out.new) (K.faults out.new))
        result }
    ensures same { F.contents files.new ≡ F.contents files.old }
{
    match load_configured(alloc, files, path) {
        Ok(configured) => share(alloc, configured),
        Err(fault) => Prepared::Status(write_fault(&fault, out).code()),
    }
}

/// What was loaded, with timetables to be shared.
fn share(alloc: Global, configured: Configured) -> Prepared
    ensures { IsSharing configured result }
{
    let Configured { conf, plans } = configured;
    match shared(alloc, plans) {
        Ok(plans) => Prepared::Ready(ServeConf { plans, conf }),
        Err(_) => Prepared::Status(ExitStatus::NoMemory.code()),
    }
}
