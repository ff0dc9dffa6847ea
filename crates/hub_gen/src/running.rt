//! The hub on a sample.

ghost use Rattle.std.specs.Prelude.{◌≡◌, ◌≤◌, ◌<◌, length, fold, IfOk, OnOk};
ghost use Rattle.std.specs.Arc.{arc_value};
ghost use Rattle.std.specs.String.{string_bytes};
ghost use Rattle.hub_main_defs.specs.Checks.{timetable_or_line};
ghost use Rattle.hub_main_defs.specs.Samples.{sample_lines};
ghost use Rattle.hub_load.specs.Told.{IsAsTold, NeedsNoFile};
ghost use Rattle.sched_load_defs.specs.Loading.{timetable};
ghost use Rattle.hub_gen_defs.specs.Network.{sample_name};
ghost use Rattle.hub_gen_defs.specs.Run.{counts_line, history_after, history_with, line_after, sample_conf, sample_schedules};
ghost use Rattle.hub_gen.specs.Steps.{AreOfTwoFeeds, boards_text, offers_text, sample_schedule};

use crate::NoMemory;
use crate::boards::{board_rows, delays_of};
use crate::sample::{Offer, generate};
use board_core::{Oracle, Row};
use hub_config_defs::ScheduleConf;
use hub_core::Refusal;
use hub_load::{HubFault, load_plan};
use hub_outside::{MemoryFile, MemoryFiles};
use hub_state::ReplayHub;
use itoa::Buffer;
use rt_types::Text;
use sched_types::{NamedFeed, NamedPlan, Plan, Plans};
use std::alloc::Global;
use std::sync::Arc;

/// Makes the sample of a seed with 1 to 20,000 trips and 1 to 2,000 messages, and runs a hub on it:
/// loads its timetable, offers its messages in order, and asks for ten boards. The answer is the
/// line that is printed, with its LF, or the line that tells why the timetable is refused.
///
/// # Errors
///
/// `Refused` exactly where the timetable of the files is refused; `NoMemory` where memory ran out;
/// no other.
pub fn run_sample(alloc: Global, seed: u64, trips: u32, messages: u32) -> Result<Vec<u8>, HubFault>
    requires some_trips { 1 ≤ trips }
    requires few_trips { trips ≤ 20000 }
    requires some_messages { 1 ≤ messages }
    requires few_messages { messages ≤ 2000 }
    ensures told { IsAsTold (λ line. line.items) (sample_lines seed trips messages) result }
    ensures no_file { NeedsNoFile result }
{
    let sample = generate(alloc, seed, trips, messages)?;
    match plan_of(alloc, sample.files) {
        Ok(plan) => Ok(line_on(alloc, plan, &sample.offers, trips, messages)?),
        Err(fault) => Err(fault),
    }
}

/// The timetable of the files.
fn plan_of(alloc: Global, files: Vec<MemoryFile>) -> Result<Plan, HubFault>
    ensures told { IsAsTold (λ plan. plan)
        (timetable_or_line sample_name (timetable files.items sample_name sample_conf)) result }
    ensures no_file { NeedsNoFile result }
{
    let schedule = schedule(alloc)?;
    let mut files = MemoryFiles::new(files, Vec::new(alloc));
    match load_plan(alloc, &mut files, &schedule) {
        // Files in memory fail only where they are told to.
        Err(HubFault::FileFault) => Err(HubFault::NoMemory),
        answer => answer,
    }
}

/// How the timetable is loaded.
fn schedule(alloc: Global) -> Result<ScheduleConf, NoMemory>
    ensures { IfOk result (λ schedule. schedule ≡ sample_schedule) }
{
    Ok(ScheduleConf {
        name: Text::new(alloc, "gen")?,
        folder: Text::new(alloc, "gen")?,
        zone: Text::new(alloc, "UTC0")?,
        first: 20_250_101,
        days: 7,
        prefix: Text::new(alloc, "")?,
    })
}

/// What a hub of the timetable prints once the messages were offered to it.
fn line_on(
    alloc: Global,
    plan: Plan,
    offers: &[Offer],
    trips: u32,
    messages: u32,
) -> Result<Vec<u8>, NoMemory>
    requires { AreOfTwoFeeds offers.now }
    ensures { IfOk result (λ line. line.items
        ≡ line_after trips messages (sample_schedules plan) (history_after offers.now)) }
{
    let mut hub = ReplayHub::new(alloc, plans_of(alloc, plan)?)?;
    offer_all(&mut hub, offers)?;
    line_of(alloc, &mut hub, trips, messages)
}

/// The timetable with its two feeds.
fn plans_of(alloc: Global, plan: Plan) -> Result<Arc<Plans>, NoMemory>
    ensures { IfOk result (λ plans. arc_value plans ≡ sample_schedules plan) }
{
    let plan = NamedPlan {
        name: Text::new(alloc, "gen")?,
        prefix: Text::new(alloc, "")?,
        plan,
    };
    let plans = vec![in alloc; plan]?;
    let feeds = vec![in alloc; feed(alloc, "a")?, feed(alloc, "b")?]?;
    Ok(Arc::new(alloc, Plans::new(plans, feeds))?)
}

/// A feed of the timetable.
fn feed(alloc: Global, name: &str) -> Result<NamedFeed, NoMemory>
    ensures { IfOk result (λ feed. feed ≡ record { name = name.now; plan = 0; max_age = 0 }) }
{
    Ok(NamedFeed {
        name: Text::new(alloc, name)?,
        plan: 0,
        max_age: 0,
    })
}

/// Offers all messages, in order.
fn offer_all(hub: &mut ReplayHub, offers: &[Offer]) -> Result<(), NoMemory>
    requires two { length hub.old.shown.plans.feeds ≡ 2 }
    requires feeds { AreOfTwoFeeds offers.now }
    ensures history { OnOk result
        (hub.new.history ≡ fold history_with hub.old.history offers.now) }
    ensures plans { hub.new.shown.plans ≡ hub.old.shown.plans }
{
    for offer in offers {
        offer_one(hub, offer)?;
    }
    Ok(())
}

/// Offers one message, which may be refused.
fn offer_one(hub: &mut ReplayHub, offer: &Offer) -> Result<(), NoMemory>
    requires { offer.now.feed < length hub.old.shown.plans.feeds }
    ensures history { OnOk result (hub.new.history ≡ history_with hub.old.history offer.now) }
    ensures plans { hub.new.shown.plans ≡ hub.old.shown.plans }
{
    match hub.offer(offer.feed, &offer.bytes) {
        Ok(_) => Ok(()),
        Err(Refusal::NoMemory) => Err(NoMemory),
        Err(_) => Ok(()),
    }
}

/// What is printed of a hub: how many messages it accepted of those that were offered, and its
/// boards.
fn line_of(
    alloc: Global,
    hub: &mut ReplayHub,
    trips: u32,
    messages: u32,
) -> Result<Vec<u8>, NoMemory>
    requires { 0 < length hub.old.shown.plans.plans }
    ensures { IfOk result (λ line. line.items
        ≡ line_after trips messages hub.old.shown.plans hub.old.history) }
{
    let accepted = hub.look()?;
    let refused = u64::from(messages).saturating_sub(accepted);
    hub.sound();
    let all = board_rows(alloc, hub.view())?;
    counts_line(alloc, trips, messages, accepted, refused, &all)
}

/// The line of a sample, its messages and its rows.
fn counts_line(
    alloc: Global,
    trips: u32,
    messages: u32,
    accepted: u64,
    refused: u64,
    all: &[Row],
) -> Result<Vec<u8>, NoMemory>
    ensures { IfOk result (λ line. line.items
        ≡ counts_line trips messages accepted refused all.now) }
{
    let delays = delays_of(all)?;
    let offers = offers_text(alloc, trips, messages, accepted, refused)?;
    let mut buffer = Buffer::new();
    let line = boards_text(alloc, offers.as_str(), all.len(), buffer.format(delays))?;
    Ok(line.into_bytes())
}

fn offers_text(
    alloc: Global,
    trips: u32,
    messages: u32,
    accepted: u64,
    refused: u64,
) -> Result<String, NoMemory>
    ensures { IfOk result (λ text. string_bytes text
        ≡ offers_text trips messages accepted refused) }
{
    format!(in alloc; "trips {trips} messages {messages} accepted {accepted} refused {refused}")
}

fn boards_text(alloc: Global, offers: &str, rows: usize, delays: &str) -> Result<String, NoMemory>
    ensures { IfOk result (λ text. string_bytes text ≡ boards_text offers.now rows delays.now) }
{
    format!(in alloc; "{offers} rows {rows} delays {delays}\n")
}
