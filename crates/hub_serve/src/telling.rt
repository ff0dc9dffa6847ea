//! The lines and the status of a run.

ghost use Rattle.std.specs.Prelude.{◌≡◌, length, map, not, ◌||◌, if◌then◌else◌};
ghost use Rattle.std.specs.List.{list_any};
ghost use Rattle.exit_status.specs.declared.status.ExitStatus.TheVariants as exit;
ghost use Rattle.serve_lines.specs.declared.pieces.Writing.TheVariants.{Whole};
ghost use Rattle.serve_lines.specs.Wrote.{Puts, HasCause};
ghost use Rattle.hub_serve.specs.Runs as run;
ghost use Rattle.hub_serve.specs.Runs.{feed_lines, text_of};
ghost use Rattle.hub_serve.specs.Steps.{lasts_of};

use crate::closing::Closed;
use crate::readers::Post;
use exit_status::ExitStatus;
use http_door::DoorEnd;
use hub_outside::Sink;
use hub_shared::{FeedSeat, PortEnd, PortReport};
use sched_types::{NamedFeed, Plans};
use serve_lines::{FeedNumbers, ReaderNumbers, Writing, write_feed, write_readers};

/// Writes a line for each feed of a hub that is closed, and one for the readers. It takes no
/// memory.
pub(crate) fn write_lines<K: Sink, C>(
    out: &mut K,
    _closed: &Closed,
    plans: &Plans,
    seats: &[FeedSeat],
    reports: &[PortReport],
    posts: &[Post<C>],
) -> Writing
    requires seats { length seats.now ≡ length plans.now.feeds }
    requires reports { length reports.now ≡ length plans.now.feeds }
    ensures wrote { Puts Whole result (K.written out.old) (K.written out.new)
        (text_of plans.now.feeds reports.now (lasts_of seats.now)
        (map (λ post. post.report) posts.now)) }
    ensures cause { HasCause Whole result (K.faults out.old) (K.faults out.new) }
{
    let mut writing = Writing::Whole;
    write_feeds(out, &mut writing, plans.feeds(), seats, reports);
    write_readers(out, &mut writing, sum_of(posts));
    writing
}

/// The line of each feed.
fn write_feeds<K: Sink>(
    out: &mut K,
    writing: &mut Writing,
    feeds: &[NamedFeed],
    seats: &[FeedSeat],
    reports: &[PortReport],
)
    requires seats { length seats.now ≡ length feeds.now }
    requires reports { length reports.now ≡ length feeds.now }
    ensures wrote { Puts writing.old writing.new (K.written out.old) (K.written out.new)
        (feed_lines feeds.now reports.now (lasts_of seats.now)) }
    ensures cause { HasCause writing.old writing.new (K.faults out.old) (K.faults out.new) }
{
    for (i, feed) in feeds.iter().enumerate() {
        let numbers = numbers_of(&seats[i], reports[i]);
        write_feed(out, writing, feed.name.as_str(), numbers);
    }
}

/// What is told of a feed.
fn numbers_of(seat: &FeedSeat, report: PortReport) -> FeedNumbers
    ensures { result ≡ run.numbers_of report seat.now.last }
{
    FeedNumbers {
        accepted: report.accepted,
        refused: report.refused,
        starved: report.starved,
        too_long: report.too_long,
        last: seat.last(),
    }
}

/// What all readers did.
fn sum_of<C>(posts: &[Post<C>]) -> ReaderNumbers
    ensures { result ≡ run.sum_of (map (λ post. post.report) posts.now) }
{
    let mut sum = ReaderNumbers {
        readers: posts.len() as u64,
        connections: 0,
        responses: 0,
        starved: 0,
    };
    for post in posts {
        sum.connections = sum.connections.saturating_add(post.report.connections);
        sum.responses = sum.responses.saturating_add(post.report.responses);
        sum.starved = sum.starved.saturating_add(post.report.starved);
    }
    sum
}

/// How a run ended: `OutputFault` where the output failed, else `NoMemory` where memory was wanting
/// to close the hub or for an ingester's buffer, else `Failed` where a port or a door failed or a
/// message was too long, else `Done`.
pub(crate) fn status_of<C>(
    writing: Writing,
    closed: &Closed,
    reports: &[PortReport],
    posts: &[Post<C>],
) -> ExitStatus
    ensures { result ≡ run.status_by writing closed.now reports.now
        (map (λ post. post.report) posts.now) }
{
    match writing {
        Writing::Cut => ExitStatus::OutputFault,
        Writing::Whole => status_whole(
            wants_memory(closed.has_ending(), reports),
            went_ill(reports, posts),
        ),
    }
}

/// Whether the hub was not closed, or an ingester had no memory for its buffer.
fn wants_memory(closed: bool, reports: &[PortReport]) -> bool
    ensures { result ≡ (not closed || list_any (λ report. run.is_starved report.end) reports.now) }
{
    !closed || one_starved(reports)
}

/// Whether a port went ill, or a door failed.
fn went_ill<C>(reports: &[PortReport], posts: &[Post<C>]) -> bool
    ensures { result ≡ (list_any run.is_ill reports.now
        || list_any (λ door. run.has_failed door.end) (map (λ post. post.report) posts.now)) }
{
    one_ill(reports) || one_failed(posts)
}

/// The status where all was written.
fn status_whole(wants: bool, ill: bool) -> ExitStatus
    ensures { result ≡ (if wants then exit.NoMemory else if ill then exit.Failed else exit.Done) }
{
    if wants {
        ExitStatus::NoMemory
    } else if ill {
        ExitStatus::Failed
    } else {
        ExitStatus::Done
    }
}

/// Whether an ingester had no memory for its buffer.
fn one_starved(reports: &[PortReport]) -> bool
    ensures { result ≡ list_any (λ report. run.is_starved report.end) reports.now }
{
    reports.iter().any(|report| is_starved(report.end))
}

/// Whether a port failed, or had a message that was too long.
fn one_ill(reports: &[PortReport]) -> bool
    ensures { result ≡ list_any run.is_ill reports.now }
{
    reports.iter().any(is_ill)
}

/// Whether a door failed.
fn one_failed<C>(posts: &[Post<C>]) -> bool
    ensures { result ≡ list_any (λ post. run.has_failed post.report.end) posts.now }
{
    posts.iter().any(|post| has_failed(post.report.end))
}

/// Whether an ingester that ended so had no memory.
fn is_starved(end: PortEnd) -> bool
    ensures { result ≡ run.is_starved end }
{
    match end {
        PortEnd::NoMemory => true,
        PortEnd::Ended | PortEnd::PortFault | PortEnd::Spent => false,
    }
}

/// Whether a port that ended so failed.
fn is_fault(end: PortEnd) -> bool
    ensures { result ≡ run.is_fault end }
{
    match end {
        PortEnd::PortFault => true,
        PortEnd::Ended | PortEnd::Spent | PortEnd::NoMemory => false,
    }
}

/// Whether the port failed, or had a message that was too long.
fn is_ill(report: &PortReport) -> bool
    ensures { result ≡ run.is_ill report.now }
{
    is_fault(report.end) || report.too_long > 0
}

/// Whether a door that ended so failed.
fn has_failed(end: DoorEnd) -> bool
    ensures { result ≡ run.has_failed end }
{
    match end {
        DoorEnd::Failed => true,
        DoorEnd::Ended => false,
    }
}
