//! A port that tells what becomes of its feed.

ghost use Rattle.std.specs.Prelude.{◌≡◌, IfOk};
ghost use Rattle.hub_ports.specs.News.{port_in, untold_of, news_of, told_if, untold_after};

use crate::NoMemory;
use crate::pacing::seconds_of;
use crate::refused::Refusals;
use crate::telling::{news_line, refusal_line, rest_line, starved_line, tell};
use feed_port::{FeedPort, PortAnswer};
use hub_config_defs::{FeedConf, PortKind};
use hub_core::Refusal;
use hub_outside::{Buf, StdSink};
use std::alloc::Global;
use std::io::Write;
use std::{mem, rt};

/// What is told of a feed, a line each.
#[derive(Clone, Copy, Debug, PartialEq, Eq)]
pub(crate) enum FeedNews {
    /// A message of it was too long. It is gone.
    TooLong,
    /// No message of it is left.
    Ended,
    /// Its port failed, so no message of it is taken any more.
    Failed,
}

/// What was not told of a feed yet, and is to be.
#[derive(Clone, Copy, Debug, PartialEq, Eq)]
pub(crate) struct Untold {
    too_long: bool,
    end: bool,
}

/// Who tells of a feed.
#[derive(Drop)]
pub(crate) struct Teller<R, E> {
    system: R,
    alloc: Global,
    feed: String,
    untold: Untold,
    refusals: Refusals,
    errors: E,
}

/// The port of a feed, with the same answers. Its end, or that it failed, is told on `E`, and so is
/// its first message that is too long: whoever runs a server that goes on learns why its boards
/// follow the feed no more. That messages are refused is told once a minute at most, by the clock
/// of `R`.
#[derive(Drop)]
pub struct ToldPort<R, P, E> {
    port: P,
    teller: Teller<R, E>,
}

impl<R: rt::Clock + Copy, P: FeedPort, E: Write + Copy> ToldPort<R, P, E> {
    /// A port of that feed, which was not asked yet. Of a feed without messages nothing is told. Or
    /// want of memory.
    pub fn new(
        system: R,
        alloc: Global,
        port: P,
        feed: &FeedConf,
        errors: E,
    ) -> Result<ToldPort<R, P, E>, NoMemory>
        ensures { IfOk result (λ told. port_in told ≡ port) }
    {
        let teller = Teller {
            system,
            alloc,
            feed: String::from_str(alloc, feed.name.as_str())?,
            untold: untold_of(feed.kind),
            refusals: Refusals::new(matches!(feed.kind, PortKind::Poll)),
            errors,
        };
        Ok(ToldPort { port, teller })
    }
}

impl<R: rt::Clock + Copy, P: FeedPort, E: Write + Copy> FeedPort for ToldPort<R, P, E> {
    ghost ahead = { λ told. P.ahead (port_in told) };

    ghost faults = { λ told. P.faults (port_in told) };

    /// Asks the port, and tells what its answer is news of.
    fn next(&mut self, into: &mut Buf) -> PortAnswer {
        let answer = self.port.next(into);
        self.teller.hear_answer(answer);
        answer
    }

    /// Tells why a message is refused, where that is due, and hands it on.
    fn hear(&mut self, refusal: &Refusal) {
        self.port.hear(refusal);
        self.teller.hear_refusal(refusal);
    }
}

impl<R: rt::Clock + Copy, E: Write + Copy> Teller<R, E> {
    /// Tells what an answer is news of. Without memory for a line there is none.
    fn hear_answer(&mut self, answer: PortAnswer) {
        let Some(news) = news_of(&mut self.untold, answer) else {
            return;
        };
        if !matches!(news, FeedNews::TooLong) {
            self.tell_rest();
        }
        let line = news_line(self.alloc, self.feed.as_str(), news);
        self.tell(line);
    }

    /// Tells why a message is refused, where that is due.
    fn hear_refusal(&mut self, refusal: &Refusal) {
        let now = seconds_of(self.system.monotonic());
        let Some(count) = self.refusals.count(refusal, now) else {
            return;
        };
        let line = refusal_line(self.alloc, self.feed.as_str(), count, refusal);
        self.tell(line);
    }

    /// Tells how many messages were refused since that was told last.
    fn tell_rest(&mut self) {
        if let Some(count) = self.refusals.refused.rest() {
            let line = rest_line(self.alloc, self.feed.as_str(), count);
            self.tell(line);
        }
        if let Some(count) = self.refusals.starved.rest() {
            let line = starved_line(self.alloc, self.feed.as_str(), count);
            self.tell(line);
        }
    }

    /// Tells a line, if there was memory for it.
    fn tell(&mut self, line: Result<String, NoMemory>) {
        if let Ok(line) = line {
            tell(&mut StdSink::new(self.errors), line.as_bytes());
        }
    }
}

/// What is to be told of a feed of that kind, before its first ask.
fn untold_of(kind: PortKind) -> Untold
    ensures { result ≡ untold_of kind }
{
    let has_messages = !matches!(kind, PortKind::Nothing);
    Untold {
        too_long: has_messages,
        end: has_messages,
    }
}

/// What an answer tells that was not told yet. From here on it is.
fn news_of(untold: &mut Untold, answer: PortAnswer) -> Option<FeedNews>
    ensures news { result ≡ news_of untold.old answer }
    ensures after { untold.new ≡ untold_after untold.old answer }
{
    match answer {
        PortAnswer::Message => None,
        PortAnswer::TooLong(_) => told_if(mem::take(&mut untold.too_long), FeedNews::TooLong),
        PortAnswer::End => told_if(mem::take(&mut untold.end), FeedNews::Ended),
        PortAnswer::Failed => told_if(mem::take(&mut untold.end), FeedNews::Failed),
    }
}

fn told_if(untold: bool, news: FeedNews) -> Option<FeedNews>
    ensures { result ≡ told_if untold news }
{
    if untold { Some(news) } else { None }
}
