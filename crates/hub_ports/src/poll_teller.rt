//! Who tells why polls fail.

ghost use Rattle.std.specs.Prelude.{None};

use crate::NoMemory;
use crate::failing::poll_news;
use crate::pacing::{Pace, seconds_of};
use crate::telling::tell;
use hub_outside::StdSink;
use poll_port::{PollEar, PollFault};
use std::alloc::Global;
use std::io::Write;
use std::rt;

/// Tells on `E` why the polls of a feed fail, the first at once and from there on once a minute at
/// most, by the clock of `R`.
#[derive(Drop)]
pub struct PollTeller<R, E> {
    system: R,
    alloc: Global,
    feed: String,
    pace: Pace,
    errors: E,
}

impl<R: Copy, E: Copy> PollTeller<R, E> {
    /// One of a feed that was not polled yet; or want of memory.
    pub fn new(
        system: R,
        alloc: Global,
        feed: &str,
        errors: E,
    ) -> Result<PollTeller<R, E>, NoMemory> {
        Ok(PollTeller {
            system,
            alloc,
            feed: String::from_str(alloc, feed)?,
            pace: Pace::new(),
            errors,
        })
    }
}

impl<R: rt::Clock, E: Write + Copy> PollEar for PollTeller<R, E> {
    ghost heard = { λ _. None };

    /// Tells why a poll failed, where that is due. Without memory for the line there is none.
    fn hear(&mut self, fault: PollFault) {
        let now = seconds_of(self.system.monotonic());
        let feed = self.feed.as_str();
        if let Ok(Some(line)) = poll_news(self.alloc, feed, &mut self.pace, now, fault) {
            tell(&mut StdSink::new(self.errors), line.as_bytes());
        }
    }
}
