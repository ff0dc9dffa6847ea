//! What a port keeps beside its door, and one exchange on a link.

ghost use Rattle.std.specs.Prelude.{◌≡◌, ◌≤◌, ◌-◌, IfOk, true, is_some};
ghost use Rattle.std.specs.Option.{option_map};
ghost use Rattle.feed_defs.specs.History.{longest_message};
ghost use Rattle.hub_outside.specs.Buffer.{room_of};
ghost use Rattle.poll_port.specs.Polling.{new_polling, polls_of, has_polls, after_link, after_reply, faults_after, lost_after};
ghost use Rattle.poll_port.specs.Polls.{ends, Exchanges};
ghost use Rattle.poll_port.specs.Requests.{request_for};

use crate::NoMemory;
use crate::exchange::exchange;
use crate::heads::{HEAD_LIMIT, MOST_FIELDS};
use crate::messages::Reply;
use crate::request::request_for;
use httparse::spans::{EMPTY_HEADER_SPAN, HeaderSpan};
use hub_outside::{Buf, Sink, Source};
use std::alloc::Global;
use std::marker::Model;

/// What a port keeps beside its door. A contract sees the request of each poll, what is left of its
/// polls, its tries, its own faults, and whether an end of a link failed.
#[derive(Drop)]
pub(crate) struct Polling {
    request: String,
    head: Vec<u8>,
    headers: Vec<HeaderSpan>,
    polls: Option<u64>,
    tries: u32,
    faults: u64,
    // No call asks for it: it is kept for what contracts say of the messages ahead.
    lost: bool,
}

impl Model for Polling {
    ghost use Rattle.std.specs.Prelude.{◌≡◌, ◌≤◌, vec_len, string_bytes};
    ghost use Rattle.poll_port.specs.Polling.{PollingState};

    ghost Value = { PollingState };

    ghost view = { λ p. record {
      request = string_bytes p.request;
      polls = p.polls;
      tries = p.tries;
      faults = p.faults;
      lost = p.lost;
    } };

    ghost invariant = { λ p. (vec_len p.head ≡ 8192) × (vec_len p.headers ≡ 2731) × (1 ≤ p.tries) };
}

impl Polling {
    /// Before the first poll; or want of memory for the request and for a head.
    pub(crate) fn new(
        alloc: Global,
        host: &str,
        path: &str,
        polls: u64,
        tries: u32,
    ) -> Result<Polling, NoMemory>
        requires { 1 ≤ tries }
        ensures { IfOk result (λ polling. polling
            ≡ new_polling (request_for host.now path.now) polls tries) }
    {
        Ok(Polling {
            request: request_for(alloc, host, path)?,
            head: vec![in alloc; 0; HEAD_LIMIT]?,
            headers: vec![in alloc; EMPTY_HEADER_SPAN; MOST_FIELDS]?,
            polls: polls_of(polls),
            tries,
            faults: 0,
            lost: false,
        })
    }

    /// Whether a further link may be taken.
    pub(crate) fn has_polls(&self) -> bool
        ensures { result ≡ has_polls self.now.polls }
    {
        match self.polls {
            Some(left) => left > 0,
            None => true,
        }
    }

    /// How many polls of a call may fail, one after another.
    pub(crate) fn tries(&self) -> u32
        ensures tries { result ≡ self.now.tries }
        ensures some { 1 ≤ result }
    {
        self.tries
    }

    /// Writes the request to a link and reads its reply, and counts both.
    pub(crate) fn poll_link<I: Source, O: Sink>(
        &mut self,
        input: &mut I,
        output: &mut O,
        into: &mut Buf,
    ) -> Reply
        requires allowed { has_polls self.old.polls ≡ true }
        requires room { longest_message ≤ room_of into.old }
        ensures room { longest_message ≤ room_of into.new }
        ensures exchanged { Exchanges (ends I.left I.faults O.written O.faults) self.old.request
            (record {
              input = input.old;
              output = output.old;
              input_left = input.new;
              output_left = output.new;
            }) result into.new.bytes }
        ensures polling { self.new ≡ after_reply result (after_link self.old) }
    {
        let request = self.request.as_bytes();
        let reply = exchange(
            request,
            &mut self.head,
            &mut self.headers,
            input,
            output,
            into,
        );
        self.count_link();
        self.count_reply(reply);
        reply
    }

    /// Counts a link that was taken.
    fn count_link(&mut self)
        requires { has_polls self.old.polls ≡ true }
        ensures { self.new ≡ after_link self.old }
    {
        self.polls = one_less(self.polls);
    }

    /// Counts the reply of a link, where it is a fault.
    fn count_reply(&mut self, reply: Reply)
        ensures { self.new ≡ after_reply reply self.old }
    {
        self.faults = faults_after(reply, self.faults);
        self.lost = lost_after(reply, self.lost);
    }
}

/// A number of links of which 0 sets no end.
fn polls_of(polls: u64) -> Option<u64>
    ensures { result ≡ polls_of polls }
{
    if polls == 0 { None } else { Some(polls) }
}

/// What is left of the polls once a link was taken.
fn one_less(polls: Option<u64>) -> Option<u64>
    requires { has_polls polls ≡ true }
    ensures { result ≡ option_map (λ n. n - 1) polls }
{
    match polls {
        Some(left) => Some(left - 1),
        None => None,
    }
}

/// The count of faults after a reply.
fn faults_after(reply: Reply, faults: u64) -> u64
    ensures { result ≡ faults_after reply faults }
{
    match reply {
        Reply::Message | Reply::TooLong(_) => faults,
        Reply::Unfit(_) | Reply::Failed => faults.saturating_add(1),
    }
}

/// Whether an end of a link failed so far.
fn lost_after(reply: Reply, lost: bool) -> bool
    ensures { result ≡ lost_after reply lost }
{
    match reply {
        Reply::Message | Reply::TooLong(_) | Reply::Unfit(_) => lost,
        Reply::Failed => true,
    }
}
