//! Messages in memory.

ghost use Rattle.std.specs.Prelude.{◌≡◌, ◌↔◌, ◌≤◌, [], Some, map, IsTrue};
ghost use Rattle.feed_defs.specs.History.{longest_message};
ghost use Rattle.hub_outside.specs.Buffer.{room_of};
ghost use Rattle.hub_outside.specs.Calls.{no_calls, is_failing};
ghost use Rattle.feed_port.specs.Memory.{messages_ahead, message_faults, after_ask, IsHandedIn};
ghost use Rattle.feed_port.specs.Ports.{Answers, HasPortCause};

use crate::port::{FeedPort, PortAnswer};
use feed_defs::LONGEST_MESSAGE;
use hub_outside::{Buf, Calls};
use std::marker::Model;

/// A port that hands in the messages of a list, with faults as it was told. A contract sees the
/// messages that are ahead, and its calls.
#[derive(Drop)]
pub struct MemoryPort {
    messages: Vec<Vec<u8>>,
    at: usize,
    calls: Calls,
}

impl Model for MemoryPort {
    ghost use Rattle.std.specs.Prelude.{◌≤◌, drop, map, vec_len};
    ghost use Rattle.feed_port.specs.Memory.{MessagesState};

    ghost Value = { MessagesState };

    ghost view = { λ port. record {
      ahead = drop port.at (map (λ message. message.items) port.messages.items);
      calls = port.calls;
    } };

    ghost invariant = { λ port. port.at ≤ vec_len port.messages };
}

impl MemoryPort {
    /// A port of these messages. The asks whose numbers, from 1 on, are in `failing` fail, and
    /// leave the messages. It takes no memory.
    pub fn new(messages: Vec<Vec<u8>>, failing: Vec<u64>) -> MemoryPort
        ensures { result ≡ record {
          ahead = map (λ message. message.items) messages.items;
          calls = no_calls failing.items;
        } }
    {
        MemoryPort {
            messages,
            at: 0,
            calls: Calls::new(failing),
        }
    }
}

impl FeedPort for MemoryPort {
    ghost ahead = { λ port. Some (messages_ahead port) };

    ghost faults = { message_faults };

    /// Hands in the next message. It fails exactly where its call is listed. A message that is too
    /// long is answered with its length.
    fn next(&mut self, into: &mut Buf) -> PortAnswer
        requires room { longest_message ≤ room_of into.old }
        ensures room { longest_message ≤ room_of into.new }
        ensures answer { Answers result (Some (messages_ahead self.old))
            (Some (messages_ahead self.new)) into.new.bytes }
        ensures cause { HasPortCause result (message_faults self.old) (message_faults self.new) }
        ensures fails { (result ≡ PortAnswer.Failed) ↔ IsTrue (is_failing self.old.calls) }
        ensures after { self.new ≡ after_ask self.old }
    {
        into.clear();
        if self.calls.begin() {
            return PortAnswer::Failed;
        }
        if self.at == self.messages.len() {
            return PortAnswer::End;
        }
        let message = &self.messages[self.at];
        self.at += 1;
        hand_in(message.as_slice(), into)
    }
}

/// Hands in a message, or tells that it is too long.
fn hand_in(message: &[u8], into: &mut Buf) -> PortAnswer
    requires empty { into.old.bytes ≡ [] }
    requires room { longest_message ≤ room_of into.old }
    ensures room { longest_message ≤ room_of into.new }
    ensures handed { IsHandedIn result message.now into.new.bytes }
{
    if message.len() > LONGEST_MESSAGE {
        return PortAnswer::TooLong(message.len() as u64);
    }
    let Ok(()) = into.push_all(message) else {
        unreachable!()
    };
    PortAnswer::Message
}
