//! A port that asks an address again and again.

ghost use Rattle.std.specs.Prelude.{◌≡◌, ◌≤◌, IfOk};
ghost use Rattle.feed_defs.specs.History.{longest_message};
ghost use Rattle.feed_port.specs.Ports.{Answers, GoesOnToTell, HasPortCause};
ghost use Rattle.hub_outside.specs.Buffer.{room_of};
ghost use Rattle.poll_port.specs.Polling.{new_polling, answer_to};
ghost use Rattle.poll_port.specs.Polls.{ends, port_state, CallAnswers, PollAnswers};
ghost use Rattle.poll_port.specs.Ports.{door_of, ear_of, polling_of, poll_ahead, poll_faults};
ghost use Rattle.poll_port.specs.Requests.{request_for};

use crate::NoMemory;
use crate::faults::{PollEar, hear_reply};
use crate::messages::Reply;
use crate::polling::Polling;
use feed_port::{FeedPort, PortAnswer};
use hub_outside::{Buf, Door, DoorAnswer};
use std::alloc::Global;

/// A port over the replies to a request that is made again and again, of each link of a door once.
/// An ear hears why polls fail.
#[derive(Drop)]
pub struct PollPort<D, H> {
    door: D,
    polling: Polling,
    ear: H,
}

impl<D: Door + Drop, H: PollEar + Drop> PollPort<D, H> {
    /// The port of a door, which asks for this path of this host: printable ASCII without blanks,
    /// the path from its `/` on. It takes up to `polls` links, of which 0 sets no end, and a call
    /// fails once `tries` polls failed, one after another; `ear` hears of each that does. It takes
    /// 96 kB, or answers want of memory.
    pub fn new(
        alloc: Global,
        door: D,
        host: &str,
        path: &str,
        polls: u64,
        tries: u32,
        ear: H,
    ) -> Result<PollPort<D, H>, NoMemory>
        requires tries { 1 ≤ tries }
        ensures door { IfOk result (λ port. door_of port ≡ door) }
        ensures polling { IfOk result (λ port. polling_of port
            ≡ new_polling (request_for host.now path.now) polls tries) }
        ensures ear { IfOk result (λ port. ear_of port ≡ ear) }
    {
        Ok(PollPort {
            door,
            polling: Polling::new(alloc, host, path, polls, tries)?,
            ear,
        })
    }

    /// Who hears of the polls that fail.
    pub fn ear(&self) -> &H
        ensures { result.now ≡ ear_of self.now }
    {
        &self.ear
    }

    /// One poll: a link of the door, the request and its reply.
    fn poll(&mut self, into: &mut Buf) -> PortAnswer
        requires room { longest_message ≤ room_of into.old }
        ensures room { longest_message ≤ room_of into.new }
        ensures polls { PollAnswers result (ends D.In.left D.In.faults D.Out.written D.Out.faults)
            (port_state (D.links (door_of self.old)) (D.faults (door_of self.old))
            (polling_of self.old) (H.heard (ear_of self.old)))
            (port_state (D.links (door_of self.new)) (D.faults (door_of self.new))
            (polling_of self.new) (H.heard (ear_of self.new))) into.new.bytes }
    {
        if !self.polling.has_polls() {
            return PortAnswer::End;
        }
        match self.door.next() {
            DoorAnswer::Link(mut input, mut output) => {
                let reply = self.polling.poll_link(&mut input, &mut output, into);
                self.door.done(input, output);
                hear_reply(&mut self.ear, reply);
                answer_to(reply)
            }
            DoorAnswer::End => PortAnswer::End,
            DoorAnswer::Failed => PortAnswer::Failed,
        }
    }
}

impl<D: Door + Send + Drop, H: PollEar + Send + Drop> FeedPort for PollPort<D, H> {
    ghost ahead = { λ port. poll_ahead (ends D.In.left D.In.faults D.Out.written D.Out.faults)
        (port_state (D.links (door_of port)) (D.faults (door_of port)) (polling_of port)
        (H.heard (ear_of port))) };

    ghost faults = { λ port. poll_faults (port_state (D.links (door_of port))
        (D.faults (door_of port)) (polling_of port) (H.heard (ear_of port))) };

    /// Polls until a good reply comes, the polls are over, or as many of them failed, one after
    /// another, as there are tries.
    fn next(&mut self, into: &mut Buf) -> PortAnswer
        requires room { longest_message ≤ room_of into.old }
        ensures room { longest_message ≤ room_of into.new }
        ensures answer { Answers result
            (poll_ahead (ends D.In.left D.In.faults D.Out.written D.Out.faults)
            (port_state (D.links (door_of self.old)) (D.faults (door_of self.old))
            (polling_of self.old) (H.heard (ear_of self.old))))
            (poll_ahead (ends D.In.left D.In.faults D.Out.written D.Out.faults)
            (port_state (D.links (door_of self.new)) (D.faults (door_of self.new))
            (polling_of self.new) (H.heard (ear_of self.new)))) into.new.bytes }
        ensures told { GoesOnToTell
            (poll_ahead (ends D.In.left D.In.faults D.Out.written D.Out.faults)
            (port_state (D.links (door_of self.old)) (D.faults (door_of self.old))
            (polling_of self.old) (H.heard (ear_of self.old))))
            (poll_ahead (ends D.In.left D.In.faults D.Out.written D.Out.faults)
            (port_state (D.links (door_of self.new)) (D.faults (door_of self.new))
            (polling_of self.new) (H.heard (ear_of self.new))))
            (poll_faults (port_state (D.links (door_of self.old)) (D.faults (door_of self.old))
            (polling_of self.old) (H.heard (ear_of self.old))))
            (poll_faults (port_state (D.links (door_of self.new)) (D.faults (door_of self.new))
            (polling_of self.new) (H.heard (ear_of self.new)))) }
        ensures cause { HasPortCause result
            (poll_faults (port_state (D.links (door_of self.old)) (D.faults (door_of self.old))
            (polling_of self.old) (H.heard (ear_of self.old))))
            (poll_faults (port_state (D.links (door_of self.new)) (D.faults (door_of self.new))
            (polling_of self.new) (H.heard (ear_of self.new)))) }
        ensures polls { CallAnswers result (ends D.In.left D.In.faults D.Out.written D.Out.faults)
            (port_state (D.links (door_of self.old)) (D.faults (door_of self.old))
            (polling_of self.old) (H.heard (ear_of self.old)))
            (port_state (D.links (door_of self.new)) (D.faults (door_of self.new))
            (polling_of self.new) (H.heard (ear_of self.new))) into.new.bytes }
    {
        let tries = self.polling.tries();
        let mut failed = 0;
        'polls: while failed < tries {
            match self.poll(into) {
                PortAnswer::Failed => failed += 1,
                answer => return answer,
            }
        }
        PortAnswer::Failed
    }
}

/// What a poll with this reply answers.
fn answer_to(reply: Reply) -> PortAnswer
    ensures { result ≡ answer_to reply }
{
    match reply {
        Reply::Message => PortAnswer::Message,
        Reply::TooLong(size) => PortAnswer::TooLong(size),
        Reply::Unfit(_) | Reply::Failed => PortAnswer::Failed,
    }
}
