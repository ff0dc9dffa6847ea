//! The messages of a sample, as they are offered.

ghost use Rattle.std.specs.Prelude.{◌≡◌, ◌+◌, ◌*◌, ◌<◌, ◌≤◌, IfOk, OnOk};
ghost use Rattle.hub_gen_defs.specs.Messages.{entities_from, header_of, incrementality_of, message_of, offer_of, offers_of};

use crate::NoMemory;
use crate::entities::Draws;
use crate::sample::Offer;
use feed_write::write_message;
use rt_types::{Bytes, Entities, Entity, FeedMessage, Header, Incrementality, Text};
use std::alloc::Global;

/// How many entities a message has.
const ENTITIES: u32 = 20;

/// The first message is made one second after this moment, the midnight at which the window begins.
const MIDNIGHT: u64 = 1_735_689_600;

/// The offers of so many messages, in order.
pub(crate) fn offers_of(
    alloc: Global,
    seed: u64,
    trips: u32,
    messages: u32,
) -> Result<Vec<Offer>, NoMemory>
    requires trips { 0 < trips }
    requires messages { messages ≤ 2000 }
    ensures { IfOk result (λ offers. offers.items ≡ offers_of seed trips messages) }
{
    let mut draws = Draws::new(seed, trips);
    let mut offers = Vec::with_capacity(alloc, messages as usize)?;
    for before in 0..messages {
        let offer = next_offer(alloc, &mut draws, before + 1)?;
        offers.push(offer)?;
    }
    Ok(offers)
}

/// The offer of the message of that number, from 1 on, whose entities are drawn next.
fn next_offer(alloc: Global, draws: &mut Draws, message: u32) -> Result<Offer, NoMemory>
    requires some { 0 < message }
    requires few { message ≤ 2000 }
    requires drawn { draws.old.entities + 20 ≡ 20 * message }
    ensures offer { IfOk result (λ offer. offer ≡ offer_of draws.old.seed draws.old.trips message) }
    ensures seed { draws.new.seed ≡ draws.old.seed }
    ensures trips { draws.new.trips ≡ draws.old.trips }
    ensures entities { OnOk result (draws.new.entities ≡ 20 * message) }
{
    let sent = next_message(alloc, draws, message)?;
    let mut bytes = Vec::new(alloc);
    write_message(&sent, &mut bytes)?;
    Ok(Offer {
        feed: (message + 1) % 2,
        bytes,
    })
}

/// The message of that number.
fn next_message(alloc: Global, draws: &mut Draws, message: u32) -> Result<FeedMessage, NoMemory>
    requires some { 0 < message }
    requires few { message ≤ 2000 }
    requires drawn { draws.old.entities + 20 ≡ 20 * message }
    ensures message { IfOk result (λ sent. sent
        ≡ message_of draws.old.seed draws.old.trips message) }
    ensures seed { draws.new.seed ≡ draws.old.seed }
    ensures trips { draws.new.trips ≡ draws.old.trips }
    ensures entities { OnOk result (draws.new.entities ≡ 20 * message) }
{
    let header = header_of(alloc, message)?;
    let entities = next_entities(alloc, draws)?;
    Ok(FeedMessage {
        header,
        entity: Entities::new(entities),
        unknown: Bytes::from_vec(Vec::new(alloc)),
    })
}

/// The entities of a message, those that are drawn next.
fn next_entities(alloc: Global, draws: &mut Draws) -> Result<Vec<Entity>, NoMemory>
    requires { draws.old.entities < 100_000 }
    ensures entities { IfOk result (λ entities. entities.items
        ≡ entities_from draws.old.seed draws.old.trips draws.old.entities 20) }
    ensures seed { draws.new.seed ≡ draws.old.seed }
    ensures trips { draws.new.trips ≡ draws.old.trips }
    ensures drawn { OnOk result (draws.new.entities ≡ draws.old.entities + 20) }
{
    let mut entities = Vec::with_capacity(alloc, ENTITIES as usize)?;
    for _ in 0..ENTITIES {
        let entity = draws.next_entity(alloc)?;
        entities.push(entity)?;
    }
    Ok(entities)
}

/// The header of the message of that number.
fn header_of(alloc: Global, message: u32) -> Result<Header, NoMemory>
    ensures { IfOk result (λ header. header ≡ header_of message) }
{
    Ok(Header {
        version: Text::new(alloc, "2.0")?,
        incrementality: Some(incrementality_of(message)),
        timestamp: Some(MIDNIGHT + u64::from(message)),
        unknown: Bytes::from_vec(Vec::new(alloc)),
    })
}

/// Whether it is a whole data set: of fifty messages the first of each feed is.
fn incrementality_of(message: u32) -> Incrementality
    ensures { result ≡ incrementality_of message }
{
    if message % 50 == 1 || message % 50 == 2 {
        Incrementality::FullDataset
    } else {
        Incrementality::Differential
    }
}
