//! What messages say: entities that are drawn one after another.

ghost use Rattle.std.specs.Prelude.{◌≡◌, ◌+◌, ◌*◌, ◌<◌, [], ◌++◌, IfOk};
ghost use Rattle.std.specs.Fmt.{decimal};
ghost use Rattle.hub_gen_defs.specs.Draws.{drawn_at, state_after, state_behind};
ghost use Rattle.hub_gen_defs.specs.Messages.{delay_by, deleted, departs_late, entity_by, late, late_update, left_late, trip_on_first_day};

use crate::NoMemory;
use rt_types::{Bytes, Entity, Event, Shared, StopUpdate, StopUpdates, Text, TripRef, TripUpdate};
use std::alloc::Global;

/// The constants of the draws, those of Knuth's MMIX.
const MULTIPLIER: u64 = 6_364_136_223_846_793_005;

const INCREMENT: u64 = 1_442_695_040_888_963_407;

/// The entities of a sample, one after another.
#[derive(Drop)]
pub(crate) struct Draws {
    /// The seed of the draws.
    pub(crate) seed: u64,
    /// How many trips the timetable has, at least 1.
    pub(crate) trips: u32,
    /// How many entities were drawn.
    pub(crate) entities: u32,
    /// The state of the draws.
    state: u64,
    ghost some_trips: { 0 < trips },
    ghost in_step: { state ≡ state_after seed (2 * entities) },
}

impl Draws {
    ghost use Rattle.hub_gen_defs.specs.Messages.{entity_of};

    /// The draws of a seed, none of which was taken.
    pub(crate) fn new(seed: u64, trips: u32) -> Draws
        requires { 0 < trips }
        ensures seed { result.seed ≡ seed }
        ensures trips { result.trips ≡ trips }
        ensures entities { result.entities ≡ 0 }
    {
        Draws {
            seed,
            trips,
            entities: 0,
            state: seed,
        }
    }

    /// The next entity.
    pub(crate) fn next_entity(&mut self, alloc: Global) -> Result<Entity, NoMemory>
        requires { self.old.entities < 1_000_000 }
        ensures entity { IfOk result (λ entity. entity
            ≡ entity_of self.old.seed self.old.trips self.old.entities) }
        ensures seed { self.new.seed ≡ self.old.seed }
        ensures trips { self.new.trips ≡ self.old.trips }
        ensures entities { self.new.entities ≡ self.old.entities + 1 }
    {
        let first = state_behind(self.state);
        let second = state_behind(first);
        let trip = drawn_at(first) % self.trips;
        self.entities += 1;
        self.state = second;
        entity_by(alloc, trip, drawn_at(second))
    }
}

/// The state of the draws behind another one.
#[tactic(auto, unfolding(hub_gen_defs::specs::Draws::state_behind))]
fn state_behind(state: u64) -> u64
    ensures { result ≡ state_behind state }
{
    state.wrapping_mul(MULTIPLIER).wrapping_add(INCREMENT)
}

/// What is drawn at a state.
fn drawn_at(state: u64) -> u32
    ensures { result ≡ drawn_at state }
{
    (state >> 33) as u32
}

/// The entity of a trip, by what was drawn for it.
fn entity_by(alloc: Global, trip: u32, drawn: u32) -> Result<Entity, NoMemory>
    ensures { IfOk result (λ entity. entity ≡ entity_by trip drawn) }
{
    if drawn % 10 == 0 {
        deleted(alloc, trip)
    } else {
        late(alloc, trip, 1 + drawn / 16 % 20, delay_by(drawn))
    }
}

/// The seconds that a place is left late, from -300 to 900.
fn delay_by(drawn: u32) -> i32
    ensures { result ≡ delay_by drawn }
{
    (drawn / 512 % 1201) as i32 - 300
}

/// A letter and a number, as an id.
fn id_of(alloc: Global, letter: &str, number: u32) -> Result<Text, NoMemory>
    ensures { IfOk result (λ id. id ≡ letter.now ++ decimal number) }
{
    let id = format!(in alloc; "{letter}{number}")?;
    Text::new(alloc, id.as_str())
}

/// No bytes.
fn no_bytes(alloc: Global) -> Bytes
    ensures { result ≡ [] }
{
    Bytes::from_vec(Vec::new(alloc))
}

/// The entity of a trip that is taken away.
fn deleted(alloc: Global, trip: u32) -> Result<Entity, NoMemory>
    ensures { IfOk result (λ entity. entity ≡ deleted trip) }
{
    Ok(Entity {
        id: id_of(alloc, "e", trip)?,
        is_deleted: Some(true),
        trip_update: None,
        vehicle: None,
        alert: None,
        unknown: no_bytes(alloc),
    })
}

/// The entity of a trip that is late from the place of that stop_sequence on.
fn late(alloc: Global, trip: u32, sequence: u32, delay: i32) -> Result<Entity, NoMemory>
    ensures { IfOk result (λ entity. entity ≡ late trip sequence delay) }
{
    Ok(Entity {
        id: id_of(alloc, "e", trip)?,
        is_deleted: None,
        trip_update: Some(Shared::new(alloc, update(alloc, trip, sequence, delay)?)?),
        vehicle: None,
        alert: None,
        unknown: no_bytes(alloc),
    })
}

/// The update of that trip.
fn update(alloc: Global, trip: u32, sequence: u32, delay: i32) -> Result<TripUpdate, NoMemory>
    ensures { IfOk result (λ update. update ≡ late_update trip sequence delay) }
{
    Ok(TripUpdate {
        trip: trip_on_first_day(alloc, trip)?,
        stop_time_update: StopUpdates::new(vec![in alloc; left_late(alloc, sequence, delay)]?),
        vehicle: None,
        timestamp: None,
        delay: None,
        unknown: no_bytes(alloc),
    })
}

/// A trip on the first day of the timetable.
fn trip_on_first_day(alloc: Global, trip: u32) -> Result<TripRef, NoMemory>
    ensures { IfOk result (λ descriptor. descriptor ≡ trip_on_first_day trip) }
{
    Ok(TripRef {
        trip_id: Some(id_of(alloc, "T", trip)?),
        start_time: None,
        start_date: Some(Text::new(alloc, "20250101")?),
        relation: None,
        route_id: None,
        direction_id: None,
        unknown: no_bytes(alloc),
    })
}

/// A place that is left so many seconds late.
fn left_late(alloc: Global, sequence: u32, delay: i32) -> StopUpdate
    ensures { result ≡ left_late sequence delay }
{
    StopUpdate {
        stop_sequence: Some(sequence),
        arrival: None,
        departure: Some(departs_late(alloc, delay)),
        stop_id: None,
        relation: None,
        properties: None,
        unknown: no_bytes(alloc),
    }
}

fn departs_late(alloc: Global, delay: i32) -> Event
    ensures { result ≡ departs_late delay }
{
    Event {
        delay: Some(delay),
        time: None,
        uncertainty: None,
        unknown: no_bytes(alloc),
    }
}
