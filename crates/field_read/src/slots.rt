//! What occurs under each number of a message's fields.

ghost use Rattle.std.specs.Prelude.{◌≡◌, List, [], ◌∷◌, ◌++◌};
ghost use Rattle.pb_wire_defs.specs.Field.{Field};
ghost use Rattle.pb_wire.specs.Parts.{part_seen, payload_seen};
ghost use Rattle.field_read.specs.Occurring.{AreNoted, Tells, payloads_under};

use pb_wire::{Part, PartPayload};

/// Numbers below this have a slot: the fields that this profile knows have numbers up to 11.
const SLOTS: usize = 12;

/// How often there is a field of a number, with what it says.
#[derive(Clone, Copy)]
pub enum Occurs<T> {
    /// There is none.
    Never,
    /// There is just this.
    Once(T),
    /// There may be none, one or more: they have to be gone over.
    Several,
}

/// How many fields of one number there are, and what the last of them carries.
#[derive(Clone, Copy)]
struct Slot<'a> {
    count: u32,
    last: PartPayload<'a>,
}

/// A slot for each number, which is filled while fields are read: each field is looked at once, in
/// whatever order they come.
#[derive(Drop)]
pub struct Slots<'a> {
    slots: [Slot<'a>; SLOTS],
}

impl<'a> Slots<'a> {
    /// The slots of no field.
    pub fn new() -> Slots<'a>
        ensures { AreNoted result [] }
    {
        let empty = Slot {
            count: 0,
            last: PartPayload::Group,
        };
        Slots {
            slots: [empty; SLOTS],
        }
    }

    /// Notes one field more.
    #[inline(always)]
    pub fn note(&mut self, part: &Part<'a>)
        ensures { (fields : List Field) → AreNoted self.old fields
            → AreNoted self.new (fields ++ part_seen part.now ∷ []) }
    {
        let number = part.number as usize;
        if number >= SLOTS {
            return;
        }
        let count = self.slots[number].count.saturating_add(1);
        self.slots[number] = Slot {
            count,
            last: part.payload,
        };
    }

    /// What the fields of this number carry.
    #[inline(always)]
    pub(crate) fn payload(&self, number: u32) -> Occurs<PartPayload<'a>>
        ensures { (fields : List Field) → AreNoted self.now fields
            → Tells payload_seen result (payloads_under number fields) }
    {
        let Some(slot) = self.slots.get(number as usize) else {
            return Occurs::Several;
        };
        match slot.count {
            0 => Occurs::Never,
            1 => Occurs::Once(slot.last),
            _ => Occurs::Several,
        }
    }

    /// How many fields of this number were noted: a hint for how much room they take.
    pub(crate) fn count(&self, number: u32) -> usize {
        match self.slots.get(number as usize) {
            Some(slot) => slot.count as usize,
            None => 0,
        }
    }
}
