//! The number of a row by its id.
ghost use Rattle.std.specs.Prelude.{◌≡◌, ℕ, ◌^◌, ◌<◌, length, List, IfSome};
ghost use Rattle.sched_types.specs.Timetable.{RisesById, number_of};

use crate::rows::{PlanPattern, Route, Stop, Trip};
use texts::ShortText as PlanName;

/// A row that has an id.
pub(crate) trait Row {
    ghost id_of: { Self → List ℕ };

    /// Its id.
    fn id(&self) -> &PlanName
        ensures { result.now ≡ id_of self.now };
}

impl Row for PlanName {
    ghost id_of = { λ id. id };

    fn id(&self) -> &PlanName {
        self
    }
}

impl Row for Stop {
    ghost id_of = { λ stop. stop.id };

    fn id(&self) -> &PlanName {
        &self.id
    }
}

impl Row for Route {
    ghost id_of = { λ route. route.id };

    fn id(&self) -> &PlanName {
        &self.id
    }
}

impl Row for Trip {
    ghost id_of = { λ trip. trip.id };

    fn id(&self) -> &PlanName {
        &self.id
    }
}

impl Row for PlanPattern {
    ghost id_of = { λ pattern. pattern.id };

    fn id(&self) -> &PlanName {
        &self.id
    }
}

/// The number of the row with that id.
pub(crate) fn number_by_id<T: Row>(rows: &[T], id: &str) -> Option<u32>
    requires few { length rows.now < 2 ^ 32 }
    requires rises { RisesById T.id_of rows.now }
    ensures value { result ≡ number_of T.id_of rows.now id.now }
    ensures within { IfSome result (λ number. number < length rows.now) }
{
    match rows.binary_search_by(|row| row.id().order(id)) {
        Ok(number) => Some(number as u32),
        Err(_) => None,
    }
}
