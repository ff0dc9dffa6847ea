//! The numbers of the enums of GTFS Realtime 2.0.

ghost use Rattle.std.specs.Prelude.{◌≡◌};
ghost use Rattle.pb_wire_defs.specs.Field.Payload.{Varint};
ghost use Rattle.feed_defs.specs.Enums.{incrementality_number, stop_relation_number, trip_relation_number, stop_status_number, cause_number, effect_number};

use crate::scalar::Scalar;
use rt_types::{Cause, Effect, Incrementality, StopRelation, StopStatus, TripRelation};

impl Scalar for Incrementality {
    ghost payload = { λ x. Varint (incrementality_number x) };

    fn number(self) -> u64 {
        match self {
            Incrementality::FullDataset => 0,
            Incrementality::Differential => 1,
        }
    }
}

impl Scalar for StopRelation {
    ghost payload = { λ x. Varint (stop_relation_number x) };

    fn number(self) -> u64 {
        match self {
            StopRelation::Scheduled => 0,
            StopRelation::Skipped => 1,
            StopRelation::NoData => 2,
            StopRelation::Unscheduled => 3,
        }
    }
}

impl Scalar for TripRelation {
    ghost payload = { λ x. Varint (trip_relation_number x) };

    fn number(self) -> u64 {
        match self {
            TripRelation::Scheduled => 0,
            TripRelation::Added => 1,
            TripRelation::Unscheduled => 2,
            TripRelation::Canceled => 3,
            TripRelation::Replacement => 5,
            TripRelation::Duplicated => 6,
            TripRelation::Deleted => 7,
        }
    }
}

impl Scalar for StopStatus {
    ghost payload = { λ x. Varint (stop_status_number x) };

    fn number(self) -> u64 {
        match self {
            StopStatus::IncomingAt => 0,
            StopStatus::StoppedAt => 1,
            StopStatus::InTransitTo => 2,
        }
    }
}

impl Scalar for Cause {
    ghost payload = { λ x. Varint (cause_number x) };

    fn number(self) -> u64 {
        match self {
            Cause::UnknownCause => 1,
            Cause::OtherCause => 2,
            Cause::TechnicalProblem => 3,
            Cause::Strike => 4,
            Cause::Demonstration => 5,
            Cause::Accident => 6,
            Cause::Holiday => 7,
            Cause::Weather => 8,
            Cause::Maintenance => 9,
            Cause::Construction => 10,
            Cause::PoliceActivity => 11,
            Cause::MedicalEmergency => 12,
        }
    }
}

impl Scalar for Effect {
    ghost payload = { λ x. Varint (effect_number x) };

    fn number(self) -> u64 {
        match self {
            Effect::NoService => 1,
            Effect::ReducedService => 2,
            Effect::SignificantDelays => 3,
            Effect::Detour => 4,
            Effect::AdditionalService => 5,
            Effect::ModifiedService => 6,
            Effect::OtherEffect => 7,
            Effect::UnknownEffect => 8,
            Effect::StopMoved => 9,
            Effect::NoEffect => 10,
            Effect::AccessibilityIssue => 11,
        }
    }
}
