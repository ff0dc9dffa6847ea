//! The enums of GTFS Realtime 2.0, by the numbers that name their values.

ghost use Rattle.std.specs.Prelude.{◌≡◌, ◌%◌, ◌^◌, Option};
ghost use Rattle.std.specs.Option.{option_and_then};
ghost use Rattle.feed_defs.specs.Rows.{varint_in};
ghost use Rattle.feed_defs.specs.Enums.{incrementality_named, stop_relation_named, trip_relation_named, stop_status_named, cause_named, effect_named};

use crate::scalar::{Scalar, low_bits};
use pb_wire::PartPayload;
use rt_types::{Cause, Effect, Incrementality, StopRelation, StopStatus, TripRelation};

impl Scalar for Incrementality {
    ghost says = { λ payload. option_and_then (λ n. incrementality_named (n % 2 ^ 32))
        (varint_in payload) };

    fn said(payload: &PartPayload<'_>) -> Option<Incrementality> {
        match low_bits(payload)? {
            0 => Some(Incrementality::FullDataset),
            1 => Some(Incrementality::Differential),
            _ => None,
        }
    }
}

impl Scalar for StopRelation {
    ghost says = { λ payload. option_and_then (λ n. stop_relation_named (n % 2 ^ 32))
        (varint_in payload) };

    fn said(payload: &PartPayload<'_>) -> Option<StopRelation> {
        match low_bits(payload)? {
            0 => Some(StopRelation::Scheduled),
            1 => Some(StopRelation::Skipped),
            2 => Some(StopRelation::NoData),
            3 => Some(StopRelation::Unscheduled),
            _ => None,
        }
    }
}

impl Scalar for TripRelation {
    ghost says = { λ payload. option_and_then (λ n. trip_relation_named (n % 2 ^ 32))
        (varint_in payload) };

    fn said(payload: &PartPayload<'_>) -> Option<TripRelation> {
        match low_bits(payload)? {
            0 => Some(TripRelation::Scheduled),
            1 => Some(TripRelation::Added),
            2 => Some(TripRelation::Unscheduled),
            3 => Some(TripRelation::Canceled),
            5 => Some(TripRelation::Replacement),
            6 => Some(TripRelation::Duplicated),
            7 => Some(TripRelation::Deleted),
            _ => None,
        }
    }
}

impl Scalar for StopStatus {
    ghost says = { λ payload. option_and_then (λ n. stop_status_named (n % 2 ^ 32))
        (varint_in payload) };

    fn said(payload: &PartPayload<'_>) -> Option<StopStatus> {
        match low_bits(payload)? {
            0 => Some(StopStatus::IncomingAt),
            1 => Some(StopStatus::StoppedAt),
            2 => Some(StopStatus::InTransitTo),
            _ => None,
        }
    }
}

impl Scalar for Cause {
    ghost says = { λ payload. option_and_then (λ n. cause_named (n % 2 ^ 32)) (varint_in payload) };

    fn said(payload: &PartPayload<'_>) -> Option<Cause> {
        match low_bits(payload)? {
            1 => Some(Cause::UnknownCause),
            2 => Some(Cause::OtherCause),
            3 => Some(Cause::TechnicalProblem),
            4 => Some(Cause::Strike),
            5 => Some(Cause::Demonstration),
            6 => Some(Cause::Accident),
            7 => Some(Cause::Holiday),
            8 => Some(Cause::Weather),
            9 => Some(Cause::Maintenance),
            10 => Some(Cause::Construction),
            11 => Some(Cause::PoliceActivity),
            12 => Some(Cause::MedicalEmergency),
            _ => None,
        }
    }
}

impl Scalar for Effect {
    ghost says = { λ payload. option_and_then (λ n. effect_named (n % 2 ^ 32))
        (varint_in payload) };

    fn said(payload: &PartPayload<'_>) -> Option<Effect> {
        match low_bits(payload)? {
            1 => Some(Effect::NoService),
            2 => Some(Effect::ReducedService),
            3 => Some(Effect::SignificantDelays),
            4 => Some(Effect::Detour),
            5 => Some(Effect::AdditionalService),
            6 => Some(Effect::ModifiedService),
            7 => Some(Effect::OtherEffect),
            8 => Some(Effect::UnknownEffect),
            9 => Some(Effect::StopMoved),
            10 => Some(Effect::NoEffect),
            11 => Some(Effect::AccessibilityIssue),
            _ => None,
        }
    }
}
