//! The enums of GTFS Realtime 2.0, with the values that the reference names.

/// Whether a message is the whole data set of its feed or a change to it (FeedHeader,
/// `incrementality`).
#[derive(Clone, Copy, PartialEq, Eq, Debug)]
pub enum Incrementality {
    /// All that the feed has to say; what it said before is void.
    FullDataset,
    /// A change to what the feed said before. The reference leaves it open; here each entity takes
    /// the place of the one with its id.
    Differential,
}

/// How an update of a stop relates to the timetable (StopTimeUpdate, `schedule_relationship`).
#[derive(Clone, Copy, PartialEq, Eq, Debug)]
pub enum StopRelation {
    /// The vehicle goes by the timetable, though maybe not at its times.
    Scheduled,
    /// The vehicle does not stop there.
    Skipped,
    /// Nothing is known of the times there.
    NoData,
    /// The trip has no fixed times there.
    Unscheduled,
}

/// How a trip relates to the timetable (TripDescriptor, `schedule_relationship`).
#[derive(Clone, Copy, PartialEq, Eq, Debug)]
pub enum TripRelation {
    /// The trip runs by the timetable, or is close enough to it.
    Scheduled,
    /// A trip beside those of the timetable.
    Added,
    /// A trip with no timetable, as one by headway.
    Unscheduled,
    /// The trip does not run.
    Canceled,
    /// The trip takes the place of one of the timetable.
    Replacement,
    /// A copy of a trip of the timetable, at another time.
    Duplicated,
    /// The trip does not run and is not to be shown.
    Deleted,
}

/// How a vehicle stands to its stop (VehiclePosition, `current_status`).
#[derive(Clone, Copy, PartialEq, Eq, Debug)]
pub enum StopStatus {
    /// It is about to arrive at the stop.
    IncomingAt,
    /// It stands at the stop.
    StoppedAt,
    /// It has left the stop before and is on its way.
    InTransitTo,
}

/// Why an alert was given (Alert, `cause`).
#[derive(Clone, Copy, PartialEq, Eq, Debug)]
pub enum Cause {
    /// Unknown.
    UnknownCause,
    /// None of the others.
    OtherCause,
    /// A technical problem.
    TechnicalProblem,
    /// A strike.
    Strike,
    /// A demonstration.
    Demonstration,
    /// An accident.
    Accident,
    /// A holiday.
    Holiday,
    /// Weather.
    Weather,
    /// Maintenance.
    Maintenance,
    /// Construction.
    Construction,
    /// What the police does.
    PoliceActivity,
    /// A medical emergency.
    MedicalEmergency,
}

/// What an alert means for passengers (Alert, `effect`).
#[derive(Clone, Copy, PartialEq, Eq, Debug)]
pub enum Effect {
    /// Nothing runs.
    NoService,
    /// Less runs.
    ReducedService,
    /// Long delays.
    SignificantDelays,
    /// A detour.
    Detour,
    /// More runs.
    AdditionalService,
    /// Something runs otherwise.
    ModifiedService,
    /// None of the others.
    OtherEffect,
    /// Unknown.
    UnknownEffect,
    /// A stop is elsewhere.
    StopMoved,
    /// Nothing changes.
    NoEffect,
    /// Somewhere there is no step-free way.
    AccessibilityIssue,
}
