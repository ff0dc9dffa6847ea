//! The lists of a timetable that rows change.

ghost use Rattle.std.specs.Prelude.{◌≡◌, IfOk, map};
ghost use Rattle.sched_load_defs.specs.Frequencies as rule;
ghost use Rattle.freq_parts.specs.Joined.{AreListed, CanJoin, all_of};

use crate::derived::{all_trips, plan_deriveds};
use crate::named::Parted;
use crate::patterns::plan_patterns;
use crate::timed::{TripLists, untimed};
use freq_runs::Derived;
use sched_types::{PlanDerived, PlanPattern};
use std::alloc::{AllocError, Global};

/// The trips with their places, the patterns and the derived trips of a timetable.
#[derive(Drop)]
pub(crate) struct Lists {
    pub(crate) timed: TripLists,
    pub(crate) patterns: Vec<PlanPattern>,
    pub(crate) derived: Vec<PlanDerived>,
}

/// The lists with the derived trips in place of the patterns.
pub(crate) fn lists_with(
    alloc: Global,
    parted: Parted,
    derived: &[Derived],
) -> Result<Lists, AllocError>
    requires { CanJoin parted.patterns.items parted.others.items derived.now }
    ensures listed { IfOk result (λ _. AreListed
        parted.patterns.items parted.others.items derived.now) }
    ensures trips { IfOk result (λ lists. lists.timed.trips.items
        ≡ map (λ one. one.0) (all_of parted.patterns.items parted.others.items derived.now)) }
    ensures places { IfOk result (λ lists. map (λ v. v.items) lists.timed.places.items
        ≡ map (λ one. one.1) (all_of parted.patterns.items parted.others.items derived.now)) }
    ensures patterns { IfOk result (λ lists. lists.patterns.items
        ≡ map rule.plan_pattern parted.patterns.items) }
    ensures derived { IfOk result (λ lists. lists.derived.items ≡ rule.plan_deriveds
        (all_of parted.patterns.items parted.others.items derived.now) derived.now) }
{
    let Parted { patterns, others } = parted;
    let all = all_trips(alloc, others, patterns.as_slice(), derived)?;
    let derived = plan_deriveds(alloc, all.as_slice(), derived)?;
    let patterns = plan_patterns(alloc, patterns.as_slice())?;
    let timed = untimed(alloc, all)?;
    Ok(Lists {
        timed,
        patterns,
        derived,
    })
}
