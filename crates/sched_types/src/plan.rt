//! One timetable and its look-ups.
ghost use Rattle.std.specs.Prelude.{◌≡◌, ◌^◌, ◌<◌, ◌≤◌, length, map, filter, sum_by, slice_get, IfOk, IfSome};
ghost use Rattle.std.specs.List.{range_with_len};
ghost use Rattle.std.specs.Bool.{OnTrue};
ghost use Rattle.std.specs.Option.{ForSome};
ghost use Rattle.text_defs.specs.Dates.{date_plus};
ghost use Rattle.sched_types.specs.Timetable.{IsTimetable, IsSmall, number_of, places_of, is_run, children_of, day_with_date, counts_of, no_timetable, pattern_with, derived_trip, has_derived};
ghost use Rattle.sched_types.specs.Departures.{departs_so};
ghost use Rattle.sched_types.specs.Parts.{table_of};

use crate::children::children_lists;
use crate::dates::dates_from;
use crate::departures::{Departure, by_departure, departing};
use crate::derived::{derived_at, has_derived, with_patterns, without_derived};
use crate::numbers::number_by_id;
use crate::rows::{Counts, Place, PlanDerived, PlanParts, PlanPattern, Route, Run, Stop, Trip};
use crate::running::{is_marked, running_lists};
use std::alloc::{AllocError, Global};
use std::marker::Model;
use texts::{ShortText as PlanName, day_number, is_valid_date};

/// A trip with fewer places has no run.
const PLACES_OF_A_RUN: usize = 2;

/// One timetable. A contract sees its lists (`Timetable`).
#[derive(Drop)]
pub struct Plan {
    agencies: Vec<PlanName>,
    stops: Vec<Stop>,
    routes: Vec<Route>,
    trips: Vec<Trip>,
    places: Vec<Vec<Place>>,
    active: Vec<Vec<u32>>,
    first: u32,
    bases: Vec<i64>,
    patterns: Vec<PlanPattern>,
    derived: Vec<PlanDerived>,
    /// For each stop the numbers of its children, rising.
    children: Vec<Vec<u32>>,
    /// The dates of the window's days.
    dates: Vec<u32>,
    /// The numbers of the trips by their departures.
    departures: Vec<u32>,
    /// For each service, by its number, whether it is active, by the days of the window. It takes a
    /// byte for each day of each service.
    running: Vec<Vec<bool>>,
}

impl Model for Plan {
    ghost use Rattle.sched_types.specs.Timetable.{Timetable};

    ghost Value = { Timetable };

    ghost use Rattle.sched_types.specs.Sound.{table_in, IsSound};

    ghost view = { table_in };

    ghost invariant = { IsSound };
}

impl Plan {
    /// The timetable of those lists, with the rows by their numbers, or want of memory.
    pub fn build(alloc: Global, parts: PlanParts) -> Result<Plan, AllocError>
        requires { IsTimetable (table_of parts) }
        ensures { IfOk result (λ plan. plan ≡ table_of parts) }
    {
        let children = children_lists(alloc, parts.stops.as_slice())?;
        let dates = dates_from(alloc, parts.first, parts.bases.len())?;
        let departures = by_departure(alloc, parts.trips.as_slice(), parts.places.as_slice())?;
        let running = running_lists(alloc, parts.active.as_slice(), parts.bases.len())?;
        let PlanParts {
            agencies,
            stops,
            routes,
            trips,
            places,
            active,
            first,
            bases,
            patterns,
            derived,
        } = parts;
        Ok(Plan {
            agencies,
            stops,
            routes,
            trips,
            places,
            active,
            first,
            bases,
            patterns,
            derived,
            children,
            dates,
            departures,
            running,
        })
    }

    /// The timetable without rows, whose window has no days. It takes no memory.
    pub fn plain(alloc: Global) -> Plan
        ensures { result ≡ no_timetable }
    {
        Plan {
            agencies: Vec::new(alloc),
            stops: Vec::new(alloc),
            routes: Vec::new(alloc),
            trips: Vec::new(alloc),
            places: Vec::new(alloc),
            active: Vec::new(alloc),
            first: 19_700_101,
            bases: Vec::new(alloc),
            patterns: Vec::new(alloc),
            derived: Vec::new(alloc),
            children: Vec::new(alloc),
            dates: Vec::new(alloc),
            departures: Vec::new(alloc),
            running: Vec::new(alloc),
        }
    }

    /// Does nothing; its contract tells what is true of every timetable.
    pub fn sound(&self)
        ensures { IsTimetable self.now }
    {
        let _first = self.first;
    }

    /// How many rows and days there are.
    pub fn counts(&self) -> Counts
        ensures { result ≡ counts_of self.now }
    {
        Counts {
            agencies: self.agencies.len() as u32,
            stops: self.stops.len() as u32,
            routes: self.routes.len() as u32,
            trips: self.trip_rows(),
            times: self.time_rows(),
            days: self.bases.len() as u32,
        }
    }

    /// How many rows trips.txt has.
    fn trip_rows(&self) -> u32
        ensures { result ≡ (counts_of self.now).trips }
    {
        (self.trips.len().saturating_sub(self.derived.len()) + self.patterns.len()) as u32
    }

    /// How many rows stop_times.txt has.
    fn time_rows(&self) -> u32
        ensures { result ≡ (counts_of self.now).times }
    {
        let all = all_places(&self.places);
        let own = without_derived(all, self.places.as_slice(), self.derived.as_slice());
        with_patterns(own, self.patterns.as_slice())
    }

    /// How many places all trips have together, the derived trips among them and no pattern.
    pub fn all_places(&self) -> u32
        ensures { result ≡ sum_by length self.now.places }
    {
        all_places(&self.places)
    }

    /// The number of the stop with that id.
    pub fn stop_of(&self, id: &str) -> Option<u32>
        ensures value { result ≡ number_of (λ stop. stop.id) self.now.stops id.now }
        ensures within { IfSome result (λ stop. stop < length self.now.stops) }
    {
        number_by_id(self.stops.as_slice(), id)
    }

    /// The number of the trip with that id.
    pub fn trip_of(&self, id: &str) -> Option<u32>
        ensures value { result ≡ number_of (λ trip. trip.id) self.now.trips id.now }
        ensures within { IfSome result (λ trip. trip < length self.now.trips) }
    {
        number_by_id(self.trips.as_slice(), id)
    }

    /// The number of the trip of frequencies.txt with that id, in byte order of their ids. It takes
    /// no memory.
    pub fn pattern_of(&self, id: &str) -> Option<u32>
        ensures value { result ≡ pattern_with self.now id.now }
        ensures within { IfSome result (λ pattern. pattern < length self.now.patterns) }
    {
        number_by_id(self.patterns.as_slice(), id)
    }

    /// The number of the trip that a pattern gives at a start, in seconds of the service day. It
    /// takes no memory.
    pub fn derived(&self, pattern: u32, start: u32) -> Option<u32>
        requires { pattern < length self.now.patterns }
        ensures value { result ≡ derived_trip self.now pattern start }
        ensures within { IfSome result (λ trip. trip < length self.now.trips) }
    {
        derived_at(self.derived.as_slice(), pattern, start)
    }

    /// Whether a pattern gives any trip. It takes no memory.
    pub fn has_derived(&self, pattern: u32) -> bool
        requires { pattern < length self.now.patterns }
        ensures { result ≡ has_derived self.now pattern }
    {
        has_derived(self.derived.as_slice(), pattern)
    }

    /// The number of the route with that id.
    pub fn route_of(&self, id: &str) -> Option<u32>
        ensures value { result ≡ number_of (λ route. route.id) self.now.routes id.now }
        ensures within { IfSome result (λ route. route < length self.now.routes) }
    {
        number_by_id(self.routes.as_slice(), id)
    }

    /// The number of the agency with that id.
    pub fn agency_of(&self, id: &str) -> Option<u32>
        ensures value { result ≡ number_of (λ agency. agency) self.now.agencies id.now }
        ensures within { IfSome result (λ agency. agency < length self.now.agencies) }
    {
        number_by_id(self.agencies.as_slice(), id)
    }

    /// The day of the window with that date, given as the number of eight digits YYYYMMDD.
    pub fn day_of(&self, date: u32) -> Option<u32>
        ensures value { result ≡ day_with_date self.now date }
        ensures within { IfSome result (λ day. day < length self.now.bases) }
    {
        let first = day_number(self.first);
        if !is_valid_date(date) {
            return None;
        }
        let number = day_number(date);
        if number < first {
            return None;
        }
        let day = number - first;
        if day < self.bases.len() as u32 {
            Some(day)
        } else {
            None
        }
    }

    /// Whether the trip has two places or more and its service is active on that day.
    pub fn runs(&self, run: Run) -> bool
        ensures value { result ≡ is_run self.now run }
        ensures trip { OnTrue result (run.trip < length self.now.trips) }
        ensures places { OnTrue result (1 < length (places_of self.now run.trip)) }
        ensures day { OnTrue result (run.day < length self.now.bases) }
    {
        match self.trips.get(run.trip as usize) {
            Some(trip) => {
                let marks = &self.running[trip.service as usize];
                self.places[run.trip as usize].len() >= PLACES_OF_A_RUN
                    && is_marked(marks.as_slice(), run.day)
            }
            None => false,
        }
    }

    /// The trips of that route and direction whose first place is left at that time, in seconds, by
    /// rising numbers.
    pub fn departing(&self, route: u32, direction: u32, departure: u32) -> &[u32]
        ensures { result.now
            ≡ filter (departs_so self.now route direction departure)
            (range_with_len 0 (length self.now.trips)) }
    {
        let wanted = Departure {
            route,
            direction,
            seconds: departure,
        };
        let trips = self.trips.as_slice();
        let places = self.places.as_slice();
        departing(self.departures.as_slice(), trips, places, wanted)
    }

    /// How many trips there are.
    pub fn trips(&self) -> u32
        ensures { result ≡ length self.now.trips }
    {
        self.trips.len() as u32
    }

    /// How many days the window has.
    pub fn days(&self) -> u32
        ensures { result ≡ length self.now.bases }
    {
        self.bases.len() as u32
    }

    /// The stop of that number.
    pub fn stop(&self, stop: u32) -> &Stop
        requires { stop < length self.now.stops }
        ensures value { slice_get self.now.stops stop ≡ Some result.now }
        ensures parent { ForSome result.now.parent (λ parent. parent < length self.now.stops) }
    {
        &self.stops[stop as usize]
    }

    /// The numbers of the stops that name it as `parent_station`, in byte order of their ids.
    pub fn children(&self, stop: u32) -> &[u32]
        requires { stop < length self.now.stops }
        ensures { result.now ≡ children_of self.now.stops stop }
    {
        self.children[stop as usize].as_slice()
    }

    /// The trip of that number.
    pub fn trip(&self, trip: u32) -> &Trip
        requires { trip < length self.now.trips }
        ensures value { slice_get self.now.trips trip ≡ Some result.now }
        ensures route { result.now.route < length self.now.routes }
    {
        &self.trips[trip as usize]
    }

    /// The route of that number.
    pub fn route(&self, route: u32) -> &Route
        requires { route < length self.now.routes }
        ensures value { slice_get self.now.routes route ≡ Some result.now }
        ensures agency { ForSome result.now.agency (λ agency. agency < length self.now.agencies) }
    {
        &self.routes[route as usize]
    }

    /// The date of a day of the window, as the number of eight digits YYYYMMDD.
    pub fn date(&self, day: u32) -> u32
        requires { day < length self.now.bases }
        ensures value { result ≡ date_plus self.now.first day }
        ensures early { 19700101 ≤ result }
        ensures late { result ≤ 30010204 }
    {
        self.dates[day as usize]
    }

    /// The instant from which the times of a day of the window are counted, in seconds of the Unix
    /// epoch.
    pub fn base(&self, day: u32) -> i64
        requires { day < length self.now.bases }
        ensures value { slice_get self.now.bases day ≡ Some result }
        ensures small { IsSmall result }
    {
        self.bases[day as usize]
    }

    /// How many places a trip has.
    pub fn places(&self, trip: u32) -> u32
        requires { trip < length self.now.trips }
        ensures { result ≡ length (places_of self.now trip) }
    {
        self.places[trip as usize].len() as u32
    }

    /// The places of a trip, in order of `stop_sequence`.
    pub fn stop_times(&self, trip: u32) -> &[Place]
        requires { trip < length self.now.trips }
        ensures value { result.now ≡ places_of self.now trip }
        ensures few { length result.now < 2 ^ 32 }
    {
        self.places[trip as usize].as_slice()
    }

    /// A place of a trip, by its number in order of `stop_sequence`, from 0.
    pub fn place(&self, trip: u32, i: u32) -> Place
        requires trip { trip < length self.now.trips }
        requires within { i < length (places_of self.now trip) }
        ensures value { slice_get (places_of self.now trip) i ≡ Some result }
        ensures stop { result.stop < length self.now.stops }
    {
        self.places[trip as usize][i as usize]
    }
}

/// How many places all trips have together.
fn all_places(places: &[Vec<Place>]) -> u32
    requires { sum_by length (map (λ v. v.items) places.now) < 2 ^ 32 }
    ensures { result ≡ sum_by length (map (λ v. v.items) places.now) }
{
    let mut total: u32 = 0;
    for trip in places {
        total += trip.len() as u32;
    }
    total
}
