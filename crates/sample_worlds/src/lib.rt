//! Small worlds made at random, for tests: a timetable of a few stops and trips, and what two feeds
//! say of them.
//!
//! [`Dice`] makes the same numbers in every run, and [`made_world`] a world of them, with its
//! updates, alerts and vehicles and what these name. [`hub_of`] loads the folder of a world's
//! timetable, and lets both feeds speak.
#![tactic(auto)]

mod alert_entity;
mod descriptor;
mod dice;
mod entities;
mod files;
mod hub;
mod notice;
mod world;

pub use descriptor::{MadeDate, MadeRef, MadeTime, named_by};
pub use dice::Dice;
pub use hub::hub_of;
pub use notice::{ALERT_IDS, MadeAlert, MadePeriod, MadeSelector, MadeVehicle, MadeWords};
pub use world::{
    AGENCIES, BASES, DATES, ENTITY_IDS, FIRST_STAMP, MadeCall, MadePlace, MadeStop, MadeTrip,
    MadeUpdate, ROUTE_AGENCIES, ROUTE_KINDS, ROUTE_NAMES, ROUTES, STOPS, TRIP_DIRECTIONS,
    TRIP_ROUTES, TRIPS, World, made_world, moment,
};
