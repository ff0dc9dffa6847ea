//! The ids of a timetable within an entity, under a prefix.

ghost use Rattle.std.specs.Prelude.{◌≡◌, ℕ, List, map, IfOk};
ghost use Rattle.std.specs.Option.{option_map};
ghost use Rattle.feed_defs.specs.Renamed.{prefixed, renamed_trip, renamed_properties, renamed_stop, renamed_update, renamed_vehicle, renamed_selector, renamed_alert, renamed_entity};

use crate::NoMemory;
use rt_types::{
    Alert, Copied, Entity, Items, Selector, Shared, StopProps, StopUpdate, Text, TripRef,
    TripUpdate, Vehicle,
};
use std::alloc::Global;

/// The entity with the prefix before each trip_id, route_id, stop_id, assigned_stop_id and
/// agency_id in it that is there and isn't empty. Its own id, those of vehicles and all else stay.
pub fn rename(alloc: Global, prefix: &str, entity: Entity) -> Result<Entity, NoMemory>
    ensures { IfOk result (λ same. same ≡ renamed_entity prefix.now entity) }
{
    entity.renamed(alloc, prefix)
}

/// A value with ids of a timetable in it.
trait Renamed: Drop {
    ghost under: { List ℕ → Self → Self };

    /// The value with the prefix before its ids.
    fn renamed(self, alloc: Global, prefix: &str) -> Result<Self, NoMemory>
        ensures { IfOk result (λ same. same ≡ under prefix.now self) };
}

impl Renamed for Text {
    ghost under = { prefixed };

    fn renamed(self, alloc: Global, prefix: &str) -> Result<Text, NoMemory> {
        let id = self.as_str();
        if id.is_empty() {
            return Ok(self);
        }
        let name = format!(in alloc; "{prefix}{id}")?;
        Text::new(alloc, name.as_str())
    }
}

impl<T: Renamed> Renamed for Option<T> {
    ghost under = { λ prefix value. option_map (T.under prefix) value };

    fn renamed(self, alloc: Global, prefix: &str) -> Result<Option<T>, NoMemory> {
        match self {
            Some(value) => Ok(Some(value.renamed(alloc, prefix)?)),
            None => Ok(None),
        }
    }
}

impl<T: Renamed + Copied> Renamed for Shared<T> {
    ghost under = { T.under };

    fn renamed(self, alloc: Global, prefix: &str) -> Result<Shared<T>, NoMemory> {
        Shared::new(alloc, self.into_inner()?.renamed(alloc, prefix)?)
    }
}

impl<T: Renamed> Renamed for Items<T> {
    ghost under = { λ prefix items. map (T.under prefix) items };

    fn renamed(self, alloc: Global, prefix: &str) -> Result<Items<T>, NoMemory> {
        let mut items = Vec::new(alloc);
        for item in self.into_vec() {
            items.push(item.renamed(alloc, prefix)?)?;
        }
        Ok(Items::new(items))
    }
}

impl Renamed for TripRef {
    ghost under = { renamed_trip };

    fn renamed(self, alloc: Global, prefix: &str) -> Result<TripRef, NoMemory> {
        Ok(TripRef {
            trip_id: self.trip_id.renamed(alloc, prefix)?,
            route_id: self.route_id.renamed(alloc, prefix)?,
            ..self
        })
    }
}

impl Renamed for StopProps {
    ghost under = { renamed_properties };

    fn renamed(self, alloc: Global, prefix: &str) -> Result<StopProps, NoMemory> {
        Ok(StopProps {
            assigned_stop_id: self.assigned_stop_id.renamed(alloc, prefix)?,
            ..self
        })
    }
}

impl Renamed for StopUpdate {
    ghost under = { renamed_stop };

    fn renamed(self, alloc: Global, prefix: &str) -> Result<StopUpdate, NoMemory> {
        Ok(StopUpdate {
            stop_id: self.stop_id.renamed(alloc, prefix)?,
            properties: self.properties.renamed(alloc, prefix)?,
            ..self
        })
    }
}

impl Renamed for TripUpdate {
    ghost under = { renamed_update };

    fn renamed(self, alloc: Global, prefix: &str) -> Result<TripUpdate, NoMemory> {
        Ok(TripUpdate {
            trip: self.trip.renamed(alloc, prefix)?,
            stop_time_update: self.stop_time_update.renamed(alloc, prefix)?,
            ..self
        })
    }
}

impl Renamed for Vehicle {
    ghost under = { renamed_vehicle };

    fn renamed(self, alloc: Global, prefix: &str) -> Result<Vehicle, NoMemory> {
        Ok(Vehicle {
            trip: self.trip.renamed(alloc, prefix)?,
            stop_id: self.stop_id.renamed(alloc, prefix)?,
            ..self
        })
    }
}

impl Renamed for Selector {
    ghost under = { renamed_selector };

    fn renamed(self, alloc: Global, prefix: &str) -> Result<Selector, NoMemory> {
        Ok(Selector {
            agency_id: self.agency_id.renamed(alloc, prefix)?,
            route_id: self.route_id.renamed(alloc, prefix)?,
            trip: self.trip.renamed(alloc, prefix)?,
            stop_id: self.stop_id.renamed(alloc, prefix)?,
            ..self
        })
    }
}

impl Renamed for Alert {
    ghost under = { renamed_alert };

    fn renamed(self, alloc: Global, prefix: &str) -> Result<Alert, NoMemory> {
        Ok(Alert {
            informed_entity: self.informed_entity.renamed(alloc, prefix)?,
            ..self
        })
    }
}

impl Renamed for Entity {
    ghost under = { renamed_entity };

    fn renamed(self, alloc: Global, prefix: &str) -> Result<Entity, NoMemory> {
        Ok(Entity {
            trip_update: self.trip_update.renamed(alloc, prefix)?,
            vehicle: self.vehicle.renamed(alloc, prefix)?,
            alert: self.alert.renamed(alloc, prefix)?,
            ..self
        })
    }
}
