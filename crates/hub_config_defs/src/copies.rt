//! Copies of a configuration, for a caller that gives its texts away and keeps it.

use crate::conf::{FeedConf, HubConf, ScheduleConf};
use rt_types::Copied;
use std::alloc::AllocError;

impl Copied for ScheduleConf {
    fn copy(&self) -> Result<Self, AllocError> {
        Ok(ScheduleConf {
            name: self.name.copy()?,
            folder: self.folder.copy()?,
            zone: self.zone.copy()?,
            first: self.first,
            days: self.days,
            prefix: self.prefix.copy()?,
        })
    }
}

impl Copied for FeedConf {
    fn copy(&self) -> Result<Self, AllocError> {
        Ok(FeedConf {
            name: self.name.copy()?,
            schedule: self.schedule,
            kind: self.kind,
            place: self.place.copy()?,
            max_age: self.max_age,
            every: self.every,
            polls: self.polls,
            tries: self.tries,
        })
    }
}

impl Copied for HubConf {
    fn copy(&self) -> Result<Self, AllocError> {
        Ok(HubConf {
            readers: self.readers,
            listen: self.listen.copy()?,
            connections: self.connections,
            schedules: self.schedules.copy()?,
            feeds: self.feeds.copy()?,
        })
    }
}
