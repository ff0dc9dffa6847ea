//! Which column of a row refers to no row.

ghost use Rattle.std.specs.Prelude.{◌≡◌, Option};
ghost use Rattle.sched_load_defs.specs.References.{refers_to_none, unknown_in_route, unknown_in_trip};

use crate::table::Table;
use gtfs_rows::{AgencyRow, Column, RouteRow, TripRow};

/// The rows that are known when the rows of a file are judged.
pub trait Judge<R> {
    ghost use Rattle.gtfs_rows.specs.declared.column.Column.{Column};

    ghost unknown_of: { Self → R → Option Column };

    /// The first column of the row that refers to no row.
    fn unknown(&self, row: &R) -> Option<Column>
        ensures { result ≡ unknown_of self.now row.now };
}

/// Of a file that refers to no other.
#[derive(Clone, Copy)]
pub struct NoReference;

impl<R> Judge<R> for NoReference {
    ghost unknown_of = { λ _. refers_to_none };

    fn unknown(&self, _row: &R) -> Option<Column> {
        None
    }
}

/// Of routes.txt.
#[derive(Clone, Copy)]
pub struct KnownAgencies<'a> {
    /// The rows of agency.txt.
    pub agencies: &'a Table<AgencyRow>,
}

impl Judge<RouteRow> for KnownAgencies<'_> {
    ghost unknown_of = { λ judge. unknown_in_route judge.agencies.now };

    fn unknown(&self, row: &RouteRow) -> Option<Column> {
        let id = row.agency_id.as_str();
        if id.is_empty() || self.agencies.has(id) {
            None
        } else {
            Some(Column::AgencyId)
        }
    }
}

/// Of trips.txt.
#[derive(Clone, Copy)]
pub struct KnownRoutes<'a> {
    /// The rows of routes.txt.
    pub routes: &'a Table<RouteRow>,
}

impl Judge<TripRow> for KnownRoutes<'_> {
    ghost unknown_of = { λ judge. unknown_in_trip judge.routes.now };

    fn unknown(&self, row: &TripRow) -> Option<Column> {
        if self.routes.has(row.route_id.as_str()) {
            None
        } else {
            Some(Column::RouteId)
        }
    }
}
