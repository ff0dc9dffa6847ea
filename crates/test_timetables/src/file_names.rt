//! The files by their names.

use sched_load_defs::File;

#[test]
fn the_names_of_files() {
    prove!(File::CalendarDates.name() == "calendar_dates.txt");
}
