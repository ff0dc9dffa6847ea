//! A job that takes the place's number from one item, and gives it to another.

use place_jobs::{PlaceJob, each_place};
use std::test::Fail;

/// Counts.
#[derive(Drop)]
struct Counting;

impl PlaceJob<u32, u64, bool> for Counting {
    ghost use Rattle.std.specs.Prelude.{◌≡◌, ◌<◌, true};

    ghost accepts = { λ job place x y z. x < 100 };

    ghost does = { λ job place x y z u v w. (u ≡ x) × (v ≡ place) × (w ≡ true) };

    fn work(&self, place: usize, _x: &mut u32, y: &mut u64, z: &mut bool) {
        *y = place as u64;
        *z = true;
    }
}

#[test]
fn each_place_is_worked_at(rt: HostRuntime) -> Result<(), Fail> {
    let mut xs = [1u32, 2, 3];
    let mut ys = [0u64, 0, 0];
    let mut zs = [false, false, false];
    each_place(&rt, &Counting, 4, &mut xs, &mut ys, &mut zs);
    assert_eq!(rt; xs, [1, 2, 3]);
    assert_eq!(rt; ys, [4, 5, 6]);
    assert_eq!(rt; zs, [true, true, true]);
    Ok(())
}
