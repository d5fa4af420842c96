// The table of readings, whose boundaries rise strictly.
ghost use Rattle.std.specs.Prelude.{◌≤◌, take};
ghost use Rattle.readings.specs.Rising.{Rising};

use crate::reading::Reading;

mod entering;

// The most readings that a table takes.
const MOST_READINGS: usize = 32;

// An array with a count: what a book holds lies in fixed memory, with nothing on the heap, and the table is copied whole,
// as no `ArrayVec` is.
#[derive(Clone, Copy)]
pub struct Readings {
    entries: [Reading; MOST_READINGS],
    count: usize,
    ghost fits: { count ≤ 32 },
    ghost rising: { Rising (take count entries) },
}
