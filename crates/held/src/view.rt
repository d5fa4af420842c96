// What a rule may look at: the data held of one cycle, lent for the asking.
ghost use Rattle.std.specs.Prelude.{◌≡◌, ◌*◌, length};
ghost use Rattle.readings.specs.Rising.{Within, Dialled};
ghost use Rattle.readings.specs.Rows.{rows};

use constants::{Cycle, Register, Usage};
use intervals::Interval;
use readings::Readings;

mod places;

#[derive(Clone, Copy)]
pub struct Held<'a> {
    pub cycle: Cycle,
    pub register: Register,
    pub past: Option<Usage>,
    pub intervals: &'a [Interval],
    pub readings: &'a Readings,
    ghost whole: { length intervals.now ≡ cycle.days * cycle.places_a_day },
    ghost within: { Within (cycle.days * cycle.places_a_day) (rows readings.now) },
    ghost dialled: { Dialled register.dials (rows readings.now) },
}
