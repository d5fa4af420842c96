// The billing cycle: its days, the places of a day, and the weekday it begins on.
ghost use Rattle.std.specs.Prelude.{◌≡◌, ◌*◌, ◌<◌, ◌≤◌, true};
ghost use Rattle.constants.specs.Limits.{places_a_day_known};

// The days of the longest cycle.
pub(crate) const MOST_DAYS: u32 = 31;

// The places of the longest cycle: 31 days of 96.
pub const LONGEST_CYCLE: usize = 2976;

#[derive(Clone, Copy)]
pub struct Cycle {
    pub days: usize,
    // a number with its fact, and no `IntervalLength`, which would ask more of whoever makes a cycle
    pub places_a_day: usize,
    // 0 for Monday to 6 for Sunday: a number, since weekdays are counted on modulo 7
    pub first_weekday: usize,
    ghost some_days: { 1 ≤ days },
    ghost few_days: { days ≤ 31 },
    ghost length: { places_a_day_known places_a_day ≡ true },
    ghost weekday: { first_weekday < 7 },
}

impl Cycle {
    pub fn places(&self) -> usize
        ensures product { result ≡ self.now.days * self.now.places_a_day }
        ensures few { result ≤ 2976 }
    {
        self.days * self.places_a_day
    }
}
