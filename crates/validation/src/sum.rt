// The sum rule: the pulses of a region against the advance of the register over it.
ghost use Rattle.std.specs.Prelude.{◌≡◌, ℕ, ◌≤◌, length};
ghost use Rattle.held.specs.DataOf.{data_of};
ghost use Rattle.validation.specs.Places.{each};
ghost use Rattle.validation.specs.Sums.{all_sound, total_pulses, beyond_allowed, region_questioned, sum_questions, AlikeInRegion};

use crate::rule::Rule;
use held::Held;
use intervals::Interval;

#[derive(Clone, Copy)]
pub struct SumCheck;

impl Rule for SumCheck {
    const NUMBER: u8 = 2;

    ghost NUMBER = { 2 };

    ghost meaning = { λ _. sum_questions };

    fn asks(&self, held: &Held<'_>, place: usize) -> bool {
        held.has_place(place) && is_region_questioned(held, held.readings.region_of(place))
    }

    // Adds each region up once. All places of a region get one answer.
    fn ask_all(&self, held: &Held<'_>, answers: &mut [bool])
        ensures filled { answers.new ≡ each (length answers.old) (sum_questions (data_of held.now)) }
        ensures alike { (i : ℕ) → AlikeInRegion (data_of held.now) i }
    {
        // once, since the product would be made again after each write
        let places = held.cycle.places();
        let mut questioned = false;
        // where the region at hand ends
        let mut end = 0;
        for (place, answer) in answers.iter_mut().enumerate() {
            if place == end {
                let region = held.readings.region_of(place);
                questioned = is_region_questioned(held, region);
                end = held.region_end(region);
            }
            // `&` and no `&&`: the answer takes no branch
            *answer = (place < places) & questioned;
        }
    }
}

fn is_region_questioned(held: &Held<'_>, region: usize) -> bool
    ensures { result ≡ region_questioned (data_of held.now) region }
{
    let intervals = held.region_intervals(region);
    let pulses_per_unit = held.register.pulses_per_unit;
    let allowed = held.readings.allowed_units(region);
    held.advance(region).is_some_and(|units| {
        all_sound(intervals)
            && is_beyond_allowed(pulses_per_unit, units, allowed, total_pulses(intervals))
    })
}

fn all_sound(intervals: &[Interval]) -> bool
    ensures { result ≡ all_sound intervals.now }
{
    intervals
        .iter()
        .all(|interval| interval.condition.is_sound())
}

fn total_pulses(intervals: &[Interval]) -> u32
    requires { length intervals.now ≤ 2976 }
    ensures { result ≡ total_pulses intervals.now }
{
    intervals
        .iter()
        .map(|interval| u32::from(interval.pulses))
        .sum()
}

fn is_beyond_allowed(pulses_per_unit: u16, units: u32, allowed: u32, pulses: u32) -> bool
    ensures { result ≡ beyond_allowed pulses_per_unit units allowed pulses }
{
    let advance = u64::from(units) * u64::from(pulses_per_unit);
    u64::from(pulses).abs_diff(advance) > u64::from(allowed) * u64::from(pulses_per_unit)
}
