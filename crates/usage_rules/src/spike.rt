// The spike rule: one day's highest count against its sixth highest.
ghost use Rattle.std.specs.Prelude.{◌≡◌, ℕ, true, ◌&&◌, length, take, drop};
ghost use Rattle.held.specs.DataOf.{data_of};
ghost use Rattle.validation.specs.Places.{each};
ghost use Rattle.held.specs.HeldData.{in_cycle, interval_at};
ghost use Rattle.peaks.specs.Counts.{shows};
ghost use Rattle.usage_rules.specs.Spikes.{midnight, spike_from, spike_questions, HighestOfDay};

use held::Held;
use intervals::Interval;
use peaks::{shows_spike, spike_of};
use validation::Rule;

#[derive(Clone, Copy)]
pub struct SpikeCheck;

impl Rule for SpikeCheck {
    const NUMBER: u8 = 3;

    ghost NUMBER = { 3 };

    ghost meaning = { λ _. spike_questions };

    fn asks(&self, held: &Held<'_>, place: usize) -> bool {
        shows_at(held, place, spike_from(held, midnight_before(held, place)))
    }

    // Looks at each day once. A questioned place shows the highest sound count of its day.
    fn ask_all(&self, held: &Held<'_>, answers: &mut [bool])
        ensures filled { answers.new ≡ each (length answers.old) (spike_questions (data_of held.now)) }
        ensures highest { (i : ℕ) → spike_questions (data_of held.now) i ≡ true → HighestOfDay (data_of held.now) i }
    {
        let mut spike = None;
        for (place, answer) in answers.iter_mut().enumerate() {
            if place.is_multiple_of(held.cycle.places_a_day) {
                spike = spike_from(held, place);
            }
            *answer = shows_at(held, place, spike);
        }
    }
}

// The place that begins the day of a place.
fn midnight_before(held: &Held<'_>, place: usize) -> usize
    ensures { result ≡ midnight (data_of held.now) place }
{
    place - place % held.cycle.places_a_day
}

// The spike of the day that begins at a place, if it has one.
fn spike_from(held: &Held<'_>, start: usize) -> Option<u16>
    ensures { result ≡ spike_from (data_of held.now) start }
{
    spike_of(stretch(held.intervals, start, held.cycle.places_a_day))
}

// The intervals from a place on, at most so many, and none past the end.
fn stretch(intervals: &[Interval], start: usize, count: usize) -> &[Interval]
    ensures { result.now ≡ take count (drop start intervals.now) }
{
    let rest = intervals.get(start..).unwrap_or(&[]);
    rest.get(..count).unwrap_or(rest)
}

fn shows_at(held: &Held<'_>, place: usize, spike: Option<u16>) -> bool
    ensures { result ≡ (in_cycle (data_of held.now) place && shows spike (interval_at (data_of held.now) place)) }
{
    held.interval(place)
        .is_some_and(|interval| shows_spike(interval, spike))
}
