// The high/low rule: the cycle's usage against past usage.
ghost use Rattle.std.specs.Prelude.{◌≡◌, ℕ, ◌<◌, not, ◌&&◌, length, Some};
ghost use Rattle.intervals.specs.Conditions.{sound};
ghost use Rattle.held.specs.HeldData.{places};
ghost use Rattle.constants.specs.Sizes.{past_of};
ghost use Rattle.held.specs.DataOf.{data_of};
ghost use Rattle.validation.specs.Places.{each};
ghost use Rattle.usage_rules.specs.Usage.{added_places, added_pulses, high_or_low, high_low_questions};

use crate::spike::SpikeCheck;
use constants::{LONGEST_CYCLE, Usage};
use held::Held;
use intervals::Interval;
use validation::Rule;

#[derive(Clone, Copy)]
pub struct HighLowCheck;

impl Rule for HighLowCheck {
    const NUMBER: u8 = 4;

    ghost NUMBER = { 4 };

    ghost meaning = { λ _. high_low_questions };

    fn asks(&self, held: &Held<'_>, place: usize) -> bool {
        held.has_place(place) && is_cycle_questioned(held)
    }

    // Adds the cycle up once. All its places get one answer.
    #[tactic(auto, using(validation::proofs::Filled::filling))]
    fn ask_all(&self, held: &Held<'_>, answers: &mut [bool])
        ensures filled { answers.new ≡ each (length answers.old) (high_low_questions (data_of held.now)) }
        ensures alike { (i j : ℕ) → i < places (data_of held.now) → j < places (data_of held.now) → high_low_questions (data_of held.now) i ≡ high_low_questions (data_of held.now) j }
    {
        let questioned = is_cycle_questioned(held);
        for (place, answer) in answers.iter_mut().enumerate() {
            *answer = held.has_place(place) && questioned;
        }
    }
}

// Pulses added up over places.
#[derive(Clone, Copy)]
struct Added {
    places: u32,
    pulses: u32,
}

fn is_cycle_questioned(held: &Held<'_>) -> bool
    ensures { result ≡ high_or_low (data_of held.now).past (added_places (data_of held.now) (places (data_of held.now))) (added_pulses (data_of held.now) (places (data_of held.now))) }
{
    let added = added_up(held);
    held.past.is_some_and(|usage| is_high_or_low(usage, added))
}

// The places with a sound condition that are no spikes.
fn added_up(held: &Held<'_>) -> Added
    ensures places { result.places ≡ added_places (data_of held.now) (places (data_of held.now)) }
    ensures pulses { result.pulses ≡ added_pulses (data_of held.now) (places (data_of held.now)) }
{
    let mut spikes = [false; LONGEST_CYCLE];
    SpikeCheck.ask_all(held, &mut spikes);
    let mut added = Added {
        places: 0,
        pulses: 0,
    };
    // by index: with a `zip` of the spikes the totals stay open
    for (place, interval) in held.intervals.iter().enumerate() {
        if is_added(*interval, spikes[place]) {
            let count = interval.pulses;
            added.places += 1;
            added.pulses += u32::from(count);
        }
    }
    added
}

fn is_added(interval: Interval, spike: bool) -> bool
    ensures { result ≡ (sound interval.condition && not spike) }
{
    interval.condition.is_sound() && !spike
}

fn is_high_or_low(past: Usage, added: Added) -> bool
    ensures { result ≡ high_or_low (Some (past_of past)) added.places added.pulses }
{
    let expected = u64::from(past.pulses) * u64::from(added.places);
    let counted = u64::from(added.pulses) * u64::from(past.places);
    added.places > 0 && 2 * expected.abs_diff(counted) > expected
}
