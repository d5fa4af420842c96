// The highest counts of a day, and the one that is a spike among them.
ghost use Rattle.std.specs.Prelude.{◌≡◌, length, take, IfSome};
ghost use Rattle.peaks.specs.Ranks.{entered, Ranked};
ghost use Rattle.peaks.specs.Counts.{sound_counts, peak, spike_of, shows, Highest};

use intervals::Interval;

// The count that is a spike in a day, if one is.
pub fn spike_of(day: &[Interval]) -> Option<u16>
    ensures value { result ≡ spike_of day.now }
    ensures highest { IfSome result (Highest day.now) }
    ensures ranked { Ranked (sound_counts day.now) }
{
    // a loop, since a chain would go through the day twice, for the ranks and for how many they are
    let mut highest = [0u16; 6];
    let mut sound_places = 0usize;
    for interval in day {
        if interval.condition.is_sound() {
            enter(&mut highest, interval.pulses);
            sound_places += 1;
        }
    }
    peak_of(sound_places, highest[0], highest[5])
}

// Whether an interval shows the spike of its day.
pub fn shows_spike(interval: Interval, spike: Option<u16>) -> bool
    ensures { result ≡ shows spike interval }
{
    spike.is_some_and(|count| interval.condition.is_sound() && interval.pulses == count)
}

// Enters a count among the highest, which fall from first to last, and lets go of the lowest.
fn enter(highest: &mut [u16], count: u16)
    ensures { highest.new ≡ take (length highest.old) (entered highest.old count) }
{
    let mut lower = count;
    for rank in highest.iter_mut() {
        let higher = lower.max(*rank);
        lower = lower.min(*rank);
        *rank = higher;
    }
}

// The highest of some counts, if it is a spike.
fn peak_of(counts: usize, highest: u16, sixth: u16) -> Option<u16>
    ensures { result ≡ peak counts highest sixth }
{
    let rise = 5 * u32::from(highest.saturating_sub(sixth));
    (counts >= 6 && highest > 10 && rise > 9 * u32::from(sixth)).then_some(highest)
}
