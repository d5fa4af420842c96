// Weights from days before the cycle: what was counted then at the same time of day on the same weekday.
ghost use Rattle.std.specs.Prelude.{◌≡◌, ◌*◌, ◌<◌, ◌≤◌, length, IfOk, IsTrue, sum};
ghost use Rattle.constants.specs.Lengths.{places_of};
ghost use Rattle.profile.specs.PastDays.{counts_kept, sheet, taken};

use crate::method::Method;
use crate::weighing::Profile;
use constants::IntervalLength;
use fault::{Fault, Refusal};
use intervals::MOST_PULSES;

// The days of a week.
const WEEK: usize = 7;

// The most days of a sheet.
const MOST_PAST_DAYS: u32 = 90;

// The most days that a weight is the average of.
const MOST_AVERAGED: usize = 3;

const UNFIT: Refusal = Refusal::ReferenceDaysUnfit;

// A sheet of past days that fits.
#[derive(Clone, Copy)]
pub struct ReferenceDays<'a> {
    // of the cycle's first day: 0 for Monday to 6 for Sunday, to be counted on modulo 7
    first_weekday: u8,
    interval: IntervalLength,
    // day after day, the newest first, each from midnight on
    counts: &'a [u32],
    // one for each day, 0 for a usable one: bytes beside the counts, as the sheet comes from outside
    marks: &'a [u8],
    ghost weekday: { first_weekday < 7 },
    ghost few_days: { length marks.now ≤ 90 },
    ghost all_counted: { length counts.now ≡ length marks.now * places_of interval },
    ghost kept: { IsTrue (counts_kept counts.now) },
}

impl<'a> ReferenceDays<'a> {
    ghost use Rattle.profile.specs.Laws.{WeekdaysRunBack, WeighsByAverage};
    ghost use Rattle.profile.specs.PastDaysOf.{past_days_of, made_of};

    // Plain numbers, as they come from outside: a type for them would ask their checks of the caller.
    pub fn new(
        first_weekday: u32,
        places_a_day: u32,
        days: u32,
        counts: &'a [u32],
        marks: &'a [u8],
    ) -> Result<ReferenceDays<'a>, Fault>
        ensures made { made_of result ≡ taken (sheet first_weekday places_a_day days counts.now marks.now) }
        ensures weighs { IfOk result (λ d. WeighsByAverage (past_days_of d)) }
        ensures weekdays { WeekdaysRunBack }
    {
        let interval = IntervalLength::try_from(places_a_day).map_err(|_| UNFIT)?;
        if (first_weekday as usize) < WEEK
            && days <= MOST_PAST_DAYS
            && counts.len() == days as usize * interval.places_a_day()
            && marks.len() == days as usize
            && counts_kept(counts)
        {
            Ok(ReferenceDays {
                first_weekday: first_weekday as u8,
                interval,
                counts,
                marks,
            })
        } else {
            Err(UNFIT.into())
        }
    }
}

impl ReferenceDays<'_> {
    ghost use Rattle.profile.specs.Averages.{weekday_at, time_of_day, count_on, similar, reference_counts};
    ghost use Rattle.profile.specs.PastDaysOf.{past_days_of};

    fn weekday_at(&self, place: usize) -> usize
        ensures { result ≡ weekday_at (past_days_of self.now) place }
    {
        (usize::from(self.first_weekday) + place / self.interval.places_a_day()) % WEEK
    }

    // Whether a place of the weekday may be weighed by the day.
    fn is_similar(&self, weekday: usize, day: u8) -> bool
        ensures { result ≡ similar (past_days_of self.now) weekday day }
    {
        // a day back in the week is six days on
        let weekday_back = (usize::from(self.first_weekday) + 6 * (usize::from(day) + 1)) % WEEK;
        self.marks
            .get(usize::from(day))
            .is_some_and(|mark| *mark == 0)
            && weekday_back == weekday
    }

    // No day has more than 96 places.
    fn time_of_day(&self, place: usize) -> u8
        ensures { result ≡ time_of_day (past_days_of self.now) place }
    {
        (place % self.interval.places_a_day()) as u8
    }

    // What was counted on the day at a time of day.
    fn count_on(&self, time: u8, day: u8) -> u32
        ensures count { result ≡ count_on (past_days_of self.now) time day }
        ensures kept { result ≤ 65535 }
    {
        let index = usize::from(day) * self.interval.places_a_day() + usize::from(time);
        self.counts.get(index).copied().unwrap_or(0)
    }

    // The counts that a place is weighed by: their total, and how many they are.
    // Not inlined: within `share`, passing over a day would take half as long again.
    #[inline(never)]
    fn newest(&self, place: usize) -> (u32, u32)
        ensures counts { result ≡ (sum (reference_counts (past_days_of self.now) place), length (reference_counts (past_days_of self.now) place)) }
        ensures kept { result.0 ≤ 65535 * result.1 }
    {
        let weekday = self.weekday_at(place);
        let time = self.time_of_day(place);
        let newest_days = (0..self.marks.len() as u8)
            .filter(|day| self.is_similar(weekday, *day))
            .take(MOST_AVERAGED);
        let mut total = 0;
        let mut found = 0;
        // a loop, since what a `map` or a `fold` behind `take` asks of its closure is not proved
        for day in newest_days {
            total += self.count_on(time, day);
            found += 1;
        }
        (total, found)
    }
}

impl Profile for ReferenceDays<'_> {
    ghost use Rattle.profile.specs.Averages.{reference_weight};
    ghost use Rattle.profile.specs.Laws.{WholeWeeksBack, BetweenCounts, WeighsByAverage};
    ghost use Rattle.profile.specs.PastDaysOf.{past_days_of};

    ghost meaning = { λ s. reference_weight (past_days_of s) };

    fn weight(&self, place: usize) -> Option<(u16, u8)>
        ensures answer { result ≡ reference_weight (past_days_of self.now) place }
        ensures weeks { WholeWeeksBack (past_days_of self.now) place }
        ensures between { BetweenCounts (past_days_of self.now) place result }
        ensures weighs { WeighsByAverage (past_days_of self.now) }
    {
        let (total, found) = self.newest(place);
        // no kept count is above 65,535, so no average is
        total
            .checked_div(found)
            .map(|average| (average as u16, Method::ReferenceDays.code()))
    }
}

// Whether every count can be the pulses of a place.
fn counts_kept(counts: &[u32]) -> bool
    ensures { result ≡ counts_kept counts.now }
{
    counts.iter().all(|count| *count <= MOST_PULSES)
}
