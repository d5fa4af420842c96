// Reference days of 24 places over four weeks. Day 6 lies a week before the cycle's first day.
use fault::{Fault, Refusal};
use profile::flat::Flat;
use profile::pair::Pair;
use profile::reference_days::ReferenceDays;
use profile::weighing::Profile;
use std::test::Fail;

// Counts at five o'clock: those of the first weekday in the last four weeks, the newest first, and one of the next.
fn four_weeks() -> [u32; 672] {
    let mut counts = [0; 672];
    counts[149] = 10;
    counts[317] = 20;
    counts[485] = 32;
    counts[653] = 1000;
    counts[125] = 7;
    counts
}

// Whether those days, marked so, weigh a place by the answer.
fn weighs(first_weekday: u32, marks: [u8; 28], place: usize, answer: Option<(u16, u8)>) -> bool {
    let counts = four_weeks();
    let days = ReferenceDays::new(first_weekday, 24, 28, &counts, &marks);
    days.is_ok_and(|days| days.weight(place) == answer)
}

fn is_unfit(first_weekday: u32, places: u32, days: u32, counts: &[u32], marks: &[u8]) -> bool {
    let made = ReferenceDays::new(first_weekday, places, days, counts, marks);
    made.err() == Some(Fault::at(Refusal::ReferenceDaysUnfit, 0))
}

#[test]
fn refusals(rt: HostRuntime) {
    let counts = [65_535; 2184];
    let large = [65_536; 24];
    let marks = [0; 91];
    assert!(rt; !is_unfit(6, 24, 90, &counts[0..2160], &marks[0..90]));
    assert!(rt; is_unfit(7, 24, 1, &counts[0..24], &marks[0..1]));
    assert!(rt; is_unfit(6, 25, 1, &counts[0..25], &marks[0..1]));
    assert!(rt; is_unfit(6, 24, 91, &counts, &marks));
    assert!(rt; is_unfit(6, 24, 1, &counts[0..23], &marks[0..1]));
    assert!(rt; is_unfit(6, 24, 1, &counts[0..24], &marks[0..2]));
    assert!(rt; is_unfit(6, 24, 1, &large, &marks[0..1]));
}

#[test]
fn newest_three_days(rt: HostRuntime) {
    let mut marks = [0; 28];
    assert!(rt; weighs(0, marks, 5, Some((20, 3))));
    marks[27] = 1;
    marks[6] = 255;
    assert!(rt; weighs(0, marks, 5, Some((26, 3))));
    marks[13] = 1;
    assert!(rt; weighs(0, marks, 5, Some((32, 3))));
    marks[20] = 1;
    assert!(rt; weighs(0, marks, 5, None));
}

#[test]
fn weekdays(rt: HostRuntime) {
    let mut marks = [1; 28];
    marks[5] = 0;
    marks[6] = 0;
    assert!(rt; weighs(0, marks, 29, Some((7, 3))));
    assert!(rt; weighs(6, marks, 29, Some((7, 3))));
    assert!(rt; weighs(6, marks, 173, Some((10, 3))));
}

#[test]
fn pair_falls_through(rt: HostRuntime) -> Result<(), Fail> {
    let days = ReferenceDays::new(0, 24, 0, &[], &[])?;
    let pair = Pair {
        first: days,
        second: Flat,
    };
    assert!(rt; days.weight(0) == None);
    assert!(rt; pair.weight(0) == Some((1, 1)));
    Ok(())
}
