// Whole cycles put to the rules.
ghost use Rattle.std.specs.Prelude.{◌≡◌, ◌*◌, ◌+◌, ◌<◌};

use constants::{Cycle, Register, Usage};
use held::Held;
use intervals::{Condition, Interval};
use readings::Readings;
use std::process::Abort;
use std::test::Fail;
use usage_rules::high_low::HighLowCheck;
use usage_rules::spike::SpikeCheck;
use validation::conditions::{OverflowCheck, TestModeCheck};
use validation::rule::Rule;
use validation::sum::SumCheck;

const GOOD: Interval = Interval {
    pulses: 20,
    condition: Condition::Good,
};

const SPIKE: Interval = Interval {
    pulses: 900,
    condition: Condition::Good,
};

const OVERFLOW: Interval = Interval {
    pulses: 900,
    condition: Condition::Overflow,
};

// The first place that a rule questions, if there is one, and how many.
fn questioned<R: Rule>(rule: &R, held: &Held<'_>) -> (Option<usize>, usize) {
    let mut answers = [false; 200];
    rule.ask_all(held, &mut answers);
    let first = answers.iter().position(|answer| *answer);
    let count = answers.iter().filter(|answer| **answer).count();
    (first, count)
}

// Puts a cycle of N places to the rules, with one spike and one overflow after it, past usage of 24 pulses a place and
// no readings.
fn check_day<const N: usize>(rt: &impl Abort, cycle: Cycle, spike: usize)
    requires size { N ≡ cycle.days * cycle.places_a_day }
    requires room { spike + 1 < N }
{
    let mut intervals = [GOOD; N];
    intervals[spike] = SPIKE;
    intervals[spike + 1] = OVERFLOW;
    let readings = Readings::new();
    let register = Register {
        dials: 5,
        pulses_per_unit: 10,
    };
    let past = Some(Usage {
        pulses: 240,
        places: 10,
    });
    let held = Held {
        cycle,
        register,
        past,
        intervals: &intervals,
        readings: &readings,
    };
    assert_eq!(rt; questioned(&SpikeCheck, &held), (Some(spike), 1));
    assert_eq!(rt; questioned(&OverflowCheck, &held), (Some(spike + 1), 1));
    assert_eq!(rt; questioned(&TestModeCheck, &held), (None, 0));
    assert_eq!(rt; questioned(&SumCheck, &held), (None, 0));
    assert_eq!(rt; questioned(&HighLowCheck, &held), (None, 0));
}

#[test]
fn hours(rt: HostRuntime) {
    let cycle = Cycle {
        days: 1,
        places_a_day: 24,
        first_weekday: 0,
    };
    check_day::<24>(&rt, cycle, 7);
}

#[test]
fn half_hours(rt: HostRuntime) {
    let cycle = Cycle {
        days: 2,
        places_a_day: 48,
        first_weekday: 6,
    };
    check_day::<96>(&rt, cycle, 60);
}

#[test]
fn quarter_hours(rt: HostRuntime) {
    let cycle = Cycle {
        days: 2,
        places_a_day: 96,
        first_weekday: 2,
    };
    check_day::<192>(&rt, cycle, 96);
}

// 99968 to 00294 on five dials: an advance of 326 units. One count is from a test, and the others are well above past
// usage.
#[test]
fn readings(rt: HostRuntime) -> Result<(), Fail> {
    let cycle = Cycle {
        days: 1,
        places_a_day: 24,
        first_weekday: 0,
    };
    let register = Register {
        dials: 5,
        pulses_per_unit: 10,
    };
    let first = Readings::new().entered(2, 99_968, &cycle, &register)?;
    let readings = first.entered(22, 294, &cycle, &register)?;
    let mut intervals = [Interval {
        pulses: 162,
        condition: Condition::Good,
    }; 24];
    intervals[0] = Interval {
        pulses: 162,
        condition: Condition::TestMode,
    };
    let past = Some(Usage {
        pulses: 2_400,
        places: 24,
    });
    let held = Held {
        cycle,
        register,
        past,
        intervals: &intervals,
        readings: &readings,
    };
    assert_eq!(rt; questioned(&TestModeCheck, &held), (Some(0), 1));
    assert_eq!(rt; questioned(&HighLowCheck, &held), (Some(0), 24));
    assert_eq!(rt; questioned(&SumCheck, &held), (None, 0));
    intervals[5] = Interval {
        pulses: 161,
        condition: Condition::Good,
    };
    let held = Held {
        cycle,
        register,
        past: None,
        intervals: &intervals,
        readings: &readings,
    };
    assert_eq!(rt; questioned(&SumCheck, &held), (Some(2), 20));
    Ok(())
}
