// Opening with plain numbers: what lies outside the limits is refused.
ghost use Rattle.std.specs.Prelude.{◌≡◌};
ghost use Rattle.std.specs.Result.{result_map_both};
ghost use Rattle.constants.specs.Sizes.{cycle_sizes, register_sizes, usage_sizes};
ghost use Rattle.constants.specs.Opening.{opened_cycle, opened_register, opened_usage};

use crate::cycle::{Cycle, LONGEST_CYCLE, MOST_DAYS};
use crate::interval_length::IntervalLength;
use crate::register::Register;
use crate::usage::Usage;
use fault::{Fault, Refusal};
use intervals::MOST_PULSES;

const OUTSIDE: Refusal = Refusal::OpeningOutsideLimits;

impl Cycle {
    // Plain numbers, as they come from outside: types for them would ask their checks of the caller.
    pub fn new(days: u32, places_a_day: u32, first_weekday: u32) -> Result<Cycle, Fault>
        ensures { result_map_both cycle_sizes (λ f. f) result ≡ opened_cycle days places_a_day first_weekday }
    {
        // only whether there is such a length: the number itself is kept
        IntervalLength::try_from(places_a_day).map_err(|_| OUTSIDE)?;
        if !(1..=MOST_DAYS).contains(&days) || first_weekday > 6 {
            return Err(OUTSIDE.into());
        }
        Ok(Cycle {
            days: days as usize,
            places_a_day: places_a_day as usize,
            first_weekday: first_weekday as usize,
        })
    }
}

impl Register {
    pub fn new(dials: u32, pulses_per_unit: u32) -> Result<Register, Fault>
        ensures { result_map_both register_sizes (λ f. f) result ≡ opened_register dials pulses_per_unit }
    {
        if !(4..=6).contains(&dials) || !(1..=1000).contains(&pulses_per_unit) {
            return Err(OUTSIDE.into());
        }
        Ok(Register {
            dials: dials as u8,
            pulses_per_unit: pulses_per_unit as u16,
        })
    }
}

impl Usage {
    // The usage of no places at all is none.
    pub fn new(pulses: u32, places: u32) -> Result<Option<Usage>, Fault>
        ensures { result_map_both usage_sizes (λ f. f) result ≡ opened_usage pulses places }
    {
        if u64::from(pulses) > u64::from(MOST_PULSES) * u64::from(places)
            || places as usize > LONGEST_CYCLE
        {
            return Err(OUTSIDE.into());
        }
        if places == 0 {
            return Ok(None);
        }
        Ok(Some(Usage {
            pulses,
            places: places as u16,
        }))
    }
}
