// How long an interval lasts, by which a day has so many places.
ghost use Rattle.std.specs.Prelude.{◌≡◌, Some};
ghost use Rattle.constants.specs.Lengths.{length_read, places_of, unknown_length_line};

use std::error::Error;
use std::fmt;

#[derive(Clone, Copy)]
pub enum IntervalLength {
    Hour = 24,
    HalfHour = 48,
    QuarterHour = 96,
}

// A number of places that no length gives a day.
#[derive(Clone, Copy, PartialEq, Eq, Debug)]
pub struct UnknownLength {
    pub places_a_day: u32,
}

impl IntervalLength {
    pub fn places_a_day(self) -> usize
        ensures { result ≡ places_of self }
    {
        self as usize
    }
}

// The length by which a day has so many places, if there is one.
impl TryFrom<u32> for IntervalLength {
    type Error = UnknownLength;

    ghost try_from_gives = { λ p r. r ≡ length_read p };

    fn try_from(places_a_day: u32) -> Result<IntervalLength, UnknownLength> {
        match places_a_day {
            24 => Ok(IntervalLength::Hour),
            48 => Ok(IntervalLength::HalfHour),
            96 => Ok(IntervalLength::QuarterHour),
            _ => Err(UnknownLength { places_a_day }),
        }
    }
}

impl fmt::Display for UnknownLength {
    ghost output = { λ x. Some (unknown_length_line x) };

    fn fmt<W: fmt::Write>(&self, f: &mut fmt::Formatter<W>) -> fmt::Result {
        write!(f, "no day has {} places", self.places_a_day)
    }
}

impl Error for UnknownLength {}
