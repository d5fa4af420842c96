// Places and regions of the data held, where the intervals fill the cycle and no boundary passes its end.
ghost use Rattle.std.specs.Prelude.{◌≡◌, ◌≤◌, length};
ghost use Rattle.std.specs.List.{slice_get};
ghost use Rattle.held.specs.HeldData.{places, in_cycle};
ghost use Rattle.held.specs.DataOf.{data_of};
ghost use Rattle.readings.specs.Regions.{region_end};
ghost use Rattle.held.specs.RegionData.{region_intervals, advance_of};
ghost use Rattle.readings.specs.Laws.{Ordered};

use crate::view::Held;
use intervals::Interval;

impl<'a> Held<'a> {
    // Whether the cycle has a place of this number.
    pub fn has_place(&self, place: usize) -> bool
        ensures { result ≡ in_cycle (data_of self.now) place }
    {
        place < self.cycle.places()
    }

    // The interval of a place, if the cycle has one of this number.
    pub fn interval(&self, place: usize) -> Option<Interval>
        ensures { result ≡ slice_get (data_of self.now).intervals place }
    {
        self.intervals.get(place).copied()
    }

    // The place that a region ends before.
    pub fn region_end(&self, region: usize) -> usize
        ensures place { result ≡ region_end (places (data_of self.now)) (data_of self.now).readings region }
        ensures ordered { Ordered (places (data_of self.now)) (data_of self.now).readings region }
        ensures inside { result ≤ length (data_of self.now).intervals }
    {
        self.readings.region_end(region, &self.cycle)
    }

    pub fn region_intervals(&self, region: usize) -> &'a [Interval]
        ensures intervals { result.now ≡ region_intervals (data_of self.now) region }
        ensures few { length result.now ≤ 2976 }
    {
        let start = self.readings.region_start(region);
        &self.intervals[start..self.region_end(region)]
    }

    // How far the register went over a region, in units, if it has a reading on both sides.
    pub fn advance(&self, region: usize) -> Option<u32>
        ensures { result ≡ advance_of (data_of self.now) region }
    {
        let units = self.readings.advance(region, &self.register);
        self.readings.is_inner(region).then_some(units)
    }
}
