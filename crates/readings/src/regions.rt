// The regions that readings cut the cycle into. Every question has an answer for every number, that of the
// definitions; the numbers of regions run up to the number of readings.
ghost use Rattle.std.specs.Prelude.{◌≡◌, ℕ, ◌<◌, ◌≤◌};
ghost use Rattle.readings.specs.Rows.{rows};
ghost use Rattle.constants.specs.Sizes.{cycle_places};
ghost use Rattle.readings.specs.Rising.{Within};
ghost use Rattle.readings.specs.Regions.{region_count, region_start, region_end, inner, region_at, advance, allowed_units};
ghost use Rattle.readings.specs.Laws.{OnlyRegion, Ordered, Rolls};

use crate::table::Readings;
use constants::{Cycle, Register};

impl Readings {
    pub fn region_count(&self) -> usize
        ensures count { result ≡ region_count (rows self.now) }
        ensures few { result ≤ 33 }
    {
        self.len() + 1
    }

    pub fn region_start(&self, region: usize) -> usize
        ensures { result ≡ region_start (rows self.now) region }
    {
        let before = region
            .checked_sub(1)
            .and_then(|last| self.as_slice().get(last));
        before.map_or(0, |reading| usize::from(reading.boundary))
    }

    pub fn region_end(&self, region: usize, cycle: &Cycle) -> usize
        ensures place { result ≡ region_end (cycle_places cycle.now) (rows self.now) region }
        ensures ordered { Within (cycle_places cycle.now) (rows self.now) → Ordered (cycle_places cycle.now) (rows self.now) region }
    {
        let next = self.as_slice().get(region);
        next.map_or(cycle.places(), |reading| usize::from(reading.boundary))
    }

    // Whether the region has a reading on both sides.
    pub fn is_inner(&self, region: usize) -> bool
        ensures { result ≡ inner (rows self.now) region }
    {
        0 < region && region < self.len()
    }

    // The region that a place lies in.
    pub fn region_of(&self, place: usize) -> usize
        ensures count { result ≡ region_at (rows self.now) place }
        ensures only { (n : ℕ) → place < n → OnlyRegion n (rows self.now) place result }
    {
        let readings = self.as_slice();
        readings.partition_point(|reading| usize::from(reading.boundary) <= place)
    }

    // How far the register went over the region, in units; 0 of an outer region, as in the definition.
    #[tactic(auto, using(crate::proofs::Rolling::region_rolls))]
    pub fn advance(&self, region: usize, register: &Register) -> u32
        ensures units { result ≡ advance register.now.dials (rows self.now) region }
        ensures few { result < 1000000 }
        ensures rolls { Rolls register.now.dials (rows self.now) region }
    {
        if !self.is_inner(region) {
            return 0;
        }
        let readings = self.as_slice();
        register.advance(readings[region - 1].register, readings[region].register)
    }

    // By how many units the pulses of a region may differ from its advance.
    pub fn allowed_units(&self, _region: usize) -> u32
        ensures { result ≡ allowed_units (rows self.now) _region }
    {
        2
    }
}
