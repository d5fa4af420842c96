// The table of readings as its users see it: a row that grows at its end.
ghost use Rattle.std.specs.Prelude.{◌≡◌, ◌<◌, ◌≤◌, true, [], ◌∷◌, ◌++◌, length, IfOk};
ghost use Rattle.std.specs.Result.{result_map_both};
ghost use Rattle.std.specs.List.{slice_get};
ghost use Rattle.readings.specs.Rows.{rows};
ghost use Rattle.constants.specs.Sizes.{cycle_places};
ghost use Rattle.readings.specs.Entering.{above_last, entered_row};
ghost use Rattle.readings.specs.Laws.{Kept};

use crate::reading::Reading;
use crate::table::{MOST_READINGS, Readings};
use constants::{Cycle, Register};
use fault::{Fault, Refusal};

impl Readings {
    pub fn new() -> Readings
        ensures { rows result ≡ [] }
    {
        Readings {
            entries: [Reading::default(); MOST_READINGS],
            count: 0,
        }
    }

    pub(crate) fn as_slice(&self) -> &[Reading]
        ensures value { result.now ≡ rows self.now }
        ensures few { length result.now ≤ 32 }
    {
        &self.entries[..self.count]
    }

    pub(crate) fn len(&self) -> usize
        ensures count { result ≡ length (rows self.now) }
        ensures few { result ≤ 32 }
    {
        self.as_slice().len()
    }

    // Whether a boundary is above the last one.
    fn rises_to(&self, boundary: u32) -> bool
        ensures { result ≡ above_last (rows self.now) boundary }
    {
        let last = self.as_slice().last();
        last.is_none_or(|reading| u32::from(reading.boundary) < boundary)
    }

    fn pushed(self, reading: Reading) -> Readings
        requires room { length (rows self) < 32 }
        requires above { above_last (rows self) reading.boundary ≡ true }
        ensures { rows result ≡ rows self ++ (reading ∷ []) }
    {
        let mut entries = self.entries;
        entries[self.count] = reading;
        Readings {
            entries,
            count: self.count + 1,
        }
    }

    // The table with one more reading at its end.
    pub fn entered(
        self,
        boundary: u32,
        reading: u32,
        cycle: &Cycle,
        register: &Register,
    ) -> Result<Readings, Fault>
        ensures row { result_map_both rows (λ f. f) result ≡ entered_row (cycle_places cycle.now) register.now.dials (rows self) boundary reading }
        ensures kept { IfOk result (λ t. Kept (cycle_places cycle.now) register.now.dials (rows self) (rows t)) }
    {
        if self.len() >= MOST_READINGS {
            return Err(Refusal::ReadingsFull.into());
        }
        if boundary as usize > cycle.places() || !self.rises_to(boundary) {
            return Err(Refusal::BoundaryNotRising.into());
        }
        if reading >= register.modulus() {
            return Err(Refusal::ReadingBeyondDials.into());
        }
        Ok(self.pushed(Reading {
            boundary: boundary as u16,
            register: reading,
        }))
    }
}
