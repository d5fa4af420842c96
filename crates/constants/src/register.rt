// The meter's register: its dials and what a step of it is worth.
ghost use Rattle.std.specs.Prelude.{◌≡◌, ◌^◌, ◌<◌, ◌≤◌};
ghost use Rattle.constants.specs.Dials.{advance_between};

#[derive(Clone, Copy)]
pub struct Register {
    pub dials: u8,
    // pulses that make one unit, a step of the register
    pub pulses_per_unit: u16,
    ghost least_dials: { 4 ≤ dials },
    ghost most_dials: { dials ≤ 6 },
    ghost some_pulses: { 1 ≤ pulses_per_unit },
    ghost few_pulses: { pulses_per_unit ≤ 1000 },
}

impl Register {
    // The number that the dials cannot show any more: past the one before it they begin again at 0.
    pub fn modulus(&self) -> u32
        ensures power { result ≡ 10 ^ self.now.dials }
        ensures some { 0 < result }
        ensures few { result ≤ 1000000 }
    {
        // written out, since `pow` is a loop, and a rule that is asked place by place comes here each time
        match self.dials {
            4 => 10_000,
            5 => 100_000,
            _ => 1_000_000,
        }
    }

    // How far the dials went from one reading to a later one.
    pub fn advance(&self, earlier: u32, later: u32) -> u32
        ensures units { result ≡ advance_between self.now.dials earlier later }
        ensures few { result < 1000000 }
    {
        let modulus = u64::from(self.modulus());
        let up_to = u64::from(later) + modulus;
        (up_to.saturating_sub(u64::from(earlier)) % modulus) as u32
    }
}
