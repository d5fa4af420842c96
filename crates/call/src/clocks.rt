// The three clocks that are compared when a meter is identified.
ghost use Rattle.std.specs.Prelude.{◌≡◌};
ghost use Rattle.call.specs.Clocks.{drift_of, device_off};

// Seconds by each clock, at the same moment.
#[derive(Clone, Copy)]
pub struct Clocks {
    pub device: u32,
    pub standard: u32,
    pub meter: u32,
}

// The most seconds by which the device's clock may differ from the national standard.
const TOLERANCE: u32 = 2;

impl Clocks {
    // Meter time minus device time, in seconds.
    pub fn drift(&self) -> i64
        ensures { result ≡ drift_of self.now }
    {
        i64::from(self.meter) - i64::from(self.device)
    }

    // Whether the device's own clock is too far off to measure a drift by.
    pub fn device_is_off(&self) -> bool
        ensures { result ≡ device_off self.now }
    {
        self.device.abs_diff(self.standard) > TOLERANCE
    }
}
