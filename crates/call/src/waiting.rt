// A call that is dialled and not answered yet.
ghost use Rattle.std.specs.Prelude.{◌≡◌};
ghost use Rattle.call.specs.Stages.{waiting_for, handed_back, identified};

use crate::clocks::Clocks;
use crate::identified::Identified;
use fault::{Fault, Refusal};

#[derive(Drop)]
pub struct Waiting {
    pub(crate) number: u32,
}

// A refused identification: why, and the waiting call, which may be tried again.
#[derive(Drop)]
pub struct Unanswered {
    pub call: Waiting,
    pub fault: Fault,
}

impl Waiting {
    pub fn dial(number: u32) -> Waiting
        ensures { result ≡ waiting_for number }
    {
        Waiting { number }
    }

    pub fn number(&self) -> u32
        ensures { self.now ≡ waiting_for result }
    {
        self.number
    }

    pub fn identify(self, clocks: Clocks, answered: u32) -> Result<Identified, Unanswered>
        ensures { result ≡ identified self clocks answered }
    {
        if clocks.device_is_off() {
            return Err(self.handed_back(Refusal::DeviceClockOff));
        }
        if answered != self.number {
            return Err(self.handed_back(Refusal::OtherMeterAnswered));
        }
        Ok(Identified {
            number: self.number,
            drift: clocks.drift(),
        })
    }

    // The waiting call as it was, with the reason.
    fn handed_back(self, refusal: Refusal) -> Unanswered
        ensures { result ≡ handed_back self refusal }
    {
        Unanswered {
            call: self,
            fault: refusal.into(),
        }
    }
}
