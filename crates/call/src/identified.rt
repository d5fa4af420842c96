// A call whose meter has answered. It is not let go: it has to be hung up.
ghost use Rattle.std.specs.Prelude.{◌≡◌};
ghost use Rattle.delivery.specs.Blocks.{read_block};
ghost use Rattle.delivery.specs.Views.{delivered_of, shown};
ghost use Rattle.call.specs.Stages.{hung_up};

use crate::over::Over;
use delivery::Stretch;
use fault::Fault;

pub struct Identified {
    pub(crate) number: u32,
    pub(crate) drift: i64,
}

impl Identified {
    pub fn number(&self) -> u32
        ensures { result ≡ self.now.number }
    {
        self.number
    }

    pub fn drift(&self) -> i64
        ensures { result ≡ self.now.drift }
    {
        self.drift
    }

    // Takes the block that the meter sends over this call.
    pub fn take_block<'a>(&self, bytes: &'a [u8]) -> Result<Stretch<'a>, Fault>
        ensures { shown delivered_of result ≡ read_block bytes.now }
    {
        Stretch::read(bytes)
    }

    // Taken apart whole, since an identified call cannot be dropped.
    pub fn hang_up(self) -> Over
        ensures { result ≡ hung_up self }
    {
        let Identified { number, drift } = self;
        Over { number, drift }
    }
}
