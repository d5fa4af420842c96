// The five numbers that a call is made with, read from the words of a command line.
ghost use Rattle.std.specs.Prelude.{◌≡◌};
ghost use Rattle.call.specs.Arguments.{arguments_of};

use crate::clocks::Clocks;
use fault::{Fault, Refusal};

#[derive(Clone, Copy)]
pub struct Arguments {
    pub dialled: u32,
    pub answered: u32,
    pub clocks: Clocks,
}

// From the words of the command line, each with its number if it is one.
impl TryFrom<&[Option<u32>]> for Arguments {
    type Error = Fault;

    ghost try_from_gives = { λ words r. r ≡ arguments_of words.now };

    fn try_from(words: &[Option<u32>]) -> Result<Arguments, Fault> {
        let [
            Some(dialled),
            Some(answered),
            Some(device),
            Some(standard),
            Some(meter),
        ] = *words
        else {
            return Err(Refusal::LineUnreadable.into());
        };
        Ok(Arguments {
            dialled,
            answered,
            clocks: Clocks {
                device,
                standard,
                meter,
            },
        })
    }
}
