// The record that every refused call returns.
ghost use Rattle.std.specs.Prelude.{◌≡◌, Some};
ghost use Rattle.fault.specs.Faults.{fault_at};
ghost use Rattle.fault.specs.Words.{fault_line};

use crate::layer::Layer;
use crate::refusal::Refusal;
use std::error::Error;
use std::fmt;

#[derive(Clone, Copy, PartialEq, Eq, Debug)]
pub struct Fault {
    pub refusal: Refusal,
    // a place of the cycle or a region, 0 where the refusal names none: the number is what a fault prints
    pub position: usize,
    pub layer: Layer,
}

impl Fault {
    pub fn at(refusal: Refusal, position: usize) -> Fault
        ensures { result ≡ fault_at refusal position }
    {
        Fault {
            refusal,
            position,
            layer: refusal.layer(),
        }
    }
}

// A refusal that names no place and no region.
impl From<Refusal> for Fault {
    ghost from_gives = { λ r x. x ≡ fault_at r 0 };

    fn from(refusal: Refusal) -> Fault {
        Fault::at(refusal, 0)
    }
}

impl fmt::Display for Fault {
    ghost output = { λ x. Some (fault_line x) };

    fn fmt<W: fmt::Write>(&self, f: &mut fmt::Formatter<W>) -> fmt::Result {
        write!(
            f,
            "refusal {}, position {}, layer {}",
            self.refusal.number(),
            self.position,
            self.layer.number(),
        )
    }
}

impl Error for Fault {}
