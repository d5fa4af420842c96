// What stays the same for a meter's whole cycle: the cycle itself, the register, and the usage before it.

#![tactic(auto)]

pub mod cycle;
pub mod interval_length;
mod opening;
pub mod register;
pub mod usage;

pub use cycle::{Cycle, LONGEST_CYCLE};
pub use interval_length::{IntervalLength, UnknownLength};
pub use register::Register;
pub use usage::Usage;
