// What is known of a place of the cycle: the pulses counted in it, and what the meter says of the count.

#![tactic(auto)]

pub mod condition;
pub mod interval;

pub use condition::{Condition, UnknownCondition};
pub use interval::{Interval, MOST_PULSES};
