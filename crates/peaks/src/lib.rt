// The highest counts of a day, and the one that is a spike among them.

#![tactic(auto)]

pub mod spike;

pub use spike::{shows_spike, spike_of};
