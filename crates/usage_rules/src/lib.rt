// The rules that go by usage: a day's spike, and the cycle against past usage.

#![tactic(auto)]

pub mod high_low;
pub mod spike;

pub use high_low::HighLowCheck;
pub use spike::SpikeCheck;
