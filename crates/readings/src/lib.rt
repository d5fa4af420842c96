// The readings of a register within a cycle, and the regions that they cut the cycle into.

#![tactic(auto)]

pub mod reading;
mod regions;
pub mod table;

pub use reading::Reading;
pub use table::Readings;
