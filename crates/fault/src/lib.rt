// How a call is turned down: what was refused, where, and which layer found it.

#![tactic(auto)]

pub mod layer;
pub mod record;
pub mod refusal;

pub use layer::Layer;
pub use record::Fault;
pub use refusal::Refusal;
