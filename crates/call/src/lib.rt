// A reading call: waiting for its meter, identified, over. Each stage is a type of its own that is moved into the
// next, so that a block can be taken only while the call is identified.

#![tactic(auto)]

pub mod arguments;
pub mod clocks;
pub mod identified;
pub mod over;
pub mod waiting;

pub use arguments::Arguments;
pub use clocks::Clocks;
pub use identified::Identified;
pub use over::Over;
pub use waiting::{Unanswered, Waiting};
