// The data held of a cycle, which a rule is worked out from.

#![tactic(auto)]

pub mod view;

pub use view::Held;
