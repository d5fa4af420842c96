// Validation: what a rule is, and the rules that go by a condition or by the register.

#![tactic(auto)]

pub mod conditions;
pub mod rule;
pub mod sum;

pub use conditions::{ConditionCheck, OverflowCheck, TestModeCheck};
pub use rule::Rule;
pub use sum::SumCheck;
