// Profiles: what says how an amount is spread over places.

#![tactic(auto)]

pub mod flat;
pub mod method;
pub mod pair;
pub mod reference_days;
pub mod weighing;

pub use flat::Flat;
pub use method::Method;
pub use pair::Pair;
pub use reference_days::ReferenceDays;
pub use weighing::Profile;
