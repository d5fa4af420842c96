// What the book has found out about a place, and the sharing of an amount over the open ones.

#![tactic(auto)]

pub mod estimate;
mod part;
mod spread;
pub mod state;

pub use estimate::share;
pub use state::{State, Status};
