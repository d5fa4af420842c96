// Tests of readings and rules. They have a crate of their own, since a crate with tests is proved twice.

#![tactic(auto)]

#[cfg(test)]
mod rules;
#[cfg(test)]
mod spikes;
#[cfg(test)]
mod tables;
