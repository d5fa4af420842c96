// Tests of profiles and sharing. They have a crate of their own, since a crate with tests is proved twice.

#![tactic(auto)]

#[cfg(test)]
mod profiles;
#[cfg(test)]
mod shares;
