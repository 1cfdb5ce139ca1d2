//! Tests of what the command `make` generates, by the public calls of `load_maker` and `interrupt_plan`, and of
//! reports. They have a crate of their own, since a crate with tests is proved twice.
#![tactic(auto)]

#[cfg(test)]
mod objects;
#[cfg(test)]
mod plans;
#[cfg(test)]
mod reports;
