//! Which nodes of a graph are reached from some of them.
#![tactic(auto)]

pub mod walk;
