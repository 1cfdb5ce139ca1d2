//! Tests of certificates, of the choice of a jump table, of the code that sets its base and of the tree of sums, by the
//! public calls of `pick_check`, `jumptable_pick`, `entry_stub` and `shrink_layout`. They have a crate of their own,
//! since a crate with tests is proved twice.
#![tactic(auto)]

#[cfg(test)]
mod certificates;
#[cfg(test)]
mod picks;
#[cfg(test)]
mod rows;
#[cfg(test)]
mod stubs;
#[cfg(test)]
mod sums;
