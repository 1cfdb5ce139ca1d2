//! Tests of the two machines, over small programs, and of the texts of plans. They have a crate of their own, since a
//! crate with tests is proved twice.
#![tactic(auto)]

#[cfg(test)]
mod expansions;
#[cfg(test)]
mod images;
#[cfg(test)]
mod objects;
#[cfg(test)]
mod plans;
#[cfg(test)]
mod ranges;
#[cfg(test)]
mod row;
#[cfg(test)]
mod shared_plans;
