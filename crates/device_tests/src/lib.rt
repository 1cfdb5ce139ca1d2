//! Tests of texts of devices, and of both machines with devices. They have a crate of their own, since a crate with
//! tests is proved twice.
#![tactic(auto)]

#[cfg(test)]
mod images;
#[cfg(test)]
mod objects;
#[cfg(test)]
mod row;
#[cfg(test)]
mod rows;
#[cfg(test)]
mod texts;
