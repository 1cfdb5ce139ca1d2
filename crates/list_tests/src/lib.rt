//! Tests of `zc_list`, by its public calls. They have a crate of their own, since a crate with tests is proved twice.
#![tactic(auto)]

#[cfg(test)]
mod fixture;
#[cfg(test)]
mod images;
#[cfg(test)]
mod texts;
