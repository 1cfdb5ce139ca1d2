//! Tests of `zc_outside`: its stores and consoles in memory, and over files and streams, some of whose calls are
//! refused. They have a crate of their own, since a crate with tests is proved twice.
#![tactic(auto)]

#[cfg(test)]
mod consoles;
#[cfg(test)]
mod drip;
#[cfg(test)]
mod refusing;
#[cfg(test)]
mod stores;
