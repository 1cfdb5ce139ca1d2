//! Runs of the machine under plans whose interrupts also write shared data.
#![tactic(auto)]

pub mod ranges;
pub mod run_shared;
mod shared_schedule;
