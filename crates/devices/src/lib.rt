//! Devices: where they lie, what they answer, and which stored bytes appear on standard output.
#![tactic(auto)]

pub mod answers;
pub mod device_list;
pub mod environment;
pub mod fault;
pub mod kept_line;
mod line;
mod ranges;
pub mod read_devices;
mod tables;
