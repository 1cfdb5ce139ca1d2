//! Loads: objects are linked by `plain` and by `zc`, their program is traced, and both images are run.
#![tactic(auto)]

mod ended;
mod faultless;
mod image;
pub mod load;
pub mod load_end;
pub mod run_load;
pub mod summary;
mod trace;
