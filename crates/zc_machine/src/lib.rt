//! The machine that runs linked images: RV32IM with the halfwords of Zca, Zcb, Zcmp and Zcmt, and
//! `csrrw` on jvt. Its environment answers all other accesses to control and status registers, and `wfi`.
#![tactic(auto)]

pub mod answer;
pub mod between;
mod cells;
mod code;
mod device_access;
mod load;
pub mod machine;
mod memory;
mod output;
mod pages;
mod plan_schedule;
pub mod reason;
mod region;
pub mod run;
pub mod schedule;
pub mod schedule_cursor;
