//! Certificates of jump tables: what an assignment of slots saves, a bound by prices that no assignment exceeds, the
//! checker, which accepts a certificate only if no assignment saves more than its net, and certificates as texts.
#![tactic(auto)]

pub mod accepts;
pub mod assignment;
pub mod bound;
pub mod certificate;
pub mod fault;
mod first;
mod line;
pub mod part;
pub mod push_lines;
pub mod read_certificate;
pub mod saving;
pub mod write_certificate;
