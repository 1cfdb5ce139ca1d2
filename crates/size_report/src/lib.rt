//! The report of a link: the lengths of its texts, its counts, and the lines of its certificate.
#![tactic(auto)]

pub mod report;
