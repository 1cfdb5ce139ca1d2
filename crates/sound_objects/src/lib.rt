//! What it takes for objects to have none of the faults: definitions and laws for the crates that write objects.
#![tactic(auto)]
