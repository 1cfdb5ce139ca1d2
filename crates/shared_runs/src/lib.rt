//! Programs whose interrupts write shared data: that an image keeps step with them.
#![tactic(auto)]
