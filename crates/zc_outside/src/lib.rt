//! The outside world: a store of files and a console, as traits whose contracts say what their calls
//! mean, and two implementations of each, one in memory and one over the system.
#![tactic(auto)]

mod calls;
pub mod console;
pub mod disk_store;
mod file_write;
mod links;
pub mod mem_console;
pub mod mem_store;
mod new_file;
mod placed;
pub mod read_files;
pub mod std_console;
pub mod store;
mod transfer;
mod trouble;
