//! Listings of images: texts with a line for each instruction, and for each sixteen bytes of data, which read back to
//! the image's segments.
#![tactic(auto)]

mod digits;
pub mod fault;
mod line;
pub mod list;
pub mod list_segment;
mod read_content;
mod read_head;
pub mod read_list;
mod read_segment;
