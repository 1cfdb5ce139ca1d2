//! The code of the objects, cut into items.
#![tactic(auto)]

pub mod code_place;
mod code_section;
mod code_span;
mod code_tables;
mod code_targets;
mod content;
pub mod cut;
pub mod cut_code;
pub mod data_word;
mod data_words;
mod fields;
mod halfword_tables;
pub mod item;
mod item_leads;
mod judge;
mod kinds;
mod leaders;
mod leads;
mod marks;
pub mod place_number;
mod plain_layout;
mod reach;
mod reloc_item;
mod reloc_targets;
mod relocated;
mod resolved_reloc;
mod section_items;
mod section_words;
mod spelled;
