//! Tests of `zc_base`, `rv_decode`, `rv_encode`, `zc_decode`, `zc_encode`, `psabi_reloc`, `zca_zcb_pass` and
//! `instruction_text`, by their public calls: words, halfwords and relocations as other tools encode them, and the
//! texts of instructions. They have a crate of their own, since a crate with tests is proved twice.
#![tactic(auto)]

#[cfg(test)]
mod base;
#[cfg(test)]
mod extensions;
#[cfg(test)]
mod forms;
#[cfg(test)]
mod halfwords;
#[cfg(test)]
mod instrs;
#[cfg(test)]
mod relocs;
#[cfg(test)]
mod rows;
#[cfg(test)]
mod texts;
#[cfg(test)]
mod words;
#[cfg(test)]
mod zcmp;
