// The words of data that hold addresses, read from the relocations.

ghost use Rattle.std.specs.Prelude.{◌≡◌, false, ◌<◌, ◌+◌, ◌^◌, ◌++◌, None, Some, IfOk, All, filter, map, true};
ghost use Rattle.elf32_read.specs.Parts.{is_code_section};
ghost use Rattle.psabi_sym.specs.Inputs.{parsed};
ghost use Rattle.psabi_sym.specs.Indexed.{section_at};
ghost use Rattle.block_cut.specs.DataWords.{held_address, resolved_word, data_words_in};
ghost use Rattle.block_cut.specs.Faults.{section_fault};
ghost use Rattle.block_cut.specs.Relocs.{is_word};
ghost use Rattle.block_cut.specs.Resolved.{resolved_relocs};

use crate::data_word::DataWord;
use crate::kinds::is_word;
use crate::resolved_reloc::ResolvedReloc;
use elf32_read::header::NOBITS;
use psabi_sym::objects::Objects;
use psabi_sym::section_ref::SectionRef;
use psabi_sym::section_row::SectionRole;
use std::alloc::AllocError;

// The address of a section, if it is data whose bytes a file holds.
fn held_address(objects: &Objects, section: &SectionRef) -> Option<u32>
    requires { section_at (parsed objects.now).objects section.now.object section.now.index
        ≡ Some section.now.section }
    ensures { result ≡ held_address (parsed objects.now) section.now }
{
    if section.kind() == NOBITS {
        return None;
    }
    match section.role() {
        SectionRole::InClass(_) => { Some(objects.data_address(section.object(), section.index())) }
        SectionRole::Code | SectionRole::Dropped => None,
    }
}

// Adds the words of a section of data that begins at an address.
fn add_words(words: &mut Vec<DataWord>, at: u32, relocs: &[ResolvedReloc]) -> Result<(), AllocError>
    requires { All (λ d. is_word d.kind ≡ true → at + d.offset < 2 ^ 32) relocs.now }
    ensures { IfOk result (λ _. words.new.items
        ≡ words.old.items ++ map (resolved_word at) (filter (λ d. is_word d.kind) relocs.now)) }
{
    for reloc in relocs {
        if is_word(reloc.kind) {
            words.push(DataWord {
                at: at + reloc.offset,
                target: reloc.target,
            })?;
        }
    }
    Ok(())
}

/// Adds the words of a section, by its relocations if it is data, of which none has a fault.
pub fn add_section_words(
    words: &mut Vec<DataWord>,
    objects: &Objects,
    section: &SectionRef,
    relocs: &[ResolvedReloc],
) -> Result<(), AllocError>
    requires section { section_at (parsed objects.now).objects section.now.object section.now.index
        ≡ Some section.now.section }
    requires relocs { is_code_section section.now.section ≡ false
        → relocs.now ≡ resolved_relocs (parsed objects.now) section.now }
    requires faultless { section_fault (parsed objects.now) section.now ≡ None }
    ensures { IfOk result (λ _. words.new.items ≡ words.old.items ++ data_words_in (parsed objects.now) section.now) }
{
    // Data end within the map, so no address is too large.
    objects.recall_invariant();
    match held_address(objects, section) {
        None => Ok(()),
        Some(at) => {
            add_words(words, at, relocs)?;
            Ok(())
        }
    }
}
