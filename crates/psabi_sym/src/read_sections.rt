// What a link keeps of sections.

ghost use Rattle.std.specs.Prelude.{◌≡◌, ◌++◌, ◌^◌, ◌<◌, map, codes, vec_len, ◌+◌, ◌≤◌, OnOk};
ghost use Rattle.std.specs.List.{list_any};
ghost use Rattle.elf32_read.specs.Header.{section_count};
ghost use Rattle.elf32_read.specs.Parts.{object_parts, section_parts, SectionParts, is_kept_section};
ghost use Rattle.elf32_read.specs.Lent.{IsSectionEntry};
ghost use Rattle.psabi_sym.specs.Data.{class_of, is_of_kin, role_of};
ghost use Rattle.psabi_sym.specs.Fixed.{is_fixed};
ghost use Rattle.psabi_sym.specs.Indexed.{sections_in};
ghost use Rattle.psabi_sym.specs.Invariants.Rows.{section_row};
ghost use Rattle.psabi_sym.specs.Objects.{contents_of};

use crate::data_class::DataClass;
use crate::loaded::IndexedObject;
use crate::section_row::{SectionRole, SectionRow};
use bitflags::Flags;
use elf32_read::header::NOBITS;
use elf32_read::section_entry::SectionEntry;
use elf32_read::section_flags::SectionFlags;
use std::alloc::{AllocError, Global};

// The section is kept: it has ALLOC, and isn't the table for unwinding the stack.
fn is_kept(section: &SectionEntry) -> bool
    ensures { (parts : SectionParts) → IsSectionEntry section.now parts → result ≡ is_kept_section parts }
{
    section.flags.contains(SectionFlags::ALLOC) && !section.is_named(b".eh_frame\0")
}

// The name is .sbss, or begins with it and a dot.
fn is_small_zero(section: &SectionEntry) -> bool
    ensures { (parts : SectionParts) → IsSectionEntry section.now parts
        → result ≡ is_of_kin (codes ".sbss") parts.name }
{
    section.is_named(b".sbss\0") || section.name_starts_with(b".sbss.")
}

// The name is .sdata, or begins with it and a dot.
fn is_small_data(section: &SectionEntry) -> bool
    ensures { (parts : SectionParts) → IsSectionEntry section.now parts
        → result ≡ is_of_kin (codes ".sdata") parts.name }
{
    section.is_named(b".sdata\0") || section.name_starts_with(b".sdata.")
}

// The class of a section that is kept and isn't code.
fn class_of(section: &SectionEntry) -> DataClass
    ensures { (parts : SectionParts) → IsSectionEntry section.now parts → result ≡ class_of parts }
{
    if section.kind == NOBITS {
        if is_small_zero(section) {
            return DataClass::SmallZero;
        }
        return DataClass::Zero;
    }
    if !section.flags.contains(SectionFlags::WRITE) {
        return DataClass::ReadOnly;
    }
    if is_small_data(section) {
        return DataClass::SmallData;
    }
    DataClass::Data
}

/// What a section is to a link.
#[tactic(auto, unfolding(crate::specs::Data::role_of))]
pub fn role_of(section: &SectionEntry) -> SectionRole
    ensures { (parts : SectionParts) → IsSectionEntry section.now parts → result ≡ role_of parts }
{
    if !is_kept(section) {
        return SectionRole::Dropped;
    }
    if section.flags.contains(SectionFlags::EXECINSTR) {
        return SectionRole::Code;
    }
    SectionRole::InClass(class_of(section))
}

// The section's name is this one, or begins with it and a dot. It looks at one byte more than the given name has.
fn is_of_kin(section: &SectionEntry, base: &[u8]) -> bool
    ensures { (parts : SectionParts) → IsSectionEntry section.now parts → result ≡ is_of_kin base.now parts.name }
{
    if !section.name_starts_with(base) || base.contains(&0) {
        return false;
    }
    match section.names.get(base.len()) {
        None => false,
        Some(next) => *next == 0 || *next == b'.',
    }
}

// The section's name is one of these, or begins with one of them and a dot.
fn has_name_of(section: &SectionEntry, names: &[Vec<u8>]) -> bool
    ensures { (parts : SectionParts) → IsSectionEntry section.now parts
        → result ≡ list_any (λ name. is_of_kin name parts.name) (contents_of names.now) }
{
    for name in names {
        if is_of_kin(section, name) {
            return true;
        }
    }
    false
}

// Whether the names make a section fixed, by what it is to a link.
fn is_fixed(section: &SectionEntry, role: SectionRole, names: &[Vec<u8>]) -> bool
    ensures { (parts : SectionParts) → IsSectionEntry section.now parts → role ≡ role_of parts
        → result ≡ is_fixed (contents_of names.now) parts }
{
    role.is_code() && has_name_of(section, names)
}

/// Adds the sections of an object to rows, of which the names make some fixed. It looks at few bytes of the sections'
/// names.
pub fn add_sections(
    object: IndexedObject<'_>,
    names: &[Vec<u8>],
    rows: &mut Vec<SectionRow>,
) -> Result<(), AllocError>
    ensures added { OnOk result (rows.new.items
        ≡ rows.old.items ++ map (section_row (contents_of names.now)) (sections_in (object.entry.index, object_parts object.entry.loaded.now))) }
    ensures few { OnOk result (vec_len rows.new ≤ vec_len rows.old + 4096) }
{
    let IndexedObject { index, loaded } = object;
    let object = loaded.object();
    for i in 0..object.section_count() {
        let section = object.section_entry(i);
        let role = role_of(&section);
        rows.push(SectionRow {
            object: index,
            index: i as u16,
            role,
            align: section.align,
            size: section.size,
            fixed: is_fixed(&section, role, names),
        })?;
    }
    Ok(())
}
