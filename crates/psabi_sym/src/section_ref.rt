// Sections as values.

ghost use Rattle.std.specs.Prelude.{◌≡◌, ◌<◌, ◌==◌, ◌^◌, ◌++◌, ◌∷◌, [], List, ℕ, Some, false, length, slice_get};
ghost use Rattle.std.specs.List.{list_any};
ghost use Rattle.elf32_read.specs.Header.{section_count};
ghost use Rattle.elf32_read.specs.Parts.{is_code_section, section_parts};
ghost use Rattle.psabi_sym.specs.Data.{role_of};
ghost use Rattle.psabi_sym.specs.Names.{same_name};

use crate::loaded::Loaded;
use crate::section_row::{SectionRole, SectionRow};
use elf32_read::reloc::Reloc;
use elf32_read::relocs::Relocs;
use elf32_read::section_entry::SectionEntry;
use std::marker::Model;

/// A section of one of the objects of a link, with its relocations. Each call takes constant time.
#[derive(Drop)]
pub struct SectionRef<'a> {
    object: u16,
    index: u16,
    role: SectionRole,
    entry: SectionEntry<'a>,
    relocs: Relocs<'a>,
    compressed: bool,
}

impl<'a> Model for SectionRef<'a> {
    ghost use Rattle.psabi_sym.specs.Indexed.{IndexedSection};
    ghost use Rattle.psabi_sym.specs.SectionRef.{IsLent, lent_section};

    ghost Value = { IndexedSection };

    ghost view = { λ s.
        record { object = s.object; index = s.index; section = lent_section s.entry s.relocs s.compressed } };

    ghost invariant = { λ s. IsLent s.role s.entry s.relocs s.compressed };
}

impl<'a> SectionRef<'a> {
    /// The section of an object that a row is of.
    pub fn new(loaded: &'a Loaded, row: SectionRow) -> SectionRef<'a>
        requires within { row.index < section_count loaded.now }
        requires role { row.role ≡ role_of (section_parts loaded.now row.index) }
        ensures { result
            ≡ record { object = row.object; index = row.index; section = section_parts loaded.entry.now row.index } }
    {
        let object = loaded.object();
        let index = u32::from(row.index);
        SectionRef {
            object: row.object,
            index: row.index,
            role: row.role,
            entry: object.section_entry(index),
            relocs: loaded.relocs_of(&object, index),
            compressed: object.is_compressed(),
        }
    }

    /// The index of its object.
    pub fn object(&self) -> u16
        ensures { result ≡ self.now.object }
    {
        self.object
    }

    /// The section's index in its object.
    pub fn index(&self) -> u16
        ensures { result ≡ self.now.index }
    {
        self.index
    }

    /// What it is: code, data of a class, or dropped.
    pub fn role(&self) -> SectionRole
        ensures { result ≡ role_of self.now.section }
    {
        self.role
    }

    /// Whether it is code.
    pub fn is_code(&self) -> bool
        ensures { result ≡ is_code_section self.now.section }
    {
        self.role.is_code()
    }

    /// Whether its object is compressed.
    pub fn is_compressed(&self) -> bool
        ensures { result ≡ self.now.section.compressed }
    {
        self.compressed
    }

    /// Whether the section has this name, which is given with its terminating zero. It looks at no more
    /// bytes than the given name has.
    pub fn is_named(&self, ended: &[u8]) -> bool
        ensures { (name : List ℕ) → list_any (λ byte. byte == 0) name ≡ false → ended.now ≡ name ++ 0 ∷ []
            → result ≡ same_name self.now.section.name name }
    {
        self.entry.is_named(ended)
    }

    /// The section's type, sh_type.
    pub fn kind(&self) -> u32
        ensures { result ≡ self.now.section.kind }
    {
        self.entry.kind
    }

    /// The section's size in memory, sh_size.
    pub fn size(&self) -> u32
        ensures { result ≡ self.now.section.size }
    {
        self.entry.size
    }

    /// The section's alignment as the file has it, sh_addralign.
    pub fn align(&self) -> u32
        ensures { result ≡ self.now.section.align }
    {
        self.entry.align
    }

    /// The section's content; empty for the kinds NULL and NOBITS.
    pub fn bytes(&self) -> &'a [u8]
        ensures { result.now ≡ self.now.section.bytes }
    {
        self.entry.bytes
    }

    /// Says what holds of every section, for the proof of a caller that needs no value of it. Nothing runs.
    #[inline]
    pub fn recall_invariant(&self)
        ensures { length self.now.section.relocs < 2 ^ 32 }
    {
        let _count = self.relocs.len();
    }

    /// The number of the section's relocations; none if it is dropped.
    pub fn reloc_count(&self) -> u32
        ensures { result ≡ length self.now.section.relocs }
    {
        self.relocs.len()
    }

    /// A relocation, by its index.
    pub fn reloc(&self, k: u32) -> Reloc
        requires { k < length self.now.section.relocs }
        ensures { slice_get self.now.section.relocs k ≡ Some result }
    {
        self.relocs.get(k)
    }
}
