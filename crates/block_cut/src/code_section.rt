// Sections of code whose relocations are resolved and whose places are numbered.

ghost use Rattle.std.specs.Prelude.{◌≡◌, ◌+◌, ◌||◌, ◌==◌, if◌then◌else◌, IfOk, None, Some, length, true};
ghost use Rattle.std.specs.List.{find};
ghost use Rattle.std.specs.Option.{option_copied};
ghost use Rattle.psabi_sym.specs.Inputs.{parsed, Inputs};
ghost use Rattle.block_cut.specs.Invariants.CodeSection.{IsCodeOf, resolved_section};
ghost use Rattle.block_cut.specs.Invariants.HalfwordTables.{by_halfword, number_on};
ghost use Rattle.block_cut.specs.Items.{item_in, place_of, size_on, starts_on};
ghost use Rattle.block_cut.specs.Resolved.{is_right_at, placed_relocs};

use crate::code_place::CodePlace;
use crate::content::Content;
use crate::halfword_tables::{
    numbered, place_numbers, place_relocs, relocs_by_halfword, size_with,
};
use crate::item::Item;
use crate::reloc_item::reloc_item;
use crate::relocated::resolve_relocs;
use crate::resolved_reloc::ResolvedReloc;
use crate::spelled::item_of;
use psabi_sym::objects::Objects;
use psabi_sym::section_ref::SectionRef;
use std::alloc::{AllocError, Global};
use std::marker::Model;
use zc_base::place::Place;

/// A section of code with its content, its resolved relocations, and for each halfword the 1-based numbers of the
/// relocation that says what stands there and of the place there, or 0.
#[derive(Drop)]
pub struct CodeSection<'a> {
    section: &'a SectionRef<'a>,
    content: Content<'a>,
    relocs: Vec<ResolvedReloc>,
    reloc_numbers: Vec<u32>,
    place_numbers: Vec<u32>,
}

impl<'a> Model for CodeSection<'a> {
    ghost use Rattle.block_cut.specs.Invariants.CodeSection.{IsNumberedCode, ResolvedSection};

    ghost Value = { ResolvedSection };

    ghost view = { λ code. record { section = code.section.now; relocs = code.relocs.items } };

    ghost invariant = { λ code.
        IsNumberedCode (record { section = code.section.now; relocs = code.relocs.items }) code.content
        code.reloc_numbers.items code.place_numbers.items };
}

/// What is kept of a section of code beside its places: their numbers by halfword, and its relocations.
#[derive(Drop)]
pub struct KeptTables {
    pub numbers: Vec<u32>,
    pub relocs: Vec<ResolvedReloc>,
}

impl<'a> CodeSection<'a> {
    /// A section of code of these objects. It decodes each word once, or where the object is compressed each
    /// instruction at most twice.
    pub fn new(
        alloc: Global,
        objects: &Objects,
        section: &'a SectionRef<'a>,
    ) -> Result<CodeSection<'a>, AllocError>
        requires { IsCodeOf objects.now section.now }
        ensures { IfOk result (λ code. code ≡ resolved_section (parsed objects.now) section.entry.now) }
    {
        let content = Content::new(alloc, section.bytes(), section.is_compressed())?;
        let relocs = resolve_relocs(alloc, objects, section, content.words())?;
        section.recall_invariant();
        let reloc_numbers = relocs_by_halfword(alloc, content.len() / 2 + 1, &relocs)?;
        let place_numbers = place_numbers(alloc, &content, &relocs, &reloc_numbers)?;
        Ok(CodeSection {
            section,
            content,
            relocs,
            reloc_numbers,
            place_numbers,
        })
    }

    /// For each halfword the 1-based number of the place there, or 0.
    pub fn numbers(&self) -> &[u32]
        ensures { let s = self.now.section.section in result.now ≡ by_halfword (number_on s) s }
    {
        &self.place_numbers
    }

    // The relocation that says what stands at an offset, where an item starts or the section ends.
    fn reloc_at(&self, at: u32) -> Option<&ResolvedReloc>
        requires { let s = self.now.section.section in (starts_on s at || at == length s.bytes) ≡ true }
        ensures { option_copied result ≡ find (is_right_at at) self.now.relocs }
    {
        numbered(&self.relocs, self.reloc_numbers[at as usize / 2])
    }

    // The item that starts at an offset, by the relocation that says what stands there.
    fn item(&self, at: u32, reloc: Option<&ResolvedReloc>) -> Item
        requires starts { starts_on self.now.section.section at ≡ true }
        requires reloc { option_copied reloc ≡ find (is_right_at at) self.now.relocs }
        ensures { (inputs : Inputs) → IsCodeOf inputs self.now.section
            → self.now ≡ resolved_section (parsed inputs) self.now.section
            → result ≡ item_in (parsed inputs) self.now.section.section (place_of self.now.section at) }
    {
        match reloc {
            Some(reloc) => reloc_item(reloc, &self.content, at),
            None => {
                let q = Place {
                    object: self.section.object(),
                    section: self.section.index(),
                    offset: at,
                };
                let offset = at as usize;
                let size = self.content.own_size(offset);
                let instr = self.content.instr(size, offset);
                item_of(
                    &self.place_numbers,
                    q,
                    instr,
                    self.content.raw(size, offset),
                )
            }
        }
    }

    /// The place at an offset where an item starts or the section ends, by its address in the plain layout.
    pub fn place(&self, at: u32, address: u32) -> CodePlace
        requires { let s = self.now.section.section in (starts_on s at || at == length s.bytes) ≡ true }
        ensures { (inputs : Inputs) → IsCodeOf inputs self.now.section
            → self.now ≡ resolved_section (parsed inputs) self.now.section
            → let s = self.now.section.section in result ≡ record {
              item = (if starts_on s at then Some (item_in (parsed inputs) s (place_of self.now.section at)) else None);
              address = address;
              offset = at;
              size = size_on s at;
            } }
    {
        let reloc = self.reloc_at(at);
        let is_end = at as usize == self.content.len();
        CodePlace {
            item: if is_end {
                None
            } else {
                Some(self.item(at, reloc))
            },
            address,
            offset: at,
            size: size_with(&self.content, at as usize, reloc),
        }
    }

    /// What is kept of it: the numbers of its places, and its relocations with all that is wrong with them.
    pub fn into_kept(self, alloc: Global) -> Result<KeptTables, AllocError>
        ensures numbers { let s = self.entry.section.section in
            IfOk result (λ kept. kept.numbers.items ≡ by_halfword (number_on s) s) }
        ensures relocs { (inputs : Inputs) → self.entry ≡ resolved_section (parsed inputs) self.entry.section
            → IfOk result (λ kept. kept.relocs.items ≡ placed_relocs (parsed inputs) self.entry.section) }
    {
        let relocs = place_relocs(
            alloc,
            self.section.is_compressed(),
            self.relocs,
            &self.place_numbers,
        )?;
        Ok(KeptTables {
            numbers: self.place_numbers,
            relocs,
        })
    }
}
