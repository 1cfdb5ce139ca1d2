// What is kept of sections: their places.

ghost use Rattle.std.specs.Prelude.{◌≡◌, ◌≢◌, slice_index_or, ◌&&◌, ◌==◌, ◌+◌, ◌^◌, ◌<◌, ℕ, IfOk, MatchOption, None, Some, false, true, length, slice_get};
ghost use Rattle.elf32_read.specs.Parts.{is_code_section};
ghost use Rattle.psabi_sym.specs.Faults.{gather_fault};
ghost use Rattle.psabi_sym.specs.Inputs.{parsed, Inputs, ParsedInputs};
ghost use Rattle.psabi_sym.specs.Indexed.{section_at, IndexedSection};
ghost use Rattle.block_cut.specs.Invariants.CutSection.{IsCutSection, IsSectionAfter};
ghost use Rattle.block_cut.specs.Invariants.Led.{mark_at};
ghost use Rattle.block_cut.specs.Invariants.SectionItems.{section_tables};
ghost use Rattle.block_cut.specs.Items.{index_on, is_target_at, place_of};
ghost use Rattle.block_cut.specs.Places.{code_place};

use crate::code_place::{CodePlace, address_after};
use crate::code_section::{CodeSection, KeptTables};
use crate::halfword_tables::{number_at, place_count};
use crate::marks::Marks;
use crate::plain_layout::begin_after;
use crate::resolved_reloc::ResolvedReloc;
use psabi_sym::objects::Objects;
use psabi_sym::section_ref::SectionRef;
use std::alloc::{AllocError, Global};
use std::marker::Model;

/// What is kept of a section: the numbers of its places by the offset / 2, from 1 on, with 0 where nothing starts, and
/// these places. What isn't code has none.
#[derive(Drop)]
pub struct SectionItems {
    numbers: Vec<u32>,
    places: Vec<CodePlace>,
}

impl Model for SectionItems {
    ghost use Rattle.block_cut.specs.Invariants.SectionItems.{SectionTables};

    ghost Value = { SectionTables };

    ghost view = { λ text. record { numbers = text.numbers.items; places = text.places.items } };
}

/// A section whose code is cut: what is kept of it, and its relocations that ask for something, resolved, if it is
/// code.
#[derive(Drop)]
pub struct CutSection {
    pub text: SectionItems,
    pub relocs: Vec<ResolvedReloc>,
}

// A section that isn't code.
fn data_section(alloc: Global) -> CutSection
    ensures { (inputs : ParsedInputs) (l : IndexedSection) → is_code_section l.section ≡ false
        → IsCutSection inputs l result }
{
    CutSection {
        text: SectionItems {
            numbers: Vec::new(alloc),
            places: Vec::new(alloc),
        },
        relocs: Vec::new(alloc),
    }
}

// A section of code, where the code before it ends at an address.
fn code_section(
    alloc: Global,
    objects: &Objects,
    section: &SectionRef,
    end: u32,
) -> Result<CutSection, AllocError>
    requires after { IsSectionAfter objects.now section.now end }
    requires code { is_code_section section.now.section ≡ true }
    ensures { IfOk result (IsCutSection (parsed objects.now) section.now) }
{
    let code = CodeSection::new(alloc, objects, section)?;
    let mut address = begin_after(end, section.align());
    let mut places = Vec::with_capacity(alloc, place_count(code.numbers()))?;
    for (k, number) in code.numbers().iter().enumerate() {
        if *number != 0 {
            let place = code.place(2 * k as u32, address);
            address = address_after(address, place.size, &place.item);
            places.push(place)?;
        }
    }
    let KeptTables { numbers, relocs } = code.into_kept(alloc)?;
    Ok(CutSection {
        text: SectionItems { numbers, places },
        relocs,
    })
}

impl CutSection {
    /// A section with its code cut, where the code before it ends at an address.
    pub fn new(
        alloc: Global,
        objects: &Objects,
        section: &SectionRef,
        end: u32,
    ) -> Result<CutSection, AllocError>
        requires { IsSectionAfter objects.now section.now end }
        ensures { IfOk result (IsCutSection (parsed objects.now) section.now) }
    {
        if section.is_code() {
            return code_section(alloc, objects, section, end);
        }
        Ok(data_section(alloc))
    }
}

impl SectionItems {
    /// The section's places, in order.
    pub fn places(&self) -> &[CodePlace]
        ensures { result.now ≡ self.now.places }
    {
        &self.places
    }

    /// For each halfword of the section, the number of the place there, from 1 on, with 0 where none is.
    pub fn numbers(&self) -> &[u32]
        ensures { result.now ≡ self.now.numbers }
    {
        &self.numbers
    }

    /// The place at an offset, if an item starts there or the section ends there. It takes constant time.
    pub fn place(&self, offset: u32) -> Option<&CodePlace>
        ensures { (inputs : Inputs) (l : IndexedSection) → gather_fault inputs ≡ None
            → section_at (parsed inputs).objects l.object l.index ≡ Some l.section
            → self.now ≡ section_tables (parsed inputs) l
            → MatchOption result (is_target_at (parsed inputs).objects (place_of l offset) ≡ false)
            (λ place. (is_target_at (parsed inputs).objects (place_of l offset) ≡ true)
            × (place.now ≡ code_place (parsed inputs) l offset)) }
    {
        let number = number_at(&self.numbers, offset);
        if number == 0 {
            return None;
        }
        self.places.get(number as usize - 1)
    }

    /// Whether an item starts or the section ends at each halfword that is marked.
    pub fn has_marked(&self, marks: &Marks) -> bool
        ensures { result ≡ true → (k : ℕ) → mark_at marks.now k ≡ true → slice_index_or self.now.numbers k 0 ≢ 0 }
    {
        marks.are_numbered(&self.numbers)
    }

    /// The number of the section's items before an offset, if an item starts there or the section ends there.
    pub fn index(&self, offset: u32) -> Option<u32>
        ensures { (inputs : Inputs) (l : IndexedSection) → gather_fault inputs ≡ None
            → section_at (parsed inputs).objects l.object l.index ≡ Some l.section
            → self.now ≡ section_tables (parsed inputs) l
            → MatchOption result (is_target_at (parsed inputs).objects (place_of l offset) ≡ false)
            (λ index. (is_target_at (parsed inputs).objects (place_of l offset) ≡ true)
            × (index ≡ index_on l.section offset)) }
    {
        let number = number_at(&self.numbers, offset);
        if number == 0 {
            return None;
        }
        Some(number - 1)
    }
}
