// All code, cut into items, and where they lie in the plain layout.

ghost use Rattle.std.specs.Prelude.{◌≡◌, ◌≢◌, ℕ, slice_index_or, ◌<◌, ◌&&◌, ◌==◌, None, Some, IfOk, MatchOption, false, length, slice_get, true};
ghost use Rattle.psabi_sym.specs.Faults.{gather_fault};
ghost use Rattle.psabi_sym.specs.Inputs.{parsed, Inputs};
ghost use Rattle.psabi_sym.specs.Indexed.{all_sections, IndexedSection};
ghost use Rattle.zc_base.specs.MemMap.{IsMap};
ghost use Rattle.block_cut.specs.Invariants.CodeTables.{AreCodeTables};
ghost use Rattle.block_cut.specs.Invariants.CodeTargets.{AreCodeTargets};
ghost use Rattle.block_cut.specs.Invariants.Led.{has_place, mark_in};
ghost use Rattle.block_cut.specs.Items.{is_target_at, item_at};
ghost use Rattle.block_cut.specs.Places.{IsPlaceNumber, code_places, place_there};
ghost use Rattle.block_cut.specs.PlainLayout.{plain_address};
ghost use Rattle.block_cut.specs.Invariants.HalfwordTables.{numbers_of_section};
ghost use Rattle.block_cut.specs.Invariants.SectionItems.{no_tables};

use crate::code_place::CodePlace;
use crate::code_span::CodeSpan;
use crate::code_targets::CodeTargets;
use crate::item::Item;
use crate::leaders::Leaders;
use crate::marks::Marks;
use crate::place_number::PlaceNumber;
use crate::section_items::{CutSection, SectionItems};
use psabi_sym::objects::Objects;
use std::alloc::{AllocError, Global};
use zc_base::place::Place;

/// What is kept of each section, by its number among all, and where code ends.
#[derive(Drop)]
pub struct CodeTables {
    pub sections: Vec<SectionItems>,
    pub span: CodeSpan,
}

impl CodeTables {
    /// The items of all code, with their addresses, and where the relocations of code lead. It looks at each of these,
    /// and at each word and halfword, a fixed number of times, but for the search for fields that overlap where they
    /// aren't in order.
    pub fn new(alloc: Global, objects: &Objects) -> Result<(CodeTables, CodeTargets), AllocError>
        ensures gathered { gather_fault objects.now ≡ None }
        ensures is_map { IsMap objects.now.map }
        ensures tables { IfOk result (λ cut. AreCodeTables (parsed objects.now) cut.0) }
        ensures targets { IfOk result (λ cut.
            AreCodeTargets (parsed objects.now) (all_sections (parsed objects.now).objects) cut.1) }
    {
        let count = objects.section_count();
        let mut sections = Vec::with_capacity(alloc, count as usize)?;
        let mut targets = CodeTargets::new(alloc, objects)?;
        let mut span = CodeSpan {
            end: objects.map().text,
            count: 0,
        };
        for k in 0..count {
            let section = objects.section(k);
            let cut = CutSection::new(alloc, objects, &section, span.end)?;
            span = span.with(cut.text.places());
            targets.add(objects, &cut.relocs)?;
            sections.push(cut.text)?;
        }
        Ok((CodeTables { sections, span }, targets))
    }

    /// The places of a section, by its number among all.
    pub fn places(&self, section: u32) -> &[CodePlace]
        requires { section < length self.now.sections.items }
        ensures { (inputs : Inputs) (l : IndexedSection) → AreCodeTables (parsed inputs) self.now
            → slice_get (all_sections (parsed inputs).objects) section ≡ Some l
            → result.now ≡ code_places (parsed inputs) l }
    {
        self.sections[section as usize].places()
    }

    /// The numbers of the places of a section, by its number among all.
    pub fn numbers(&self, section: u32) -> &[u32]
        requires { section < length self.now.sections.items }
        ensures { (inputs : Inputs) (l : IndexedSection) → AreCodeTables (parsed inputs) self.now
            → slice_get (all_sections (parsed inputs).objects) section ≡ Some l
            → result.now ≡ numbers_of_section l.section }
    {
        self.sections[section as usize].numbers()
    }

    /// A place, if an item starts there or a section of code ends there. It takes constant time, as do all that follow.
    pub fn place(&self, objects: &Objects, p: Place) -> Option<&CodePlace>
        requires tables { AreCodeTables (parsed objects.now) self.now }
        ensures { MatchOption result (is_target_at (parsed objects.now).objects p ≡ false)
            (λ place. (is_target_at (parsed objects.now).objects p ≡ true)
            × (place.now ≡ place_there (parsed objects.now) p)) }
    {
        // Sections without a fault are whole, so each place stands at a halfword.
        objects.recall_invariant();
        let section = objects.section_number(p.object, p.section)?;
        self.sections[section as usize].place(p.offset)
    }

    /// Where a place stands among all, if an item starts there or a section of code ends there.
    pub fn number(&self, objects: &Objects, p: Place) -> Option<PlaceNumber>
        requires tables { AreCodeTables (parsed objects.now) self.now }
        ensures { MatchOption result (is_target_at (parsed objects.now).objects p ≡ false)
            (λ number. (is_target_at (parsed objects.now).objects p ≡ true)
            × IsPlaceNumber (parsed objects.now).objects p number) }
    {
        // Sections without a fault are whole, so each place stands at a halfword.
        objects.recall_invariant();
        let section = objects.section_number(p.object, p.section)?;
        let index = self.sections[section as usize].index(p.offset)?;
        Some(PlaceNumber { section, index })
    }

    /// Whether code may lead to a place: an item starts there, or a section of code ends there.
    pub fn has_target(&self, objects: &Objects, p: Place) -> bool
        requires tables { AreCodeTables (parsed objects.now) self.now }
        ensures { result ≡ is_target_at (parsed objects.now).objects p }
    {
        self.number(objects, p).is_some()
    }

    /// Whether code may lead to all of some places. It looks at each halfword of code once.
    pub fn has_targets(&self, objects: &Objects, leaders: &Leaders) -> bool
        requires tables { AreCodeTables (parsed objects.now) self.now }
        ensures { result ≡ true → (q : Place) → has_place (parsed objects.now).objects leaders.now q ≡ true
            → is_target_at (parsed objects.now).objects q ≡ true }
    {
        // Sections without a fault are whole, so each place stands at a halfword.
        objects.recall_invariant();
        if !leaders.others.is_empty() {
            return false;
        }
        self.has_marked(&leaders.sections)
    }

    // Whether code may lead to all halfwords that are marked.
    fn has_marked(&self, sections: &[Marks]) -> bool
        ensures { result ≡ true → (n k : ℕ) → mark_in sections.now n k ≡ true
            → slice_index_or (slice_index_or self.now.sections.items n no_tables).numbers k 0 ≢ 0 }
    {
        for (k, marks) in sections.iter().enumerate() {
            match self.sections.get(k) {
                None => return false,
                Some(text) => {
                    if !text.has_marked(marks) {
                        return false;
                    }
                }
            }
        }
        true
    }

    /// The item that starts at a place.
    pub fn item(&self, objects: &Objects, p: Place) -> Option<Item>
        requires tables { AreCodeTables (parsed objects.now) self.now }
        ensures { result ≡ item_at (parsed objects.now) p }
    {
        self.place(objects, p)?.item
    }

    /// The address in the plain layout of a place where an item starts or a section of code ends.
    pub fn address(&self, objects: &Objects, p: Place) -> Option<u32>
        requires tables { AreCodeTables (parsed objects.now) self.now }
        ensures { result ≡ plain_address (parsed objects.now) p }
    {
        Some(self.place(objects, p)?.address)
    }

    /// Whether a section of code starts at a place.
    pub fn has_start(&self, objects: &Objects, p: Place) -> bool
        requires tables { AreCodeTables (parsed objects.now) self.now }
        ensures { result ≡ (p.offset == 0 && is_target_at (parsed objects.now).objects p) }
    {
        p.offset == 0 && self.has_target(objects, p)
    }
}
