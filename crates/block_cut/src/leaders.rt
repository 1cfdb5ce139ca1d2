// Places that basic blocks begin at.

ghost use Rattle.std.specs.Prelude.{◌≡◌, ◌&&◌, ◌||◌, false, IfOk, List, Some};
ghost use Rattle.elf32_read.specs.Parts.{ObjectParts};
ghost use Rattle.psabi_sym.specs.Inputs.{parsed};
ghost use Rattle.zc_base.specs.Places.{same_place};
ghost use Rattle.zc_base.specs.declared.place.Place.{Place};
ghost use Rattle.block_cut.specs.Invariants.Led.{has_place, is_marked, section_number, AddsPlaces};

use crate::marks::Marks;
use psabi_sym::objects::Objects;
use psabi_sym::section_row::SectionRow;
use std::alloc::{AllocError, Global};
use std::collections::BTreeSet;
use zc_base::place::Place;

/// Some places in code. Those at halfwords are marked, by the number of their section among all; all others are in a
/// set: only symbols lead there.
#[derive(Drop)]
pub struct Leaders {
    pub sections: Vec<Marks>,
    pub others: BTreeSet<Place>,
}

// The number of halfwords of a section of code, with its end; 0 for any other section.
fn halfwords(row: SectionRow) -> usize {
    if !row.is_code() {
        return 0;
    }
    row.size as usize / 2 + 1
}

impl Leaders {
    /// No places, with room for marks at the halfwords of code.
    pub fn new(alloc: Global, objects: &Objects) -> Result<Leaders, AllocError>
        ensures { IfOk result (λ leaders. (q : Place) → has_place (parsed objects.now).objects leaders q ≡ false) }
    {
        let count = objects.section_count();
        let mut sections = Vec::with_capacity(alloc, count as usize)?;
        for k in 0..count {
            sections.push(Marks::new(alloc, halfwords(objects.section_row(k)))?)?;
        }
        Ok(Leaders {
            sections,
            others: BTreeSet::new(alloc),
        })
    }

    // Marks the halfword at a place of the section with a number among all, or says that there is none.
    fn mark(&mut self, section: u32, p: Place) -> bool
        ensures others { self.new.others ≡ self.old.others }
        ensures marks { (objects : List ObjectParts) (q : Place) → section_number objects p ≡ Some section
            → is_marked objects self.new.sections.items q
            ≡ (is_marked objects self.old.sections.items q || (result && same_place p q)) }
    {
        if p.offset % 2 != 0 {
            return false;
        }
        if self.sections.len() <= section as usize {
            return false;
        }
        self.sections[section as usize].mark(p.offset / 2)
    }

    /// Adds a place of the section with a number among all. It takes constant time at a halfword, and logarithmic time
    /// elsewhere.
    pub fn add_in(&mut self, section: u32, p: Place) -> Result<(), AllocError>
        ensures { IfOk result (λ _. (objects : List ObjectParts) → section_number objects p ≡ Some section
            → AddsPlaces objects (same_place p) self.old self.new) }
    {
        if !self.mark(section, p) {
            self.others.insert(p)?;
        }
        Ok(())
    }

    /// Adds a place, in constant time at a halfword, and in logarithmic time elsewhere.
    pub fn add(&mut self, objects: &Objects, p: Place) -> Result<(), AllocError>
        ensures { IfOk result (λ _. AddsPlaces (parsed objects.now).objects (same_place p) self.old self.new) }
    {
        let Some(section) = objects.section_number(p.object, p.section) else {
            self.others.insert(p)?;
            return Ok(());
        };
        self.add_in(section, p)?;
        Ok(())
    }

    // Whether the halfword at a place is marked.
    fn is_marked(&self, objects: &Objects, p: Place) -> bool
        ensures { result ≡ is_marked (parsed objects.now).objects self.now.sections.items p }
    {
        if p.offset % 2 != 0 {
            return false;
        }
        let Some(k) = objects.section_number(p.object, p.section) else {
            return false;
        };
        match self.sections.get(k as usize) {
            None => false,
            Some(marks) => marks.has(p.offset / 2),
        }
    }

    /// Whether a place was added. It takes constant time if all are at halfwords, and else logarithmic time.
    pub fn has(&self, objects: &Objects, p: Place) -> bool
        ensures { result ≡ has_place (parsed objects.now).objects self.now p }
    {
        self.is_marked(objects, p) || self.others.contains(&p)
    }
}
