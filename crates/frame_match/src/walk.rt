// The groups of a section.

ghost use Rattle.std.specs.Prelude.{◌≡◌, ◌<◌, ◌≤◌, ◌^◌, ◌+◌, ◌-◌, ◌++◌, ◌∷◌, [], IfOk, Some, length, slice_get, take};
ghost use Rattle.psabi_sym.specs.Indexed.{all_sections, IndexedSection};
ghost use Rattle.psabi_sym.specs.Inputs.{parsed};
ghost use Rattle.std.specs.List.{flat_map};
ghost use Rattle.std.specs.Option.{option_and_then};
ghost use Rattle.block_cut.specs.Items.{items_in, place_of};
ghost use Rattle.frame_match.specs.declared.mark.Mark.TheVariants.{Start};
ghost use Rattle.frame_match.specs.Matches.{longest_of};
ghost use Rattle.frame_match.specs.Groups.{group_at, groups_in, may_have_groups, roles_in};
ghost use Rattle.frame_match.specs.Invariants.Marks.{groups_after, marks_after, marks_from, WalksOn};
ghost use Rattle.frame_match.specs.Invariants.Runs.{begins_with, op_in, run_from, spots_of, ArePlacesOf};

use crate::found::Found;
use crate::group::Group;
use crate::mark::Mark;
use crate::read::may_begin;
use crate::run::{Run, op_at, place_in};
use crate::search::longest;
use block_cut::code_place::{CodePlace, item_places};
use block_cut::cut::Cut;
use psabi_sym::section_ref::SectionRef;
use std::alloc::{AllocError, Global};

/// The groups so far, the marks of the section's items so far, and how many of the next items belong to the last
/// group.
#[derive(Drop)]
pub struct Walk {
    pub groups: Vec<Group>,
    pub marks: Vec<Mark>,
    pub left: u32,
}

// Whether a group may begin with the first of some places.
fn begins(places: &[CodePlace]) -> bool
    ensures { result ≡ begins_with (option_and_then op_in (slice_get places.now 0)) }
{
    match places.get(0) {
        Some(place) => match op_at(place) {
            Some(instr) => may_begin(&instr),
            None => false,
        },
        None => false,
    }
}

// Whether a section may have groups: the chip has Zcmp, and the section isn't fixed.
fn may_have_groups(cut: &Cut, section: &SectionRef) -> bool
    ensures { result ≡ may_have_groups (parsed cut.now) section.now.object section.now.index }
{
    let objects = cut.objects();
    objects.map().extensions.zcmp && !objects.is_fixed(section.object(), section.index())
}

// The longest group that starts at the first of some places of a section. Few instructions can begin a group, so most
// items are looked at once.
fn found_at(cut: &Cut, section: &SectionRef, places: &[CodePlace], may_group: bool) -> Option<Found>
    requires may { may_group ≡ may_have_groups (parsed cut.now) section.now.object section.now.index }
    requires places { ArePlacesOf (parsed cut.now) section.now places.now }
    ensures { result ≡ longest_of (run_from (spots_of (parsed cut.now) section.now places.now)) }
{
    if !may_group {
        return None;
    }
    if begins(places) {
        longest(&Run::new(cut, section, places))
    } else {
        None
    }
}

impl Walk {
    // Adds a group that starts at a place.
    fn start(
        &mut self,
        section: &SectionRef,
        place: &CodePlace,
        found: Found,
    ) -> Result<(), AllocError>
        requires { length self.old.groups.items < 2 ^ 32 }
        ensures marks { IfOk result (λ _. self.new.marks.items
            ≡ self.old.marks.items ++ Start (length self.old.groups.items) ∷ []) }
        ensures groups { IfOk result (λ _. self.new.groups.items
            ≡ self.old.groups.items ++ group_at (place_of section.now place.now.offset) found ∷ []) }
        ensures left { IfOk result (λ _. self.new.left ≡ found.items - 1) }
    {
        self.marks.push(Mark::Start(self.groups.len() as u32))?;
        self.left = found.items.saturating_sub(1);
        self.groups.push(Group {
            start: place_in(section, place),
            items: found.items,
            kind: found.kind,
            rest: found.rest,
        })?;
        Ok(())
    }

    // Visits the first of some places of a section.
    fn next(
        &mut self,
        cut: &Cut,
        section: &SectionRef,
        places: &[CodePlace],
        may_group: bool,
    ) -> Result<(), AllocError>
        requires may { may_group ≡ may_have_groups (parsed cut.now) section.now.object section.now.index }
        requires some { 0 < length places.now }
        requires room { length self.old.groups.items < 2 ^ 32 }
        requires places { ArePlacesOf (parsed cut.now) section.now places.now }
        ensures on { IfOk result (λ _. WalksOn (parsed cut.now) section.now places.now self.old self.new) }
        ensures few { IfOk result (λ _. length self.new.groups.items ≤ length self.old.groups.items + 1) }
    {
        if self.left > 0 {
            self.left -= 1;
            self.marks.push(Mark::Within)?;
            return Ok(());
        }
        match found_at(cut, section, places, may_group) {
            None => {
                self.marks.push(Mark::Apart)?;
                Ok(())
            }
            Some(found) => self.start(section, &places[0], found),
        }
    }

    // Visits all of some places of a section.
    fn go_over(
        &mut self,
        cut: &Cut,
        section: &SectionRef,
        places: &[CodePlace],
        may_group: bool,
    ) -> Result<(), AllocError>
        requires may { may_group ≡ may_have_groups (parsed cut.now) section.now.object section.now.index }
        requires places { ArePlacesOf (parsed cut.now) section.now places.now }
        requires room { length self.old.groups.items + length places.now < 2 ^ 32 }
        ensures marks { IfOk result (λ _.
            self.new.marks.items ≡ marks_after self.old (spots_of (parsed cut.now) section.now places.now)) }
        ensures groups { IfOk result (λ _.
            self.new.groups.items ≡ groups_after self.old (spots_of (parsed cut.now) section.now places.now)) }
    {
        for k in 0..places.len() {
            self.next(cut, section, &places[k..], may_group)?;
        }
        Ok(())
    }
}

/// The walk over a whole section, which is given by its number among all sections, after some groups were found.
pub fn walk_section(
    alloc: Global,
    cut: &Cut,
    section: u32,
    groups: Vec<Group>,
) -> Result<Walk, AllocError>
    requires section { section < length (all_sections (parsed cut.now).objects) }
    requires few { length groups.items
        ≤ length (flat_map (items_in (parsed cut.now)) (take section (all_sections (parsed cut.now).objects))) }
    ensures marks { (l : IndexedSection) → slice_get (all_sections (parsed cut.now).objects) section ≡ Some l
        → IfOk result (λ w. w.marks.items ≡ marks_from (length groups.items) (roles_in (parsed cut.now) l)) }
    ensures groups { (l : IndexedSection) → slice_get (all_sections (parsed cut.now).objects) section ≡ Some l
        → IfOk result (λ w. w.groups.items ≡ groups.items ++ groups_in (parsed cut.now) l) }
{
    // A group has at least one item, so the number fits in u32.
    cut.recall_invariant();
    let places = item_places(cut.places(section));
    let mut walk = Walk {
        groups,
        marks: Vec::with_capacity(alloc, places.len())?,
        left: 0,
    };
    let section = cut.objects().section(section);
    walk.go_over(cut, &section, places, may_have_groups(cut, &section))?;
    Ok(walk)
}
