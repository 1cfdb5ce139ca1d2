// What a table could save: the targets of jumps and calls that take four bytes without one.

ghost use Rattle.std.specs.Prelude.{◌≡◌, ◌<◌, ◌≤◌, ◌+◌, ◌==◌, ◌++◌, ◌∷◌, [], All, IfOk, List, if◌then◌else◌, length, map};
ghost use Rattle.psabi_sym.specs.Inputs.{parsed};
ghost use Rattle.psabi_sym.specs.Indexed.{all_sections};
ghost use Rattle.block_cut.specs.Items.{all_targets, item_at};
ghost use Rattle.shrink_layout.specs.Invariants.Sites.{AreOfPlaces, AreSavings, places_before, targets_before};
ghost use Rattle.shrink_layout.specs.Savings.{HasFewSites, has_sites, saving_of, savings_of};
ghost use Rattle.zc_base.specs.declared.place.Place.{Place};

use crate::settled::Settled;
use crate::site::{Site, site_at};
use block_cut::code_place::item_places;
use block_cut::cut::Cut;
use block_cut::item::Item;
use pick_check::saving::Saving;
use std::alloc::{AllocError, Global};
use zc_base::place::Place;

// Adds the targets in the section with this number among all.
fn add_targets(cut: &Cut, section: u32, savings: &mut Vec<Saving>) -> Result<(), AllocError>
    requires section { section < length (all_sections (parsed cut.now).objects) }
    requires so_far { savings.old.items ≡ map (saving_of []) (targets_before (parsed cut.now).objects section) }
    ensures { IfOk result (λ _. savings.new.items
        ≡ map (saving_of []) (targets_before (parsed cut.now).objects (section + 1))) }
{
    let own = cut.objects().section(section);
    let places = cut.places(section);
    for place in places {
        savings.push(Saving {
            target: Place {
                object: own.object(),
                section: own.index(),
                offset: place.offset,
            },
            jump_sites: 0,
            call_sites: 0,
        })?;
    }
    Ok(())
}

// All targets, with no sites yet.
fn bare_targets(alloc: Global, cut: &Cut) -> Result<Vec<Saving>, AllocError>
    ensures { IfOk result (λ savings. savings.items ≡ map (saving_of []) (all_targets (parsed cut.now).objects)) }
{
    // Each item has a place, and so has the end of each section of code.
    let most = cut.counts().items as usize + cut.objects().section_count() as usize;
    let mut savings = Vec::with_capacity(alloc, most)?;
    for section in 0..cut.objects().section_count() {
        add_targets(cut, section, &mut savings)?;
    }
    Ok(savings)
}

// One more site for this target.
fn count_site(saving: &mut Saving, site: Site)
    requires jumps { saving.old.jump_sites < 0xFFFF_FFFF }
    requires calls { saving.old.call_sites < 0xFFFF_FFFF }
    ensures target { saving.new.target ≡ saving.old.target }
    ensures jumps { saving.new.jump_sites ≡ saving.old.jump_sites + (if site.rd == 0 then 1 else 0) }
    ensures calls { saving.new.call_sites ≡ saving.old.call_sites + (if site.rd == 0 then 0 else 1) }
{
    if site.rd == 0 {
        saving.jump_sites += 1;
    } else {
        saving.call_sites += 1;
    }
}

// Counts the site at a place, if there is one, at its target, by the item there. Targets have numbers from 2 on, in
// their order: before the first come the table with its stub and a padding, and the end of a section has the number of
// the next one's padding.
fn count_place(settled: &Settled, p: Place, item: &Option<Item>, savings: &mut [Saving])
    requires unset { settled.now.slots ≡ [] }
    requires item { item.now ≡ item_at (parsed settled.now.inputs) p }
    requires few { AreOfPlaces (parsed settled.now.inputs) savings.old }
    ensures { (qs : List Place) → AreSavings (parsed settled.now.inputs) qs savings.old
        → AreSavings (parsed settled.now.inputs) (qs ++ p ∷ []) savings.new }
{
    if let Some(site) = site_at(settled, p, item) {
        // No fault stands in the objects, so the target has a number.
        settled.planned().cut().recall_invariant();
        let number = settled.piece_number_at(site.to);
        count_site(&mut savings[(number - 2) as usize], site);
    }
}

// Counts the sites in the section with this number among all.
fn count_section(settled: &Settled, section: u32, savings: &mut [Saving])
    requires unset { settled.now.slots ≡ [] }
    requires section { section < length (all_sections (parsed settled.now.inputs).objects) }
    requires so_far { AreSavings (parsed settled.now.inputs)
        (places_before (parsed settled.now.inputs).objects section) savings.old }
    ensures { AreSavings (parsed settled.now.inputs)
        (places_before (parsed settled.now.inputs).objects (section + 1)) savings.new }
{
    let cut = settled.planned().cut();
    let own = cut.objects().section(section);
    let places = item_places(cut.places(section));
    for place in places {
        let at = Place {
            object: own.object(),
            section: own.index(),
            offset: place.offset,
        };
        count_place(settled, at, &place.item, savings);
    }
}

// Whether some site leads to a target.
fn has_sites(saving: &Saving) -> bool
    ensures { result ≡ has_sites saving.now }
{
    saving.jump_sites != 0 || saving.call_sites != 0
}

impl Settled {
    /// The targets of jumps and calls that a table could serve, each with the number of its sites, by object, section
    /// and offset. It takes time linear in the items.
    pub fn savings(&self, alloc: Global) -> Result<Vec<Saving>, AllocError>
        requires { self.now.slots ≡ [] }
        ensures value { IfOk result (λ savings. savings.items ≡ savings_of (parsed self.now.inputs)) }
        ensures few { IfOk result (λ savings. length savings.items ≤ 0x1_0000) }
        ensures sites { IfOk result (λ savings. All HasFewSites savings.items) }
    {
        let cut = self.planned().cut();
        let mut savings = bare_targets(alloc, cut)?;
        for section in 0..cut.objects().section_count() {
            count_section(self, section, &mut savings);
        }
        savings.retain(|saving| has_sites(saving));
        // These are kept until the link is done, and most targets have no sites.
        savings.shrink_to_fit();
        Ok(savings)
    }
}
