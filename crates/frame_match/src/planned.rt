// The objects with their groups.

ghost use Rattle.std.specs.Prelude.{◌≡◌, ◌<◌, IfOk, Some, length, slice_get, true};
ghost use Rattle.zc_base.specs.declared.place.Place.{Place};
ghost use Rattle.psabi_sym.specs.Inputs.{parsed};
ghost use Rattle.block_cut.specs.Items.{is_start_at, is_target_at};
ghost use Rattle.block_cut.specs.Places.{IsPlaceNumber};
ghost use Rattle.frame_match.specs.Groups.{groups_of, role_at};
ghost use Rattle.frame_match.specs.Invariants.Marks.{ArePlanned, HasItem};

use crate::group::Group;
use crate::mark::{Mark, Marks};
use crate::role::Role;
use crate::walk::walk_section;
use block_cut::cut::Cut;
use block_cut::place_number::PlaceNumber;
use std::alloc::{AllocError, Global};
use std::marker::Model;
use zc_base::place::Place;

/// The objects of a link with their code cut into items, and the groups of items that are written
/// together.
#[derive(Drop)]
pub struct Planned {
    cut: Cut,
    groups: Vec<Group>,
    sections: Vec<Marks>,
}

impl Model for Planned {
    ghost use Rattle.psabi_sym.specs.Inputs.{parsed, Inputs};
    ghost use Rattle.frame_match.specs.Invariants.Marks.{ArePlanned};

    ghost Value = { Inputs };

    ghost view = { λ planned. planned.cut };

    ghost invariant = { λ planned. ArePlanned (parsed planned.cut) planned.groups.items planned.sections.items };
}

// What is stored with a cut: its groups, and a mark for each item.
#[derive(Drop)]
struct KeptGroups {
    groups: Vec<Group>,
    sections: Vec<Marks>,
}

// The groups of a cut, section by section.
fn find_groups(alloc: Global, cut: &Cut) -> Result<KeptGroups, AllocError>
    ensures { IfOk result (λ kept. ArePlanned (parsed cut.now) kept.groups.items kept.sections.items) }
{
    let count = cut.objects().section_count();
    let mut groups = Vec::new(alloc);
    let mut sections = Vec::with_capacity(alloc, count as usize)?;
    for k in 0..count {
        let walk = walk_section(alloc, cut, k, groups)?;
        groups = walk.groups;
        sections.push(Marks { marks: walk.marks })?;
    }
    Ok(KeptGroups { groups, sections })
}

/// Finds the groups of a cut. It looks at each item a fixed number of times, and allocates only what it stores.
pub fn plan(alloc: Global, cut: Cut) -> Result<Planned, AllocError>
    ensures same { IfOk result (λ planned. planned ≡ cut) }
{
    let kept = find_groups(alloc, &cut)?;
    Ok(Planned {
        cut,
        groups: kept.groups,
        sections: kept.sections,
    })
}

impl Planned {
    /// The number of groups. This method, and each one below, takes constant time.
    pub fn group_count(&self) -> u32
        ensures { result ≡ length (groups_of (parsed self.now)) }
    {
        // A group has at least one item, so the count fits in u32.
        self.cut.recall_invariant();
        self.groups.len() as u32
    }

    /// A group, by its number among all: by object, section and offset.
    pub fn group(&self, i: u32) -> Group
        requires { i < length (groups_of (parsed self.now)) }
        ensures { slice_get (groups_of (parsed self.now)) i ≡ Some result }
    {
        self.groups[i as usize]
    }

    /// The role of the item at a place, by the place's number among all places.
    pub fn role_at(&self, number: PlaceNumber) -> Role
        requires { HasItem (parsed self.now).objects number }
        ensures { (q : Place) → is_start_at (parsed self.now).objects q ≡ true
            → IsPlaceNumber (parsed self.now).objects q number → role_at (parsed self.now) q ≡ Some result }
    {
        match self.sections[number.section as usize].get(number.index) {
            Mark::Apart => Role::Alone,
            Mark::Start(n) => Role::First(self.groups[n as usize]),
            Mark::Within => Role::Inside,
        }
    }

    /// The role of the item at a place, by the place's number among all places; `None` if no item starts there, which
    /// is so at the end of a section.
    pub fn role_by(&self, number: PlaceNumber) -> Option<Role>
        requires { (q : Place) × (is_target_at (parsed self.now).objects q ≡ true)
            × IsPlaceNumber (parsed self.now).objects q number }
        ensures { (q : Place) → is_target_at (parsed self.now).objects q ≡ true
            → IsPlaceNumber (parsed self.now).objects q number → result ≡ role_at (parsed self.now) q }
    {
        // The objects have no fault, so a section ends after its last item.
        self.cut.recall_invariant();
        if (number.index as usize) < self.sections[number.section as usize].len() {
            Some(self.role_at(number))
        } else {
            None
        }
    }

    /// The role of the item at a place, if an item starts there.
    pub fn role(&self, p: Place) -> Option<Role>
        ensures { result ≡ role_at (parsed self.now) p }
    {
        match self.cut.number(p) {
            None => None,
            Some(number) => self.role_by(number),
        }
    }

    /// The objects' code, cut into items.
    pub fn cut(&self) -> &Cut
        ensures same { result.now ≡ self.now }
    {
        &self.cut
    }
}
