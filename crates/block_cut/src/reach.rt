// Branches and jumps that are out of range in the plain layout, or that leave a section that stays as it was compiled.

ghost use Rattle.std.specs.Prelude.{◌≡◌, ◌≤◌, ◌+◌, ◌==◌, ◌&&◌, ℕ, false, not, IfSome, None, Some};
ghost use Rattle.std.specs.List.{find};
ghost use Rattle.std.specs.Option.{option_map, option_map_or};
ghost use Rattle.psabi_sym.specs.Faults.{gather_fault};
ghost use Rattle.psabi_sym.specs.Inputs.{ParsedInputs, parsed};
ghost use Rattle.psabi_sym.specs.Indexed.{IndexedSection, section_at};
ghost use Rattle.zc_base.specs.declared.place.Place.{Place};
ghost use Rattle.psabi_sym.specs.Invariants.Rows.{section_row};
ghost use Rattle.block_cut.specs.Invariants.CodeTables.{AreCodeTables};
ghost use Rattle.block_cut.specs.Invariants.Home.{IsRowOf};
ghost use Rattle.block_cut.specs.Faults.{distance_between, is_out_of_reach, leaves_fixed, reaches, way_place};
ghost use Rattle.block_cut.specs.Items.{all_places, place_of, places_of};
ghost use Rattle.block_cut.specs.Places.{code_places, place_there};

use crate::code_place::CodePlace;
use crate::code_tables::CodeTables;
use crate::item::Item;
use psabi_reloc::reaches::{branch_reaches, jal_reaches, short_branch_reaches, short_jump_reaches};
use psabi_sym::objects::Objects;
use psabi_sym::section_row::SectionRow;
use zc_base::place::Place;

// Where an item of `size` bytes leads, if that may be out of its range: a branch, or a jump of 2 bytes.
fn way_place(size: u8, item: &Item) -> Option<Place>
    ensures { result ≡ way_place size item.now }
{
    match item {
        Item::Branch { to, .. } => Some(*to),
        Item::Jump { to, .. } => {
            if size == 2 {
                return Some(*to);
            }
            None
        }
        Item::Op(_)
        | Item::Hi(..)
        | Item::Lo(..)
        | Item::PcHi(..)
        | Item::PcLo(..)
        | Item::Call { .. }
        | Item::Align(_)
        | Item::Word(_)
        | Item::Raw(_)
        | Item::RawShort(_)
        | Item::RawPair(..) => None,
    }
}

// Whether a branch or jump of `size` bytes reaches a distance.
fn reaches(size: u8, item: &Item, distance: i32) -> bool
    ensures { result ≡ reaches size item.now distance }
{
    match item {
        Item::Branch { .. } => {
            if size == 2 {
                return short_branch_reaches(distance);
            }
            branch_reaches(distance)
        }
        Item::Jump { .. } => {
            if size == 2 {
                return short_jump_reaches(distance);
            }
            jal_reaches(distance)
        }
        Item::Op(_)
        | Item::Hi(..)
        | Item::Lo(..)
        | Item::PcHi(..)
        | Item::PcLo(..)
        | Item::Call { .. }
        | Item::Align(_)
        | Item::Word(_)
        | Item::Raw(_)
        | Item::RawShort(_)
        | Item::RawPair(..) => true,
    }
}

// Whether an item at a place is out of range of an address, if that address is known.
fn is_far(place: &CodePlace, item: &Item, to: Option<u32>) -> bool
    ensures { (least : ℕ) → (least ≤ place.now.address) × (place.now.address ≤ least + 0x4_0000)
        → IfSome to (λ a. (least ≤ a) × (a ≤ least + 0x4_0000))
        → result ≡ option_map_or (λ d. not (reaches place.now.size item.now d))
        (distance_between (Some place.now.address) to) false }
{
    let Some(to) = to else {
        return false;
    };
    let distance = to.wrapping_sub(place.address).cast_signed();
    !reaches(place.size, item, distance)
}

// Whether a section isn't that of an object with an index.
#[inline(never)]
fn is_another(section: &SectionRow, object: u16, index: u16) -> bool
    ensures { result ≡ not (section.now.object == object && section.now.index == index) }
{
    !(section.object == object && section.index == index)
}

// Whether a place lies in another section than this one, which stays as it was compiled. Few sections do, so what they
// need isn't inlined.
fn leaves_fixed(section: &SectionRow, to: &Place) -> bool
    ensures { (inputs : ParsedInputs) (q : Place) → IsRowOf inputs q section.now
        → result ≡ leaves_fixed inputs q to.now }
{
    section.fixed && is_another(section, to.object, to.section)
}

// Whether the branch or jump at a place of a section is out of range.
fn is_out_of_reach(
    objects: &Objects,
    tables: &CodeTables,
    section: &SectionRow,
    place: &CodePlace,
) -> bool
    requires faultless { gather_fault objects.now ≡ None }
    requires tables { AreCodeTables (parsed objects.now) tables.now }
    ensures { (q : Place) → place.now ≡ place_there (parsed objects.now) q → IsRowOf (parsed objects.now) q section.now
        → result ≡ is_out_of_reach (parsed objects.now) q }
{
    let Some(item) = &place.item else {
        return false;
    };
    let Some(to) = way_place(place.size, item) else {
        return false;
    };
    is_far(place, item, tables.address(objects, to)) || leaves_fixed(section, &to)
}

// The offset of the first branch or jump of a section that is out of range.
fn first_offset(
    objects: &Objects,
    tables: &CodeTables,
    section: &SectionRow,
    places: &[CodePlace],
) -> Option<u32>
    requires faultless { gather_fault objects.now ≡ None }
    requires tables { AreCodeTables (parsed objects.now) tables.now }
    ensures { (l : IndexedSection) → section_at (parsed objects.now).objects l.object l.index ≡ Some l.section
        → places.now ≡ code_places (parsed objects.now) l → section.now ≡ section_row objects.now.fixed l
        → option_map (place_of l) result ≡ find (is_out_of_reach (parsed objects.now)) (places_of l) }
{
    for place in places {
        if is_out_of_reach(objects, tables, section, place) {
            return Some(place.offset);
        }
    }
    None
}

/// The first place of a branch or jump that is out of range in the plain layout. It looks at each place once.
pub fn first_out_of_reach(objects: &Objects, tables: &CodeTables) -> Option<Place>
    requires { AreCodeTables (parsed objects.now) tables.now }
    ensures { result ≡ find (is_out_of_reach (parsed objects.now)) (all_places (parsed objects.now).objects) }
{
    for k in 0..objects.section_count() {
        let row = objects.section_row(k);
        if let Some(offset) = first_offset(objects, tables, &row, tables.places(k)) {
            return Some(Place {
                object: row.object,
                section: row.index,
                offset,
            });
        }
    }
    None
}
