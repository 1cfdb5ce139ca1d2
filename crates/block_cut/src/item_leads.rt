// Where items lead.

ghost use Rattle.std.specs.Prelude.{◌≡◌, ◌+◌, ◌<◌, ◌^◌, ◌&&◌, ℕ, false, IfOk};
ghost use Rattle.std.specs.List.{list_any};
ghost use Rattle.std.specs.Option.{option_map_or};
ghost use Rattle.psabi_sym.specs.Inputs.{parsed};
ghost use Rattle.zc_base.specs.Places.{same_place};
ghost use Rattle.zc_base.specs.declared.place.Place.{Place};
ghost use Rattle.block_cut.specs.Invariants.Home.{IsHome};
ghost use Rattle.block_cut.specs.Items.{place_of, places_of};
ghost use Rattle.block_cut.specs.Leaders.{ends_block, goes_to, is_jalr, item_leads};
ghost use Rattle.block_cut.specs.Invariants.Led.{AddsPlaces};
ghost use Rattle.block_cut.specs.Places.{code_place, code_places};

use crate::code_place::CodePlace;
use crate::item::Item;
use crate::leaders::Leaders;
use psabi_sym::objects::Objects;
use psabi_sym::section_ref::SectionRef;
use rv_decode::instr::Instr;
use std::alloc::AllocError;
use zc_base::place::Place;

/// A section whose items are walked over: the objects, itself, and its number among all.
#[derive(Drop)]
pub struct Home<'a> {
    pub objects: &'a Objects,
    pub section: &'a SectionRef<'a>,
    pub number: u32,
}

// Whether an instruction is a `jalr`.
fn is_jalr(instr: &Instr) -> bool
    ensures { result ≡ is_jalr instr.now }
{
    matches!(instr, Instr::Jalr { .. })
}

// Whether a basic block ends with an item.
fn ends_block(item: &Item) -> bool
    ensures { result ≡ ends_block item.now }
{
    match item {
        Item::Branch { .. } | Item::Jump { .. } | Item::Call { .. } => true,
        Item::Op(instr) | Item::Lo(instr, _) | Item::PcLo(instr, _) => is_jalr(instr),
        Item::Hi(..)
        | Item::PcHi(..)
        | Item::Align(_)
        | Item::Word(_)
        | Item::Raw(_)
        | Item::RawShort(_)
        | Item::RawPair(..) => false,
    }
}

// The place that a branch, a jump or a call goes to.
fn target_of(item: &Item) -> Option<Place>
    ensures { (q : Place) → goes_to q item.now ≡ option_map_or (λ to. same_place to q) result false }
{
    match item {
        Item::Branch { to, .. } | Item::Jump { to, .. } | Item::Call { to, .. } => Some(*to),
        Item::Op(_)
        | Item::Hi(..)
        | Item::Lo(..)
        | Item::PcHi(..)
        | Item::PcLo(..)
        | Item::Align(_)
        | Item::Word(_)
        | Item::Raw(_)
        | Item::RawShort(_)
        | Item::RawPair(..) => None,
    }
}

// Adds the place that an item goes to.
fn add_target(leaders: &mut Leaders, home: &Home, item: &Item) -> Result<(), AllocError>
    requires { IsHome home.now }
    ensures { IfOk result (λ _. AddsPlaces (parsed home.now.objects.now).objects (λ q. goes_to q item.now)
        leaders.old leaders.new) }
{
    let Some(to) = target_of(item) else {
        return Ok(());
    };
    if to.object == home.section.object() && to.section == home.section.index() {
        leaders.add_in(home.number, to)?;
        return Ok(());
    }
    leaders.add(home.objects, to)?;
    Ok(())
}

// Adds the place after an item, if a basic block ends with that item.
fn add_next(leaders: &mut Leaders, home: &Home, offset: u32, item: &Item) -> Result<(), AllocError>
    requires { IsHome home.now }
    ensures { IfOk result (λ _. AddsPlaces (parsed home.now.objects.now).objects
        (λ q. ends_block item.now && same_place (place_of home.now.section.now offset) q) leaders.old leaders.new) }
{
    if !ends_block(item) {
        return Ok(());
    }
    let next = Place {
        object: home.section.object(),
        section: home.section.index(),
        offset,
    };
    leaders.add_in(home.number, next)?;
    Ok(())
}

// Adds the places that the item at a place of a section leads to.
fn add_place(leaders: &mut Leaders, home: &Home, place: &CodePlace) -> Result<(), AllocError>
    requires home { IsHome home.now }
    requires room { place.now.offset + 256 < 2 ^ 32 }
    ensures { IfOk result (λ _. (n : ℕ) → place.now ≡ code_place (parsed home.now.objects.now) home.now.section.now n
        → AddsPlaces (parsed home.now.objects.now).objects
        (λ q. item_leads (parsed home.now.objects.now) q (place_of home.now.section.now n)) leaders.old leaders.new) }
{
    let Some(item) = &place.item else {
        return Ok(());
    };
    add_target(leaders, home, item)?;
    add_next(leaders, home, place.offset + u32::from(place.size), item)?;
    Ok(())
}

/// Adds the places that the items of a section lead to, by its places.
pub fn add_items(leaders: &mut Leaders, home: &Home, places: &[CodePlace]) -> Result<(), AllocError>
    requires home { IsHome home.now }
    requires places { places.now ≡ code_places (parsed home.now.objects.now) home.now.section.now }
    ensures { IfOk result (λ _. AddsPlaces (parsed home.now.objects.now).objects
        (λ q. list_any (item_leads (parsed home.now.objects.now) q) (places_of home.now.section.now))
        leaders.old leaders.new) }
{
    for place in places {
        add_place(leaders, home, place)?;
    }
    Ok(())
}
