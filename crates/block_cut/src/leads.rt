// Where relocations, items and symbols lead.

ghost use Rattle.std.specs.Prelude.{◌≡◌, ◌<◌, ◌&&◌, ◌||◌, IfOk, None, Some, length, slice_get};
ghost use Rattle.std.specs.List.{list_any};
ghost use Rattle.elf32_read.specs.Parts.{object_parts, symbol_parts};
ghost use Rattle.psabi_sym.specs.Faults.{gather_fault};
ghost use Rattle.psabi_sym.specs.Inputs.{parsed};
ghost use Rattle.psabi_sym.specs.Indexed.{IndexedSection, IndexedSymbol, all_sections, all_symbols, symbols_in};
ghost use Rattle.zc_base.specs.Places.{same_place};
ghost use Rattle.zc_base.specs.declared.place.Place.{Place};
ghost use Rattle.block_cut.specs.Invariants.CodeTables.{AreCodeTables};
ghost use Rattle.block_cut.specs.Items.{all_places, places_of};
ghost use Rattle.block_cut.specs.Leaders.{is_place, item_leads, symbol_leads};
ghost use Rattle.block_cut.specs.Invariants.Led.{AddsPlaces};

use crate::code_tables::CodeTables;
use crate::item_leads::{Home, add_items};
use crate::leaders::Leaders;
use crate::resolved_reloc::ResolvedReloc;
use elf32_read::object::Object;
use elf32_read::symbol::{GLOBAL, WEAK};
use elf32_read::symbol_entry::SymbolEntry;
use psabi_sym::objects::Objects;
use psabi_sym::target::Target;
use std::alloc::AllocError;
use zc_base::place::Place;

const FUNC: u8 = 2;

/// Adds the place that a relocation leads to.
pub fn add_reloc(
    leaders: &mut Leaders,
    objects: &Objects,
    reloc: &ResolvedReloc,
) -> Result<(), AllocError>
    ensures { IfOk result (λ _. AddsPlaces (parsed objects.now).objects (λ q. is_place q reloc.now.target)
        leaders.old leaders.new) }
{
    match reloc.target {
        Target::Code(to) => leaders.add(objects, to),
        Target::Number(_) | Target::Absent(_) | Target::Nowhere => Ok(()),
    }
}

/// Adds the places that relocations lead to. It looks at each relocation once.
pub fn add_relocs(
    leaders: &mut Leaders,
    objects: &Objects,
    relocs: &[ResolvedReloc],
) -> Result<(), AllocError>
    ensures { IfOk result (λ _. AddsPlaces (parsed objects.now).objects (λ q. list_any
        (λ d. is_place q d.target) relocs.now)
        leaders.old leaders.new) }
{
    for reloc in relocs {
        add_reloc(leaders, objects, reloc)?;
    }
    Ok(())
}

// Adds the places that the items of a section lead to, by its number.
fn add_section(
    leaders: &mut Leaders,
    objects: &Objects,
    tables: &CodeTables,
    k: u32,
) -> Result<(), AllocError>
    requires gathered { gather_fault objects.now ≡ None }
    requires tables { AreCodeTables (parsed objects.now) tables.now }
    requires section { k < length (all_sections (parsed objects.now).objects) }
    ensures { IfOk result (λ _. (l : IndexedSection) → slice_get (all_sections (parsed objects.now).objects) k ≡ Some l
        → AddsPlaces (parsed objects.now).objects (λ q. list_any (item_leads (parsed objects.now) q) (places_of l))
        leaders.old leaders.new) }
{
    let section = objects.section(k);
    let home = Home {
        objects,
        section: &section,
        number: k,
    };
    add_items(leaders, &home, tables.places(k))?;
    Ok(())
}

// Adds the places that the items of all sections lead to.
fn add_sections(
    leaders: &mut Leaders,
    objects: &Objects,
    tables: &CodeTables,
) -> Result<(), AllocError>
    requires { AreCodeTables (parsed objects.now) tables.now }
    ensures { IfOk result (λ _. AddsPlaces (parsed objects.now).objects
        (λ q. list_any (item_leads (parsed objects.now) q) (all_places (parsed objects.now).objects))
        leaders.old leaders.new) }
{
    for k in 0..objects.section_count() {
        add_section(leaders, objects, tables, k)?;
    }
    Ok(())
}

// Whether a basic block begins where a symbol of an object is defined, by its object's index.
fn is_leader(objects: &Objects, o: u16, entry: &SymbolEntry) -> bool
    ensures { (q : Place) (l : IndexedSymbol) → l.object ≡ o → l.symbol.value ≡ entry.now.value
        → l.symbol.bind ≡ entry.now.bind → l.symbol.kind ≡ entry.now.kind → l.symbol.home ≡ entry.now.home
        → symbol_leads (parsed objects.now).objects q l
        ≡ (result && same_place (record { object = o; section = entry.now.home; offset = entry.now.value }) q) }
{
    let is_seen = entry.bind == GLOBAL || entry.bind == WEAK || entry.kind == FUNC;
    entry.home != 0 && is_seen && objects.is_code(o, entry.home)
}

// Adds the place of a symbol of an object, by its index, if a basic block begins there.
fn add_symbol(
    leaders: &mut Leaders,
    objects: &Objects,
    o: u16,
    entry: SymbolEntry,
) -> Result<(), AllocError>
    ensures { IfOk result (λ _. (l : IndexedSymbol) → l.object ≡ o → l.symbol.value ≡ entry.value
        → l.symbol.bind ≡ entry.bind → l.symbol.kind ≡ entry.kind → l.symbol.home ≡ entry.home
        → AddsPlaces (parsed objects.now).objects (λ q. symbol_leads (parsed objects.now).objects q l)
        leaders.old leaders.new) }
{
    let place = Place {
        object: o,
        section: entry.home,
        offset: entry.value,
    };
    if is_leader(objects, o, &entry) {
        leaders.add(objects, place)?;
    }
    Ok(())
}

// Adds the places of an object's symbols, by its index, if they lead there.
fn add_object(
    leaders: &mut Leaders,
    objects: &Objects,
    o: u16,
    object: &Object,
) -> Result<(), AllocError>
    ensures { IfOk result (λ _. AddsPlaces (parsed objects.now).objects
        (λ q. list_any (symbol_leads (parsed objects.now).objects q) (symbols_in (o, object_parts object.now)))
        leaders.old leaders.new) }
{
    for i in 1..object.symbol_count() {
        add_symbol(leaders, objects, o, object.symbol_entry(i))?;
    }
    Ok(())
}

// Adds the places of all symbols, if they lead there.
fn add_symbols(leaders: &mut Leaders, objects: &Objects) -> Result<(), AllocError>
    ensures { IfOk result (λ _. AddsPlaces (parsed objects.now).objects
        (λ q. list_any (symbol_leads (parsed objects.now).objects q) (all_symbols (parsed objects.now).objects))
        leaders.old leaders.new) }
{
    for i in 0..objects.object_count() {
        let o = i as u16;
        add_object(leaders, objects, o, &objects.object(o))?;
    }
    Ok(())
}

/// Adds the places that items and symbols lead to. It looks at each place and symbol once.
pub fn add_leads(
    leaders: &mut Leaders,
    objects: &Objects,
    tables: &CodeTables,
) -> Result<(), AllocError>
    requires { AreCodeTables (parsed objects.now) tables.now }
    ensures { IfOk result (λ _. AddsPlaces (parsed objects.now).objects
        (λ q. list_any (item_leads (parsed objects.now) q) (all_places (parsed objects.now).objects)
        || list_any (symbol_leads (parsed objects.now).objects q) (all_symbols (parsed objects.now).objects))
        leaders.old leaders.new) }
{
    add_sections(leaders, objects, tables)?;
    add_symbols(leaders, objects)?;
    Ok(())
}
