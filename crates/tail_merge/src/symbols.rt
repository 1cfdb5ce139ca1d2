// What becomes of symbols.

ghost use Rattle.std.specs.Prelude.{◌≡◌, ◌<◌, ◌+◌, ◌&&◌, [], IfOk, MatchOption, None, Some, drop, if◌then◌else◌, length, map};
ghost use Rattle.std.specs.Prelude.{slice_get, slice_index_or, true};
ghost use Rattle.elf32_read.specs.Lent.{IsSymbol};
ghost use Rattle.elf32_read.specs.Parts.{ObjectParts, SectionParts, SymbolParts, is_code_section, object_parts};
ghost use Rattle.psabi_sym.specs.Indexed.{section_at};
ghost use Rattle.psabi_sym.specs.Inputs.{parsed};
ghost use Rattle.tail_merge.specs.Merged.{is_edge, merged_symbol, removed_at, symbol_in_code};
ghost use Rattle.tail_merge.specs.MovedTails.{AreAllMoved, AreMovedAt, kept_numbers, tables_of};
ghost use Rattle.tail_merge.specs.Tails.{moved_down};

use crate::moved_tail::{MovedTail, moved_down};
use crate::tail_tables::table_at;
use block_cut::cut::Cut;
use elf32_read::symbol::{ABS, Symbol, UNDEF};
use elf32_write::object_parts::PartSymbol;
use object_passes::section_room::is_kept;
use object_passes::symbols::symbol_part;
use psabi_sym::objects::Objects;
use std::alloc::{AllocError, Global};
use zc_base::place::Place;

/// The objects that were cut, with the tables of their sections' tails.
#[derive(Clone, Copy)]
pub struct CutTails<'a> {
    pub cut: &'a Cut,
    pub tables: &'a [Vec<MovedTail>],
}

/// The new numbers of an object's sections, in order; none for one that is dropped.
pub fn kept_numbers(
    alloc: Global,
    objects: &Objects,
    object: u16,
) -> Result<Vec<Option<u16>>, AllocError>
    requires { object < length objects.now.files }
    ensures { IfOk result (λ numbers. numbers.items
        ≡ kept_numbers (object_parts (slice_index_or objects.now.files object []))) }
{
    let mut numbers = Vec::new(alloc);
    let mut next = 1;
    for i in 0..objects.object(object).section_count() {
        let Some(k) = objects.section_number(object, i as u16) else {
            unreachable!();
        };
        if is_kept(&objects.section(k)) {
            numbers.push(Some(next))?;
            next += 1;
        } else {
            numbers.push(None)?;
        }
    }
    Ok(numbers)
}

// Whether an item starts at an offset of a section of code, or the section ends there.
fn is_edge(cut: &Cut, place: Place) -> bool
    ensures { (s : SectionParts) → section_at (parsed cut.now).objects place.object place.section ≡ Some s
        → is_code_section s ≡ true → result ≡ is_edge s place.offset }
{
    cut.number(place).is_some()
}

// Where a symbol ends; none if that is past all code.
fn end_of(start: u32, size: u32) -> Option<u32>
    ensures { MatchOption result (0x40_0000 < start + size) (λ end. end ≡ start + size) }
{
    let end = u64::from(start) + u64::from(size);
    if 0x40_0000 < end {
        return None;
    }
    Some(end as u32)
}

// Where a symbol in code ends in the result; none if it doesn't begin and end where items do.
fn moved_end(cut: &Cut, tails: &[MovedTail], start: Place, size: u32) -> Option<u32>
    requires { AreMovedAt (parsed cut.now) start.object start.section tails.now }
    ensures { (s : SectionParts) → section_at (parsed cut.now).objects start.object start.section ≡ Some s
        → is_code_section s ≡ true → result ≡ (if is_edge s start.offset && is_edge s (start.offset + size)
        then Some (moved_down (removed_at (parsed cut.now) start.object start.section) (start.offset + size)) else None) }
{
    // Sections without a fault are whole, so none is longer than a file.
    cut.recall_invariant();
    let offset = end_of(start.offset, size)?;
    if is_edge(cut, start) && is_edge(cut, Place { offset, ..start }) {
        Some(moved_down(tails, offset))
    } else {
        None
    }
}

// What becomes of a symbol in code of an object.
fn symbol_in_code<'a>(cut: &Cut, tails: &[MovedTail], object: u16, symbol: Symbol<'a>) -> Symbol<'a>
    requires { AreMovedAt (parsed cut.now) object symbol.home tails.now }
    ensures { (home : SectionParts) (s : SymbolParts)
        → section_at (parsed cut.now).objects object symbol.entry.home ≡ Some home → is_code_section home ≡ true
        → IsSymbol symbol.entry s
        → IsSymbol result (symbol_in_code (removed_at (parsed cut.now) object symbol.entry.home) home s) }
{
    let start = Place {
        object,
        section: symbol.home,
        offset: symbol.value,
    };
    let value = moved_down(tails, symbol.value);
    let size = match moved_end(cut, tails, start, symbol.size) {
        None => 0,
        Some(end) => end.saturating_sub(value),
    };
    Symbol {
        value,
        size,
        ..symbol
    }
}

// What becomes of a symbol of an object, by the new numbers of its sections.
fn merged_symbol<'a>(
    given: &CutTails<'_>,
    numbers: &[Option<u16>],
    object: u16,
    symbol: Symbol<'a>,
) -> Symbol<'a>
    requires tables { AreAllMoved (parsed given.now.cut.now) (tables_of given.now.tables.now) }
    ensures { (parts : ObjectParts) (s : SymbolParts)
        → slice_get (parsed given.now.cut.now).objects object ≡ Some parts → numbers.now ≡ kept_numbers parts
        → IsSymbol symbol.entry s → IsSymbol result (merged_symbol (parsed given.now.cut.now) object parts s) }
{
    if symbol.home == UNDEF {
        return symbol;
    }
    let Some(number) = numbers.get(symbol.home as usize) else {
        return symbol;
    };
    let Some(home) = *number else {
        return Symbol {
            value: 0,
            home: ABS,
            ..symbol
        };
    };
    if given.cut.objects().is_code(object, symbol.home) {
        let tails = table_at(given.cut.objects(), given.tables, object, symbol.home);
        Symbol {
            home,
            ..symbol_in_code(given.cut, tails, object, symbol)
        }
    } else {
        Symbol { home, ..symbol }
    }
}

/// What becomes of each symbol of an object but symbol 0, in time near-linear in the symbols and their names.
pub fn merged_symbols(
    alloc: Global,
    given: &CutTails<'_>,
    object: u16,
) -> Result<Vec<PartSymbol>, AllocError>
    requires object { object < length given.now.cut.now.files }
    requires tables { AreAllMoved (parsed given.now.cut.now) (tables_of given.now.tables.now) }
    ensures { IfOk result (λ symbols. symbols.items
        ≡ map (merged_symbol (parsed given.now.cut.now) object (object_parts (slice_index_or given.now.cut.now.files object [])))
        (drop 1 (object_parts (slice_index_or given.now.cut.now.files object [])).symbols)) }
{
    let numbers = kept_numbers(alloc, given.cut.objects(), object)?;
    let read = given.cut.objects().object(object);
    let mut symbols = Vec::new(alloc);
    for i in 1..read.symbol_count() {
        let symbol = merged_symbol(given, &numbers, object, read.symbol(i));
        symbols.push(symbol_part(alloc, symbol)?)?;
    }
    Ok(symbols)
}
