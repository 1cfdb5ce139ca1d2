// What a link keeps of symbols.

ghost use Rattle.std.specs.Prelude.{◌≡◌, ◌+◌, ◌++◌, ◌^◌, ◌<◌, ◌≤◌, List, ℕ, true, length, vec_len, IfOk, OnOk};
ghost use Rattle.elf32_read.specs.Parts.{object_parts, symbol_parts};
ghost use Rattle.elf32_read.specs.Symbols.{symbol_names};
ghost use Rattle.psabi_sym.specs.Invariants.Keys.{AreLongEnds, AreNames, names_of};
ghost use Rattle.psabi_sym.specs.Indexed.{IndexedSymbol, symbols_in};
ghost use Rattle.psabi_sym.specs.Names.{goes_by_name};
ghost use Rattle.psabi_sym.specs.Invariants.Numbered.{IsNumbered};
ghost use Rattle.psabi_sym.specs.Invariants.Rows.{symbol_number, with_symbol};

use crate::loaded::IndexedObject;
use crate::name_ends::NameEnd;
use crate::names::Names;
use crate::symbol_row::SymbolRow;
use elf32_read::symbol::{COMMON, LOCAL};
use elf32_read::symbol_entry::SymbolEntry;
use std::alloc::{AllocError, Global};

// The symbol goes by its name: it is common or not local.
fn goes_by_name(entry: &SymbolEntry) -> bool
    ensures { (file : List ℕ) → result ≡ goes_by_name (symbol_parts file entry.now) }
{
    entry.home == COMMON || entry.bind != LOCAL
}

// The number of a symbol's name, which is new if it wasn't seen before; 0 if the symbol doesn't go by
// its name.
fn number_name<'a>(
    names: &mut Names<'a>,
    table: &'a [u8],
    ends: &[NameEnd],
    entry: &SymbolEntry,
) -> Result<u32, AllocError>
    requires few { length (names_of names.old) + 1 < 2 ^ 32 }
    requires are { AreNames names.old × AreLongEnds names.old.tails.texts.items table.now ends.now }
    ensures are { OnOk result (AreNames names.new × (names.new.tails ≡ names.old.tails)) }
    ensures names { (file : List ℕ) → table.now ≡ symbol_names file
        → OnOk result (names_of names.new ≡ with_symbol (names_of names.old) (symbol_parts file entry.now)) }
    ensures number { (file : List ℕ) → table.now ≡ symbol_names file
        → IfOk result (λ n. n ≡ symbol_number (names_of names.new) (symbol_parts file entry.now)) }
    ensures within { IfOk result (λ n. (file : List ℕ) → goes_by_name (symbol_parts file entry.now) ≡ true
        → n < length (names_of names.new)) }
{
    if !goes_by_name(entry) {
        return Ok(0);
    }
    let number = names.number(table, ends, entry.name)?;
    Ok(number)
}

/// Adds the symbols of an object to rows, but for symbol 0, and to names those that symbols go by.
pub fn add_symbols<'a>(
    alloc: Global,
    object: IndexedObject<'a>,
    names: &mut Names<'a>,
    rows: &mut Vec<SymbolRow>,
) -> Result<(), AllocError>
    requires few { length (names_of names.old) ≤ 2 ^ 31 }
    requires room { length names.old.tails.texts.items ≤ 2 ^ 31 }
    requires are { AreNames names.old }
    ensures are { OnOk result (AreNames names.new
        × (length names.new.tails.texts.items ≤ length names.old.tails.texts.items + 0x40_0000)) }
    ensures numbered { (listed : List IndexedSymbol) → IsNumbered (names_of names.old) listed rows.old.items
        → OnOk result (IsNumbered (names_of names.new)
        (listed ++ symbols_in (object.entry.index, object_parts object.entry.loaded.now)) rows.new.items) }
    ensures few { OnOk result (vec_len rows.new ≤ vec_len rows.old + 0x4_0000) }
{
    let IndexedObject { index, loaded } = object;
    let object = loaded.object();
    let table = object.symbol_names();
    let ends = names.read(alloc, table)?;
    for i in 1..object.symbol_count() {
        let entry = object.symbol_entry(i);
        let name = number_name(names, table, &ends, &entry)?;
        rows.push(SymbolRow {
            object: index,
            home: entry.home,
            index: i,
            name,
            value: entry.value,
            size: entry.size,
            bind: entry.bind,
        })?;
    }
    Ok(())
}
