// What becomes of symbols.

ghost use Rattle.std.specs.Prelude.{◌≡◌, ℕ, Bool, IfOk, drop, map};
ghost use Rattle.elf32_read.specs.Lent.{IsSymbol};
ghost use Rattle.elf32_read.specs.Parts.{ObjectParts, SymbolParts, object_parts};
ghost use Rattle.section_gc.specs.Cleaned.{cleaned_symbol};
ghost use Rattle.section_gc.specs.Remains.{remains_in};

use crate::remains::Remains;
use elf32_read::object::Object;
use elf32_read::symbol::{ABS, Symbol, UNDEF};
use elf32_write::object_parts::PartSymbol;
use object_passes::symbols::symbol_part;
use std::alloc::{AllocError, Global};

// What becomes of a symbol, by what is left of each section of its object.
fn cleaned_symbol<'a>(table: &[Remains], symbol: Symbol<'a>) -> Symbol<'a>
    ensures { (needed : ℕ → Bool) (object : ObjectParts) (s : SymbolParts) → table.now ≡ remains_in needed object
        → IsSymbol symbol.entry s → IsSymbol result (cleaned_symbol needed object s) }
{
    if symbol.home == UNDEF {
        return symbol;
    }
    match table.get(symbol.home as usize) {
        None => symbol,
        Some(Remains::Nothing) => Symbol {
            value: 0,
            home: ABS,
            ..symbol
        },
        Some(Remains::Empty(number)) => Symbol {
            value: 0,
            size: 0,
            home: *number,
            ..symbol
        },
        Some(Remains::Whole(number)) => Symbol {
            home: *number,
            ..symbol
        },
    }
}

/// What becomes of each symbol of an object but symbol 0, by what is left of each section, in time linear in the
/// symbols and their names.
pub fn symbol_parts(
    alloc: Global,
    object: &Object,
    table: &[Remains],
) -> Result<Vec<PartSymbol>, AllocError>
    ensures { IfOk result (λ symbols. (needed : ℕ → Bool) → table.now ≡ remains_in needed (object_parts object.now)
        → symbols.items
        ≡ map (cleaned_symbol needed (object_parts object.now)) (drop 1 (object_parts object.now).symbols)) }
{
    let mut symbols = Vec::new(alloc);
    for i in 1..object.symbol_count() {
        let symbol = cleaned_symbol(table, object.symbol(i));
        symbols.push(symbol_part(alloc, symbol)?)?;
    }
    Ok(symbols)
}
