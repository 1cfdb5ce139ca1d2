// The symbols of an object, and their names (System V gABI, "Symbol Table").

ghost use Rattle.std.specs.Prelude.{◌≡◌, ◌^◌, ◌<◌, ◌≤◌, ◌+◌, ◌++◌, ◌∷◌, [], length, All, IfOk, OnOk};
ghost use Rattle.std.specs.List.{flat_map};
ghost use Rattle.elf32_write.specs.NameTable.{name_table};
ghost use Rattle.elf32_write.specs.Entries.{HasInfo, after_locals, strtab_names, symbol_bytes, written_entries};
ghost use Rattle.elf32_write.specs.Ranges.{IsEntrySized, IsSymbolSized};

use crate::fields::{push_half, push_words};
use crate::name_table::push_name;
use crate::object_parts::PartSymbol;
use elf32_read::symbol::LOCAL;
use elf32_read::symbol_entry::SymbolEntry;
use std::alloc::{AllocError, Global};

// Symbol 0.
const NULL: SymbolEntry = SymbolEntry {
    name: 0,
    value: 0,
    size: 0,
    bind: 0,
    kind: 0,
    home: 0,
};

/// The entries of a symbol table, and the table of their names.
#[derive(Drop)]
pub struct WrittenSymbols {
    pub entries: Vec<u8>,
    pub names: Vec<u8>,
}

// Appends the entry of a symbol.
fn push_symbol(out: &mut Vec<u8>, symbol: SymbolEntry) -> Result<(), AllocError>
    requires bind { symbol.bind < 16 }
    requires kind { symbol.kind < 16 }
    ensures appended { OnOk result (out.new.items ≡ out.old.items ++ symbol_bytes symbol) }
    // By the types of its numbers.
    ensures sized { IsEntrySized symbol }
{
    push_words(out, &[symbol.name, symbol.value, symbol.size])?;
    out.extend_from_slice(&[16 * symbol.bind + symbol.kind, 0])?;
    push_half(out, symbol.home)
}

/// The table of symbol 0 and of these symbols.
pub fn symbol_table(alloc: Global, symbols: &[PartSymbol]) -> Result<WrittenSymbols, AllocError>
    requires info { All HasInfo symbols.now }
    requires names { length (name_table (strtab_names symbols.now)) < 2 ^ 32 }
    ensures entries { IfOk result (λ table. table.entries.items ≡ flat_map symbol_bytes (written_entries symbols.now)) }
    ensures names { IfOk result (λ table. table.names.items ≡ name_table (strtab_names symbols.now)) }
    ensures sized { OnOk result (All IsSymbolSized symbols.now) }
{
    let mut names = Vec::new(alloc);
    names.push(0)?;
    let mut entries = Vec::new(alloc);
    push_symbol(&mut entries, NULL)?;
    for symbol in symbols {
        let name = push_name(&mut names, &symbol.name)?;
        push_symbol(
            &mut entries,
            SymbolEntry {
                name,
                value: symbol.value,
                size: symbol.size,
                bind: symbol.bind,
                kind: symbol.kind,
                home: symbol.home,
            },
        )?;
    }
    Ok(WrittenSymbols { entries, names })
}

/// The index after the last local symbol.
#[tactic(auto, using(crate::proofs::Locals::after_locals_more))]
pub fn after_locals(symbols: &[PartSymbol]) -> usize
    ensures index { result ≡ after_locals symbols.now }
    ensures most { result ≤ length symbols.now + 1 }
{
    let mut end = 1;
    for i in 0..symbols.len() {
        let symbol = &symbols[i];
        if symbol.bind == LOCAL {
            end = i + 2;
        }
    }
    end
}
