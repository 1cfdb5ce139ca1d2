// What each name has among the symbols, by the number of the name.

ghost use Rattle.std.specs.Prelude.{◌≡◌, ◌<◌, ℕ, true, IfOk, map, All};
ghost use Rattle.std.specs.List.{range_with_len};
ghost use Rattle.psabi_sym.specs.Invariants.Meanings.{first_found, row_meaning};
ghost use Rattle.psabi_sym.specs.Invariants.Rows.{first_of_both, first_row, grown_block, no_block, row_common_block, row_defines, row_is_common};
ghost use Rattle.psabi_sym.specs.declared.symbol_row.SymbolRow.{SymbolRow};

use crate::block::Block;
use crate::meaning::Meaning;
use crate::symbol_row::SymbolRow;
use elf32_read::symbol::WEAK;
use std::alloc::{AllocError, Global};

// The definition that was found before a symbol, or else the symbol, if it is one.
fn first_of(found: Option<SymbolRow>, row: &SymbolRow, bind: u8) -> Option<SymbolRow>
    ensures { result ≡ first_of_both bind found row.now }
{
    if found.is_none() && row.defines(bind) {
        return Some(*row);
    }
    found
}

// The room of common symbols with one more symbol, if it is common.
fn grown(block: Block, row: &SymbolRow) -> Block
    ensures { result ≡ grown_block block row.now }
{
    if !row.is_common() {
        return block;
    }
    Block {
        align: block.align.max(row.value.max(1)),
        size: block.size.max(row.size),
    }
}

/// Of each name below `count`, the first definition with this binding.
#[tactic(auto, using(crate::proofs::Tables::first_row_step, crate::proofs::Tables::first_row_same))]
pub fn first_definitions(
    alloc: Global,
    rows: &[SymbolRow],
    count: usize,
    bind: u8,
) -> Result<Vec<Option<SymbolRow>>, AllocError>
    requires { All (λ r. row_defines bind r ≡ true → r.name < count) rows.now }
    ensures { IfOk result (λ table. table.items ≡ map (first_row bind rows.now) (range_with_len 0 count)) }
{
    let mut table = vec![in alloc; None; count]?;
    for row in rows {
        if row.defines(bind) {
            let name = row.name as usize;
            table[name] = first_of(table[name], row, bind);
        }
    }
    Ok(table)
}

// What was found before a symbol, or else the symbol.
fn first_found(found: Meaning, row: &SymbolRow) -> Meaning
    ensures { result ≡ first_found found row.now }
{
    match found {
        Meaning::Nothing => Meaning::Symbol(*row),
        Meaning::Symbol(_) | Meaning::Number(_) => found,
    }
}

/// Of each name below `count`, its first weak definition, or nothing.
#[tactic(auto, using(crate::proofs::Tables::weak_step, crate::proofs::Tables::weak_same))]
pub fn weak_meanings(
    alloc: Global,
    rows: &[SymbolRow],
    count: usize,
) -> Result<Vec<Meaning>, AllocError>
    requires { All (λ r. row_defines 2 r ≡ true → r.name < count) rows.now }
    ensures { IfOk result (λ table. table.items
        ≡ map row_meaning (map (first_row 2 rows.now) (range_with_len 0 count))) }
{
    let mut table = vec![in alloc; Meaning::Nothing; count]?;
    for row in rows {
        if row.defines(WEAK) {
            let name = row.name as usize;
            table[name] = first_found(table[name], row);
        }
    }
    Ok(table)
}

/// Of each name below `count`, the room of its common symbols: none without any.
#[tactic(auto, using(crate::proofs::Tables::common_block_step, crate::proofs::Tables::common_block_same))]
pub fn common_blocks(
    alloc: Global,
    rows: &[SymbolRow],
    count: usize,
) -> Result<Vec<Block>, AllocError>
    requires { All (λ r. row_is_common r ≡ true → r.name < count) rows.now }
    ensures { IfOk result (λ table. table.items ≡ map (row_common_block rows.now) (range_with_len 0 count)) }
{
    let mut table = vec![in alloc; Block { align: 0, size: 0 }; count]?;
    for row in rows {
        if row.is_common() {
            let name = row.name as usize;
            table[name] = grown(table[name], row);
        }
    }
    Ok(table)
}
