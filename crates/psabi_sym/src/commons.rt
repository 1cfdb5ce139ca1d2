// Where common symbols lie.

ghost use Rattle.std.specs.Prelude.{◌≡◌, ◌&&◌, ◌+◌, ◌^◌, ◌<◌, ℕ, All, IfOk, None, is_none, length, map, slice_index_or, true};
ghost use Rattle.std.specs.List.{range_with_len, sum_by};
ghost use Rattle.psabi_sym.specs.Blocks.{aligned_up, end_from, placed_from};
ghost use Rattle.psabi_sym.specs.Invariants.Rows.{first_row, placed_rows, row_address_of, row_common_block, row_common_room, row_is_common, row_room};
ghost use Rattle.psabi_sym.specs.declared.symbol_row.SymbolRow.{SymbolRow};

use crate::layout::{CLASS_ALIGN, aligned_up};
use crate::name_tables::common_blocks;
use crate::symbol_row::SymbolRow;
use std::alloc::{AllocError, Global};

/// Where common symbols lie: the address of each name that is common, by the name's number, and where
/// the last of them ends.
#[derive(Drop)]
pub struct Commons {
    pub addresses: Vec<Option<u32>>,
    pub end: u32,
}

// The symbol is common, no strong definition has its name, and its name has no place yet.
fn takes_room(row: &SymbolRow, strong: &[Option<SymbolRow>], addresses: &[Option<u32>]) -> bool
    requires strong { row_is_common row.now ≡ true → row.now.name < length strong.now }
    requires addresses { row_is_common row.now ≡ true → row.now.name < length addresses.now }
    ensures { result ≡ (row_is_common row.now && is_none (slice_index_or strong.now row.now.name None)
        && is_none (slice_index_or addresses.now row.now.name None)) }
{
    let name = row.name as usize;
    row.is_common() && strong[name].is_none() && addresses[name].is_none()
}

/// Places the common symbols one after another, from an address on, by the table of the first strong
/// definition of each name.
pub fn place_commons(
    alloc: Global,
    rows: &[SymbolRow],
    strong: &[Option<SymbolRow>],
    from: u32,
) -> Result<Commons, AllocError>
    requires named { All (λ r. row_is_common r ≡ true → r.name < length strong.now) rows.now }
    requires strong { strong.now ≡ map (first_row 1 rows.now) (range_with_len 0 (length strong.now)) }
    requires room { from + 16 + sum_by row_common_room rows.now < 2 ^ 32 }
    ensures end { IfOk result (λ commons. commons.end
        ≡ end_from (aligned_up 16 from) (map (row_room rows.now) (placed_rows rows.now rows.now))) }
    ensures addresses { IfOk result (λ commons. commons.addresses.items
        ≡ map (row_address_of (placed_from (row_room rows.now) (aligned_up 16 from) (placed_rows rows.now rows.now)))
        (range_with_len 0 (length strong.now))) }
{
    let blocks = common_blocks(alloc, rows, strong.len())?;
    let mut addresses = vec![in alloc; None; strong.len()]?;
    let mut at = aligned_up(CLASS_ALIGN, from);
    for row in rows {
        if takes_room(row, strong, &addresses) {
            let name = row.name as usize;
            let block = blocks[name];
            at = aligned_up(block.align, at);
            addresses[name] = Some(at);
            at += block.size;
        }
    }
    Ok(Commons { addresses, end: at })
}
