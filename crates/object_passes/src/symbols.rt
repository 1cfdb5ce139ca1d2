// Symbols as they are written.

ghost use Rattle.std.specs.Prelude.{IfOk};
ghost use Rattle.elf32_read.specs.Lent.{IsSymbol};

use elf32_read::symbol::Symbol;
use elf32_write::object_parts::PartSymbol;
use std::alloc::{AllocError, Global};

/// A symbol, as it is written.
pub fn symbol_part(alloc: Global, symbol: Symbol) -> Result<PartSymbol, AllocError>
    ensures { IfOk result (λ part. IsSymbol symbol.entry part) }
{
    let name = Vec::from_slice(alloc, symbol.name)?;
    Ok(PartSymbol {
        name,
        value: symbol.value,
        size: symbol.size,
        bind: symbol.bind,
        kind: symbol.kind,
        home: symbol.home,
    })
}
