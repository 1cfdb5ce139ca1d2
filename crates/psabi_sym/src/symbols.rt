// The symbols of all objects.

ghost use Rattle.std.specs.Prelude.{◌≡◌, ◌+◌, ◌-◌, ◌≤◌, [], IfOk, length, map};
ghost use Rattle.std.specs.List.{range_with_len, sum_by};
ghost use Rattle.elf32_read.specs.Parts.{object_parts};
ghost use Rattle.elf32_read.specs.Symbols.{symbol_count};
ghost use Rattle.psabi_sym.specs.Invariants.Keys.{AreNames, names_of};
ghost use Rattle.psabi_sym.specs.Indexed.{all_symbols};
ghost use Rattle.psabi_sym.specs.Invariants.Numbered.{IsNumbered};
ghost use Rattle.psabi_sym.specs.Invariants.Rows.{symbol_starts};

use crate::loaded::{IndexedObject, Loaded};
use crate::names::Names;
use crate::read_symbols::add_symbols;
use crate::symbol_row::SymbolRow;
use std::alloc::{AllocError, Global};

// The number of the objects' symbols, without symbol 0 of each.
fn count_of(objects: &[Loaded]) -> usize
    requires { length objects.now ≤ 256 }
    ensures { result ≡ sum_by (λ file. symbol_count file - 1) objects.now }
{
    let mut count = 0;
    for object in objects {
        count += object.object().symbol_count().saturating_sub(1) as usize;
    }
    count
}

/// The symbols of all objects, one object after another and without symbol 0, and where those of each
/// object begin, with the end of all at last.
#[derive(Drop)]
pub struct Symbols {
    pub rows: Vec<SymbolRow>,
    pub starts: Vec<u32>,
}

impl Symbols {
    /// The symbols of these objects, with their names as numbers.
    pub fn new<'a>(
        alloc: Global,
        objects: &'a [Loaded],
        names: &mut Names<'a>,
    ) -> Result<Symbols, AllocError>
        requires few { length objects.now ≤ 256 }
        requires are { AreNames names.old }
        requires unnamed { names_of names.old ≡ [] }
        requires tails { names.old.tails.texts.items ≡ [] }
        ensures rows { IfOk result (λ symbols. IsNumbered (names_of names.new)
            (all_symbols (map object_parts objects.entry.now)) symbols.rows.items) }
        ensures starts { IfOk result (λ symbols. symbols.starts.items
            ≡ map (symbol_starts (map object_parts objects.entry.now)) (range_with_len 0 (length objects.entry.now + 1))) }
    {
        let mut rows = Vec::with_capacity(alloc, count_of(objects))?;
        let mut starts = Vec::with_capacity(alloc, objects.len() + 1)?;
        for (i, loaded) in objects.iter().enumerate() {
            starts.push(rows.len() as u32)?;
            let object = IndexedObject {
                index: i as u16,
                loaded,
            };
            add_symbols(alloc, object, names, &mut rows)?;
        }
        starts.push(rows.len() as u32)?;
        Ok(Symbols { rows, starts })
    }
}
