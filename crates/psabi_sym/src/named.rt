// Objects with their names.

ghost use Rattle.std.specs.Prelude.{◌≡◌, ◌<◌, ◌≤◌, ℕ, true, All, IfErr, IfOk, List, None, length, map};
ghost use Rattle.std.specs.List.{range_with_len};
ghost use Rattle.std.specs.Option.{option_map};
ghost use Rattle.zc_base.specs.MemMap.{IsMap};
ghost use Rattle.zc_base.specs.Options.{Options};
ghost use Rattle.elf32_read.specs.declared.fault.Fault.TheVariants.{Undefined};
ghost use Rattle.elf32_read.specs.Parts.{ObjectParts, object_parts};
ghost use Rattle.psabi_sym.specs.Faults.{duplicate_fault, name_fault, sum_fault, undefined_fault};
ghost use Rattle.psabi_sym.specs.Inputs.{read_from};
ghost use Rattle.psabi_sym.specs.LinkFault.{IsRefusal};
ghost use Rattle.psabi_sym.specs.Indexed.{all_sections, all_symbols};
ghost use Rattle.psabi_sym.specs.Invariants.Numbered.{IsNumbered};
ghost use Rattle.psabi_sym.specs.Invariants.Rows.{first_row, row_defines, section_row};
ghost use Rattle.psabi_sym.specs.Invariants.Tables.{AreDefined, AreNamed, HasNameNumber};
ghost use Rattle.psabi_sym.specs.Start.{IsStart};
ghost use Rattle.psabi_sym.specs.declared.symbol_row.SymbolRow.{SymbolRow};

use crate::definitions::{Definitions, KeptRows, define};
use crate::link_fault::LinkFault;
use crate::loaded::Loaded;
use crate::meaning::{Meaning, first_duplicate, first_undefined};
use crate::name_tables::first_definitions;
use crate::names::Names;
use crate::section_row::SectionRow;
use crate::symbol_row::SymbolRow;
use crate::symbols::Symbols;
use crate::used::used_symbols;
use elf32_read::fault::Fault;
use elf32_read::symbol::GLOBAL;
use std::alloc::{AllocError, Global};
use zc_base::link_options::LinkOptions;

/// The symbols of objects, and what sections and names are.
#[derive(Drop)]
pub struct Named {
    pub symbols: Symbols,
    pub definitions: Definitions,
}

// The rows of sections and symbols, and the names by their numbers.
#[derive(Clone, Copy)]
struct NumberedRows<'a> {
    sections: &'a [SectionRow],
    symbols: &'a [SymbolRow],
    names: &'a [&'a [u8]],
}

// Of each name below `count`, the first strong definition, or the fault of the first symbol that
// defines a name again.
fn strong_definitions(
    alloc: Global,
    rows: &[SymbolRow],
    count: usize,
) -> Result<Vec<Option<SymbolRow>>, LinkFault>
    requires { All (λ r. row_defines 1 r ≡ true → r.name < count) rows.now }
    ensures strong { IfOk result (λ strong. strong.items ≡ map (first_row 1 rows.now) (range_with_len 0 count)) }
    ensures once { (names : List (List ℕ)) (objects : List ObjectParts)
        → IsNumbered names (all_symbols objects) rows.now → IfOk result (λ _. duplicate_fault objects ≡ None) }
    ensures err { (names : List (List ℕ)) (objects : List ObjectParts)
        → IsNumbered names (all_symbols objects) rows.now → IfErr result (IsRefusal (duplicate_fault objects)) }
{
    let strong = first_definitions(alloc, rows, count, GLOBAL)?;
    if let Some((index, symbol)) = first_duplicate(rows, &strong) {
        return Err(LinkFault::Object {
            index,
            fault: Fault::Duplicate { symbol },
        });
    }
    Ok(strong)
}

// The first symbol that is used and that nothing defines: its object's index and its own.
fn undefined_symbol(
    alloc: Global,
    objects: &[Loaded],
    rows: &[SymbolRow],
    meanings: &[Meaning],
) -> Result<Option<(u32, u32)>, AllocError>
    requires { (options : Options) × AreNamed (read_from objects.now options) rows.now meanings.now }
    ensures { (options : Options) → AreNamed (read_from objects.now options) rows.now meanings.now
        → IfOk result (λ found. undefined_fault (read_from objects.now options)
        ≡ option_map (λ p. (p.0, Undefined p.1)) found) }
{
    let used = used_symbols(alloc, objects)?;
    Ok(first_undefined(rows, &used, meanings))
}

// The definitions of names that have numbers, or the first fault of the names.
fn define_names(
    alloc: Global,
    objects: &[Loaded],
    options: &LinkOptions,
    rows: &NumberedRows<'_>,
) -> Result<Definitions, LinkFault>
    requires is_map { IsMap options.now.map }
    requires sums { sum_fault objects.now ≡ None }
    requires sections { rows.now.sections.now
        ≡ map (section_row options.now.fixed) (all_sections (map object_parts objects.now)) }
    requires symbols { IsNumbered (map (λ name. name.now) rows.now.names.now)
        (all_symbols (map object_parts objects.now)) rows.now.symbols.now }
    ensures defined { IfOk result (λ definitions. AreDefined (read_from objects.now options.now) rows.now.sections.now
        definitions.addresses.items rows.now.symbols.now definitions.meanings.items definitions.file_end definitions.end
        × IsStart (read_from objects.now options.now) definitions.start
        × (name_fault (read_from objects.now options.now) ≡ None)) }
    ensures err { IfErr result (IsRefusal (name_fault (read_from objects.now options.now))) }
{
    let NumberedRows {
        sections,
        symbols,
        names,
    } = *rows;
    let strong = strong_definitions(alloc, symbols, names.len())?;
    let kept = KeptRows {
        sections,
        symbols,
        names,
        strong: &strong,
    };
    let definitions = define(alloc, objects, options, &kept)?;
    if let Some((index, symbol)) = undefined_symbol(
        alloc,
        objects,
        symbols,
        &definitions.meanings,
    )? {
        return Err(LinkFault::Object {
            index,
            fault: Fault::Undefined { symbol },
        });
    }
    Ok(definitions)
}

/// The symbols and definitions of objects whose sums are within their limits, or the first fault of
/// their names.
pub fn name_objects(
    alloc: Global,
    objects: &[Loaded],
    options: &LinkOptions,
    sections: &[SectionRow],
) -> Result<Named, LinkFault>
    requires few { length objects.now ≤ 256 }
    requires is_map { IsMap options.now.map }
    requires sums { sum_fault objects.now ≡ None }
    requires sections { sections.now
        ≡ map (section_row options.now.fixed) (all_sections (map object_parts objects.now)) }
    ensures named { IfOk result (HasNameNumber (read_from objects.now options.now) sections.now) }
    ensures err { IfErr result (IsRefusal (name_fault (read_from objects.now options.now))) }
{
    let mut names = Names::new(alloc);
    let symbols = Symbols::new(alloc, objects, &mut names)?;
    let texts = names.into_texts();
    let rows = NumberedRows {
        sections,
        symbols: &symbols.rows,
        names: &texts,
    };
    match define_names(alloc, objects, options, &rows) {
        Err(fault) => Err(fault),
        Ok(definitions) => Ok(Named {
            symbols,
            definitions,
        }),
    }
}
