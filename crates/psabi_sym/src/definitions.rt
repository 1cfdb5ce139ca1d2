// What sections and names are: addresses, and what stands for names.

ghost use Rattle.std.specs.Prelude.{◌≡◌, IfOk, None, length, map};
ghost use Rattle.std.specs.List.{range_with_len};
ghost use Rattle.zc_base.specs.MemMap.{IsMap};
ghost use Rattle.elf32_read.specs.Parts.{object_parts};
ghost use Rattle.psabi_sym.specs.Faults.{sum_fault};
ghost use Rattle.psabi_sym.specs.Inputs.{read_from};
ghost use Rattle.psabi_sym.specs.Indexed.{all_sections, all_symbols};
ghost use Rattle.psabi_sym.specs.Invariants.Numbered.{IsNumbered};
ghost use Rattle.psabi_sym.specs.Invariants.Rows.{first_row, section_row};
ghost use Rattle.psabi_sym.specs.Start.{IsStart};
ghost use Rattle.psabi_sym.specs.Invariants.Tables.{AreDefined};

use crate::commons::place_commons;
use crate::layout::lay_out;
use crate::loaded::Loaded;
use crate::meaning::{LinkerNumbers, Meaning, NameTables, meanings};
use crate::name_tables::weak_meanings;
use crate::section_row::SectionRow;
use crate::start::start_meaning;
use crate::symbol_row::SymbolRow;
use std::alloc::{AllocError, Global};
use zc_base::link_options::LinkOptions;

// How far after the start of small data the global pointer stands.
const GLOBAL_POINTER: u32 = 0x800;

/// The address of each section, what each name and `_start` stand for, and where data ends, in the
/// file and in memory.
#[derive(Drop)]
pub struct Definitions {
    pub addresses: Vec<u32>,
    pub meanings: Vec<Meaning>,
    pub start: Meaning,
    pub file_end: u32,
    pub end: u32,
}

/// What a link keeps of sections and symbols before they are defined: their rows, the names by their
/// numbers, and the first strong definition of each name.
#[derive(Clone, Copy)]
pub struct KeptRows<'a> {
    pub sections: &'a [SectionRow],
    pub symbols: &'a [SymbolRow],
    pub names: &'a [&'a [u8]],
    pub strong: &'a [Option<SymbolRow>],
}

/// The definitions of objects whose sums are within their limits.
pub fn define(
    alloc: Global,
    objects: &[Loaded],
    options: &LinkOptions,
    kept: &KeptRows<'_>,
) -> Result<Definitions, AllocError>
    requires is_map { IsMap options.now.map }
    requires sums { sum_fault objects.now ≡ None }
    requires sections { kept.now.sections.now
        ≡ map (section_row options.now.fixed) (all_sections (map object_parts objects.now)) }
    requires symbols { IsNumbered (map (λ name. name.now) kept.now.names.now)
        (all_symbols (map object_parts objects.now)) kept.now.symbols.now }
    requires strong { kept.now.strong.now
        ≡ map (first_row 1 kept.now.symbols.now) (range_with_len 0 (length kept.now.names.now)) }
    ensures { IfOk result (λ definitions. AreDefined (read_from objects.now options.now) kept.now.sections.now
        definitions.addresses.items kept.now.symbols.now definitions.meanings.items definitions.file_end definitions.end
        × IsStart (read_from objects.now options.now) definitions.start) }
{
    let KeptRows {
        sections,
        symbols,
        names,
        strong,
    } = *kept;
    let memory = options.map();
    let weak = weak_meanings(alloc, symbols, names.len())?;
    let layout = lay_out(alloc, sections, memory.data_low)?;
    let commons = place_commons(alloc, symbols, strong, layout.ends.end)?;
    let numbers = LinkerNumbers {
        global_pointer: layout.ends.small_data + GLOBAL_POINTER,
        bss_start: layout.ends.small_zero,
        end: commons.end,
        stack_top: memory.stack_high,
    };
    let tables = NameTables {
        strong,
        commons: &commons.addresses,
    };
    let meanings = meanings(names, weak, &tables, &numbers);
    let start = start_meaning(names, &meanings);
    Ok(Definitions {
        addresses: layout.addresses,
        meanings,
        start,
        file_end: layout.ends.file_end,
        end: commons.end,
    })
}
