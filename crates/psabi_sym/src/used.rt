// Symbols that relocations name.

ghost use Rattle.std.specs.Prelude.{◌≡◌, ◌<◌, ◌==◌, ◌||◌, ℕ, IfOk, length, map, false, slice_index_or};
ghost use Rattle.std.specs.List.{enumerate_from, list_any};
ghost use Rattle.elf32_read.specs.Header.{header_of, section_count};
ghost use Rattle.elf32_read.specs.Parts.{object_parts, relocs_held, relocs_of};
ghost use Rattle.psabi_sym.specs.Faults.{is_used, is_used_in, names};
ghost use Rattle.psabi_sym.specs.Indexed.{all_symbols};

use crate::loaded::Loaded;
use elf32_read::relocs::Relocs;
use std::alloc::{AllocError, Global};

// Marks the symbols that the relocations of a section name.
fn mark_section(relocs: &Relocs, marks: &mut [bool])
    ensures { (s : ℕ) → s < length marks.old → slice_index_or marks.new s false
        ≡ (slice_index_or marks.old s false || names s relocs.now) }
{
    for k in 0..relocs.len() {
        let symbol = relocs.get(k).symbol as usize;
        if symbol < marks.len() {
            marks[symbol] = true;
        }
    }
}

// Marks the symbols that the relocations of an object name.
fn mark_object(loaded: &Loaded, marks: &mut [bool])
    ensures { (s : ℕ) → s < length marks.old → slice_index_or marks.new s false
        ≡ (slice_index_or marks.old s false || is_used_in (object_parts loaded.now) s) }
{
    let object = loaded.object();
    for i in 0..object.section_count() {
        mark_section(&loaded.relocs_of(&object, i), marks);
    }
}

// For each symbol of an object, with symbol 0, whether a relocation names it.
fn marks_of(alloc: Global, loaded: &Loaded) -> Result<Vec<bool>, AllocError>
    ensures { IfOk result (λ marks. marks.items
        ≡ map (λ s. is_used_in (object_parts loaded.now) s.0) (enumerate_from 0 (object_parts loaded.now).symbols)) }
{
    let mut marks = vec![in alloc; false; loaded.object().symbol_count() as usize]?;
    mark_object(loaded, &mut marks);
    Ok(marks)
}

/// For each symbol of all objects, without symbol 0, whether a relocation of its object names it.
pub fn used_symbols(alloc: Global, objects: &[Loaded]) -> Result<Vec<bool>, AllocError>
    ensures { IfOk result (λ used. used.items
        ≡ map (is_used (map object_parts objects.now)) (all_symbols (map object_parts objects.now))) }
{
    let mut used = Vec::new(alloc);
    for object in objects {
        let marks = marks_of(alloc, object)?;
        used.extend_from_slice(&marks[marks.len().min(1)..])?;
    }
    Ok(used)
}
