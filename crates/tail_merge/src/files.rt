// The files of the objects with equal tails shared.

ghost use Rattle.std.specs.Prelude.{◌≡◌, ◌<◌, [], None, IfOk, length, map, slice_index_or};
ghost use Rattle.std.specs.List.{AllZip};
ghost use Rattle.elf32_read.specs.Parts.{object_parts};
ghost use Rattle.elf32_write.specs.ObjectFile.{object_bytes};
ghost use Rattle.elf32_write.specs.Writable.{IsObjectOf, IsWritable};
ghost use Rattle.psabi_sym.specs.Inputs.{parsed};
ghost use Rattle.psabi_sym.specs.Objects.{contents_of};
ghost use Rattle.object_passes.specs.Sizes.{first_oversized};
ghost use Rattle.object_passes.specs.Written.{without_marks};
ghost use Rattle.tail_merge.specs.Merged.{merged, merged_object};
ghost use Rattle.tail_merge.specs.Merging.{merged_files};
ghost use Rattle.tail_merge.specs.MovedTails.{AreAllMoved, tables_of};

use crate::moved_tail::MovedTail;
use crate::parts::object_parts;
use block_cut::cut::Cut;
use elf32_write::write_object::write_object;
use std::alloc::{AllocError, Global};

// The file of an object with equal tails shared.
fn file_of(
    alloc: Global,
    cut: &Cut,
    tables: &[Vec<MovedTail>],
    object: u16,
) -> Result<Vec<u8>, AllocError>
    requires object { object < length cut.now.files }
    requires tables { AreAllMoved (parsed cut.now) (tables_of tables.now) }
    requires writable { IsWritable (without_marks
        (merged_object (parsed cut.now) object (object_parts (slice_index_or cut.now.files object [])))) }
    ensures bytes { IfOk result (λ file. file.items
        ≡ object_bytes (merged_object (parsed cut.now) object (object_parts (slice_index_or cut.now.files object [])))) }
    ensures reads_back { IfOk result (λ file. IsObjectOf (without_marks
        (merged_object (parsed cut.now) object (object_parts (slice_index_or cut.now.files object [])))) file.items) }
{
    let parts = object_parts(alloc, cut, tables, object)?;
    let file = write_object(alloc, &parts)?;
    Ok(file)
}

/// The files of the objects with equal tails shared, by the sections' tables. It takes time near-linear in their bytes,
/// items, symbols and relocations. The parts of one object at a time are in memory.
pub fn files_of(
    alloc: Global,
    cut: &Cut,
    tables: &[Vec<MovedTail>],
) -> Result<Vec<Vec<u8>>, AllocError>
    requires tables { AreAllMoved (parsed cut.now) (tables_of tables.now) }
    requires small { first_oversized (merged (parsed cut.now)) ≡ None }
    ensures bytes { IfOk result (λ files. contents_of files.items ≡ merged_files cut.now) }
    ensures read_back { IfOk result (λ files. AllZip IsObjectOf (map without_marks (merged (parsed cut.now)))
        (contents_of files.items)) }
{
    let mut files = Vec::new(alloc);
    for o in 0..cut.objects().object_count() {
        files.push(file_of(alloc, cut, tables, o as u16)?)?;
    }
    Ok(files)
}
