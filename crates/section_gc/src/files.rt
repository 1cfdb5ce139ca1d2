// The files of the objects without the code that isn't needed.

ghost use Rattle.std.specs.Prelude.{◌≡◌, ◌<◌, None, IfOk, length, map};
ghost use Rattle.std.specs.List.{AllZip};
ghost use Rattle.elf32_write.specs.ObjectFile.{object_bytes};
ghost use Rattle.elf32_write.specs.Writable.{IsObjectOf, IsWritable};
ghost use Rattle.block_cut.specs.Faults.{first_fault};
ghost use Rattle.psabi_sym.specs.Indexed.{all_sections};
ghost use Rattle.psabi_sym.specs.Inputs.{parsed};
ghost use Rattle.psabi_sym.specs.Objects.{contents_of};
ghost use Rattle.object_passes.specs.Sizes.{first_oversized};
ghost use Rattle.object_passes.specs.Written.{without_marks};
ghost use Rattle.section_gc.specs.Cleaned.{cleaned};
ghost use Rattle.section_gc.specs.Collected.{collected_files};
ghost use Rattle.section_gc.specs.Marked.{needed_by, marked_object};

use crate::remains::remains_in;
use crate::sections::section_parts;
use crate::symbols::symbol_parts;
use elf32_write::object_parts::ObjectParts;
use elf32_write::write_object::write_object;
use psabi_sym::objects::Objects;
use std::alloc::{AllocError, Global};

// The parts of an object without the code that isn't needed.
fn parts_of(
    alloc: Global,
    objects: &Objects,
    marks: &[bool],
    object: u16,
) -> Result<ObjectParts, AllocError>
    requires object { object < length objects.now.files }
    requires marks { length marks.now ≡ length (all_sections (parsed objects.now).objects) }
    ensures { IfOk result (λ parts. parts ≡ without_marks (marked_object objects.now marks.now object)) }
{
    let table = remains_in(alloc, objects, marks, object)?;
    let given = objects.object(object);
    let sections = section_parts(alloc, objects, object, &table)?;
    let symbols = symbol_parts(alloc, &given, &table)?;
    Ok(ObjectParts {
        flags: given.flags(),
        sections,
        symbols,
    })
}

// The file of an object without the code that isn't needed.
fn file_of(
    alloc: Global,
    objects: &Objects,
    marks: &[bool],
    object: u16,
) -> Result<Vec<u8>, AllocError>
    requires object { object < length objects.now.files }
    requires marks { length marks.now ≡ length (all_sections (parsed objects.now).objects) }
    requires writable { IsWritable (without_marks (marked_object objects.now marks.now object)) }
    ensures bytes { IfOk result (λ file. file.items ≡ object_bytes (marked_object objects.now marks.now object)) }
    ensures reads_back { IfOk result (λ file. IsObjectOf (without_marks (marked_object objects.now marks.now object))
        file.items) }
{
    let parts = parts_of(alloc, objects, marks, object)?;
    let file = write_object(alloc, &parts)?;
    Ok(file)
}

/// The files of the objects without the code that isn't needed, in time linear in their bytes, sections, symbols and
/// relocations. The parts of one object at a time are in memory.
pub fn files_of(
    alloc: Global,
    objects: &Objects,
    marks: &[bool],
) -> Result<Vec<Vec<u8>>, AllocError>
    requires marks { length marks.now ≡ length (all_sections (parsed objects.now).objects) }
    requires faultless { first_fault objects.now ≡ None }
    requires small { first_oversized (cleaned (needed_by objects.now marks.now) (parsed objects.now).objects) ≡ None }
    ensures bytes { IfOk result (λ files. contents_of files.items
        ≡ collected_files objects.now (needed_by objects.now marks.now)) }
    ensures read_back { IfOk result (λ files. AllZip IsObjectOf
        (map without_marks (cleaned (needed_by objects.now marks.now) (parsed objects.now).objects))
        (contents_of files.items)) }
{
    let mut files = Vec::new(alloc);
    for o in 0..objects.object_count() {
        files.push(file_of(alloc, objects, marks, o as u16)?)?;
    }
    Ok(files)
}
