// The sections of all objects.

ghost use Rattle.std.specs.Prelude.{◌≡◌, ◌+◌, ◌≤◌, IfOk, length, map};
ghost use Rattle.std.specs.List.{range_with_len};
ghost use Rattle.elf32_read.specs.Parts.{object_parts};
ghost use Rattle.psabi_sym.specs.Indexed.{all_sections};
ghost use Rattle.psabi_sym.specs.Invariants.Rows.{section_row, section_starts};
ghost use Rattle.psabi_sym.specs.Objects.{contents_of};

use crate::loaded::{IndexedObject, Loaded};
use crate::read_sections::add_sections;
use crate::section_row::SectionRow;
use std::alloc::{AllocError, Global};

/// The sections of all objects, one object after another, and where those of each object begin, with
/// the end of all at last.
#[derive(Drop)]
pub struct SectionRows {
    pub rows: Vec<SectionRow>,
    pub starts: Vec<u32>,
}

impl SectionRows {
    /// The sections of these objects, of which the names make some fixed.
    pub fn new(
        alloc: Global,
        objects: &[Loaded],
        names: &[Vec<u8>],
    ) -> Result<SectionRows, AllocError>
        requires { length objects.now ≤ 256 }
        ensures rows { IfOk result (λ sections. sections.rows.items
            ≡ map (section_row (contents_of names.now)) (all_sections (map object_parts objects.now))) }
        ensures starts { IfOk result (λ sections. sections.starts.items
            ≡ map (section_starts (map object_parts objects.now)) (range_with_len 0 (length objects.now + 1))) }
    {
        let mut rows = Vec::new(alloc);
        let mut starts = Vec::with_capacity(alloc, objects.len() + 1)?;
        for (i, loaded) in objects.iter().enumerate() {
            starts.push(rows.len() as u32)?;
            let object = IndexedObject {
                index: i as u16,
                loaded,
            };
            add_sections(object, names, &mut rows)?;
        }
        starts.push(rows.len() as u32)?;
        Ok(SectionRows { rows, starts })
    }
}
