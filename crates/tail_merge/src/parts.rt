// The parts of an object whose equal tails are shared, as they are written.

ghost use Rattle.std.specs.Prelude.{◌≡◌, ◌<◌, [], IfOk, Some, length, map, slice_get, slice_index_or, false, true};
ghost use Rattle.elf32_read.specs.Lent.{IsSection};
ghost use Rattle.elf32_read.specs.Parts.{is_code_section, object_parts};
ghost use Rattle.psabi_sym.specs.Indexed.{IndexedSection, all_sections};
ghost use Rattle.psabi_sym.specs.Inputs.{parsed};
ghost use Rattle.moved_runs.specs.Passes.{passed_from};
ghost use Rattle.object_passes.specs.Written.{without_mark, without_marks};
ghost use Rattle.tail_merge.specs.Merged.{merged_object, merged_section};
ghost use Rattle.tail_merge.specs.MovedTails.{AreAllMoved, tables_of};

use crate::moved_tail::MovedTail;
use crate::relocs::merged_relocs;
use crate::section_code::section_bytes;
use crate::symbols::{CutTails, merged_symbols};
use block_cut::cut::Cut;
use elf32_read::section::Section;
use elf32_write::object_parts::{ObjectParts, PartSection};
use object_passes::section_room::is_kept;
use psabi_sym::section_ref::SectionRef;
use std::alloc::{AllocError, Global};

// A section of code without its removed tails, by its number among all and its header.
fn code_part(
    alloc: Global,
    given: &CutTails<'_>,
    section: u32,
    header: Section,
) -> Result<PartSection, AllocError>
    requires section { section < length (all_sections (parsed given.now.cut.now).objects) }
    requires tables { AreAllMoved (parsed given.now.cut.now) (tables_of given.now.tables.now) }
    requires code { (l : IndexedSection)
        → slice_get (all_sections (parsed given.now.cut.now).objects) section ≡ Some l
        → is_code_section l.section ≡ true }
    requires header { (l : IndexedSection)
        → slice_get (all_sections (parsed given.now.cut.now).objects) section ≡ Some l
        → IsSection header l.section }
    ensures { IfOk result (λ part. (l : IndexedSection)
        → slice_get (all_sections (parsed given.now.cut.now).objects) section ≡ Some l
        → part ≡ without_mark (merged_section (parsed given.now.cut.now) l.object l.index l.section)) }
{
    // Sections without a fault are whole, so none is longer than a file.
    given.cut.recall_invariant();
    let home = given.cut.objects().section(section);
    let name = Vec::from_slice(alloc, header.name)?;
    let bytes = section_bytes(alloc, given.cut, section, &given.tables[section as usize])?;
    let relocs = merged_relocs(alloc, given.cut, given.tables, &home)?;
    Ok(PartSection {
        name,
        kind: header.kind,
        flags: header.flags.bits,
        align: header.align,
        size: bytes.len() as u32,
        bytes,
        relocs,
    })
}

// A section of data, of which only the relocations change.
fn data_part(
    alloc: Global,
    given: &CutTails<'_>,
    section: &SectionRef,
    header: Section,
) -> Result<PartSection, AllocError>
    requires tables { AreAllMoved (parsed given.now.cut.now) (tables_of given.now.tables.now) }
    requires header { IsSection header section.now.section }
    requires data { is_code_section section.now.section ≡ false }
    ensures { IfOk result (λ part. part
        ≡ without_mark (merged_section (parsed given.now.cut.now)
        section.now.object section.now.index section.now.section)) }
{
    let name = Vec::from_slice(alloc, header.name)?;
    let bytes = Vec::from_slice(alloc, header.bytes)?;
    let relocs = merged_relocs(alloc, given.cut, given.tables, section)?;
    Ok(PartSection {
        name,
        kind: header.kind,
        flags: header.flags.bits,
        align: header.align,
        size: header.size,
        bytes,
        relocs,
    })
}

// A section as it becomes, by its number among all.
fn section_part(
    alloc: Global,
    given: &CutTails<'_>,
    section: u32,
) -> Result<PartSection, AllocError>
    requires section { section < length (all_sections (parsed given.now.cut.now).objects) }
    requires tables { AreAllMoved (parsed given.now.cut.now) (tables_of given.now.tables.now) }
    ensures { IfOk result (λ part. (l : IndexedSection)
        → slice_get (all_sections (parsed given.now.cut.now).objects) section ≡ Some l
        → part ≡ without_mark (merged_section (parsed given.now.cut.now) l.object l.index l.section)) }
{
    let objects = given.cut.objects();
    let home = objects.section(section);
    let object = objects.object(home.object());
    let header = object.section(u32::from(home.index()));
    if home.is_code() {
        code_part(alloc, given, section, header)
    } else {
        data_part(alloc, given, &home, header)
    }
}

// The kept sections of an object as they become, in order.
fn section_parts(
    alloc: Global,
    given: &CutTails<'_>,
    object: u16,
) -> Result<Vec<PartSection>, AllocError>
    requires object { object < length given.now.cut.now.files }
    requires tables { AreAllMoved (parsed given.now.cut.now) (tables_of given.now.tables.now) }
    ensures { IfOk result (λ sections. sections.items
        ≡ map without_mark (passed_from (merged_section (parsed given.now.cut.now) object) 0
        (object_parts (slice_index_or given.now.cut.now.files object [])).sections)) }
{
    let objects = given.cut.objects();
    let mut sections = Vec::new(alloc);
    for i in 0..objects.object(object).section_count() {
        let Some(k) = objects.section_number(object, i as u16) else {
            unreachable!();
        };
        if is_kept(&objects.section(k)) {
            sections.push(section_part(alloc, given, k)?)?;
        }
    }
    Ok(sections)
}

/// The parts of an object without the tails that are removed from its sections of code, by the tables of all sections'
/// removed tails. It takes time near-linear in the object's bytes, sections, relocations and symbols.
pub fn object_parts(
    alloc: Global,
    cut: &Cut,
    tables: &[Vec<MovedTail>],
    object: u16,
) -> Result<ObjectParts, AllocError>
    requires object { object < length cut.now.files }
    requires tables { AreAllMoved (parsed cut.now) (tables_of tables.now) }
    ensures { IfOk result (λ parts. parts ≡ without_marks
        (merged_object (parsed cut.now) object (object_parts (slice_index_or cut.now.files object [])))) }
{
    let given = CutTails { cut, tables };
    let sections = section_parts(alloc, &given, object)?;
    let symbols = merged_symbols(alloc, &given, object)?;
    Ok(ObjectParts {
        flags: cut.objects().object(object).flags(),
        sections,
        symbols,
    })
}
