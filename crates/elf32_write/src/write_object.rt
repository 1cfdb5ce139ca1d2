// Objects.

ghost use Rattle.std.specs.Prelude.{◌≡◌, ◌<◌, ◌^◌, ◌++◌, IfOk, OnOk};
ghost use Rattle.elf32_write.specs.FileSections.{file_sections};
ghost use Rattle.elf32_write.specs.ObjectFile.{object_bytes, object_header};
ghost use Rattle.elf32_write.specs.Ranges.{IsPartsSized};
ghost use Rattle.elf32_write.specs.SectionTable.{HoldsSections, PartsFit, with_names};
ghost use Rattle.elf32_write.specs.Writable.{IsObjectOf, IsWritable};

use crate::fields::{push_halves, push_words};
use crate::headers::IDENTIFICATION;
use crate::object_parts::{ObjectParts, PartSection, PartSymbol};
use crate::section_header::{NULL, push_headers};
use crate::section_table::{CONTENTS_OFFSET, SectionTable, relocated_count};
use crate::symbol_table::{after_locals, symbol_table};
use elf32_read::header::{RELOCATABLE, RISC_V, STRTAB, SYMTAB, SectionHeader};
use std::alloc::{AllocError, Global};

// Appends the file's header: where the section headers begin, e_flags, and the number of sections.
#[tactic(auto, unfolding(crate::specs::ObjectFile::object_header))]
fn push_object_header(
    out: &mut Vec<u8>,
    table: u32,
    flags: u32,
    count: u16,
) -> Result<(), AllocError>
    requires { 0 < count }
    ensures appended { OnOk result (out.new.items ≡ out.old.items ++ object_header table flags count) }
    // By its type.
    ensures sized { flags < 2 ^ 32 }
{
    out.extend_from_slice(&IDENTIFICATION)?;
    push_halves(out, &[RELOCATABLE, RISC_V])?;
    push_words(out, &[1, 0, 0, table, flags])?;
    push_halves(out, &[52, 0, 0, 40, count, count - 1])
}

// All sections of the file but the last.
fn sections_before_names(
    alloc: Global,
    sections: &[PartSection],
    symbols: &[PartSymbol],
) -> Result<SectionTable, AllocError>
    requires { PartsFit sections.now symbols.now }
    ensures held { IfOk result (λ table. HoldsSections (with_names sections.now symbols.now) table) }
    ensures sized { OnOk result (IsPartsSized sections.now symbols.now) }
{
    let symtab = 1 + sections.len() as u32 + relocated_count(sections) as u32;
    let mut table = SectionTable::new(alloc)?;
    table.add_given(sections)?;
    table.add_relas(alloc, sections, symtab)?;
    let written = symbol_table(alloc, symbols)?;
    let symtab_header = SectionHeader {
        kind: SYMTAB,
        size: written.entries.len() as u32,
        link: symtab + 1,
        info: after_locals(symbols) as u32,
        align: 4,
        entry_size: 16,
        ..NULL
    };
    table.add(b".symtab", symtab_header, &written.entries)?;
    let strtab_header = SectionHeader {
        kind: STRTAB,
        size: written.names.len() as u32,
        align: 1,
        ..NULL
    };
    table.add(b".strtab", strtab_header, &written.names)?;
    Ok(table)
}

// All sections of the file.
fn sections_of(
    alloc: Global,
    sections: &[PartSection],
    symbols: &[PartSymbol],
) -> Result<SectionTable, AllocError>
    requires { PartsFit sections.now symbols.now }
    ensures held { IfOk result (λ table. HoldsSections (file_sections sections.now symbols.now) table) }
    ensures sized { OnOk result (IsPartsSized sections.now symbols.now) }
{
    let mut table = sections_before_names(alloc, sections, symbols)?;
    table.add_names()?;
    Ok(table)
}

/// The file of a relocatable object with these parts (System V gABI, "ELF Header" and "Sections"), in time linear in its
/// length.
#[tactic(auto, unfolding(crate::specs::ObjectFile::object_bytes))]
pub fn write_object(alloc: Global, parts: &ObjectParts) -> Result<Vec<u8>, AllocError>
    requires { IsWritable parts.now }
    ensures bytes { IfOk result (λ file. file.items ≡ object_bytes parts.now) }
    ensures reads_back { IfOk result (λ file. IsObjectOf parts.now file.items) }
{
    let table = sections_of(alloc, &parts.sections, &parts.symbols)?;
    let headers_offset = CONTENTS_OFFSET + table.contents.len() as u32;
    let size = headers_offset as usize + 40 * table.headers.len();
    let mut file = Vec::with_capacity(alloc, size)?;
    push_object_header(
        &mut file,
        headers_offset,
        parts.flags,
        table.headers.len() as u16,
    )?;
    file.extend_from_slice(&table.contents)?;
    push_headers(&mut file, &table.headers)?;
    Ok(file)
}
