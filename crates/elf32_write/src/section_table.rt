// The sections of an object, one after another.

ghost use Rattle.std.specs.Prelude.{◌≡◌, ◌^◌, ◌<◌, ◌≤◌, ◌+◌, ◌++◌, ◌∷◌, [], List, length, map, All, IfOk, OnOk};
ghost use Rattle.std.specs.List.{flat_map};
ghost use Rattle.elf32_write.specs.Entries.{reloc_bytes};
ghost use Rattle.elf32_write.specs.FileSections.{FileSection, given_sections, rela_section, relocated};
ghost use Rattle.elf32_write.specs.Ranges.{IsHeaderSized, IsRelocSized, IsSectionSized};
ghost use Rattle.elf32_write.specs.SectionTable.{ContentsFit, HasOffsets, HoldsSections, file_section, last_section};

use crate::fields::push_padded;
use crate::name_table::push_name;
use crate::object_parts::PartSection;
use crate::relocs::reloc_table;
use crate::section_header::NULL;
use elf32_read::header::{RELA, STRTAB, SectionHeader};
use std::alloc::{AllocError, Global};

const INFO_LINK: u32 = 0x40;

/// Where the contents of the sections begin: after the header of the file.
pub const CONTENTS_OFFSET: u32 = 52;

// A section that has relocations, with its index.
#[derive(Clone, Copy)]
struct RelocatedSection<'a> {
    index: u32,
    section: &'a PartSection,
}

/// The sections that are written so far: their contents, each padded, their names, and their headers with that of section 0.
#[derive(Drop)]
pub struct SectionTable {
    pub contents: Vec<u8>,
    pub names: Vec<u8>,
    pub headers: Vec<SectionHeader>,
}

impl SectionTable {
    /// Section 0 alone.
    pub fn new(alloc: Global) -> Result<SectionTable, AllocError>
        ensures { IfOk result (λ table. HoldsSections [] table) }
    {
        let mut names = Vec::new(alloc);
        names.push(0)?;
        let mut headers = Vec::new(alloc);
        headers.push(NULL)?;
        Ok(SectionTable {
            contents: Vec::new(alloc),
            names,
            headers,
        })
    }

    /// Adds a section. Its header is the given one, but for the name and the offset.
    pub fn add(
        &mut self,
        name: &[u8],
        header: SectionHeader,
        content: &[u8],
    ) -> Result<(), AllocError>
        requires room { HasOffsets 0 self.old }
        requires address { header.address ≡ 0 }
        ensures held { (before : List FileSection) → HoldsSections before self.old →
            OnOk result (HoldsSections (before ++ file_section name.now header content.now ∷ []) self.new) }
        // By the types of its numbers.
        ensures sized { IsHeaderSized header }
    {
        let name = push_name(&mut self.names, name)?;
        let offset = CONTENTS_OFFSET + self.contents.len() as u32;
        self.headers.push(SectionHeader {
            name,
            offset,
            ..header
        })?;
        push_padded(&mut self.contents, content)
    }

    /// Adds .shstrtab, the names of all sections with its own.
    pub fn add_names(&mut self) -> Result<(), AllocError>
        requires { HasOffsets 10 self.old }
        ensures { (before : List FileSection) → HoldsSections before self.old →
            OnOk result (HoldsSections (before ++ last_section before ∷ []) self.new) }
    {
        let name = push_name(&mut self.names, b".shstrtab")?;
        let offset = CONTENTS_OFFSET + self.contents.len() as u32;
        self.headers.push(SectionHeader {
            name,
            kind: STRTAB,
            offset,
            size: self.names.len() as u32,
            align: 1,
            ..NULL
        })?;
        push_padded(&mut self.contents, &self.names)
    }

    /// Adds given sections, after section 0.
    pub fn add_given(&mut self, sections: &[PartSection]) -> Result<(), AllocError>
        requires held { HoldsSections [] self.old }
        requires room { ContentsFit (given_sections sections.now) }
        ensures held { OnOk result (HoldsSections (given_sections sections.now) self.new) }
        ensures sized { OnOk result (All IsSectionSized sections.now) }
    {
        for section in sections {
            let header = SectionHeader {
                kind: section.kind,
                flags: section.flags,
                size: section.size,
                align: section.align,
                ..NULL
            };
            self.add(&section.name, header, &section.bytes)?;
        }
        Ok(())
    }

    // Adds the relocations of a section, over the symbols of the section with an index.
    fn add_rela(
        &mut self,
        alloc: Global,
        relocated: RelocatedSection<'_>,
        symtab: u32,
    ) -> Result<(), AllocError>
        requires symbols { All (λ r. r.symbol < 2 ^ 24) relocated.section.now.relocs }
        requires room { HasOffsets 0 self.old }
        requires size { length (flat_map reloc_bytes relocated.section.now.relocs) < 2 ^ 32 }
        ensures held { (before : List FileSection) → HoldsSections before self.old →
            OnOk result (HoldsSections
            (before ++ rela_section symtab (relocated.entry.index, relocated.entry.section.now) ∷ []) self.new) }
        ensures sized { OnOk result (All IsRelocSized relocated.entry.section.now.relocs) }
    {
        let RelocatedSection { index, section } = relocated;
        let table = reloc_table(alloc, &section.relocs)?;
        let mut name = Vec::from_slice(alloc, b".rela")?;
        name.extend_from_slice(&section.name)?;
        let header = SectionHeader {
            kind: RELA,
            flags: INFO_LINK,
            size: table.len() as u32,
            link: symtab,
            info: index,
            align: 4,
            entry_size: 12,
            ..NULL
        };
        self.add(&name, header, &table)
    }

    /// Adds the relocations of given sections, after these, over the symbols of the section with an index.
    pub fn add_relas(
        &mut self,
        alloc: Global,
        sections: &[PartSection],
        symtab: u32,
    ) -> Result<(), AllocError>
        requires held { HoldsSections (given_sections sections.now) self.old }
        requires count { length sections.now < 2 ^ 16 }
        requires symbols { All (λ s. All (λ r. r.symbol < 2 ^ 24) s.relocs) sections.now }
        requires room { ContentsFit
            (given_sections sections.now ++ map (rela_section symtab) (relocated sections.now)) }
        ensures held { OnOk result (HoldsSections
            (given_sections sections.now ++ map (rela_section symtab) (relocated sections.now)) self.new) }
        ensures sized { OnOk result (All (λ s. All IsRelocSized s.relocs) sections.now) }
    {
        for i in 0..sections.len() {
            let section = &sections[i];
            if !section.relocs.is_empty() {
                let relocated = RelocatedSection {
                    index: i as u32 + 1,
                    section,
                };
                self.add_rela(alloc, relocated, symtab)?;
            }
        }
        Ok(())
    }
}

/// The number of these sections that have relocations.
#[tactic(auto, using(crate::proofs::Relocated::length_relocated_more))]
pub fn relocated_count(sections: &[PartSection]) -> usize
    ensures count { result ≡ length (relocated sections.now) }
    ensures most { result ≤ length sections.now }
{
    let mut count = 0;
    for section in sections {
        if !section.relocs.is_empty() {
            count += 1;
        }
    }
    count
}
