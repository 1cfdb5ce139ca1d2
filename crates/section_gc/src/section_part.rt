// What is left of a section, as it is written.

ghost use Rattle.std.specs.Prelude.{◌≡◌, true, false, not, ◌&&◌, IfOk, filter};
ghost use Rattle.elf32_read.specs.Lent.{IsSection};
ghost use Rattle.elf32_read.specs.Parts.{is_code_section};
ghost use Rattle.block_cut.specs.Resolved.{asks};
ghost use Rattle.object_passes.specs.Written.{without_mark};
ghost use Rattle.section_gc.specs.Cleaned.{cleaned_section};

use elf32_read::reloc::Reloc;
use elf32_read::section::Section;
use elf32_write::object_parts::PartSection;
use object_passes::relocs::asks;
use psabi_sym::section_ref::SectionRef;
use std::alloc::{AllocError, Global};

// The relocations of a section that ask for something.
fn asking_relocs(alloc: Global, section: &SectionRef) -> Result<Vec<Reloc>, AllocError>
    ensures { IfOk result (λ relocs. relocs.items ≡ filter asks section.now.section.relocs) }
{
    let mut relocs = Vec::new(alloc);
    for k in 0..section.reloc_count() {
        let reloc = section.reloc(k);
        if asks(reloc) {
            relocs.push(reloc)?;
        }
    }
    Ok(relocs)
}

// Code that isn't needed: an empty section.
fn empty_part(
    alloc: Global,
    header: Section,
    section: &SectionRef,
) -> Result<PartSection, AllocError>
    requires header { IsSection header section.now.section }
    requires code { is_code_section section.now.section ≡ true }
    ensures { IfOk result (λ part. part ≡ without_mark (cleaned_section false section.now.section)) }
{
    let name = Vec::from_slice(alloc, header.name)?;
    Ok(PartSection {
        name,
        kind: header.kind,
        flags: header.flags.bits,
        align: 1,
        size: 0,
        bytes: Vec::new(alloc),
        relocs: Vec::new(alloc),
    })
}

// Data, or code that is needed: all but the relocations that ask for nothing.
fn whole_part(
    alloc: Global,
    header: Section,
    section: &SectionRef,
    needed: bool,
) -> Result<PartSection, AllocError>
    requires header { IsSection header section.now.section }
    requires whole { (is_code_section section.now.section && not needed) ≡ false }
    ensures { IfOk result (λ part. part ≡ without_mark (cleaned_section needed section.now.section)) }
{
    let name = Vec::from_slice(alloc, header.name)?;
    let bytes = Vec::from_slice(alloc, header.bytes)?;
    let relocs = asking_relocs(alloc, section)?;
    Ok(PartSection {
        name,
        kind: header.kind,
        flags: header.flags.bits,
        align: header.align,
        size: header.size,
        bytes,
        relocs,
    })
}

/// What is left of a kept section, by its header and whether it is needed, in time linear in its bytes and relocations.
pub fn section_part(
    alloc: Global,
    header: Section,
    section: &SectionRef,
    needed: bool,
) -> Result<PartSection, AllocError>
    requires { IsSection header section.now.section }
    ensures { IfOk result (λ part. part ≡ without_mark (cleaned_section needed section.now.section)) }
{
    if section.is_code() && !needed {
        empty_part(alloc, header, section)
    } else {
        whole_part(alloc, header, section, needed)
    }
}
