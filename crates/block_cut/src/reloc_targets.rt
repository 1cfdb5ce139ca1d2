// Where all relocations lead, and which words of data they fill in.

ghost use Rattle.std.specs.Prelude.{◌≡◌, ◌<◌, ◌&&◌, ℕ, [], IfOk, IfErr, IfSome, None, Some, is_none, true, if◌then◌else◌, length, slice_get};
ghost use Rattle.elf32_read.specs.Parts.{is_code_section};
ghost use Rattle.psabi_sym.specs.Faults.{gather_fault};
ghost use Rattle.psabi_sym.specs.Inputs.{parsed, Inputs};
ghost use Rattle.psabi_sym.specs.LinkFault.{IsRefusal};
ghost use Rattle.psabi_sym.specs.Indexed.{all_sections, section_at, IndexedSection};
ghost use Rattle.block_cut.specs.Invariants.CodeTargets.{AreCodeTargets};
ghost use Rattle.block_cut.specs.Faults.{relocs_fault, section_fault};
ghost use Rattle.block_cut.specs.Invariants.RelocTargets.{AreRelocTargets};
ghost use Rattle.block_cut.specs.Invariants.HalfwordTables.{numbers_of_section};
ghost use Rattle.block_cut.specs.Resolved.{placed_relocs};
ghost use Rattle.block_cut.specs.Invariants.CodeTables.{AreCodeTables};

use crate::code_tables::CodeTables;
use crate::code_targets::CodeTargets;
use crate::data_word::DataWord;
use crate::data_words::add_section_words;
use crate::halfword_tables::place_relocs;
use crate::judge::section_fault;
use crate::leaders::Leaders;
use crate::leads::add_relocs;
use crate::relocated::resolve_relocs;
use crate::resolved_reloc::ResolvedReloc;
use crate::section_words::decode_words;
use elf32_read::fault::Fault;
use psabi_sym::link_fault::LinkFault;
use psabi_sym::objects::Objects;
use psabi_sym::section_ref::SectionRef;
use std::alloc::{AllocError, Global};

/// The words of data that relocations fill in, and the places of code that they lead to.
#[derive(Drop)]
pub struct RelocTargets {
    pub words: Vec<DataWord>,
    pub leaders: Leaders,
}

// Whether no relocation of code has a fault.
fn is_fine(objects: &Objects, tables: &CodeTables, targets: &CodeTargets) -> bool
    requires tables { AreCodeTables (parsed objects.now) tables.now }
    requires targets { AreCodeTargets (parsed objects.now) (all_sections (parsed objects.now).objects) targets.now }
    ensures { result ≡ true → (k : ℕ) (l : IndexedSection)
        → slice_get (all_sections (parsed objects.now).objects) k ≡ Some l
        → is_code_section l.section ≡ true → section_fault (parsed objects.now) l ≡ None }
{
    if targets.has_wrong {
        return false;
    }
    tables.has_targets(objects, &targets.leaders)
}

// The relocations of a section that are to be judged, by the numbers of its places; none of code that isn't to be.
fn relocs_left(
    alloc: Global,
    objects: &Objects,
    section: &SectionRef,
    numbers: Option<&[u32]>,
) -> Result<Vec<ResolvedReloc>, AllocError>
    requires gathered { gather_fault objects.now ≡ None }
    requires section { section_at (parsed objects.now).objects section.now.object section.now.index
        ≡ Some section.now.section }
    requires numbers { IfSome numbers (λ ns. ns.now ≡ numbers_of_section section.now.section) }
    ensures { IfOk result (λ relocs. relocs.items
        ≡ (if is_code_section section.now.section && is_none numbers.entry then []
        else placed_relocs (parsed objects.now) section.now)) }
{
    if !section.is_code() {
        let data = resolve_relocs(alloc, objects, section, &[])?;
        return Ok(data);
    }
    let Some(numbers) = numbers else {
        return Ok(Vec::new(alloc));
    };
    let compressed = section.is_compressed();
    let words = decode_words(alloc, compressed, section.bytes())?;
    let relocs = resolve_relocs(alloc, objects, section, &words)?;
    let placed = place_relocs(alloc, compressed, relocs, numbers)?;
    Ok(placed)
}

// The numbers of the places of a section, by its number among all, if relocations of code are to be judged.
fn numbers_left(tables: &CodeTables, section: u32, fine: bool) -> Option<&[u32]>
    requires { section < length tables.now.sections.items }
    ensures fine { is_none result ≡ fine }
    ensures numbers { (inputs : Inputs) (l : IndexedSection) → AreCodeTables (parsed inputs) tables.now
        → slice_get (all_sections (parsed inputs).objects) section ≡ Some l
        → IfSome result (λ ns. ns.now ≡ numbers_of_section l.section) }
{
    if fine {
        return None;
    }
    Some(tables.numbers(section))
}

impl RelocTargets {
    /// The targets of all relocations, by those of code; or the first fault of a relocation. It looks at each
    /// relocation a fixed number of times.
    pub fn find(
        alloc: Global,
        objects: &Objects,
        tables: &CodeTables,
        targets: CodeTargets,
    ) -> Result<RelocTargets, LinkFault>
        requires tables { AreCodeTables (parsed objects.now) tables.now }
        requires targets { AreCodeTargets (parsed objects.now) (all_sections (parsed objects.now).objects) targets }
        ensures faultless { IfOk result (λ _. relocs_fault (parsed objects.now) ≡ None) }
        ensures targets { IfOk result
            (AreRelocTargets (parsed objects.now) (all_sections (parsed objects.now).objects)) }
        ensures err { IfErr result (λ fault. IsRefusal (relocs_fault (parsed objects.now)) fault) }
    {
        let fine = is_fine(objects, tables, &targets);
        let mut words = Vec::new(alloc);
        let mut leaders = targets.leaders;
        for k in 0..objects.section_count() {
            let section = objects.section(k);
            let numbers = numbers_left(tables, k, fine);
            let own = relocs_left(alloc, objects, &section, numbers)?;
            if let Some(fault) = section_fault(objects, tables, section.index(), &own) {
                return Err(LinkFault::Object {
                    index: u32::from(section.object()),
                    fault,
                });
            }
            add_section_words(&mut words, objects, &section, &own)?;
            add_relocs(&mut leaders, objects, &own)?;
        }
        Ok(RelocTargets { words, leaders })
    }
}
