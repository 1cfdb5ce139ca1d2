// Sections whose relocations are decided.

ghost use Rattle.std.specs.Prelude.{◌≡◌, ◌+◌, ◌%◌, ◌≤◌, Contains, List, Some, None, IfOk, IfSome, false, if◌then◌else◌, length, nat_le, true};
ghost use Rattle.elf32_read.specs.Parts.{is_code_section};
ghost use Rattle.elf32_read.specs.declared.reloc.Reloc.{Reloc};
ghost use Rattle.psabi_reloc.specs.Kinds.{field_length, kind_of};
ghost use Rattle.psabi_sym.specs.Faults.{gather_fault};
ghost use Rattle.psabi_sym.specs.Inputs.{parsed, Inputs};
ghost use Rattle.psabi_sym.specs.Indexed.{IndexedSection, section_at};
ghost use Rattle.block_cut.specs.Faults.{is_pair_at};
ghost use Rattle.block_cut.specs.Items.{target_of};
ghost use Rattle.block_cut.specs.Invariants.Fields.{AreFields};
ghost use Rattle.block_cut.specs.Invariants.Relocated.{IsRelocated, with_relocs};
ghost use Rattle.block_cut.specs.CodeSizes.{code_step};
ghost use Rattle.block_cut.specs.Relocs.{field_end, fits_at, instr_in, is_bad_kind, is_bad_place, is_ignored, is_placed, has_pcrel_hi_at};
ghost use Rattle.block_cut.specs.Resolved.{own_fault, resolved_reloc, resolved_relocs};
ghost use Rattle.block_cut.specs.Instrs.{instrs_in};

use crate::fields::{Fields, field_end, field_length};
use crate::kinds::{
    instr_at, is_ignored, is_padding, is_pcrel_lo, is_rvc, is_step, is_word, short_instr_at,
};
use crate::resolved_reloc::{RelocFault, ResolvedReloc};
use crate::section_words::instr_on;
use elf32_read::reloc::Reloc;
use psabi_reloc::kind::RelocKind;
use psabi_sym::objects::Objects;
use psabi_sym::section_ref::SectionRef;
use psabi_sym::target::Target;
use rv_decode::instr::Instr;
use std::alloc::{AllocError, Global};

/// A section with what its relocations change: its object's index and its own, whether it is code, its size in memory,
/// its content, whether its object is compressed, its words' instructions if it is code of an object that isn't
/// compressed, and the fields of its relocations.
#[derive(Drop)]
pub struct Relocated<'a> {
    pub object: u16,
    pub index: u16,
    pub is_code: bool,
    pub size: u32,
    pub bytes: &'a [u8],
    pub is_compressed: bool,
    pub words: &'a [Option<Instr>],
    pub fields: Fields,
}

impl<'a> Relocated<'a> {
    // A section with the fields of some relocations, and its words' instructions if it is code.
    fn new(section: &SectionRef<'a>, words: &'a [Option<Instr>], fields: Fields) -> Relocated<'a>
        requires words { is_code_section section.now.section ≡ true → section.now.section.compressed ≡ false
            → words.now ≡ instrs_in section.now.section.bytes }
        ensures is { (inputs : Inputs) (relocs : List Reloc) → gather_fault inputs ≡ None
            → section_at (parsed inputs).objects section.now.object section.now.index ≡ Some section.now.section
            → AreFields relocs fields → IsRelocated (with_relocs relocs section.now) result }
        ensures fields { result.fields ≡ fields }
    {
        Relocated {
            object: section.object(),
            index: section.index(),
            is_code: section.is_code(),
            size: section.size(),
            bytes: section.bytes(),
            is_compressed: section.is_compressed(),
            words,
            fields,
        }
    }

    // Whether a relocation's kind isn't known, or can't stand in this section.
    fn is_bad_kind(&self, kind: Option<RelocKind>) -> bool
        ensures { (l : IndexedSection) → IsRelocated l self.now → result ≡ is_bad_kind l.section kind }
    {
        match kind {
            None => true,
            Some(_) => {
                (!self.is_code && !is_ignored(kind) && !is_word(kind))
                    || (is_rvc(kind) && !self.is_compressed)
            }
        }
    }

    // The instruction of the word at a step of code; none if there is no whole word.
    #[inline(always)]
    fn word_at(&self, at: usize) -> Option<Instr>
        ensures { (l : IndexedSection) → IsRelocated l self.now → self.now.is_code ≡ true
            → at % code_step l.section.compressed ≡ 0
            → result ≡ (if nat_le (at + 4) (length l.section.bytes) then instr_in 4 l.section.bytes at else None) }
    {
        if self.is_compressed {
            return instr_at(self.bytes, at);
        }
        instr_on(self.words, at)
    }

    // Whether the instructions that a relocation of this kind changes, which begin at a step of code, are of its kind,
    // or else its addend.
    #[inline(always)]
    fn fits_at(&self, reloc: Reloc, kind: RelocKind) -> bool
        ensures { (l : IndexedSection) → IsRelocated l self.now → self.now.is_code ≡ true
            → reloc.offset % code_step l.section.compressed ≡ 0
            → reloc.offset + field_length (Some kind) reloc.addend ≤ length l.section.bytes
            → result ≡ fits_at l.section reloc.offset reloc.addend (Some kind) }
    {
        let at = reloc.offset as usize;
        match kind {
            RelocKind::Align => is_padding(self.is_compressed, reloc.addend),
            RelocKind::Ignored | RelocKind::Word => true,
            RelocKind::RvcBranch | RelocKind::RvcJump => {
                kind.fits(short_instr_at(self.bytes, at), None)
            }
            RelocKind::Call => kind.fits(self.word_at(at), self.word_at(at + 4)),
            RelocKind::Branch
            | RelocKind::Jal
            | RelocKind::PcrelHi20
            | RelocKind::PcrelLo12I
            | RelocKind::PcrelLo12S
            | RelocKind::Hi20
            | RelocKind::Lo12I
            | RelocKind::Lo12S => kind.fits(self.word_at(at), None),
        }
    }

    // Whether a relocation of this kind begins at a step and changes what is of its kind, if this is code.
    #[inline(always)]
    fn is_placed(&self, reloc: Reloc, kind: Option<RelocKind>) -> bool
        requires { kind ≡ kind_of reloc.kind }
        ensures { (l : IndexedSection) → IsRelocated l self.now → field_end reloc ≤ l.section.size
            → result ≡ is_placed l.section reloc }
    {
        if !self.is_code {
            return true;
        }
        if !is_step(self.is_compressed, reloc.offset) {
            return false;
        }
        match kind {
            None => true,
            Some(kind) => self.fits_at(reloc, kind),
        }
    }

    // Whether the field of one of its relocations, which is of this kind, goes beyond the section's end, isn't whole
    // steps of its kind, or is changed by another as well.
    #[inline(always)]
    fn is_bad_place(&self, reloc: Reloc, kind: Option<RelocKind>) -> bool
        requires kind { kind ≡ kind_of reloc.kind }
        requires asks { is_ignored kind ≡ false }
        ensures { (l : IndexedSection) → IsRelocated l self.now → Contains l.section.relocs reloc
            → result ≡ is_bad_place l.section reloc }
    {
        u64::from(self.size) < field_end(reloc, kind)
            || !self.is_placed(reloc, kind)
            || self.fields.overlaps_another(reloc, kind)
    }

    // The instruction at an offset; none if there is no whole word.
    fn spelled_at(&self, offset: usize) -> Option<Instr>
        ensures { (l : IndexedSection) → IsRelocated l self.now
            → result
            ≡ (if nat_le (offset + 4) (length l.section.bytes) then instr_in 4 l.section.bytes offset else None) }
    {
        if self.is_code && !self.is_compressed && offset % 4 == 0 {
            return instr_on(self.words, offset);
        }
        instr_at(self.bytes, offset)
    }

    // Whether the upper part of a PC-relative pair stands at an offset: an `auipc` with its relocation.
    fn has_upper(&self, offset: u32) -> bool
        ensures { (l : IndexedSection) → IsRelocated l self.now → result ≡ has_pcrel_hi_at l.section offset }
    {
        let spelled = self.spelled_at(offset as usize);
        RelocKind::PcrelHi20.fits(spelled, None) && self.fields.has_upper(offset)
    }

    // Whether the upper part that a lower part of this section goes with stands at a target.
    fn is_pair(&self, target: Target) -> bool
        ensures { (l : IndexedSection) → IsRelocated l self.now → result ≡ is_pair_at l target }
    {
        let Target::Code(q) = target else {
            return false;
        };
        q.object == self.object && q.section == self.index && self.has_upper(q.offset)
    }

    // What is wrong with one of its relocations by itself, which is of this kind and has this target. A lower part
    // with an addend has no upper part, so one that may have one leads to where its symbol is.
    #[inline(always)]
    fn own_fault(&self, reloc: Reloc, kind: Option<RelocKind>, target: Target) -> Option<RelocFault>
        requires kind { kind ≡ kind_of reloc.kind }
        requires asks { is_ignored kind ≡ false }
        ensures { (inputs : Inputs) (l : IndexedSection) → IsRelocated l self.now → Contains l.section.relocs reloc
            → target ≡ target_of (parsed inputs) l.object reloc → result ≡ own_fault (parsed inputs) l reloc }
    {
        if self.is_bad_kind(kind) {
            return Some(RelocFault::Kind);
        }
        if self.is_bad_place(reloc, kind) {
            return Some(RelocFault::Place);
        }
        if is_pcrel_lo(kind) && (reloc.addend != 0 || !self.is_pair(target)) {
            return Some(RelocFault::Pair);
        }
        None
    }

    // One of the section's relocations, which is of this kind, resolved.
    #[inline(always)]
    fn resolve(&self, objects: &Objects, reloc: Reloc, kind: Option<RelocKind>) -> ResolvedReloc
        requires kind { kind ≡ kind_of reloc.kind }
        requires asks { is_ignored kind ≡ false }
        ensures { (l : IndexedSection) → IsRelocated l self.now → Contains l.section.relocs reloc
            → result ≡ resolved_reloc (parsed objects.now) l reloc }
    {
        let target = objects.resolve(self.object, reloc.symbol, reloc.addend);
        ResolvedReloc {
            target,
            offset: reloc.offset,
            size: field_length(kind, reloc.addend).min(255) as u8,
            kind,
            fault: self.own_fault(reloc, kind, target),
        }
    }
}

// The relocations of a section that ask for something, decided in one pass; none if one of them has a fault by itself,
// begins before those before it have ended, or stands before its upper part.
fn resolve_in_order(
    alloc: Global,
    objects: &Objects,
    section: &SectionRef,
    words: &[Option<Instr>],
) -> Result<Option<Vec<ResolvedReloc>>, AllocError>
    requires gathered { gather_fault objects.now ≡ None }
    requires section { section_at (parsed objects.now).objects section.now.object section.now.index
        ≡ Some section.now.section }
    requires words { is_code_section section.now.section ≡ true → section.now.section.compressed ≡ false
        → words.now ≡ instrs_in section.now.section.bytes }
    ensures { IfOk result (λ o. IfSome o (λ relocs.
        relocs.items ≡ resolved_relocs (parsed objects.now) section.now)) }
{
    let mut relocated = Relocated::new(section, words, Fields::none(alloc));
    let mut relocs = Vec::with_capacity(alloc, section.reloc_count() as usize)?;
    for k in 0..section.reloc_count() {
        let reloc = section.reloc(k);
        let kind = RelocKind::of(reloc.kind);
        relocated.fields.add(reloc, kind)?;
        if relocated.fields.end.is_none() {
            return Ok(None);
        }
        if !is_ignored(kind) {
            let resolved = relocated.resolve(objects, reloc, kind);
            if resolved.fault.is_some() {
                return Ok(None);
            }
            relocs.push(resolved)?;
        }
    }
    Ok(Some(relocs))
}

/// The relocations of a section that ask for something, resolved, in order, by its words' instructions if it is code.
/// It resolves each once, in logarithmic time, if they are in order and without a fault, and else twice at most.
pub fn resolve_relocs(
    alloc: Global,
    objects: &Objects,
    section: &SectionRef,
    words: &[Option<Instr>],
) -> Result<Vec<ResolvedReloc>, AllocError>
    requires gathered { gather_fault objects.now ≡ None }
    requires section { section_at (parsed objects.now).objects section.now.object section.now.index
        ≡ Some section.now.section }
    requires words { is_code_section section.now.section ≡ true → section.now.section.compressed ≡ false
        → words.now ≡ instrs_in section.now.section.bytes }
    ensures { IfOk result (λ relocs. relocs.items ≡ resolved_relocs (parsed objects.now) section.now) }
{
    if let Some(relocs) = resolve_in_order(alloc, objects, section, words)? {
        return Ok(relocs);
    }
    let relocated = Relocated::new(section, words, Fields::new(alloc, section)?);
    let mut relocs = Vec::with_capacity(alloc, section.reloc_count() as usize)?;
    for k in 0..section.reloc_count() {
        let reloc = section.reloc(k);
        let kind = RelocKind::of(reloc.kind);
        if !is_ignored(kind) {
            relocs.push(relocated.resolve(objects, reloc, kind))?;
        }
    }
    Ok(relocs)
}
