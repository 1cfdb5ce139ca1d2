// The bytes that the relocations of a section change.

ghost use Rattle.std.specs.Prelude.{◌≡◌, ◌<◌, ◌≤◌, ◌++◌, ◌∷◌, ◌==◌, ◌&&◌, ℕ, [], length, nat_lt, true, Contains, List, Some, IfOk, IfSome};
ghost use Rattle.std.specs.List.{count_by, list_any};
ghost use Rattle.std.specs.List.Sorted.{IsNonDecreasing};
ghost use Rattle.elf32_read.specs.declared.reloc.Reloc.{Reloc};
ghost use Rattle.psabi_reloc.specs.Kinds.{field_length, kind_of};
ghost use Rattle.block_cut.specs.Invariants.Fields.{AreEnds, AreFields, AreFieldsApart, HoldsEnds, HoldsFields, IsSortedOf};
ghost use Rattle.block_cut.specs.Relocs.{field_end, field_of, overlaps_another, is_pcrel_hi};

use crate::kinds::is_pcrel_hi;
use elf32_read::reloc::Reloc;
use psabi_reloc::kind::RelocKind;
use psabi_sym::section_ref::SectionRef;
use std::alloc::{AllocError, Global};

/// Where the fields of a section's relocations begin, and where they end, each in ascending order. A field has
/// bytes: NONE, RELAX and types that aren't known have none.
#[derive(Drop)]
pub struct FieldEnds {
    pub starts: Vec<u64>,
    pub ends: Vec<u64>,
}

/// Where the upper parts of PC-relative pairs stand in a section, in ascending order, and where its fields
/// begin and end. These aren't needed if each relocation's field begins where those before it have ended, as
/// compilers write them: `end` is where the last one ends then.
#[derive(Drop)]
pub struct Fields {
    pub uppers: Vec<u32>,
    pub end: Option<u64>,
    pub unordered: FieldEnds,
}

/// The number of bytes that a relocation of this kind changes, with its addend.
pub fn field_length(kind: Option<RelocKind>, addend: i32) -> u32
    ensures { result ≡ field_length kind addend }
{
    match kind {
        None => 0,
        Some(kind) => kind.field_length(addend),
    }
}

/// Where the field of a relocation of this kind ends.
pub fn field_end(reloc: Reloc, kind: Option<RelocKind>) -> u64
    requires { kind ≡ kind_of reloc.kind }
    ensures { result ≡ field_end reloc }
{
    u64::from(reloc.offset) + u64::from(field_length(kind, reloc.addend))
}

// The number of entries that are smaller than `most`, in a list in ascending order.
fn count_below(numbers: &[u64], most: u64) -> usize
    ensures value { IsNonDecreasing numbers.now → result ≡ count_by (λ n. nat_lt n most) numbers.now }
    ensures bound { result ≤ length numbers.now }
{
    numbers.partition_point(|n| *n < most)
}

// Sorts numbers in ascending order, unless they are sorted already.
fn sort(numbers: &mut Vec<u32>)
    ensures { IsSortedOf numbers.old.items numbers.new.items }
{
    if numbers.is_sorted() {
        return;
    }
    numbers.sort_unstable();
}

// Whether a number is the last one of a list.
fn is_last(numbers: &[u32], number: u32) -> bool
    ensures { result ≡ true → list_any (λ n. n == number) numbers.now ≡ true }
{
    match numbers.last() {
        None => false,
        Some(last) => *last == number,
    }
}

impl FieldEnds {
    // The ends of no fields.
    fn none(alloc: Global) -> FieldEnds
        ensures { HoldsEnds [] result }
    {
        FieldEnds {
            starts: Vec::new(alloc),
            ends: Vec::new(alloc),
        }
    }

    // Adds the field of one more relocation.
    fn add(&mut self, reloc: Reloc) -> Result<(), AllocError>
        ensures { IfOk result (λ _. (relocs : List Reloc) → HoldsEnds relocs self.old
            → HoldsEnds (relocs ++ reloc ∷ []) self.new) }
    {
        let start = u64::from(reloc.offset);
        let end = field_end(reloc, RelocKind::of(reloc.kind));
        if start < end {
            self.starts.push(start)?;
            self.ends.push(end)?;
        }
        Ok(())
    }

    // The fields of a section's relocations, in the order of the relocations.
    fn held(alloc: Global, section: &SectionRef) -> Result<FieldEnds, AllocError>
        ensures { IfOk result (HoldsEnds section.now.section.relocs) }
    {
        let mut ends = FieldEnds::none(alloc);
        for k in 0..section.reloc_count() {
            ends.add(section.reloc(k))?;
        }
        Ok(ends)
    }

    // The fields of a section's relocations, in ascending order.
    fn new(alloc: Global, section: &SectionRef) -> Result<FieldEnds, AllocError>
        ensures { IfOk result (AreEnds section.now.section.relocs) }
    {
        let mut ends = FieldEnds::held(alloc, section)?;
        ends.starts.sort_unstable();
        ends.ends.sort_unstable();
        Ok(ends)
    }

    // Whether a byte from one offset to another, which one of the relocations changes, is changed by another as well.
    fn overlaps_another(&self, start: u64, end: u64) -> bool
        requires { start < end }
        ensures { (relocs : List Reloc) (r : Reloc) → AreEnds relocs self.now → start ≡ r.offset → end ≡ field_end r
            → result ≡ overlaps_another relocs r }
    {
        let begun = count_below(&self.starts, end);
        let ended = count_below(&self.ends, start + 1);
        ended + 1 < begun
    }
}

// Where the fields of relocations end with one more, if it begins where those before it have ended.
fn end_with(before: Option<u64>, reloc: Reloc, kind: Option<RelocKind>) -> Option<u64>
    requires { kind ≡ kind_of reloc.kind }
    ensures apart { (relocs : List Reloc) → IfSome before (λ n. AreFieldsApart n relocs)
        → IfSome result (λ n. AreFieldsApart n (relocs ++ reloc ∷ [])) }
    ensures past { IfSome result (λ _.
        (n : ℕ) × ((before ≡ Some n) × (0 < field_of reloc → n ≤ reloc.offset))) }
{
    let start = u64::from(reloc.offset);
    let end = field_end(reloc, kind);
    if start == end {
        return before;
    }
    if start < before? {
        return None;
    }
    Some(end)
}

impl Fields {
    /// The fields of no relocations.
    pub fn none(alloc: Global) -> Fields
        ensures holds { HoldsFields [] result }
        ensures end { result.end ≡ Some 0 }
    {
        Fields {
            uppers: Vec::new(alloc),
            end: Some(0),
            unordered: FieldEnds::none(alloc),
        }
    }

    /// Adds a relocation of this kind, but not where its field begins and ends.
    #[inline(always)]
    pub fn add(&mut self, reloc: Reloc, kind: Option<RelocKind>) -> Result<(), AllocError>
        requires { kind ≡ kind_of reloc.kind }
        ensures { IfOk result (λ _. (relocs : List Reloc) → HoldsFields relocs self.old
            → HoldsFields (relocs ++ reloc ∷ []) self.new) }
    {
        self.end = end_with(self.end, reloc, kind);
        if is_pcrel_hi(kind) {
            self.uppers.push(reloc.offset)?;
        }
        Ok(())
    }

    // The fields of a section's relocations, in the order of the relocations.
    fn held(alloc: Global, section: &SectionRef) -> Result<Fields, AllocError>
        ensures { IfOk result (HoldsFields section.now.section.relocs) }
    {
        let mut fields = Fields::none(alloc);
        for k in 0..section.reloc_count() {
            let reloc = section.reloc(k);
            fields.add(reloc, RelocKind::of(reloc.kind))?;
        }
        Ok(fields)
    }

    /// The fields of a section's relocations. It looks at each relocation once if they are in order, and else twice,
    /// and sorts.
    pub fn new(alloc: Global, section: &SectionRef) -> Result<Fields, AllocError>
        ensures { IfOk result (AreFields section.now.section.relocs) }
    {
        let mut fields = Fields::held(alloc, section)?;
        if fields.end.is_none() {
            fields.unordered = FieldEnds::new(alloc, section)?;
        }
        sort(&mut fields.uppers);
        Ok(fields)
    }

    /// Whether a byte that one of the relocations changes, which is of this kind, is changed by another as well.
    #[inline(always)]
    pub fn overlaps_another(&self, reloc: Reloc, kind: Option<RelocKind>) -> bool
        requires { kind ≡ kind_of reloc.kind }
        ensures { (relocs : List Reloc) → AreFields relocs self.now → Contains relocs reloc
            → result ≡ overlaps_another relocs reloc }
    {
        if self.end.is_some() {
            return false;
        }
        let start = u64::from(reloc.offset);
        let end = field_end(reloc, kind);
        if start == end {
            return false;
        }
        self.unordered.overlaps_another(start, end)
    }

    /// Whether the upper part of a PC-relative pair stands at an offset.
    pub fn has_upper(&self, offset: u32) -> bool
        ensures { (relocs : List Reloc) → AreFields relocs self.now
            → result ≡ list_any (λ r. is_pcrel_hi (kind_of r.kind) && r.offset == offset) relocs }
    {
        if is_last(&self.uppers, offset) {
            return true;
        }
        self.uppers.binary_search(&offset).is_ok()
    }
}
