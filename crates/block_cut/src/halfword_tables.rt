// Tables with an entry for each halfword of a section of code: the number of its relocation, and of its place.

ghost use Rattle.std.specs.Prelude.{◌≡◌, ◌+◌, ◌-◌, ◌/◌, ◌<◌, ◌^◌, ◌==◌, ℕ, if◌then◌else◌, IfOk, [], true, length, map, slice_get, slice_index_or};
ghost use Rattle.std.specs.Option.{option_copied, option_map_or, unwrap_or};
ghost use Rattle.elf32_read.specs.Parts.{SectionParts, is_code_section};
ghost use Rattle.psabi_sym.specs.Inputs.{ParsedInputs};
ghost use Rattle.psabi_sym.specs.Indexed.{IndexedSection};
ghost use Rattle.block_cut.specs.CodeSizes.{own_size};
ghost use Rattle.block_cut.specs.Invariants.HalfwordTables.{by_halfword, number_on, numbered, IsRelocTable};
ghost use Rattle.block_cut.specs.Items.{starts_on};
ghost use Rattle.block_cut.specs.Resolved.{is_right, placed_fault, placed_reloc, resolved_relocs};
ghost use Rattle.block_cut.specs.Whole.{IsWhole};

use crate::content::Content;
use crate::resolved_reloc::{RelocFault, ResolvedReloc};
use std::alloc::{AllocError, Global};

// Whether a relocation decides the item at its offset: its kind and its place are right.
fn is_right(fault: Option<RelocFault>) -> bool
    ensures { result ≡ is_right fault }
{
    !matches!(fault, Some(RelocFault::Kind | RelocFault::Place))
}

/// For each of `count` halfwords, the number, from 1 on, of the relocation that decides the item there, or 0. It looks
/// at each relocation once.
pub fn relocs_by_halfword(
    alloc: Global,
    count: usize,
    relocs: &[ResolvedReloc],
) -> Result<Vec<u32>, AllocError>
    requires { length relocs.now < 2 ^ 32 }
    ensures { IfOk result (λ table. IsRelocTable relocs.now count table.items) }
{
    let mut table = vec![in alloc; 0; count]?;
    for (k, reloc) in relocs.iter().enumerate() {
        if is_right(reloc.fault) && reloc.offset % 2 == 0 {
            keep(&mut table, reloc.offset as usize / 2, k as u32 + 1);
        }
    }
    Ok(table)
}

// Sets the entry of a halfword, if that is in range and empty.
fn keep(table: &mut [u32], halfword: usize, number: u32)
    ensures count { length table.new ≡ length table.old }
    ensures entries { (k : ℕ) → k < length table.old → slice_index_or table.new k 0
        ≡ (if k == halfword then (if slice_index_or table.old k 0 == 0 then number else slice_index_or table.old k 0)
        else slice_index_or table.old k 0) }
{
    if halfword < table.len() && table[halfword] == 0 {
        table[halfword] = number;
    }
}

/// A relocation by its number, from 1 on; 0 stands for none.
pub fn numbered(relocs: &[ResolvedReloc], number: u32) -> Option<&ResolvedReloc>
    ensures { option_copied result ≡ numbered relocs.now number }
{
    if number == 0 {
        return None;
    }
    relocs.get(number as usize - 1)
}

/// The size in bytes of the item at an offset, by the relocation there.
pub fn size_with(content: &Content, at: usize, reloc: Option<&ResolvedReloc>) -> u8
    ensures { result ≡ option_map_or (λ d. d.size) (option_copied reloc.entry)
        (own_size content.now.compressed content.now.bytes at) }
{
    match reloc {
        None => content.own_size(at),
        Some(reloc) => reloc.size,
    }
}

// How many bytes of an item are left after the halfword at an offset, by how many were left at it, and by the
// relocation there; 0 of them says that the next item starts there.
fn left_after(left: u8, content: &Content, at: usize, reloc: Option<&ResolvedReloc>) -> u8
    ensures { result ≡ (if left == 0 then option_map_or (λ d. d.size) (option_copied reloc.entry)
        (own_size content.now.compressed content.now.bytes at) else left) - 2 }
{
    if left == 0 {
        return size_with(content, at, reloc).saturating_sub(2);
    }
    left.saturating_sub(2)
}

// The number of the place at a halfword: the next one, if no bytes of the item before are left there, or 0.
fn next_number(left: u8, before: u32) -> u32
    requires { before + 1 < 2 ^ 32 }
    ensures { result ≡ (if left == 0 then before + 1 else 0) }
{
    if left == 0 {
        return before + 1;
    }
    0
}

/// For each halfword of a section of code, the number of the place there, from 1 on, by the number of the relocation
/// there; 0 where no item starts and the section doesn't end.
pub fn place_numbers(
    alloc: Global,
    content: &Content,
    relocs: &[ResolvedReloc],
    table: &[u32],
) -> Result<Vec<u32>, AllocError>
    requires { length table.now < 2 ^ 31 }
    ensures { IfOk result (λ numbers. (inputs : ParsedInputs) (l : IndexedSection) → is_code_section l.section ≡ true
        → IsWhole l.section
        → content.now.bytes ≡ l.section.bytes → content.now.compressed ≡ l.section.compressed
        → relocs.now ≡ resolved_relocs inputs l → IsRelocTable relocs.now (length l.section.bytes / 2 + 1) table.now
        → numbers.items ≡ by_halfword (number_on l.section) l.section) }
{
    let mut numbers = Vec::with_capacity(alloc, table.len())?;
    let mut before = 0;
    let mut left = 0;
    for (k, reloc) in table.iter().enumerate() {
        let number = next_number(left, before);
        numbers.push(number)?;
        before = before.max(number);
        left = left_after(left, content, 2 * k, numbered(relocs, *reloc));
    }
    Ok(numbers)
}

/// The number of the place at an offset, from 1 on, by the numbers at all halfwords of its section; 0 if no item
/// starts there and the section doesn't end there.
pub fn number_at(numbers: &[u32], offset: u32) -> u32
    ensures value { (s : SectionParts) → is_code_section s ≡ true → IsWhole s
        → numbers.now ≡ by_halfword (number_on s) s
        → result ≡ number_on s offset }
    ensures none { numbers.now ≡ [] → result ≡ 0 }
{
    if offset % 2 != 0 {
        return 0;
    }
    match numbers.get(offset as usize / 2) {
        None => 0,
        Some(number) => *number,
    }
}

// Whether an item starts at an offset, by the numbers of its section's places, of which the last is the end's.
fn starts_on(numbers: &[u32], offset: u32) -> bool
    ensures { (s : SectionParts) → is_code_section s ≡ true → IsWhole s → numbers.now ≡ by_halfword (number_on s) s
        → result ≡ starts_on s offset }
{
    if number_at(numbers, offset) == 0 {
        return false;
    }
    offset as usize / 2 + 1 < numbers.len()
}

// What is wrong with a relocation of code, once it is known whether an item starts at its offset.
fn placed_fault(strays: bool, fault: Option<RelocFault>) -> Option<RelocFault>
    ensures { result ≡ placed_fault strays fault }
{
    match fault {
        Some(RelocFault::Kind) => Some(RelocFault::Kind),
        Some(RelocFault::Place | RelocFault::Pair) | None => {
            if strays {
                return Some(RelocFault::Place);
            }
            fault
        }
    }
}

/// The relocations of a section of code, with what is wrong with those where no item starts, by the numbers of its
/// places. Where the object isn't compressed, these have a fault already.
pub fn place_relocs(
    alloc: Global,
    compressed: bool,
    relocs: Vec<ResolvedReloc>,
    numbers: &[u32],
) -> Result<Vec<ResolvedReloc>, AllocError>
    ensures { IfOk result (λ placed. (s : SectionParts) → is_code_section s ≡ true → IsWhole s
        → numbers.now ≡ by_halfword (number_on s) s
        → placed.items ≡ (if compressed then map (placed_reloc s) relocs.items else relocs.items)) }
{
    if !compressed {
        return Ok(relocs);
    }
    let mut placed = Vec::with_capacity(alloc, relocs.len())?;
    for reloc in &relocs {
        placed.push(ResolvedReloc {
            target: reloc.target,
            offset: reloc.offset,
            size: reloc.size,
            kind: reloc.kind,
            fault: placed_fault(!starts_on(numbers, reloc.offset), reloc.fault),
        })?;
    }
    Ok(placed)
}

/// The number of places, by the numbers at all halfwords of a section of code: the last is the end's.
pub fn place_count(numbers: &[u32]) -> usize
    ensures { result ≡ unwrap_or (slice_get numbers.now (length numbers.now - 1)) 0 }
{
    match numbers.last() {
        None => 0,
        Some(number) => *number as usize,
    }
}
