// The bytes of a section of code whose equal tails are shared.

ghost use Rattle.std.specs.Prelude.{◌≡◌, ◌<◌, ◌≤◌, ◌+◌, ◌++◌, ◌==◌, ◌-ℤ◌, ℕ, List, pos, drop, length, slice_get, take, true, None, Some, IfOk, OnOk};
ghost use Rattle.std.specs.List.{list_any};
ghost use Rattle.std.specs.List.Sorted.{IsNonDecreasing};
ghost use Rattle.std.specs.Option.{option_and_then};
ghost use Rattle.zc_base.specs.Fields.{half_bytes, word_bytes};
ghost use Rattle.elf32_read.specs.Parts.{is_code_section};
ghost use Rattle.psabi_sym.specs.Indexed.{IndexedSection, all_sections};
ghost use Rattle.psabi_sym.specs.Inputs.{Inputs, ParsedInputs, parsed};
ghost use Rattle.rv_decode.specs.Immediates.{InRange};
ghost use Rattle.block_cut.specs.Invariants.Fields.{IsSortedOf};
ghost use Rattle.tail_merge.specs.Merged.{instr_bytes, merged_bytes, removed_at, transfer_instr};
ghost use Rattle.tail_merge.specs.MovedTails.{AreMovedAt, AreMovedTails, tail_over};
ghost use Rattle.tail_merge.specs.SectionCode.{HasFormWord, IsFormOf, IsPlaceInCode, IsTabled, LeadsWithin, asking_offsets, down_distance, form_bytes};
ghost use Rattle.tail_merge.specs.Tails.{moved_down};

use crate::moved_tail::{MovedTail, moved_down, tail_over};
use block_cut::code_place::{CodePlace, item_places};
use block_cut::cut::Cut;
use block_cut::item::Item;
use object_passes::relocs::asks;
use psabi_sym::section_ref::SectionRef;
use rv_decode::instr::Instr;
use rv_encode::encode::encode;
use std::alloc::{AllocError, Global};
use zc_base::reg::Reg;
use zc_decode::short::Short;
use zc_encode::encode16::encode16;

/// What is written for an item: its own bytes, nothing, or an instruction in 2 or 4 bytes.
#[derive(Clone, Copy)]
pub enum ItemForm {
    Own,
    Nothing,
    Spelled(Instr, u8),
}

// The distance between where two offsets of a section move down to.
fn distance(tails: &[MovedTail], from: u32, to: u32) -> i32
    ensures { (inputs : ParsedInputs) (o i : ℕ) → AreMovedAt inputs o i tails.now → from ≤ 0x40_0000 → to ≤ 0x40_0000
        → result ≡ pos (moved_down (removed_at inputs o i) to) -ℤ pos (moved_down (removed_at inputs o i) from) }
{
    let start = moved_down(tails, from);
    let end = moved_down(tails, to);
    end.wrapping_sub(start).cast_signed()
}

// A branch or jump with its new distance, and none of another item.
fn transfer(tails: &[MovedTail], place: &CodePlace) -> Option<Instr>
    ensures { (inputs : ParsedInputs) (o i : ℕ) → AreMovedAt inputs o i tails.now → place.now.offset ≤ 0x40_0000
        → LeadsWithin place.now.item
        → result ≡ option_and_then (transfer_instr (down_distance (removed_at inputs o i) place.now.offset))
        place.now.item }
{
    match place.item {
        Some(
            Item::Branch {
                op,
                first,
                second,
                to,
            },
        ) => Some(Instr::Branch {
            op,
            first,
            second,
            distance: distance(tails, place.offset, to.offset),
        }),
        Some(Item::Jump { rd, to }) => Some(Instr::Jal {
            rd,
            distance: distance(tails, place.offset, to.offset),
        }),
        _ => None,
    }
}

// Whether a number is in a list in ascending order.
fn holds(numbers: &[u32], number: u32) -> bool
    ensures { IsNonDecreasing numbers.now → result ≡ list_any (λ n. n == number) numbers.now }
{
    numbers.binary_search(&number).is_ok()
}

// What is written for an item in a removed tail: for the first one the jump to the host's tail.
fn tail_form(tails: &[MovedTail], tail: MovedTail, place: &CodePlace) -> ItemForm
    ensures { (inputs : Inputs) (l : IndexedSection) (relocs : List ℕ) → IsTabled inputs l tails.now relocs
        → IsPlaceInCode (parsed inputs) l place.now → tail_over tails.now place.now.offset ≡ Some tail
        → IsFormOf (parsed inputs) l place.now.offset result }
{
    if place.offset == tail.start {
        let jump = Instr::Jal {
            rd: Reg::new(0).unwrap(),
            distance: distance(tails, place.offset, tail.host),
        };
        ItemForm::Spelled(jump, 4)
    } else {
        ItemForm::Nothing
    }
}

// What is written for an item in no removed tail: itself, but for a branch or jump without relocation.
fn kept_form(tails: &[MovedTail], relocs: &[u32], place: &CodePlace) -> ItemForm
    ensures { (inputs : Inputs) (l : IndexedSection) → IsTabled inputs l tails.now relocs.now
        → IsPlaceInCode (parsed inputs) l place.now → tail_over tails.now place.now.offset ≡ None
        → IsFormOf (parsed inputs) l place.now.offset result }
{
    if holds(relocs, place.offset) {
        return ItemForm::Own;
    }
    match transfer(tails, place) {
        None => ItemForm::Own,
        Some(instr) => ItemForm::Spelled(instr, place.size),
    }
}

// What is written for an item, in logarithmic time.
fn item_form(tails: &[MovedTail], relocs: &[u32], place: &CodePlace) -> ItemForm
    ensures { (inputs : Inputs) (l : IndexedSection) → IsTabled inputs l tails.now relocs.now
        → IsPlaceInCode (parsed inputs) l place.now → IsFormOf (parsed inputs) l place.now.offset result }
{
    match tail_over(tails, place.offset) {
        None => kept_form(tails, relocs, place),
        Some(tail) => tail_form(tails, tail, place),
    }
}

// The bytes of an item.
fn own_bytes<'a>(bytes: &'a [u8], place: &CodePlace) -> &'a [u8]
    requires { place.now.offset + place.now.size ≤ length bytes.now }
    ensures { result.now ≡ take place.now.size (drop place.now.offset bytes.now) }
{
    let start = place.offset as usize;
    &bytes[start..start + usize::from(place.size)]
}

// Appends a halfword.
fn push_half(out: &mut Vec<u8>, half: u16) -> Result<(), AllocError>
    ensures { OnOk result (out.new.items ≡ out.old.items ++ half_bytes half) }
{
    out.extend_from_slice(&half.to_le_bytes())
}

// Appends a word.
fn push_word(out: &mut Vec<u8>, word: u32) -> Result<(), AllocError>
    ensures { OnOk result (out.new.items ≡ out.old.items ++ word_bytes word) }
{
    out.extend_from_slice(&word.to_le_bytes())
}

// Appends an instruction in 2 or 4 bytes. One that has 2 in its object is spelled in 2 at its new distance, which is no
// longer, so it has a halfword; the definition is total and says 0 where there is none.
fn push_instr(out: &mut Vec<u8>, instr: Instr, size: u8) -> Result<(), AllocError>
    requires { InRange instr }
    ensures { OnOk result (out.new.items ≡ out.old.items ++ instr_bytes size instr) }
{
    if size == 2 {
        push_half(out, encode16(Short::Base(instr)).unwrap_or(0))
    } else {
        push_word(out, encode(instr))
    }
}

// Appends what is written for an item, by its own bytes.
fn push_form(out: &mut Vec<u8>, own: &[u8], form: ItemForm) -> Result<(), AllocError>
    requires { HasFormWord form }
    ensures { OnOk result (out.new.items ≡ out.old.items ++ form_bytes own.now form) }
{
    match form {
        ItemForm::Own => out.extend_from_slice(own),
        ItemForm::Nothing => Ok(()),
        ItemForm::Spelled(instr, size) => push_instr(out, instr, size),
    }
}

// Where the relocations of a section stand that ask for something, in order of the relocations.
fn offsets_held(alloc: Global, section: &SectionRef) -> Result<Vec<u32>, AllocError>
    ensures { IfOk result (λ offsets. offsets.items ≡ asking_offsets section.now.section) }
{
    let mut offsets = Vec::new(alloc);
    for k in 0..section.reloc_count() {
        let reloc = section.reloc(k);
        if asks(reloc) {
            offsets.push(reloc.offset)?;
        }
    }
    Ok(offsets)
}

// The same in ascending order.
fn asking_offsets(alloc: Global, section: &SectionRef) -> Result<Vec<u32>, AllocError>
    ensures { IfOk result (λ offsets. IsSortedOf (asking_offsets section.now.section) offsets.items) }
{
    let mut offsets = offsets_held(alloc, section)?;
    if offsets.is_sorted() {
        return Ok(offsets);
    }
    offsets.sort_unstable();
    Ok(offsets)
}

/// The bytes of a section of code, given by its number among all, without its removed tails. It takes linear time
/// beside a logarithmic search for each item, and sorts the relocations' offsets if they aren't in order.
pub fn section_bytes(
    alloc: Global,
    cut: &Cut,
    section: u32,
    tails: &[MovedTail],
) -> Result<Vec<u8>, AllocError>
    requires section { section < length (all_sections (parsed cut.now).objects) }
    requires code { (l : IndexedSection) → slice_get (all_sections (parsed cut.now).objects) section ≡ Some l
        → is_code_section l.section ≡ true }
    requires tails { (l : IndexedSection) → slice_get (all_sections (parsed cut.now).objects) section ≡ Some l
        → AreMovedTails (parsed cut.now) l tails.now }
    ensures { IfOk result (λ bytes. (l : IndexedSection)
        → slice_get (all_sections (parsed cut.now).objects) section ≡ Some l
        → bytes.items ≡ merged_bytes (parsed cut.now) l) }
{
    cut.recall_invariant();
    let home = cut.objects().section(section);
    let relocs = asking_offsets(alloc, &home)?;
    let bytes = home.bytes();
    let mut out = Vec::with_capacity(alloc, bytes.len())?;
    let places = item_places(cut.places(section));
    for place in places {
        let form = item_form(tails, &relocs, place);
        push_form(&mut out, own_bytes(bytes, place), form)?;
    }
    Ok(out)
}
