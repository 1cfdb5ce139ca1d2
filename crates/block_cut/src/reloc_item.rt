// Items under relocations.

ghost use Rattle.std.specs.Prelude.{◌≡◌, ◌≤◌, ◌+◌, ◌%◌, ◌==◌, false, if◌then◌else◌, length, Some};
ghost use Rattle.std.specs.Option.{option_map_or};
ghost use Rattle.block_cut.specs.Invariants.HalfwordTables.{HasRoom};
ghost use Rattle.block_cut.specs.Items.{call_item, raw_in, raw_pair, to_place, transfer_item, transfer_under};
ghost use Rattle.block_cut.specs.Relocs.{instr_in};
ghost use Rattle.block_cut.specs.Resolved.{resolved_item};
ghost use Rattle.block_cut.specs.declared.item.Item.TheVariants.{Hi, Lo, PcHi, PcLo, RawPair};

use crate::content::Content;
use crate::item::Item;
use crate::resolved_reloc::ResolvedReloc;
use psabi_reloc::kind::RelocKind;
use psabi_sym::target::Target;
use rv_decode::instr::Instr;
use zc_base::place::Place;

// The branch or jump to a place that an instruction is, or else another item.
fn transfer_item(instr: Instr, other: Item, to: Place) -> Item
    ensures { result ≡ transfer_item instr other to }
{
    match instr {
        Instr::Branch {
            op,
            first,
            second,
            ..
        } => Item::Branch {
            op,
            first,
            second,
            to,
        },
        Instr::Jal { rd, .. } => Item::Jump { rd, to },
        Instr::Upper { .. }
        | Instr::Jalr { .. }
        | Instr::Load { .. }
        | Instr::Store { .. }
        | Instr::WithImm { .. }
        | Instr::WithReg { .. }
        | Instr::Fence { .. }
        | Instr::Ecall
        | Instr::Ebreak
        | Instr::Csrrw { .. } => other,
    }
}

// The call to a place that two instructions are, or else another item.
fn call_item(first: Option<Instr>, second: Option<Instr>, other: Item, to: Place) -> Item
    ensures { result ≡ call_item first second other to }
{
    let (Some(first), Some(second)) = (first, second) else {
        return other;
    };
    let Instr::Upper { rd: temp, .. } = first else {
        return other;
    };
    match second {
        Instr::Jalr { rd, .. } => Item::Call { rd, temp, to },
        Instr::Upper { .. }
        | Instr::Jal { .. }
        | Instr::Branch { .. }
        | Instr::Load { .. }
        | Instr::Store { .. }
        | Instr::WithImm { .. }
        | Instr::WithReg { .. }
        | Instr::Fence { .. }
        | Instr::Ecall
        | Instr::Ebreak
        | Instr::Csrrw { .. } => other,
    }
}

// The branch or jump to a target that the `size` bytes at an offset are.
fn transfer_under(content: &Content, size: u8, at: usize, target: Target) -> Item
    requires aligned { content.now.compressed ≡ false → at % 4 ≡ 0 }
    requires inside { at + (if size == 2 then 2 else 4) ≤ length content.now.bytes }
    ensures { result ≡ transfer_under size target content.now.bytes at }
{
    let raw = content.raw(size, at);
    match (content.instr(size, at), target) {
        (Some(instr), Target::Code(to)) => transfer_item(instr, raw, to),
        _ => raw,
    }
}

// The `lui` or `auipc` item at an offset, with the upper part of a target.
fn upper_item(content: &Content, at: usize, relative: bool, target: Target) -> Item
    requires aligned { content.now.compressed ≡ false → at % 4 ≡ 0 }
    requires inside { at + 4 ≤ length content.now.bytes }
    ensures { result ≡ option_map_or (λ i. if relative then PcHi i target else Hi i target)
        (instr_in 4 content.now.bytes at) (raw_in 4 content.now.bytes at) }
{
    match content.instr(4, at) {
        None => content.raw(4, at),
        Some(instr) => {
            if relative {
                Item::PcHi(instr, target)
            } else {
                Item::Hi(instr, target)
            }
        }
    }
}

// The item at an offset with the lower part of a target.
fn lower_item(content: &Content, at: usize, target: Target) -> Item
    requires aligned { content.now.compressed ≡ false → at % 4 ≡ 0 }
    requires inside { at + 4 ≤ length content.now.bytes }
    ensures { result ≡ option_map_or (λ i. Lo i target) (instr_in 4 content.now.bytes at)
        (raw_in 4 content.now.bytes at) }
{
    match content.instr(4, at) {
        None => content.raw(4, at),
        Some(instr) => Item::Lo(instr, target),
    }
}

// The item at an offset with the lower part that goes with the upper part at a place.
fn paired_item(content: &Content, at: usize, target: Target) -> Item
    requires aligned { content.now.compressed ≡ false → at % 4 ≡ 0 }
    requires inside { at + 4 ≤ length content.now.bytes }
    ensures { result ≡ option_map_or (λ i. to_place target (PcLo i) (raw_in 4 content.now.bytes at))
        (instr_in 4 content.now.bytes at) (raw_in 4 content.now.bytes at) }
{
    match (content.instr(4, at), target) {
        (Some(instr), Target::Code(from)) => Item::PcLo(instr, from),
        _ => content.raw(4, at),
    }
}

// The item of the call at an offset, if it goes to a place.
fn calling_item(content: &Content, at: u32, target: Target) -> Item
    requires aligned { content.now.compressed ≡ false → at % 4 ≡ 0 }
    requires inside { at + 8 ≤ length content.now.bytes }
    ensures { result ≡ to_place target
        (call_item (instr_in 4 content.now.bytes at) (instr_in 4 content.now.bytes (at + 4))
        (raw_pair content.now.bytes at)) (raw_pair content.now.bytes at) }
{
    let first = at as usize;
    let second = first + 4;
    let raw = Item::RawPair(content.word(first), content.word(second));
    match target {
        Target::Code(to) => call_item(content.instr(4, first), content.instr(4, second), raw, to),
        Target::Number(_) | Target::Absent(_) | Target::Nowhere => raw,
    }
}

/// The item at an offset of a section of code, by the relocation that decides it.
pub fn reloc_item(reloc: &ResolvedReloc, content: &Content, at: u32) -> Item
    requires aligned { content.now.compressed ≡ false → at % 4 ≡ 0 }
    requires room { HasRoom content.now at (Some reloc.now) }
    ensures { result ≡ resolved_item reloc.now content.now.bytes at }
{
    let offset = at as usize;
    let target = reloc.target;
    let Some(kind) = reloc.kind else {
        return content.raw(4, offset);
    };
    match kind {
        RelocKind::Ignored => content.raw(4, offset),
        RelocKind::Word => Item::Word(target),
        RelocKind::Branch => transfer_under(content, 4, offset, target),
        RelocKind::Jal => transfer_under(content, 4, offset, target),
        RelocKind::Call => calling_item(content, at, target),
        RelocKind::PcrelHi20 => upper_item(content, offset, true, target),
        RelocKind::PcrelLo12I => paired_item(content, offset, target),
        RelocKind::PcrelLo12S => paired_item(content, offset, target),
        RelocKind::Hi20 => upper_item(content, offset, false, target),
        RelocKind::Lo12I => lower_item(content, offset, target),
        RelocKind::Lo12S => lower_item(content, offset, target),
        RelocKind::RvcBranch => transfer_under(content, 2, offset, target),
        RelocKind::RvcJump => transfer_under(content, 2, offset, target),
        RelocKind::Align => Item::Align(u16::from(reloc.size)),
    }
}
