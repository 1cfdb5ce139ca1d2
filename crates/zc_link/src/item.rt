// What is written for an item: its own words with the values that its relocation asks for, or a short or long form.

ghost use Rattle.std.specs.Prelude.{◌≡◌, ◌≢◌, ◌+◌, ◌<◌, ◌≤◌, true, drop, length, slice_index, take, Some, IsTrue, ℕ, ℤ};
ghost use Rattle.block_cut.specs.Items.{item_at, size_at as own_size_at};
ghost use Rattle.block_cut.specs.Places.{IsPlaceNumber};
ghost use Rattle.block_cut.specs.Relocs.{instr_in};
ghost use Rattle.psabi_reloc.specs.Parts.{hi20_of, lo12_of};
ghost use Rattle.psabi_reloc.specs.Patched.{with_imm};
ghost use Rattle.psabi_sym.specs.Inputs.{parsed};
ghost use Rattle.rv_decode.specs.Bits.{as_signed, as_word};
ghost use Rattle.rv_decode.specs.Decode.{decoded};
ghost use Rattle.rv_decode.specs.Immediates.{InRange};
ghost use Rattle.rv_decode.specs.declared.instr.BranchOp.{BranchOp};
ghost use Rattle.rv_decode.specs.declared.instr.Instr.{Instr};
ghost use Rattle.rv_decode.specs.declared.instr.UpperOp.TheVariants.{Auipc};
ghost use Rattle.shrink_layout.specs.Pieces.{is_short};
ghost use Rattle.shrink_layout.specs.Units.{OneItem};
ghost use Rattle.zc_base.specs.Fields.{half_bytes, word_bytes, word_in};
ghost use Rattle.zc_link.specs.Codes.{IsBranchSpelled, code_bytes};
ghost use Rattle.zc_link.specs.Copied.{bytes_from};
ghost use Rattle.zc_link.specs.LaidOut.{HasBranchSize, HasJumpSize};
ghost use Rattle.zc_link.specs.Meant.{way_on};
ghost use Rattle.zc_link.specs.Standing.{HasAddress, HasValue, HasWay, StandsHere, WrittenHere, is_lower, is_patched};
ghost use Rattle.zc_link.specs.Values.{target_value, way};
ghost use Rattle.zc_link.specs.Written.{IsSpelled, SpellsShort, SpellsWord};

use crate::code::Code;
use crate::item_start::ItemStart;
use crate::layout::Layout;
use block_cut::item::Item;
use psabi_reloc::put::{put_call, put_hi20, put_lo12_i, put_lo12_s};
use psabi_sym::target::Target;
use rv_decode::instr::Instr;
use rv_encode::encode::encode;
use zc_base::fields::u32_at;
use zc_base::place::Place;
use zc_base::reg::Reg;
use zca_zcb_pass::long::long_branch;
use zca_zcb_pass::short::short_of;

// The address of a place that has one.
fn address_of<L: Layout>(layout: &L, p: Place) -> u32
    requires { HasAddress (L.layout layout.now).address p }
    ensures { (L.layout layout.now).address p ≡ Some result }
{
    layout.address(p).unwrap()
}

/// The address of a symbol's target.
pub fn target_value<L: Layout>(layout: &L, t: Target) -> u32
    requires { HasValue (L.layout layout.now).address t }
    ensures { target_value (L.layout layout.now).address t ≡ Some result }
{
    match t {
        Target::Code(p) => address_of(layout, p),
        Target::Number(n) | Target::Absent(n) => n,
        Target::Nowhere => unreachable!(),
    }
}

// The distance from an address to a place that has one.
fn distance_to<L: Layout>(layout: &L, address: u32, to: Place) -> i32
    requires { HasAddress (L.layout layout.now).address to }
    ensures { (b : ℕ) → (L.layout layout.now).address to ≡ Some b → result ≡ as_signed (way address b) }
{
    address_of(layout, to).wrapping_sub(address).cast_signed()
}

// The distance from the `auipc` at a place to what its relocation resolves to.
fn way_from<L: Layout>(layout: &L, from: Place) -> u32
    requires { HasWay (L.layout layout.now).address (item_at (parsed (L.layout layout.now).inputs)) from }
    ensures { way_on (L.layout layout.now).address (item_at (parsed (L.layout layout.now).inputs)) from ≡ Some result }
{
    match layout.cut().item(from) {
        Some(Item::PcHi(_, t)) => target_value(layout, t).wrapping_sub(address_of(layout, from)),
        _ => unreachable!(),
    }
}

// The word of an instruction with the lower part of an address.
fn put_lower(instr: &Instr, word: u32, x: u32) -> u32
    ensures { decoded word ≡ Some instr.now → is_lower (Some instr.now) ≡ true
        → decoded result ≡ Some (with_imm instr.now (lo12_of x)) }
{
    match instr {
        Instr::Store { .. } => put_lo12_s(word, x),
        _ => put_lo12_i(word, x),
    }
}

// The word that is written for an item that has one, from its own word: with the value that its relocation asks for.
#[tactic(auto, using(crate::proofs::ItemBytes::hi_written, crate::proofs::ItemBytes::lo_written, crate::proofs::ItemBytes::pc_hi_written, crate::proofs::ItemBytes::pc_lo_written, crate::proofs::ItemBytes::word_target))]
fn patched<L: Layout>(layout: &L, start: ItemStart, item: Item) -> u32
    requires stands { StandsHere (L.layout layout.now) start.code.now start.at item start.address 4 }
    requires patched { is_patched item ≡ true }
    requires own { own_size_at (parsed (L.layout layout.now).inputs).objects start.at ≡ 4 }
    ensures { WrittenHere (L.layout layout.now) start.entry.code.now start.entry.at (OneItem item)
        start.entry.address 4 (word_bytes result) }
{
    let word = u32_at(start.code, start.at.offset as usize);
    match item {
        Item::Hi(_, t) => put_hi20(word, target_value(layout, t)),
        Item::Lo(i, t) => put_lower(&i, word, target_value(layout, t)),
        Item::PcHi(_, t) => put_hi20(word, target_value(layout, t).wrapping_sub(start.address)),
        Item::PcLo(i, from) => put_lower(&i, word, way_from(layout, from)),
        Item::Word(t) => target_value(layout, t),
        _ => word,
    }
}

// The word of an instruction: its own, or its 32-bit encoding if it has two bytes in its object.
fn instr_word(start: ItemStart, i: Instr) -> u32
    requires range { InRange i }
    requires within { start.own ≢ 2 → start.at.offset + 4 ≤ length start.code.now }
    requires spells { start.own ≢ 2 → decoded (word_in start.code.now start.at.offset) ≡ Some i }
    ensures { decoded result ≡ Some i }
{
    if start.own == 2 {
        encode(i)
    } else {
        u32_at(start.code, start.at.offset as usize)
    }
}

// The word that is written for an item that has one.
fn item_word<L: Layout>(layout: &L, start: ItemStart, item: Item) -> u32
    requires stands { StandsHere (L.layout layout.now) start.code.now start.at item start.address 4 }
    requires own { own_size_at (parsed (L.layout layout.now).inputs).objects start.at ≡ start.own }
    requires patched { is_patched item ≡ true }
    ensures { WrittenHere (L.layout layout.now) start.entry.code.now start.entry.at (OneItem item)
        start.entry.address 4 (word_bytes result) }
{
    match item {
        Item::Op(i) => instr_word(start, i),
        _ => patched(layout, start, item),
    }
}

// The two bytes of an item whose instruction is known before the layout: the object's own if they are kept, or else its
// short form.
fn short_code<'a, L: Layout>(layout: &L, start: ItemStart<'a>, item: Item) -> Code<'a>
    requires stands { StandsHere (L.layout layout.now) start.code.now start.at item start.address 2 }
    requires number { IsPlaceNumber (parsed (L.layout layout.now).inputs).objects start.at start.number }
    requires keeps { (L.layout layout.now).keeps_halfwords start.at ≡ start.keeps }
    requires patched { is_patched item ≡ true }
    ensures { WrittenHere (L.layout layout.now) start.entry.code.now start.entry.at (OneItem item)
        start.entry.address 2 (code_bytes result) }
{
    layout.recall_laid_out();
    if start.keeps {
        return Code::Own(own_bytes(start.code, start.at.offset as usize, 2));
    }
    Code::Half(layout.half_at(start.number))
}

// The halfword of an instruction that has one.
fn half_of(i: Instr) -> u16
    requires { IsTrue (is_short i) }
    ensures { SpellsShort (half_bytes result) i }
{
    short_of(i).unwrap()
}

// A branch with its distance, in `size` bytes: its halfword, its word, or the two words of its long form.
fn branch_code<'a>(branch: Instr, distance: i32, size: u32) -> Code<'a>
    requires { (op : BranchOp) × (first : ℕ) × (second : ℕ) × (branch ≡ Instr.Branch op first second distance)
        × HasBranchSize (Instr.Branch op first second) size distance }
    ensures { (op : BranchOp) (first second : ℕ) → branch ≡ Instr.Branch op first second distance
        → IsBranchSpelled size (code_bytes result) op first second distance }
{
    if size == 2 {
        return Code::Half(half_of(branch));
    }
    if size == 4 {
        return Code::Word(encode(branch));
    }
    let [over, jump] = long_branch(branch, distance);
    Code::Pair(over, jump)
}

// A jump with its distance, in `size` bytes: its halfword or its word.
fn jump_code<'a>(rd: Reg, distance: i32, size: u32) -> Code<'a>
    requires { HasJumpSize rd size distance }
    ensures { IsSpelled size (code_bytes result) (Instr.Jal rd distance) }
{
    let jump = Instr::Jal { rd, distance };
    if size == 2 {
        return Code::Half(half_of(jump));
    }
    Code::Word(encode(jump))
}

// The two words of a call with its distance, from its own.
fn call_code<'a>(start: ItemStart<'a>, distance: i32) -> Code<'a>
    requires { start.at.offset + 8 ≤ length start.code.now }
    ensures upper { (temp imm : ℕ)
        → instr_in 8 start.entry.code.now start.entry.at.offset ≡ Some (Instr.Upper Auipc temp imm)
        → SpellsWord (take 4 (code_bytes result)) (Instr.Upper Auipc temp (hi20_of (as_word distance))) }
    ensures lower { (rd temp : ℕ) (imm : ℤ)
        → instr_in 4 start.entry.code.now (start.entry.at.offset + 4) ≡ Some (Instr.Jalr rd temp imm)
        → SpellsWord (drop 4 (code_bytes result)) (Instr.Jalr rd temp (lo12_of (as_word distance))) }
{
    let offset = start.at.offset as usize;
    let words = [u32_at(start.code, offset), u32_at(start.code, offset + 4)];
    let [upper, lower] = put_call(words, distance);
    Code::Pair(upper, lower)
}

// `count` bytes of code from an offset on.
fn own_bytes(code: &[u8], offset: usize, count: usize) -> &[u8]
    requires { offset + count ≤ length code.now }
    ensures own { result.now ≡ bytes_from code.now offset count }
    ensures octets { (k : ℕ) → slice_index code.now k < 256 }
{
    &code[offset..offset + count]
}

/// What is written for an item that takes `size` bytes in the layout. It takes constant time beside that of the
/// addresses of places that it leads to.
pub fn item_code<'a, L: Layout>(layout: &L, start: ItemStart<'a>, size: u32, item: Item) -> Code<'a>
    requires stands { StandsHere (L.layout layout.now) start.code.now start.at item start.address size }
    requires own { own_size_at (parsed (L.layout layout.now).inputs).objects start.at ≡ start.own }
    requires number { IsPlaceNumber (parsed (L.layout layout.now).inputs).objects start.at start.number }
    requires keeps { (L.layout layout.now).keeps_halfwords start.at ≡ start.keeps }
    ensures { WrittenHere (L.layout layout.now) start.entry.code.now start.entry.at (OneItem item)
        start.entry.address size (code_bytes result) }
{
    match item {
        Item::Branch {
            op,
            first,
            second,
            to,
        } => {
            let distance = distance_to(layout, start.address, to);
            let branch = Instr::Branch {
                op,
                first,
                second,
                distance,
            };
            branch_code(branch, distance, size)
        }
        Item::Jump { rd, to } => { jump_code(rd, distance_to(layout, start.address, to), size) }
        Item::Call { rd, to, .. } => {
            if size == 8 {
                call_code(start, distance_to(layout, start.address, to))
            } else {
                jump_code(rd, distance_to(layout, start.address, to), size)
            }
        }
        Item::Align(_) => Code::Padding(size),
        Item::Raw(_) => Code::Own(own_bytes(start.code, start.at.offset as usize, 4)),
        Item::RawShort(_) => Code::Own(own_bytes(start.code, start.at.offset as usize, 2)),
        Item::RawPair(_, _) => Code::Own(own_bytes(start.code, start.at.offset as usize, 8)),
        _ if size == 2 => short_code(layout, start, item),
        _ => Code::Word(item_word(layout, start, item)),
    }
}
