// What the items of a section of code mean for tails.

ghost use Rattle.std.specs.Prelude.{◌≡◌, ◌<◌, ◌^◌, IfOk, IfSome, Some, length, slice_get};
ghost use Rattle.psabi_sym.specs.Indexed.{all_sections, IndexedSection};
ghost use Rattle.psabi_sym.specs.Inputs.{parsed};
ghost use Rattle.rv_decode.specs.Immediates.{InRange};
ghost use Rattle.tail_merge.specs.TailItems.{instr_tail_item, place_instr, tail_items_of};
ghost use Rattle.tail_merge.specs.Tails.{goes_on, returns};

use crate::tail_item::TailItem;
use block_cut::code_place::{CodePlace, item_places};
use block_cut::cut::Cut;
use block_cut::item::Item;
use rv_decode::instr::{Instr, UpperOp};
use rv_encode::encode::encode;
use std::alloc::{AllocError, Global};
use zc_base::place::Place;

// Whether an instruction is a jump by a register that keeps no link.
fn returns(instr: &Instr) -> bool
    ensures { result ≡ returns instr.now }
{
    match instr {
        Instr::Jalr { rd, .. } => rd.number() == 0,
        Instr::Upper { .. }
        | Instr::Jal { .. }
        | Instr::Branch { .. }
        | Instr::Load { .. }
        | Instr::Store { .. }
        | Instr::WithImm { .. }
        | Instr::WithReg { .. }
        | Instr::Fence { .. }
        | Instr::Ecall
        | Instr::Ebreak
        | Instr::Csrrw { .. } => false,
    }
}

// Whether an instruction goes on to the next, and means the same wherever it stands.
fn goes_on(instr: &Instr) -> bool
    ensures { result ≡ goes_on instr.now }
{
    match instr {
        Instr::Upper { op, .. } => match op {
            UpperOp::Lui => true,
            UpperOp::Auipc => false,
        },
        Instr::Jal { .. } | Instr::Jalr { .. } | Instr::Branch { .. } => false,
        Instr::Load { .. }
        | Instr::Store { .. }
        | Instr::WithImm { .. }
        | Instr::WithReg { .. }
        | Instr::Fence { .. }
        | Instr::Ecall
        | Instr::Ebreak
        | Instr::Csrrw { .. } => true,
    }
}

// The instruction at a place, if it is one without relocation.
fn place_instr(place: &CodePlace) -> Option<Instr>
    ensures { result ≡ place_instr place.now }
{
    match place.item {
        Some(Item::Op(instr)) => Some(instr),
        _ => None,
    }
}

// What is kept of an instruction without relocation.
fn instr_item(instr: &Instr, size: u8, leader: bool) -> TailItem
    requires { InRange instr.now }
    ensures { result ≡ instr_tail_item (Some instr.now) size leader }
{
    TailItem {
        word: encode(*instr),
        size,
        ends: returns(instr),
        inner: goes_on(instr),
        leader,
    }
}

// What is kept of an item, by its instruction if it is one without relocation.
fn tail_item(instr: Option<Instr>, size: u8, leader: bool) -> TailItem
    requires { IfSome instr InRange }
    ensures { result ≡ instr_tail_item instr size leader }
{
    match instr {
        None => TailItem {
            word: 0,
            size,
            ends: false,
            inner: false,
            leader,
        },
        Some(instr) => instr_item(&instr, size, leader),
    }
}

/// What is kept of the items of a section, by its number among all: none if it isn't code.
pub fn tail_items(alloc: Global, cut: &Cut, section: u32) -> Result<Vec<TailItem>, AllocError>
    requires { section < length (all_sections (parsed cut.now).objects) }
    ensures { IfOk result (λ items. (l : IndexedSection)
        → slice_get (all_sections (parsed cut.now).objects) section ≡ Some l → items.items ≡ tail_items_of (parsed cut.now) l) }
{
    let home = cut.objects().section(section);
    let places = item_places(cut.places(section));
    let mut items = Vec::with_capacity(alloc, places.len())?;
    for place in places {
        let at = Place {
            object: home.object(),
            section: home.index(),
            offset: place.offset,
        };
        items.push(tail_item(place_instr(place), place.size, cut.leader(at)))?;
    }
    Ok(items)
}
