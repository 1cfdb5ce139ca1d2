// The slots of a table by where they lead, and what pieces are made from.

ghost use Rattle.std.specs.Prelude.{◌≡◌, ◌+◌, ◌<◌, ◌≤◌, All, IfOk, [], length};
ghost use Rattle.psabi_sym.specs.Inputs.{parsed};
ghost use Rattle.shrink_layout.specs.Invariants.Slots.{AreFirstSlots, AreNumbered, AreSlotsOf};
ghost use Rattle.shrink_layout.specs.Pieces.{pieces_of};
ghost use Rattle.shrink_layout.specs.Settled.{settled_widths};
ghost use Rattle.shrink_layout.specs.Units.{AreTargetSlots, IsTargetSlot};

use crate::numbers::piece_number_at;
use crate::sums::Sums;
use frame_match::planned::Planned;
use std::alloc::{AllocError, Global};
use zc_base::place::Place;

// The number of slots for jumps, which come first; the slots after them are for calls (RISC-V Zc specification 1.0,
// "cm.jt" and "cm.jalt").
const JUMP_SLOTS: usize = 32;

/// Objects with their items and groups, and the number of each section's first place.
#[derive(Drop)]
pub struct Numbered<'a> {
    pub planned: &'a Planned,
    pub starts: &'a [u32],
}

/// The slots of a table, and which of them a jump or call to a place goes through.
#[derive(Drop)]
pub struct Slots<'a> {
    pub slots: &'a [Option<Place>],
    /// The bytes of each piece in the layout without the table.
    pub first: Sums,
    /// The first slot for jumps to each place, by the number of the place's piece.
    pub jumps: Vec<Option<u8>>,
    /// The first slot for calls to each place, by the number of the place's piece.
    pub calls: Vec<Option<u8>>,
}

/// What the pieces of a layout with a table are made from: the objects, and the slots.
#[derive(Drop)]
pub struct PieceSource<'a> {
    pub planned: &'a Planned,
    pub starts: &'a [u32],
    pub slots: &'a Slots<'a>,
}

// A part of a table's slots, with the number of its first slot.
#[derive(Clone, Copy)]
struct SlotPart<'a> {
    first: u8,
    slots: &'a [Option<Place>],
}

// The first slot of each place in a part, by the number of the place's piece: where several slots lead to one place,
// the first is written last.
fn first_slots(
    alloc: Global,
    of: &Numbered,
    part: SlotPart,
    count: usize,
) -> Result<Vec<Option<u8>>, AllocError>
    requires numbered { AreNumbered of.now }
    requires few { part.first + length part.slots.now ≤ 256 }
    requires targets { All (IsTargetSlot (parsed of.now.planned.now)) part.slots.now }
    requires count { count ≡ length (pieces_of (parsed of.now.planned.now) []) + 1 }
    ensures long { IfOk result (λ firsts. length firsts.items ≡ count) }
    ensures firsts { IfOk result (λ firsts.
        AreFirstSlots (parsed of.now.planned.now).objects part.entry.first part.entry.slots.now firsts.items) }
{
    let mut firsts = vec![in alloc; None; count]?;
    for k in (0..part.slots.len()).rev() {
        if let Some(to) = part.slots[k] {
            let number = piece_number_at(of.planned.cut(), of.starts, to);
            firsts[number as usize] = Some(part.first + k as u8);
        }
    }
    Ok(firsts)
}

impl<'a> Slots<'a> {
    /// The slots of a table, with the sums of the layout without it.
    pub fn new(
        alloc: Global,
        of: &Numbered,
        first: Sums,
        slots: &'a [Option<Place>],
    ) -> Result<Slots<'a>, AllocError>
        requires numbered { AreNumbered of.now }
        requires first { first ≡ settled_widths (parsed of.now.planned.now) [] }
        requires targets { AreTargetSlots (parsed of.now.planned.now) slots.now }
        ensures same { IfOk result (λ kept. kept.slots.now ≡ slots.now) }
        ensures kept { IfOk result (AreSlotsOf (parsed of.now.planned.now)) }
    {
        // There is an entry for each piece, and for the end.
        let count = first.count() + 1;
        let middle = slots.len().min(JUMP_SLOTS);
        let jumps = SlotPart {
            first: 0,
            slots: &slots[..middle],
        };
        let calls = SlotPart {
            first: JUMP_SLOTS as u8,
            slots: &slots[middle..],
        };
        Ok(Slots {
            slots,
            jumps: first_slots(alloc, of, jumps, count)?,
            calls: first_slots(alloc, of, calls, count)?,
            first,
        })
    }
}
