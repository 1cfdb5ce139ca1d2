// The slots of frames.

ghost use Rattle.std.specs.Prelude.{◌≡◌, ◌↔◌, ℕ, ◌+◌, ◌*◌, ◌≤◌, ◌<◌, IsTrue, IfSome, Option, Some, slice_index};
ghost use Rattle.zc_decode.specs.Lists.{saved_registers};
ghost use Rattle.frame_match.specs.Invariants.Frames.{saved_index, frame_slot, Fills, IsKnown, IsSlot};

use crate::frame::Frame;
use crate::read::slot_accessed;
use crate::run::Run;
use crate::slot::{Access, Slot};
use rv_decode::instr::Instr;

const SAVED: [u8; 13] = [27, 26, 25, 24, 23, 22, 21, 20, 19, 18, 9, 8, 1];

fn saved(rank: usize) -> u8
    requires { rank < 13 }
    ensures { result ≡ slice_index saved_registers rank }
{
    SAVED[rank]
}

// The index of a register among the 13 that can be saved; 13 if it isn't one of them.
fn rank(register: u8) -> u8
    ensures { result ≡ saved_index register }
{
    match register {
        18..=27 => 27 - register,
        8..=9 => 19 - register,
        1 => 12,
        _ => 13,
    }
}

// The number of the slot at an offset of a frame, counted from the highest.
fn number_at(offset: u32, bytes: u32) -> Option<u32>
    ensures known { IfSome result (λ j. offset + 4 * (j + 1) ≡ bytes) }
    ensures each { (j : ℕ) → offset + 4 * (j + 1) ≡ bytes → result ≡ Some j }
{
    if offset < bytes && (bytes - offset) % 4 == 0 {
        Some((bytes - offset) / 4 - 1)
    } else {
        None
    }
}

// The number of a slot in a frame, if it is one of the frame's slots.
fn number_of(slot: Slot, frame: Frame) -> Option<usize>
    requires some { frame.left_out < 13 }
    requires room { 52 ≤ frame.bytes + 4 * frame.left_out }
    ensures known { IfSome result (λ j. (j + frame.left_out < 13) × (slot ≡ frame_slot frame.bytes frame.left_out j)) }
    ensures each { (j : ℕ) → j + frame.left_out < 13 → slot ≡ frame_slot frame.bytes frame.left_out j
        → result ≡ Some j }
{
    let j = number_at(slot.offset, frame.bytes)? as usize;
    let left_out = usize::from(frame.left_out);
    if j < 13 - left_out && saved(left_out + j) == slot.register {
        Some(j)
    } else {
        None
    }
}

// The number of the slot of a frame that an instruction uses, if it uses one.
fn slot_number(which: Access, instr: Option<Instr>, frame: Frame) -> Option<usize>
    requires some { frame.left_out < 13 }
    requires room { 52 ≤ frame.bytes + 4 * frame.left_out }
    ensures known { IfSome result (λ j. IsSlot which frame.bytes frame.left_out j instr) }
    ensures each { (j : ℕ) → IsSlot which frame.bytes frame.left_out j instr → result ≡ Some j }
{
    let slot = slot_accessed(which, instr)?;
    number_of(slot, frame)
}

// How many registers are missing from the list whose frame of `bytes` bytes has this slot; `None` if there is no such
// list.
fn left_out_at(slot: Slot, bytes: u32) -> Option<u8>
    ensures known { IfSome result (λ left_out. IsKnown left_out) }
    ensures each { (left_out j : ℕ) → IsKnown left_out → j + left_out < 13 → 4 * (j + 1) ≤ bytes
        → slot ≡ frame_slot bytes left_out j → result ≡ Some left_out }
{
    let j = number_at(slot.offset, bytes)?;
    let rank = rank(slot.register);
    if rank < 13 && j <= u32::from(rank) && u32::from(rank) - j != 1 {
        Some(rank - j as u8)
    } else {
        None
    }
}

/// How many registers are missing from the list in whose frame an instruction uses a slot; `None` if there is no such
/// list.
pub fn left_out_by(which: Access, instr: Option<Instr>, bytes: u32) -> Option<u8>
    ensures known { IfSome result (λ left_out. IsKnown left_out) }
    ensures each { (left_out j : ℕ) → IsKnown left_out → 4 * (j + 1) ≤ bytes
        → IsSlot which bytes left_out j instr → result ≡ Some left_out }
{
    let slot = slot_accessed(which, instr)?;
    left_out_at(slot, bytes)
}

/// Whether the instructions from an index on, as many as the frame has slots, use all of its slots, in any order.
pub fn fills(which: Access, run: &Run, from: usize, frame: Frame) -> bool
    requires some { frame.left_out < 13 }
    requires room { 52 ≤ frame.bytes + 4 * frame.left_out }
    requires from { from < 2 }
    ensures { IsTrue result ↔ Fills which frame.bytes frame.left_out run.now from }
{
    let mut seen = [false; 13];
    let count = 13 - usize::from(frame.left_out);
    for m in 0..count {
        match slot_number(which, run.get(from + m), frame) {
            Some(j) => seen[j] = true,
            None => return false,
        }
    }
    for j in 0..count {
        if !seen[j] {
            return false;
        }
    }
    true
}
