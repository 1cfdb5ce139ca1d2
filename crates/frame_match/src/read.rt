// What the search for groups reads from an instruction.

ghost use Rattle.std.specs.Prelude.{◌≡◌, IfSome};
ghost use Rattle.frame_match.specs.Read as read;
ghost use Rattle.frame_match.specs.Read.{is_return_instr, is_zero_instr, move_of, op_of as op_of_item, slot_at_offset, slot_of as slot_of_instr, sp_move_of};
ghost use Rattle.frame_match.specs.Invariants.Runs as runs;
ghost use Rattle.frame_match.specs.declared.slot.Access.TheVariants.{Restores, Saves};

use crate::found::Move;
use crate::slot::{Access, Slot};
use block_cut::item::Item;
use rv_decode::instr::{ImmOp, Instr, LoadOp, StoreOp};

/// The instruction of an item without relocation.
pub fn op_of(item: &Item) -> Option<Instr>
    ensures { result ≡ op_of_item item.now }
{
    match item {
        Item::Op(instr) => Some(*instr),
        _ => None,
    }
}

fn slot_at(base: u8, imm: i32, register: u8) -> Option<Slot>
    ensures { result ≡ slot_at_offset base imm register }
{
    if base == 2 && imm >= 0 {
        Some(Slot {
            offset: imm as u32,
            register,
        })
    } else {
        None
    }
}

fn saved_slot(instr: &Instr) -> Option<Slot>
    ensures { result ≡ slot_of_instr Saves instr.now }
{
    match instr {
        Instr::Store {
            op: StoreOp::Sw,
            source,
            base,
            imm,
        } => slot_at(base.number(), *imm, source.number()),
        _ => None,
    }
}

fn restored_slot(instr: &Instr) -> Option<Slot>
    ensures { result ≡ slot_of_instr Restores instr.now }
{
    match instr {
        Instr::Load {
            op: LoadOp::Lw,
            rd,
            base,
            imm,
        } => slot_at(base.number(), *imm, rd.number()),
        _ => None,
    }
}

fn slot_of(which: Access, instr: &Instr) -> Option<Slot>
    ensures { result ≡ slot_of_instr which instr.now }
{
    match which {
        Access::Saves => saved_slot(instr),
        Access::Restores => restored_slot(instr),
    }
}

/// The slot that an instruction saves a register to, or restores one from.
pub fn slot_accessed(which: Access, instr: Option<Instr>) -> Option<Slot>
    ensures { result ≡ read.slot_accessed which instr }
{
    match instr {
        Some(instr) => slot_of(which, &instr),
        None => None,
    }
}

fn sp_move(instr: &Instr) -> Option<i32>
    ensures { result ≡ sp_move_of instr.now }
{
    match instr {
        Instr::WithImm {
            op: ImmOp::Addi,
            rd,
            first,
            imm,
        } => {
            if rd.number() == 2 && first.number() == 2 {
                Some(*imm)
            } else {
                None
            }
        }
        _ => None,
    }
}

/// The number of bytes by which an instruction lowers the stack pointer.
pub fn lowered(instr: Option<Instr>) -> Option<u32>
    ensures { result ≡ read.lowered instr }
{
    let by = sp_move(&instr?)?;
    if by < 0 {
        Some(by.unsigned_abs())
    } else {
        None
    }
}

/// The number of bytes by which an instruction raises the stack pointer.
pub fn raised(instr: Option<Instr>) -> Option<u32>
    ensures { result ≡ read.raised instr }
{
    let by = sp_move(&instr?)?;
    if by < 0 { None } else { Some(by as u32) }
}

fn move_in(instr: &Instr) -> Option<Move>
    ensures { result ≡ move_of instr.now }
{
    match instr {
        Instr::WithImm {
            op: ImmOp::Addi,
            rd,
            first,
            imm,
        } => {
            if *imm == 0 {
                Some(Move {
                    rd: *rd,
                    source: *first,
                })
            } else {
                None
            }
        }
        _ => None,
    }
}

/// The move from one register to another that an instruction makes, if it makes one.
pub fn moved(instr: Option<Instr>) -> Option<Move>
    ensures { result ≡ read.moved instr }
{
    match instr {
        Some(instr) => move_in(&instr),
        None => None,
    }
}

fn is_zero_move(instr: &Instr) -> bool
    ensures { result ≡ is_zero_instr instr.now }
{
    match instr {
        Instr::WithImm {
            op: ImmOp::Addi,
            rd,
            first,
            imm,
        } => rd.number() == 10 && first.number() == 0 && *imm == 0,
        _ => false,
    }
}

/// Whether an instruction sets a0 to 0.
pub fn is_zero(instr: Option<Instr>) -> bool
    ensures { result ≡ read.is_zero instr }
{
    match instr {
        Some(instr) => is_zero_move(&instr),
        None => false,
    }
}

fn is_return_jump(instr: &Instr) -> bool
    ensures { result ≡ is_return_instr instr.now }
{
    match instr {
        Instr::Jalr { rd, base, imm } => rd.number() == 0 && base.number() == 1 && *imm == 0,
        _ => false,
    }
}

/// Whether a push, a pop or moves may begin with an instruction: it restores a register, moves one, lowers the stack
/// pointer or sets a0 to 0.
pub fn may_begin(instr: &Instr) -> bool
    ensures { result ≡ runs.may_begin instr.now }
{
    restored_slot(instr).is_some()
        || (move_in(instr).is_some() || (lowered(Some(*instr)).is_some() || is_zero_move(instr)))
}

/// Whether an instruction returns.
pub fn is_return(instr: Option<Instr>) -> bool
    ensures { result ≡ read.is_return instr }
{
    match instr {
        Some(instr) => is_return_jump(&instr),
        None => false,
    }
}
