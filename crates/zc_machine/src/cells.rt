// What the cells at an address begin with.

ghost use Rattle.std.specs.Prelude.{◌≡◌};
ghost use Rattle.zc_machine.specs.Answer.{fetched_as};
ghost use Rattle.zc_machine.specs.Cells.{first_byte, first_half, first_word, instruction, loaded, word_spells};

use crate::reason::Reason;
use rv_decode::bits::signed_of;
use rv_decode::decode::decode;
use rv_decode::instr::LoadOp;
use zc_decode::decode16::decode16;
use zc_decode::short::Short;

fn first_byte(cells: &[u8]) -> Option<u8>
    ensures { result ≡ first_byte cells.now }
{
    match cells {
        [a, ..] => Some(*a),
        [] => None,
    }
}

fn first_half(cells: &[u8]) -> Option<u16>
    ensures { result ≡ first_half cells.now }
{
    match cells {
        [a, b, ..] => Some(u16::from_le_bytes([*a, *b])),
        [] | [_] => None,
    }
}

/// The word that these cells begin with, or none if they are too few.
pub fn first_word(cells: &[u8]) -> Option<u32>
    ensures { result ≡ first_word cells.now }
{
    match cells {
        [a, b, c, d, ..] => Some(u32::from_le_bytes([*a, *b, *c, *d])),
        [] | [_] | [_, _] | [_, _, _] => None,
    }
}

/// What a load gives of these cells, or none if they are too few.
#[inline(always)]
pub fn loaded(op: LoadOp, cells: &[u8]) -> Option<u32>
    ensures { result ≡ loaded op cells.now }
{
    match op {
        LoadOp::Lb => Some(signed_of(8, u32::from(first_byte(cells)?)).cast_unsigned()),
        LoadOp::Lh => Some(signed_of(16, u32::from(first_half(cells)?)).cast_unsigned()),
        LoadOp::Lw => first_word(cells),
        LoadOp::Lbu => Some(u32::from(first_byte(cells)?)),
        LoadOp::Lhu => Some(u32::from(first_half(cells)?)),
    }
}

/// The instruction that these cells begin with, and its size in bytes.
pub fn instruction(cells: &[u8]) -> Result<(Short, u8), Reason>
    ensures { fetched_as result ≡ instruction cells.now }
{
    let Some(half) = first_half(cells) else {
        return Err(Reason::BadAccess);
    };
    if half % 4 == 0b11 {
        return word_spells(first_word(cells));
    }
    match decode16(half) {
        Some(short) => Ok((short, 2)),
        None => Err(Reason::Illegal),
    }
}

// The instruction that a word is, if all four bytes are there.
fn word_spells(word: Option<u32>) -> Result<(Short, u8), Reason>
    ensures { fetched_as result ≡ word_spells word }
{
    let Some(word) = word else {
        return Err(Reason::BadAccess);
    };
    match decode(word) {
        Some(instr) => Ok((Short::Base(instr), 4)),
        None => Err(Reason::Illegal),
    }
}
