// The words of a section of code, as instructions.

ghost use Rattle.std.specs.Prelude.{◌≡◌, ◌+◌, ◌%◌, ℕ, IfOk, List, None, false, if◌then◌else◌, length, nat_le};
ghost use Rattle.block_cut.specs.Relocs.{instr_in};
ghost use Rattle.block_cut.specs.Instrs.{instrs_in};

use rv_decode::decode::decode;
use rv_decode::instr::Instr;
use std::alloc::{AllocError, Global};
use zc_base::fields::u32_at;

/// The instruction that each word of these bytes is, by the offset / 4. It decodes each word once, and none of a
/// compressed object, where an instruction may begin at any halfword.
pub fn decode_words(
    alloc: Global,
    compressed: bool,
    bytes: &[u8],
) -> Result<Vec<Option<Instr>>, AllocError>
    ensures { IfOk result (λ words. compressed ≡ false → words.items ≡ instrs_in bytes.now) }
{
    if compressed {
        return Ok(Vec::new(alloc));
    }
    let count = bytes.len() / 4;
    let mut words = Vec::with_capacity(alloc, count)?;
    for k in 0..count {
        words.push(decode(u32_at(bytes, 4 * k)))?;
    }
    Ok(words)
}

/// The instruction of the word at an offset that is a multiple of 4; none if there is no whole word.
pub fn instr_on(words: &[Option<Instr>], at: usize) -> Option<Instr>
    ensures { (bytes : List ℕ) → words.now ≡ instrs_in bytes → at % 4 ≡ 0
        → result ≡ (if nat_le (at + 4) (length bytes) then instr_in 4 bytes at else None) }
{
    match words.get(at / 4) {
        None => None,
        Some(instr) => *instr,
    }
}
