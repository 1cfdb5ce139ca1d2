// What kinds of relocations ask of a section, and of the words that they change.

ghost use Rattle.std.specs.Prelude.{◌≡◌, ◌+◌, ◌%◌, ◌==◌, if◌then◌else◌, length, nat_le, None};
ghost use Rattle.block_cut.specs.CodeSizes.{code_step};
ghost use Rattle.block_cut.specs.Relocs.{normal_base, instr_in, is_ignored, is_padding, is_pcrel_hi, is_pcrel_lo, is_rvc, is_transfer, is_word};

use psabi_reloc::kind::RelocKind;
use rv_decode::decode::decode;
use rv_decode::instr::Instr;
use rv_decode::normal::normal;
use zc_base::fields::{u16_at, u32_at};
use zc_decode::decode16::decode16;
use zc_decode::short::Short;

/// Whether the linker ignores a kind.
pub fn is_ignored(kind: Option<RelocKind>) -> bool
    ensures { result ≡ is_ignored kind }
{
    kind == Some(RelocKind::Ignored)
}

/// Whether a kind fills in the address as a word.
pub fn is_word(kind: Option<RelocKind>) -> bool
    ensures { result ≡ is_word kind }
{
    kind == Some(RelocKind::Word)
}

/// Whether a kind is the upper part of a PC-relative pair.
pub fn is_pcrel_hi(kind: Option<RelocKind>) -> bool
    ensures { result ≡ is_pcrel_hi kind }
{
    kind == Some(RelocKind::PcrelHi20)
}

/// Whether a kind is the lower part of a PC-relative pair.
pub fn is_pcrel_lo(kind: Option<RelocKind>) -> bool
    ensures { result ≡ is_pcrel_lo kind }
{
    matches!(kind, Some(RelocKind::PcrelLo12I | RelocKind::PcrelLo12S))
}

/// Whether a kind makes its instruction go to the target.
pub fn is_transfer(kind: Option<RelocKind>) -> bool
    ensures { result ≡ is_transfer kind }
{
    matches!(
        kind,
        Some(
            RelocKind::Branch
                | RelocKind::Jal
                | RelocKind::Call
                | RelocKind::RvcBranch
                | RelocKind::RvcJump
        )
    )
}

/// Whether a kind changes an instruction of 2 bytes.
pub fn is_rvc(kind: Option<RelocKind>) -> bool
    ensures { result ≡ is_rvc kind }
{
    matches!(kind, Some(RelocKind::RvcBranch | RelocKind::RvcJump))
}

/// Whether n is a multiple of the step of code, and so may be an item's offset and size: 2 bytes if its object is
/// compressed, and else 4.
#[inline(always)]
pub fn is_step(compressed: bool, n: u32) -> bool
    ensures { result ≡ (n % code_step compressed == 0) }
{
    if compressed {
        return n % 2 == 0;
    }
    n % 4 == 0
}

/// Whether the addend is a number of bytes that padding may have: 1 to 255, in whole steps.
pub fn is_padding(compressed: bool, addend: i32) -> bool
    ensures { result ≡ is_padding compressed addend }
{
    0 < addend && addend < 256 && is_step(compressed, addend as u32)
}

/// The instruction that the word at an offset is; none if there is no whole word.
pub fn instr_at(bytes: &[u8], at: usize) -> Option<Instr>
    ensures { result ≡ (if nat_le (at + 4) (length bytes.now) then instr_in 4 bytes.now at else None) }
{
    if bytes.len() < 4 || bytes.len() - 4 < at {
        return None;
    }
    decode(u32_at(bytes, at))
}

// The 32-bit instruction that a short one stands for, in its normal form; those of Zcmp and Zcmt have none.
fn normal_base(short: Option<Short>) -> Option<Instr>
    ensures { result ≡ normal_base short }
{
    match short {
        Some(Short::Base(instr)) => Some(normal(instr)),
        Some(
            Short::Push { .. }
            | Short::Pop { .. }
            | Short::PopRet { .. }
            | Short::PopRetz { .. }
            | Short::MoveSa { .. }
            | Short::MoveAs { .. }
            | Short::TableJump { .. },
        )
        | None => None,
    }
}

/// The instruction that the halfword at an offset is; none if there is no whole halfword.
pub fn short_instr_at(bytes: &[u8], at: usize) -> Option<Instr>
    ensures { result ≡ (if nat_le (at + 2) (length bytes.now) then instr_in 2 bytes.now at else None) }
{
    if bytes.len() < 2 || bytes.len() - 2 < at {
        return None;
    }
    normal_base(decode16(u16_at(bytes, at)))
}
