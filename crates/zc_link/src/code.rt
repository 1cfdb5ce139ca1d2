// What is written for a unit, as a value.

ghost use Rattle.std.specs.Prelude.{◌≡◌, ◌++◌, OnOk};
ghost use Rattle.zc_base.specs.Fields.{half_bytes, word_bytes};
ghost use Rattle.zc_link.specs.Codes.{code_bytes};
ghost use Rattle.zc_link.specs.Written.{padding};

use std::alloc::AllocError;

// The word of `addi x0,x0,0`.
const NOP: u32 = 0x13;

// The halfword of `addi x0,x0,0`.
const SHORT_NOP: u16 = 0x1;

/// What is written for a unit.
///
/// | Code | Is |
/// |---|---|
/// | `Half` | a halfword |
/// | `Word` | a word |
/// | `Pair` | two words |
/// | `Halves` | two halfwords |
/// | `HalfWord` | a halfword, and then a word |
/// | `WordHalf` | a word, and then a halfword |
/// | `Own` | the object's own bytes |
/// | `Padding` | this number of bytes of instructions that do nothing |
#[derive(Clone, Copy)]
pub enum Code<'a> {
    Half(u16),
    Word(u32),
    Pair(u32, u32),
    Halves(u16, u16),
    HalfWord(u16, u32),
    WordHalf(u32, u16),
    Own(&'a [u8]),
    Padding(u32),
}

impl<'a> Code<'a> {
    /// Adds the bytes to a text.
    #[inline(always)]
    pub fn add_to(self, text: &mut Vec<u8>) -> Result<(), AllocError>
        ensures { OnOk result (text.new.items ≡ text.old.items ++ code_bytes self.entry) }
    {
        match self {
            Code::Half(half) => add_half(text, half),
            Code::Word(word) => add_word(text, word),
            Code::Pair(first, second) => {
                add_word(text, first)?;
                add_word(text, second)
            }
            Code::Halves(first, second) => {
                add_half(text, first)?;
                add_half(text, second)
            }
            Code::HalfWord(half, word) => {
                add_half(text, half)?;
                add_word(text, word)
            }
            Code::WordHalf(word, half) => {
                add_word(text, word)?;
                add_half(text, half)
            }
            Code::Own(bytes) => text.extend_from_slice(bytes),
            Code::Padding(count) => add_padding(text, count),
        }
    }
}

// Adds `count` bytes of instructions that do nothing.
fn add_padding(text: &mut Vec<u8>, size: u32) -> Result<(), AllocError>
    ensures { OnOk result (text.new.items ≡ text.old.items ++ padding size) }
{
    if size % 4 == 2 {
        add_half(text, SHORT_NOP)?;
    }
    for _i in 0..size / 4 {
        add_word(text, NOP)?;
    }
    Ok(())
}

// Adds a word.
fn add_word(text: &mut Vec<u8>, word: u32) -> Result<(), AllocError>
    ensures { OnOk result (text.new.items ≡ text.old.items ++ word_bytes word) }
{
    text.extend_from_slice(&word.to_le_bytes())
}

// Adds a halfword.
fn add_half(text: &mut Vec<u8>, half: u16) -> Result<(), AllocError>
    ensures { OnOk result (text.new.items ≡ text.old.items ++ half_bytes half) }
{
    text.extend_from_slice(&half.to_le_bytes())
}
