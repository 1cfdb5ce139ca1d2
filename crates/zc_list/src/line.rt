// The lines of a segment.

ghost use Rattle.std.specs.Prelude.{◌≡◌, ◌++◌, ◌∷◌, [], IfOk};
ghost use Rattle.text_lines.specs.Hex.{hex_byte, hex_word};
ghost use Rattle.zc_list.specs.Listing.{Bytes, Instruction, Zeros, content_line, content_text, kind_word, segment_line};
ghost use Rattle.elf32_read.specs.Segment.{segment_data};

use crate::digits::{address, hex_digit};
use elf32_read::segment::Segment;
use instruction_text::machine_code::MachineCode;
use instruction_text::push::push_code;
use itoa::Buffer;
use std::alloc::AllocError;

// Adds a byte as two hexadecimal digits.
fn push_hex_byte(text: &mut Vec<u8>, byte: u8) -> Result<(), AllocError>
    ensures { IfOk result (λ _. text.new.items ≡ text.old.items ++ hex_byte byte) }
{
    let number = u64::from(byte);
    text.extend_from_slice(&[hex_digit(number, 4), hex_digit(number, 0)])
}

// Adds the address that a line begins with, and a space.
fn push_address(text: &mut Vec<u8>, at: u64) -> Result<(), AllocError>
    ensures { IfOk result (λ _. text.new.items ≡ text.old.items ++ (hex_word at ++ 32 ∷ [])) }
{
    text.extend_from_slice(&address(at))
}

// Adds the text of bytes.
fn push_bytes(text: &mut Vec<u8>, bytes: &[u8]) -> Result<(), AllocError>
    ensures { IfOk result (λ _. text.new.items ≡ text.old.items ++ content_text (Bytes bytes.now)) }
{
    text.extend_from_slice(b".byte")?;
    for byte in bytes {
        text.extend_from_slice(b" ")?;
        push_hex_byte(text, *byte)?;
    }
    Ok(())
}

// Adds the text of a number of zeros.
#[tactic(auto, unfolding(crate::specs::Listing::content_text))]
fn push_zeros(text: &mut Vec<u8>, count: u32) -> Result<(), AllocError>
    ensures { IfOk result (λ _. text.new.items ≡ text.old.items ++ content_text (Zeros count)) }
{
    let mut digits = Buffer::new();
    text.extend_from_slice(b".zero ")?;
    text.extend_from_slice(digits.format(count).as_bytes())
}

/// Adds the line of an instruction.
#[tactic(auto, unfolding(crate::specs::Listing::content_text))]
pub fn push_code_line(text: &mut Vec<u8>, at: u64, code: MachineCode) -> Result<(), AllocError>
    ensures { IfOk result (λ _. text.new.items ≡ text.old.items ++ (content_line at (Instruction code) ++ 10 ∷ [])) }
{
    push_address(text, at)?;
    push_code(text, code)?;
    text.extend_from_slice(b"\n")
}

/// Adds the line of bytes.
pub fn push_bytes_line(text: &mut Vec<u8>, at: u64, bytes: &[u8]) -> Result<(), AllocError>
    ensures { IfOk result (λ _. text.new.items ≡ text.old.items ++ (content_line at (Bytes bytes.now) ++ 10 ∷ [])) }
{
    push_address(text, at)?;
    push_bytes(text, bytes)?;
    text.extend_from_slice(b"\n")
}

/// Adds the line of a number of zeros.
pub fn push_zeros_line(text: &mut Vec<u8>, at: u64, count: u32) -> Result<(), AllocError>
    ensures { IfOk result (λ _. text.new.items ≡ text.old.items ++ (content_line at (Zeros count) ++ 10 ∷ [])) }
{
    push_address(text, at)?;
    push_zeros(text, count)?;
    text.extend_from_slice(b"\n")
}

// Adds what a segment holds, after a space, and ends the line.
fn push_kind(text: &mut Vec<u8>, code: bool) -> Result<(), AllocError>
    ensures { IfOk result (λ _. text.new.items ≡ text.old.items ++ (32 ∷ (kind_word code ++ 10 ∷ []))) }
{
    if code {
        text.extend_from_slice(b" code\n")
    } else {
        text.extend_from_slice(b" data\n")
    }
}

/// Adds the first line of a segment.
pub fn push_segment_line(text: &mut Vec<u8>, segment: &Segment) -> Result<(), AllocError>
    ensures { IfOk result (λ _. text.new.items
        ≡ text.old.items ++ (segment_line (segment_data segment.now) ++ 10 ∷ [])) }
{
    let mut digits = Buffer::new();
    text.extend_from_slice(b"segment ")?;
    push_address(text, u64::from(segment.at))?;
    text.extend_from_slice(digits.format(segment.size).as_bytes())?;
    push_kind(text, segment.code)
}
