// The instruction that a text spells.

ghost use Rattle.std.specs.Prelude.{◌≡◌, IfOk};
ghost use Rattle.std.specs.Option.{option_and_then, option_copied};
ghost use Rattle.text_lines.specs.Lines.{words_in, words_of};
ghost use Rattle.instruction_text.specs.Names as names;
ghost use Rattle.text_lines.specs.Number.{if_text_of};
ghost use Rattle.instruction_text.specs.Operands.{operands_in};
ghost use Rattle.instruction_text.specs.Reading as reading;
ghost use Rattle.instruction_text.specs.Texts as texts;

use crate::halves::assemble_half;
use crate::machine_code::MachineCode;
use crate::names::{form_named, operation_named};
use crate::operands::Operands;
use crate::push::push_code;
use crate::read_operands::read_operands;
use crate::words::assemble;
use rv_encode::encode::encode;
use std::alloc::AllocError;
use text_lines::hex::{read_hex_byte, read_hex_word};
use text_lines::split::split_word;

/// The instruction that a text spells, or none if it isn't the text of one. What `scratch` holds is
/// lost.
#[tactic(auto, unfolding(crate::specs::Reading::code_spelled))]
pub fn read_code(scratch: &mut Vec<u8>, text: &[u8]) -> Result<Option<MachineCode>, AllocError>
    ensures { IfOk result (λ code. code ≡ reading.code_spelled text.now) }
{
    let Some(code) = code_in_words(text) else {
        return Ok(None);
    };
    scratch.clear();
    push_code(scratch, code)?;
    Ok(if_exact(code, scratch, text))
}

// A code, if it is one, and a text is the one that is printed of it.
#[tactic(auto, unfolding(text_lines::specs::Number::if_text_of))]
fn if_exact(code: MachineCode, printed: &[u8], text: &[u8]) -> Option<MachineCode>
    requires { printed.now ≡ texts.code_text code }
    ensures { result ≡ if_text_of (texts.is_machine_code code) texts.code_text code text.now }
{
    if is_machine_code(code) && text == printed {
        Some(code)
    } else {
        None
    }
}

// Whether the low bits are those of a halfword or a word.
fn is_machine_code(code: MachineCode) -> bool
    ensures { result ≡ texts.is_machine_code code }
{
    match code {
        MachineCode::Half(half) => is_half(half),
        MachineCode::Word(word) => is_word(word),
    }
}

fn is_half(half: u16) -> bool
    ensures { result ≡ texts.is_machine_code (MachineCode.Half half) }
{
    half % 4 != 3
}

fn is_word(word: u32) -> bool
    ensures { result ≡ texts.is_machine_code (MachineCode.Word word) }
{
    word % 4 == 3
}

// The code that a line spells by its name and operands.
fn code_in_words(line: &[u8]) -> Option<MachineCode>
    ensures { result ≡ reading.code_in_words (words_of line.now) }
{
    let (name, rest) = split_word(line);
    code_named(name, rest)
}

// The code of a name and the rest of the line.
fn code_named(name: &[u8], rest: Option<&[u8]>) -> Option<MachineCode>
    ensures { result ≡ reading.code_named name.now (words_in (option_copied rest.entry)) }
{
    if name == b".half".as_slice() {
        half_in_digits(rest)
    } else if name == b".word".as_slice() {
        word_in_digits(rest)
    } else {
        code_with(name, rest)
    }
}

// The code of a name and the operands that are the rest of the line.
fn code_with(name: &[u8], rest: Option<&[u8]>) -> Option<MachineCode>
    ensures { result ≡ option_and_then (reading.code_for (names.operation_named name.now) (names.form_named name.now))
        (operands_in (words_in (option_copied rest.entry))) }
{
    code_for(name, read_operands(rest)?)
}

// The code of a name and operands.
fn code_for(name: &[u8], operands: Operands) -> Option<MachineCode>
    ensures { result ≡ reading.code_for (names.operation_named name.now) (names.form_named name.now) operands }
{
    if let Some(operation) = operation_named(name) {
        let i = assemble(operation, operands)?;
        Some(MachineCode::Word(encode(i)))
    } else {
        let half = assemble_half(form_named(name)?, operands)?;
        Some(MachineCode::Half(half))
    }
}

// The only word of the rest of a line.
fn only_word(rest: Option<&[u8]>) -> Option<&[u8]>
    ensures { option_copied result ≡ reading.only_word (words_in (option_copied rest.entry)) }
{
    let (word, more) = split_word(rest?);
    match more {
        None => Some(word),
        Some(_) => None,
    }
}

// The halfword whose digits are the rest of a line.
fn half_in_digits(rest: Option<&[u8]>) -> Option<MachineCode>
    ensures { result ≡ reading.half_in_digits (words_in (option_copied rest.entry)) }
{
    let half = read_hex_half(only_word(rest)?)?;
    Some(MachineCode::Half(half))
}

// The word whose digits are the rest of a line.
fn word_in_digits(rest: Option<&[u8]>) -> Option<MachineCode>
    ensures { result ≡ reading.word_in_digits (words_in (option_copied rest.entry)) }
{
    let word = read_hex_word(only_word(rest)?)?;
    Some(MachineCode::Word(word))
}

// The 16-bit number that a word of four digits spells.
fn read_hex_half(word: &[u8]) -> Option<u16>
    ensures { result ≡ reading.hex_half_of word.now }
{
    if word.len() < 2 {
        return None;
    }
    let high = read_hex_byte(&word[..2])?;
    let low = read_hex_byte(&word[2..])?;
    Some(u16::from_be_bytes([high, low]))
}
