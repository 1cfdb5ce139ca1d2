// The text of an instruction.

ghost use Rattle.std.specs.Prelude.{◌≡◌, ◌++◌, ◌∷◌, [], ◌<◌, IfOk, codes};
ghost use Rattle.std.specs.Fmt.{signed_decimal};
ghost use Rattle.std.specs.List.{join_with_byte};
ghost use Rattle.text_lines.specs.Hex.{hex_at, hex_word};
ghost use Rattle.instruction_text.specs.Operands as operands;
ghost use Rattle.instruction_text.specs.Operands.{ShortUnsignedFits, UnsignedFits, operand_words, register_word};
ghost use Rattle.instruction_text.specs.Texts.{code_text, half_text, hex_half, named_text, word_text};

use crate::machine_code::MachineCode;
use crate::names::{form_name, form_of_half, operation_name};
use crate::operands::Operands;
use crate::operation::operation_of;
use itoa::Buffer;
use rv_decode::decode::decode;
use rv_decode::instr::Instr;
use std::alloc::AllocError;
use zc_base::reg::Reg;
use zc_decode::decode16::decode16;
use zc_decode::short::Short;

/// Adds the text of an instruction.
pub fn push_code(text: &mut Vec<u8>, code: MachineCode) -> Result<(), AllocError>
    ensures { IfOk result (λ _. text.new.items ≡ text.old.items ++ code_text code) }
{
    match code {
        MachineCode::Half(half) => push_half(text, half),
        MachineCode::Word(word) => push_word(text, word),
    }
}

/// Adds the text of a word.
#[tactic(auto, unfolding(crate::specs::Texts::word_text), using(crate::proofs::FitLaws::word_fits))]
pub fn push_word(text: &mut Vec<u8>, word: u32) -> Result<(), AllocError>
    ensures { IfOk result (λ _. text.new.items ≡ text.old.items ++ word_text word) }
{
    let Some(i) = decode(word) else {
        return push_word_digits(text, word);
    };
    let name = operation_name(operation_of(&i));
    push_named(text, name, operands_of(i))
}

/// Adds the text of a halfword.
#[tactic(auto, unfolding(crate::specs::Texts::half_text), using(crate::proofs::FitLaws::half_fits))]
pub fn push_half(text: &mut Vec<u8>, half: u16) -> Result<(), AllocError>
    ensures { IfOk result (λ _. text.new.items ≡ text.old.items ++ half_text half) }
{
    let Some(form) = form_of_half(half) else {
        return push_half_digits(text, half);
    };
    let Some(short) = decode16(half) else {
        return push_half_digits(text, half);
    };
    push_named(text, form_name(form), operands_of_short(short))
}

// Adds the digits of a word that the table doesn't have.
fn push_word_digits(text: &mut Vec<u8>, word: u32) -> Result<(), AllocError>
    ensures { IfOk result (λ _. text.new.items
        ≡ text.old.items ++ join_with_byte 32 (codes ".word" ∷ hex_word word ∷ [])) }
{
    text.extend_from_slice(b".word ")?;
    text.extend_from_slice(&[
        hex_digit(word, 28),
        hex_digit(word, 24),
        hex_digit(word, 20),
        hex_digit(word, 16),
        hex_digit(word, 12),
        hex_digit(word, 8),
        hex_digit(word, 4),
        hex_digit(word, 0),
    ])
}

// Adds the digits of a halfword that the tables don't have.
fn push_half_digits(text: &mut Vec<u8>, half: u16) -> Result<(), AllocError>
    ensures { IfOk result (λ _. text.new.items
        ≡ text.old.items ++ join_with_byte 32 (codes ".half" ∷ hex_half half ∷ [])) }
{
    let number = u32::from(half);
    text.extend_from_slice(b".half ")?;
    text.extend_from_slice(&[
        hex_digit(number, 12),
        hex_digit(number, 8),
        hex_digit(number, 4),
        hex_digit(number, 0),
    ])
}

// The lower-case hexadecimal digit of the four bits of a number from bit `shift` up.
fn hex_digit(number: u32, shift: u32) -> u8
    requires { shift < 32 }
    ensures { result ≡ hex_at number shift }
{
    let digit = ((number >> shift) % 16) as u8;
    if digit < 10 {
        b'0' + digit
    } else {
        b'a' - 10 + digit
    }
}

// The operands of an instruction.
fn operands_of(i: Instr) -> Operands
    requires { UnsignedFits i }
    ensures { result ≡ operands.operands_of i }
{
    match i {
        Instr::Upper { rd, imm, .. } => Operands::RegisterNumber(rd, imm as i32),
        Instr::Jal { rd, distance } => Operands::RegisterNumber(rd, distance),
        Instr::Jalr { rd, base, imm } => Operands::RegistersNumber(rd, base, imm),
        Instr::Branch {
            first,
            second,
            distance,
            ..
        } => Operands::RegistersNumber(first, second, distance),
        Instr::Load { rd, base, imm, .. } => Operands::RegistersNumber(rd, base, imm),
        Instr::Store {
            source,
            base,
            imm,
            ..
        } => Operands::RegistersNumber(base, source, imm),
        Instr::WithImm { rd, first, imm, .. } => Operands::RegistersNumber(rd, first, imm),
        Instr::WithReg {
            rd,
            first,
            second,
            ..
        } => Operands::ThreeRegisters(rd, first, second),
        Instr::Fence { rest } => Operands::OneNumber(rest as i32),
        Instr::Ecall | Instr::Ebreak => Operands::Nothing,
        Instr::Csrrw { rd, source } => Operands::TwoRegisters(rd, source),
    }
}

// The operands of what a halfword spells.
fn operands_of_short(short: Short) -> Operands
    requires { ShortUnsignedFits short }
    ensures { result ≡ operands.operands_of_short short }
{
    match short {
        Short::Base(i) => operands_of(i),
        Short::Push { list, adjust }
        | Short::Pop { list, adjust }
        | Short::PopRet { list, adjust }
        | Short::PopRetz { list, adjust } => {
            Operands::TwoNumbers(i32::from(list), i32::from(adjust))
        }
        Short::MoveSa { first, second } | Short::MoveAs { first, second } => {
            Operands::TwoRegisters(first, second)
        }
        Short::TableJump { index } => Operands::OneNumber(i32::from(index)),
    }
}

// Adds a name and its operands.
fn push_named(text: &mut Vec<u8>, name: &str, operands: Operands) -> Result<(), AllocError>
    ensures { IfOk result (λ _. text.new.items ≡ text.old.items ++ named_text name.now operands) }
{
    text.extend_from_slice(name.as_bytes())?;
    match operands {
        Operands::Nothing => Ok(()),
        Operands::OneNumber(z) => push_number(text, z),
        Operands::TwoNumbers(z, w) => {
            push_number(text, z)?;
            push_number(text, w)
        }
        Operands::TwoRegisters(a, b) => {
            push_register(text, a)?;
            push_register(text, b)
        }
        Operands::RegisterNumber(a, z) => {
            push_register(text, a)?;
            push_number(text, z)
        }
        Operands::RegistersNumber(a, b, z) => {
            push_register(text, a)?;
            push_register(text, b)?;
            push_number(text, z)
        }
        Operands::ThreeRegisters(a, b, c) => {
            push_register(text, a)?;
            push_register(text, b)?;
            push_register(text, c)
        }
    }
}

// Adds a space and a register.
fn push_register(text: &mut Vec<u8>, register: Reg) -> Result<(), AllocError>
    ensures { IfOk result (λ _. text.new.items ≡ text.old.items ++ (32 ∷ register_word register)) }
{
    let mut digits = Buffer::new();
    text.extend_from_slice(b" x")?;
    text.extend_from_slice(digits.format(register.number()).as_bytes())
}

// Adds a space and a number.
fn push_number(text: &mut Vec<u8>, number: i32) -> Result<(), AllocError>
    ensures { IfOk result (λ _. text.new.items ≡ text.old.items ++ (32 ∷ signed_decimal number)) }
{
    let mut digits = Buffer::new();
    text.extend_from_slice(b" ")?;
    text.extend_from_slice(digits.format(number).as_bytes())
}
