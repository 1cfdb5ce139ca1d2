// The operands that words spell.

ghost use Rattle.std.specs.Prelude.{◌≡◌, ◌≤◌, ◌^◌, ◌-◌};
ghost use Rattle.std.specs.Option.{option_copied};
ghost use Rattle.text_lines.specs.Lines.{words_in};
ghost use Rattle.instruction_text.specs.Operands as operands;

use crate::operands::{Operand, Operands};
use text_lines::number::read_number;
use text_lines::split::split_word;
use zc_base::reg::Reg;

// The greatest number that an operand can be.
const LIMIT: u64 = 0x7FFF_FFFF;

/// The operands that the rest of a line spells, if there is a rest.
pub fn read_operands(rest: Option<&[u8]>) -> Option<Operands>
    ensures { result ≡ operands.operands_in (words_in (option_copied rest.entry)) }
{
    let Some(rest) = rest else {
        return Some(Operands::Nothing);
    };
    let (word, rest) = split_word(rest);
    after_one(read_operand(word)?, rest)
}

// An operand, and what the rest of the line spells.
fn after_one(first: Operand, rest: Option<&[u8]>) -> Option<Operands>
    ensures { result ≡ operands.operands_after_one first (words_in (option_copied rest.entry)) }
{
    let Some(rest) = rest else {
        return one_operand(first);
    };
    let (word, rest) = split_word(rest);
    after_two(first, read_operand(word)?, rest)
}

// Two operands, and what the rest of the line spells.
fn after_two(first: Operand, second: Operand, rest: Option<&[u8]>) -> Option<Operands>
    ensures { result ≡ operands.operands_after_two first second (words_in (option_copied rest.entry)) }
{
    let Some(rest) = rest else {
        return two_operands(first, second);
    };
    let (word, rest) = split_word(rest);
    let third = read_operand(word)?;
    match rest {
        None => three_operands(first, second, third),
        Some(_) => None,
    }
}

fn one_operand(first: Operand) -> Option<Operands>
    ensures { result ≡ operands.one_operand first }
{
    match first {
        Operand::Number(z) => Some(Operands::OneNumber(z)),
        Operand::Register(_) => None,
    }
}

fn two_operands(first: Operand, second: Operand) -> Option<Operands>
    ensures { result ≡ operands.two_operands first second }
{
    match first {
        Operand::Number(z) => match second {
            Operand::Number(w) => Some(Operands::TwoNumbers(z, w)),
            Operand::Register(_) => None,
        },
        Operand::Register(a) => match second {
            Operand::Number(z) => Some(Operands::RegisterNumber(a, z)),
            Operand::Register(b) => Some(Operands::TwoRegisters(a, b)),
        },
    }
}

fn three_operands(first: Operand, second: Operand, third: Operand) -> Option<Operands>
    ensures { result ≡ operands.three_operands first second third }
{
    match first {
        Operand::Number(_) => None,
        Operand::Register(a) => match second {
            Operand::Number(_) => None,
            Operand::Register(b) => third_operand(a, b, third),
        },
    }
}

// Two registers, and a third operand.
fn third_operand(a: Reg, b: Reg, third: Operand) -> Option<Operands>
    ensures { result ≡ operands.third_operand a b third }
{
    match third {
        Operand::Number(z) => Some(Operands::RegistersNumber(a, b, z)),
        Operand::Register(c) => Some(Operands::ThreeRegisters(a, b, c)),
    }
}

// The operand that a word spells.
fn read_operand(word: &[u8]) -> Option<Operand>
    ensures { result ≡ operands.operand_in word.now }
{
    match word {
        [] => None,
        [b'x', digits @ ..] => read_register(digits),
        [b'-', digits @ ..] => read_negative(digits),
        [_, ..] => Some(Operand::Number(read_number(word, LIMIT)? as i32)),
    }
}

// The register with the number that digits spell.
fn read_register(digits: &[u8]) -> Option<Operand>
    ensures { result ≡ operands.register_in digits.now }
{
    let number = read_number(digits, 31)? as u8;
    Some(Operand::Register(Reg::new(number)?))
}

// The number below 0 that digits spell after a sign.
fn read_negative(digits: &[u8]) -> Option<Operand>
    ensures { result ≡ operands.negative_in digits.now }
{
    let number = read_number(digits, LIMIT)? as i32;
    if number == 0 {
        None
    } else {
        Some(Operand::Number(-number))
    }
}
