// The results of operations on words.

ghost use Rattle.std.specs.Prelude.{◌≡◌};
ghost use Rattle.sym_machine.specs.Kept.{word_of};
ghost use Rattle.sym_machine.specs.Words as words;
ghost use Rattle.sym_machine.specs.Words.{sum_word};

use crate::held::Held;
use rv_decode::instr::{ImmOp, RegOp, UpperOp};
use rv_decode::results::{imm_result, reg_result, upper_result};
use zc_base::reg::Reg;

/// A word's sum with an immediate. Of a number no bytes are copied.
#[tactic(auto, using(crate::proofs::WordLaws::number_sum))]
pub fn sum(word: &Held, imm: i32) -> Held
    ensures { word_of result ≡ sum_word (word_of word.now) imm }
{
    if let Held::Number(n) = word {
        return Held::Number(n.wrapping_add(imm.cast_unsigned()));
    }
    if imm == 0 {
        return *word;
    }
    match word.number() {
        Some(n) => Held::Number(n.wrapping_add(imm.cast_unsigned())),
        None => Held::UNDEFINED,
    }
}

// An operation on a register's word and an immediate, if the word is a number.
fn imm_numeric(op: ImmOp, word: &Held, imm: i32) -> Held
    ensures { word_of result ≡ words.imm_numeric op (word_of word.now) imm }
{
    match word.number() {
        Some(n) => Held::Number(imm_result(op, n, imm)),
        None => Held::UNDEFINED,
    }
}

/// What an operation on a register's word and an immediate gives.
pub fn imm_word(op: ImmOp, word: &Held, imm: i32) -> Held
    ensures { word_of result ≡ words.imm_word op (word_of word.now) imm }
{
    match op {
        ImmOp::Addi => sum(word, imm),
        ImmOp::Sltiu if imm == 1 && word.code().is_some() => Held::Number(0),
        ImmOp::Slti
        | ImmOp::Sltiu
        | ImmOp::Xori
        | ImmOp::Ori
        | ImmOp::Andi
        | ImmOp::Slli
        | ImmOp::Srli
        | ImmOp::Srai => imm_numeric(op, word, imm),
    }
}

// An operation on the words of two registers, if both are numbers.
fn reg_numeric(op: RegOp, a: &Held, b: &Held) -> Held
    ensures { word_of result ≡ words.reg_numeric op (word_of a.now) (word_of b.now) }
{
    match (a.number(), b.number()) {
        (Some(m), Some(n)) => Held::Number(reg_result(op, m, n)),
        _ => Held::UNDEFINED,
    }
}

/// What an operation on two registers gives, by the registers and their words.
pub fn reg_word(op: RegOp, first: Reg, second: Reg, a: &Held, b: &Held) -> Held
    ensures { word_of result ≡ words.reg_word op first second (word_of a.now) (word_of b.now) }
{
    match op {
        RegOp::Add if second.number() == 0 => *a,
        RegOp::Add if first.number() == 0 => *b,
        RegOp::Sltu if first.number() == 0 && b.code().is_some() => Held::Number(1),
        RegOp::Add
        | RegOp::Sub
        | RegOp::Sll
        | RegOp::Slt
        | RegOp::Sltu
        | RegOp::Xor
        | RegOp::Srl
        | RegOp::Sra
        | RegOp::Or
        | RegOp::And
        | RegOp::Mul
        | RegOp::Mulh
        | RegOp::Mulhsu
        | RegOp::Mulhu
        | RegOp::Div
        | RegOp::Divu
        | RegOp::Rem
        | RegOp::Remu => reg_numeric(op, a, b),
    }
}

/// What an instruction with an upper immediate gives.
pub fn upper_word(op: UpperOp, imm: u32) -> Held
    ensures { word_of result ≡ words.upper_word op imm }
{
    match op {
        UpperOp::Lui => Held::Number(upper_result(op, 0, imm)),
        UpperOp::Auipc => Held::UNDEFINED,
    }
}
