// What instructions compute of words.

ghost use Rattle.std.specs.Prelude.{◌≡◌, ℤ};
ghost use Rattle.std.specs.Int.{int_shr};
ghost use Rattle.rv_decode.specs.Bits.{as_word};
ghost use Rattle.rv_decode.specs.Results as results;

use crate::instr::{BranchOp, ImmOp, RegOp, UpperOp};

/// What an operation on the words of two registers gives.
pub fn reg_result(op: RegOp, a: u32, b: u32) -> u32
    ensures { result ≡ results.reg_result op a b }
{
    match op {
        RegOp::Add => a.wrapping_add(b),
        RegOp::Sub => a.wrapping_sub(b),
        RegOp::Sll => a << (b % 32),
        RegOp::Slt => u32::from(is_less(a, b)),
        RegOp::Sltu => u32::from(a < b),
        RegOp::Xor => a ^ b,
        RegOp::Srl => a >> (b % 32),
        RegOp::Sra => (a.cast_signed() >> (b % 32)).cast_unsigned(),
        RegOp::Or => a | b,
        RegOp::And => a & b,
        RegOp::Mul => a.wrapping_mul(b),
        RegOp::Mulh => upper_half(i64::from(a.cast_signed()) * i64::from(b.cast_signed())),
        RegOp::Mulhsu => upper_half(i64::from(a.cast_signed()) * i64::from(b)),
        RegOp::Mulhu => ((u64::from(a) * u64::from(b)) >> 32) as u32,
        RegOp::Div => quotient(a, b),
        RegOp::Divu => a.checked_div(b).unwrap_or(u32::MAX),
        RegOp::Rem => remainder(a, b),
        RegOp::Remu => a.checked_rem(b).unwrap_or(a),
    }
}

// Whether a word is less than another, both read in two's complement.
fn is_less(a: u32, b: u32) -> bool
    ensures { result ≡ results.is_less a b }
{
    a.cast_signed() < b.cast_signed()
}

// The upper 32 bits of a product.
fn upper_half(product: i64) -> u32
    ensures { result ≡ as_word (int_shr product 32) }
{
    (product.cast_unsigned() >> 32) as u32
}

// The quotient of two words that are read in two's complement.
fn quotient(a: u32, b: u32) -> u32
    ensures { result ≡ results.reg_result RegOp.Div a b }
{
    if b == 0 {
        return u32::MAX;
    }
    a.cast_signed()
        .wrapping_div(b.cast_signed())
        .cast_unsigned()
}

// The remainder of two words that are read in two's complement.
fn remainder(a: u32, b: u32) -> u32
    ensures { result ≡ results.reg_result RegOp.Rem a b }
{
    if b == 0 {
        return a;
    }
    a.cast_signed()
        .wrapping_rem(b.cast_signed())
        .cast_unsigned()
}

/// What an operation on a register's word and an immediate gives.
pub fn imm_result(op: ImmOp, n: u32, imm: i32) -> u32
    ensures { result ≡ results.imm_result op n imm }
{
    let reg_op = match op {
        ImmOp::Addi => RegOp::Add,
        ImmOp::Slti => RegOp::Slt,
        ImmOp::Sltiu => RegOp::Sltu,
        ImmOp::Xori => RegOp::Xor,
        ImmOp::Ori => RegOp::Or,
        ImmOp::Andi => RegOp::And,
        ImmOp::Slli => RegOp::Sll,
        ImmOp::Srli => RegOp::Srl,
        ImmOp::Srai => RegOp::Sra,
    };
    reg_result(reg_op, n, imm.cast_unsigned())
}

/// What an instruction with an upper immediate gives, at this program counter.
pub fn upper_result(op: UpperOp, pc: u32, imm: u32) -> u32
    ensures { result ≡ results.upper_result op pc imm }
{
    match op {
        UpperOp::Lui => imm << 12,
        UpperOp::Auipc => pc.wrapping_add(imm << 12),
    }
}

/// Whether a branch is taken, by the words of its two registers.
pub fn is_taken(op: BranchOp, a: u32, b: u32) -> bool
    ensures { result ≡ results.is_taken op a b }
{
    match op {
        BranchOp::Beq => a == b,
        BranchOp::Bne => a != b,
        BranchOp::Blt => is_less(a, b),
        BranchOp::Bge => !is_less(a, b),
        BranchOp::Bltu => a < b,
        BranchOp::Bgeu => a >= b,
    }
}
