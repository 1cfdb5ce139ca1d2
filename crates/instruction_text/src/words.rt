// The instruction of an operation and operands.

ghost use Rattle.std.specs.Prelude.{◌≡◌, IfSome, Some, None, pos};
ghost use Rattle.std.specs.Option.{option_map};
ghost use Rattle.rv_decode.specs.Immediates.{InRange};
ghost use Rattle.instruction_text.specs.Assembly as assembly;
ghost use Rattle.instruction_text.specs.Assembly.{assembled, natural_below};

use crate::operands::Operands;
use crate::operation::Operation;
use rv_decode::instr::{ImmOp, Instr};
use zc_base::reg::Reg;
use zc_encode::fields::{has_bits, is_offset, is_signed};

/// A number from 0 to below a limit.
pub fn natural_below(limit: u32, z: i32) -> Option<u32>
    ensures { result ≡ natural_below limit z }
{
    let n = u32::try_from(z).ok()?;
    if n < limit { Some(n) } else { None }
}

// Whether an immediate fits: it has twelve bits with a sign, or is a shift's amount.
fn imm_fits(op: ImmOp, imm: i32) -> bool
    ensures { result ≡ assembly.imm_fits op imm }
{
    match op {
        ImmOp::Slli | ImmOp::Srli | ImmOp::Srai => is_offset(32, 1, imm),
        ImmOp::Addi | ImmOp::Slti | ImmOp::Sltiu => has_bits(12, imm),
        ImmOp::Xori | ImmOp::Ori | ImmOp::Andi => has_bits(12, imm),
    }
}

/// The instruction of an operation with operands, if they are of its kind and fit.
pub fn assemble(operation: Operation, operands: Operands) -> Option<Instr>
    ensures value { result ≡ assembled operation operands }
    ensures in_range { IfSome result InRange }
{
    by_operands(operation, operands)
}

// The same, by the operands.
fn by_operands(operation: Operation, operands: Operands) -> Option<Instr>
    ensures { result ≡ assembled operation operands }
{
    match operands {
        Operands::RegisterNumber(rd, z) => with_register(operation, rd, z),
        Operands::RegistersNumber(first, second, z) => {
            with_registers(operation, first, second, z)
        }
        Operands::ThreeRegisters(rd, first, second) => match operation {
            Operation::WithReg(op) => Some(Instr::WithReg {
                op,
                rd,
                first,
                second,
            }),
            _ => None,
        },
        Operands::OneNumber(z) => match operation {
            Operation::Fence => Some(Instr::Fence {
                rest: natural_below(1 << 22, z)?,
            }),
            _ => None,
        },
        Operands::TwoRegisters(rd, source) => match operation {
            Operation::Csrrw => Some(Instr::Csrrw { rd, source }),
            _ => None,
        },
        Operands::Nothing => match operation {
            Operation::Ecall => Some(Instr::Ecall),
            Operation::Ebreak => Some(Instr::Ebreak),
            _ => None,
        },
        Operands::TwoNumbers(_, _) => None,
    }
}

// An operation with a register and a number.
fn with_register(operation: Operation, rd: Reg, z: i32) -> Option<Instr>
    ensures { result ≡ assembled operation (Operands.RegisterNumber rd z) }
{
    match operation {
        Operation::Upper(op) => {
            let imm = natural_below(1 << 20, z)?;
            Some(Instr::Upper { op, rd, imm })
        }
        Operation::Jal => fitting(is_signed(21, 2, z), Instr::Jal { rd, distance: z }),
        _ => None,
    }
}

// An operation with two registers and a number.
fn with_registers(operation: Operation, a: Reg, b: Reg, z: i32) -> Option<Instr>
    ensures { result ≡ assembled operation (Operands.RegistersNumber a b z) }
{
    match operation {
        Operation::Jalr => fitting(
            has_bits(12, z),
            Instr::Jalr {
                rd: a,
                base: b,
                imm: z,
            },
        ),
        Operation::Branch(op) => fitting(
            is_signed(13, 2, z),
            Instr::Branch {
                op,
                first: a,
                second: b,
                distance: z,
            },
        ),
        Operation::Load(op) => fitting(
            has_bits(12, z),
            Instr::Load {
                op,
                rd: a,
                base: b,
                imm: z,
            },
        ),
        Operation::Store(op) => fitting(
            has_bits(12, z),
            Instr::Store {
                op,
                source: b,
                base: a,
                imm: z,
            },
        ),
        Operation::WithImm(op) => fitting(
            imm_fits(op, z),
            Instr::WithImm {
                op,
                rd: a,
                first: b,
                imm: z,
            },
        ),
        _ => None,
    }
}

// An instruction whose immediate fits.
fn fitting(fits: bool, i: Instr) -> Option<Instr>
    ensures { result ≡ assembly.fitting_instr fits i }
{
    if fits { Some(i) } else { None }
}
