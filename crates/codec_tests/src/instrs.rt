// Instructions as texts and numbers.

use rv_decode::instr::Instr;
use std::alloc::Global;
use std::test::Fail;
use zc_base::reg::Reg;

// The names of each format's operations, in the order of the crate's types.
const NAMES: &str = "lui auipc
jal
jalr
beq bne blt bge bltu bgeu
lb lh lw lbu lhu
sb sh sw
addi slti sltiu xori ori andi slli srli srai
add sub sll slt sltu xor srl sra or and mul mulh mulhsu mulhu div divu rem remu
ebreak ecall fence csrrw";

fn at(r: Reg) -> u32 {
    u32::from(r.number())
}

/// An instruction's format and operation, of 32 for each format, its first two registers, and its number or
/// third register.
pub fn fields(i: Instr) -> (u32, u32, u32, u32) {
    match i {
        Instr::Upper { op, rd, imm } => (op as u32, at(rd), 0, imm),
        Instr::Jal { rd, distance } => (32, at(rd), 0, distance.cast_unsigned()),
        Instr::Jalr { rd, base, imm } => (64, at(rd), at(base), imm.cast_unsigned()),
        Instr::Branch {
            op,
            first,
            second,
            distance,
        } => (
            96 + op as u32,
            at(first),
            at(second),
            distance.cast_unsigned(),
        ),
        Instr::Load { op, rd, base, imm } => {
            (128 + op as u32, at(rd), at(base), imm.cast_unsigned())
        }
        Instr::Store {
            op,
            source,
            base,
            imm,
        } => (160 + op as u32, at(source), at(base), imm.cast_unsigned()),
        Instr::WithImm { op, rd, first, imm } => {
            (192 + op as u32, at(rd), at(first), imm.cast_unsigned())
        }
        Instr::WithReg {
            op,
            rd,
            first,
            second,
        } => (224 + op as u32, at(rd), at(first), at(second)),
        Instr::Ebreak => (256, 0, 0, 0),
        Instr::Ecall => (257, 0, 0, 0),
        Instr::Fence { rest } => (258, 0, 0, rest),
        Instr::Csrrw { rd, source } => (259, at(rd), at(source), 0),
    }
}

/// The name of an instruction's operation, its first two registers, and its number or third register.
pub fn text(alloc: Global, spelled: Option<Instr>) -> Result<String, Fail> {
    let Some(i) = spelled else {
        return Ok(String::from_str(alloc, "none")?);
    };
    let (code, first, second, number) = fields(i);
    let format = NAMES.lines().nth(code as usize / 32).ok_or("no format")?;
    let name = format.split(' ').nth(code as usize % 32).ok_or("no name")?;
    let number = number.cast_signed();
    Ok(format!(in alloc; "{name} {first} {second} {number}")?)
}
