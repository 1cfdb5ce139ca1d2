// Instructions by their mnemonics, with operands in the order of assemblers.

ghost use Rattle.std.specs.Prelude.{◌≡◌, ◌<◌, ◌^◌, pos};
ghost use Rattle.load_maker.specs.Instructions.{add, addi, auipc, beq, jalr, lui, lw, slli, srai, sub, sw, xor, xori};

use crate::register::Register;
use rv_decode::instr::{BranchOp, ImmOp, Instr, LoadOp, RegOp, StoreOp, UpperOp};

pub fn addi(rd: Register, rs1: Register, imm: i32) -> Instr
    ensures { result ≡ addi rd rs1 imm }
{
    Instr::WithImm {
        op: ImmOp::Addi,
        rd: rd.reg(),
        first: rs1.reg(),
        imm,
    }
}

pub fn xori(rd: Register, rs1: Register, imm: i32) -> Instr
    ensures { result ≡ xori rd rs1 imm }
{
    Instr::WithImm {
        op: ImmOp::Xori,
        rd: rd.reg(),
        first: rs1.reg(),
        imm,
    }
}

pub fn slli(rd: Register, rs1: Register, amount: i32) -> Instr
    ensures { result ≡ slli rd rs1 amount }
{
    Instr::WithImm {
        op: ImmOp::Slli,
        rd: rd.reg(),
        first: rs1.reg(),
        imm: amount,
    }
}

pub fn srai(rd: Register, rs1: Register, amount: i32) -> Instr
    ensures { result ≡ srai rd rs1 amount }
{
    Instr::WithImm {
        op: ImmOp::Srai,
        rd: rd.reg(),
        first: rs1.reg(),
        imm: amount,
    }
}

pub fn lui(rd: Register, imm: u32) -> Instr
    ensures { result ≡ lui rd imm }
{
    Instr::Upper {
        op: UpperOp::Lui,
        rd: rd.reg(),
        imm,
    }
}

pub fn auipc(rd: Register, imm: u32) -> Instr
    ensures { result ≡ auipc rd imm }
{
    Instr::Upper {
        op: UpperOp::Auipc,
        rd: rd.reg(),
        imm,
    }
}

pub fn add(rd: Register, rs1: Register, rs2: Register) -> Instr
    ensures { result ≡ add rd rs1 rs2 }
{
    Instr::WithReg {
        op: RegOp::Add,
        rd: rd.reg(),
        first: rs1.reg(),
        second: rs2.reg(),
    }
}

pub fn sub(rd: Register, rs1: Register, rs2: Register) -> Instr
    ensures { result ≡ sub rd rs1 rs2 }
{
    Instr::WithReg {
        op: RegOp::Sub,
        rd: rd.reg(),
        first: rs1.reg(),
        second: rs2.reg(),
    }
}

pub fn xor(rd: Register, rs1: Register, rs2: Register) -> Instr
    ensures { result ≡ xor rd rs1 rs2 }
{
    Instr::WithReg {
        op: RegOp::Xor,
        rd: rd.reg(),
        first: rs1.reg(),
        second: rs2.reg(),
    }
}

/// `lw rd, imm(rs1)`.
pub fn lw(rd: Register, imm: i32, rs1: Register) -> Instr
    ensures { result ≡ lw rd imm rs1 }
{
    Instr::Load {
        op: LoadOp::Lw,
        rd: rd.reg(),
        base: rs1.reg(),
        imm,
    }
}

/// `sw rs2, imm(rs1)`.
pub fn sw(rs2: Register, imm: i32, rs1: Register) -> Instr
    ensures { result ≡ sw rs2 imm rs1 }
{
    Instr::Store {
        op: StoreOp::Sw,
        source: rs2.reg(),
        base: rs1.reg(),
        imm,
    }
}

pub fn beq(rs1: Register, rs2: Register, distance: i32) -> Instr
    ensures { result ≡ beq rs1 rs2 distance }
{
    Instr::Branch {
        op: BranchOp::Beq,
        first: rs1.reg(),
        second: rs2.reg(),
        distance,
    }
}

/// `jalr rd, imm(rs1)`.
pub fn jalr(rd: Register, imm: i32, rs1: Register) -> Instr
    ensures { result ≡ jalr rd imm rs1 }
{
    Instr::Jalr {
        rd: rd.reg(),
        base: rs1.reg(),
        imm,
    }
}

/// A number as an immediate.
pub fn immediate(n: u32) -> i32
    requires { n < 2 ^ 31 }
    ensures { result ≡ pos n }
{
    n as i32
}
