// Instructions with a changed immediate.

ghost use Rattle.std.specs.Prelude.{◌≡◌};
ghost use Rattle.psabi_reloc.specs.Patched as patched;

use rv_decode::instr::Instr;

/// An instruction with these upper 20 bits; one that isn't of the U format is left as it is.
pub fn with_upper(i: Instr, imm: u32) -> Instr
    ensures { result ≡ patched.with_upper i imm }
{
    match i {
        Instr::Upper { op, rd, .. } => Instr::Upper { op, rd, imm },
        _ => i,
    }
}

/// A `jalr`, a load, a store or an operation with this immediate; any other instruction is left as it is.
pub fn with_imm(i: Instr, imm: i32) -> Instr
    ensures { result ≡ patched.with_imm i imm }
{
    match i {
        Instr::Jalr { rd, base, .. } => Instr::Jalr { rd, base, imm },
        Instr::Load { op, rd, base, .. } => Instr::Load { op, rd, base, imm },
        Instr::Store {
            op,
            source,
            base,
            ..
        } => Instr::Store {
            op,
            source,
            base,
            imm,
        },
        Instr::WithImm { op, rd, first, .. } => Instr::WithImm { op, rd, first, imm },
        _ => i,
    }
}

/// A branch or a `jal` with this distance; any other instruction is left as it is.
pub fn with_distance(i: Instr, distance: i32) -> Instr
    ensures { result ≡ patched.with_distance i distance }
{
    match i {
        Instr::Branch {
            op,
            first,
            second,
            ..
        } => Instr::Branch {
            op,
            first,
            second,
            distance,
        },
        Instr::Jal { rd, .. } => Instr::Jal { rd, distance },
        _ => i,
    }
}
