// What the words at a relocation spell.

ghost use Rattle.std.specs.Prelude.{◌≡◌, Some, ℕ};
ghost use Rattle.psabi_reloc.specs.Kinds.{is_auipc, is_call, is_lui, is_store, is_sum};
ghost use Rattle.rv_decode.specs.declared.instr.Instr.TheVariants.{Upper};
ghost use Rattle.rv_decode.specs.declared.instr.UpperOp.TheVariants.{Auipc};

use rv_decode::instr::{ImmOp, Instr, UpperOp};
use zc_base::reg::Reg;

/// Whether an `auipc` is spelled.
pub fn spells_auipc(spelled: Option<Instr>) -> bool
    ensures { result ≡ is_auipc spelled }
{
    match spelled {
        Some(Instr::Upper { op, .. }) => op == UpperOp::Auipc,
        _ => false,
    }
}

/// Whether a `lui` is spelled.
pub fn spells_lui(spelled: Option<Instr>) -> bool
    ensures { result ≡ is_lui spelled }
{
    match spelled {
        Some(Instr::Upper { op, .. }) => op == UpperOp::Lui,
        _ => false,
    }
}

/// Whether an `addi`, a load or a `jalr` is spelled.
pub fn spells_sum(spelled: Option<Instr>) -> bool
    ensures { result ≡ is_sum spelled }
{
    match spelled {
        Some(Instr::WithImm { op, .. }) => op == ImmOp::Addi,
        Some(Instr::Load { .. } | Instr::Jalr { .. }) => true,
        _ => false,
    }
}

/// Whether a store is spelled.
pub fn spells_store(spelled: Option<Instr>) -> bool
    ensures { result ≡ is_store spelled }
{
    matches!(spelled, Some(Instr::Store { .. }))
}

// Whether this is a `jalr` whose base is this register.
fn is_jalr(i: &Instr, temp: Reg) -> bool
    ensures { (imm : ℕ) → result ≡ is_call (Some (Upper Auipc temp imm)) (Some i.now) }
{
    match i {
        Instr::Jalr { base, .. } => base.number() == temp.number(),
        _ => false,
    }
}

// Whether this is an `auipc` whose register is the base of the `jalr` that is spelled after it.
fn calls(i: &Instr, second: Option<Instr>) -> bool
    ensures { result ≡ is_call (Some i.now) second }
{
    match i {
        Instr::Upper { op, rd, .. } => {
            *op == UpperOp::Auipc && second.is_some_and(|next| is_jalr(&next, *rd))
        }
        _ => false,
    }
}

/// Whether an `auipc` is spelled, and then a `jalr` by its register.
pub fn spells_call(first: Option<Instr>, second: Option<Instr>) -> bool
    ensures { result ≡ is_call first second }
{
    match first {
        Some(i) => calls(&i, second),
        None => false,
    }
}
