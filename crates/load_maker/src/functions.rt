// The generated functions.

ghost use Rattle.std.specs.Prelude.{◌≡◌, ◌<◌, [], ◌∷◌, ◌++◌, map, IfOk, MatchOption, OnOk};
ghost use Rattle.load_maker.specs.Functions.{after_call, after_function, after_operations, call, epilogue, function_statements, functions_from, prologue, operation, drawn_operations};
ghost use Rattle.load_maker.specs.declared.statement.Statement.TheVariants.{Plain, Call};

use crate::body::Body;
use crate::instrs::{add, addi, beq, immediate, jalr, lui, lw, slli, srai, sub, sw, xor, xori};
use crate::register::Register::{A0, A1, Ra, S0, Sp, Zero};
use crate::saved_registers::SavedRegisters;
use crate::statement::Statement;
use rv_decode::instr::Instr;
use std::alloc::{AllocError, Global};
use zc_base::draws::Draws;

/// Appends instructions.
pub fn push_all(out: &mut Vec<Statement>, instrs: &[Instr]) -> Result<(), AllocError>
    ensures { OnOk result (out.new.items ≡ out.old.items ++ map Plain instrs.now) }
{
    for i in instrs {
        out.push(Statement::Plain(*i))?;
    }
    Ok(())
}

fn push_prologue(out: &mut Vec<Statement>, saved: SavedRegisters) -> Result<(), AllocError>
    ensures { OnOk result (out.new.items ≡ out.old.items ++ map Plain (prologue saved)) }
{
    match saved {
        SavedRegisters::Both => push_all(
            out,
            &[
                addi(Sp, Sp, -16),
                sw(S0, 12, Sp),
                sw(Ra, 8, Sp),
                addi(S0, A0, 0),
            ],
        ),
        SavedRegisters::ReturnAddress => push_all(out, &[addi(Sp, Sp, -16), sw(Ra, 12, Sp)]),
        SavedRegisters::Neither => Ok(()),
    }
}

// Appends the operation of this kind.
fn push_operation(out: &mut Vec<Statement>, kind: u32, value: u32) -> Result<(), AllocError>
    requires { value < 2048 }
    ensures { OnOk result (out.new.items ≡ out.old.items ++ map Plain (operation kind value)) }
{
    match kind {
        0 => push_all(out, &[addi(A0, A0, immediate(value) - 1024)]),
        1 => push_all(out, &[xori(A0, A0, immediate(value))]),
        2 => push_all(out, &[slli(A0, A0, immediate(1 + value % 3))]),
        3 => push_all(out, &[addi(A1, A0, immediate(value % 32)), add(A0, A0, A1)]),
        4 => push_all(out, &[lui(A1, value), sub(A0, A0, A1)]),
        _ => push_all(out, &[srai(A0, A0, immediate(1 + value % 3))]),
    }
}

// Appends `count` operations.
#[tactic(auto, using(crate::proofs::OperationLaws::operation_steps))]
fn push_operations(
    out: &mut Vec<Statement>,
    count: u32,
    draws: &mut Draws,
) -> Result<(), AllocError>
    ensures appended { OnOk result (out.new.items ≡ out.old.items ++ map Plain (drawn_operations count draws.old)) }
    ensures after { OnOk result (draws.new ≡ after_operations count draws.old) }
{
    for _done in 0..count {
        let kind = draws.next() % 6;
        let value = draws.next() % 2048;
        push_operation(out, kind, value)?;
    }
    Ok(())
}

// The function before this one that it calls, if it calls one.
fn callee(saved: SavedRegisters, i: u32, draws: &mut Draws) -> Option<u32>
    ensures called { MatchOption result (call saved i draws.old ≡ []) (λ j. call saved i draws.old ≡ Call j ∷ []) }
    ensures after { draws.new ≡ after_call saved i draws.old }
{
    if saved.saves_ra() && 0 < i {
        Some(draws.next() % i)
    } else {
        None
    }
}

fn push_epilogue(out: &mut Vec<Statement>, saved: SavedRegisters) -> Result<(), AllocError>
    ensures { OnOk result (out.new.items ≡ out.old.items ++ map Plain (epilogue saved)) }
{
    match saved {
        SavedRegisters::Both => push_all(
            out,
            &[
                xor(A0, A0, S0),
                lw(S0, 12, Sp),
                lw(Ra, 8, Sp),
                addi(Sp, Sp, 16),
                jalr(Zero, 0, Ra),
            ],
        ),
        SavedRegisters::ReturnAddress => push_all(
            out,
            &[lw(Ra, 12, Sp), addi(Sp, Sp, 16), jalr(Zero, 0, Ra)],
        ),
        SavedRegisters::Neither => push_all(out, &[jalr(Zero, 0, Ra)]),
    }
}

// The function with a number.
fn function(alloc: Global, i: u32, draws: &mut Draws) -> Result<Body, AllocError>
    ensures statements { IfOk result (λ body. body ≡ function_statements i draws.old) }
    ensures after { OnOk result (draws.new ≡ after_function i draws.old) }
{
    let saved = SavedRegisters::of(draws.next() % 3);
    let count = 4 + draws.next() % 8;
    let mut statements = Vec::new(alloc);
    push_prologue(&mut statements, saved)?;
    push_operations(&mut statements, count, draws)?;
    push_all(&mut statements, &[beq(A0, Zero, 8), addi(A0, A0, 1)])?;
    if let Some(j) = callee(saved, i, draws) {
        statements.push(Statement::Call(j))?;
    }
    push_epilogue(&mut statements, saved)?;
    Ok(Body { statements })
}

/// `count` functions, from a number.
#[tactic(auto, using(crate::proofs::OperationLaws::function_steps))]
pub fn functions(alloc: Global, number: u64, count: u32) -> Result<Vec<Body>, AllocError>
    ensures { IfOk result (λ bodies. bodies.items ≡ functions_from count 0 number) }
{
    let mut draws = Draws::new(number);
    let mut bodies = Vec::new(alloc);
    for i in 0..count {
        bodies.push(function(alloc, i, &mut draws)?)?;
    }
    Ok(bodies)
}
