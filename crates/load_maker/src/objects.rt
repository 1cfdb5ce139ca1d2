// The generated objects, as what they are made of.

ghost use Rattle.std.specs.Prelude.{◌≡◌, ◌^◌, ◌<◌, ◌≤◌, ◌+◌, [], ◌∷◌, All, length, map, IfOk};
ghost use Rattle.std.specs.List.{flat_map, range_with_len};
ghost use Rattle.load_maker.specs.First.{IsStartObject};
ghost use Rattle.load_maker.specs.Objects.{function_object, result_section, result_symbol, start_statements, start_symbol, text_section_of, undefined_symbol};
ghost use Rattle.load_maker.specs.Statements.{IsInRange, code_size, named_by};
ghost use Rattle.load_maker.specs.declared.make_objects.TheConstants.{FUNCTION_LIMIT};

use crate::body::Body;
use crate::functions::push_all;
use crate::instrs::{addi, immediate, lui, sw};
use crate::register::Register::{A0, A1, A2, A7, Temp1, Zero};
use crate::sections::{code_sections, push_result};
use crate::statement::{HI20, LO12_I, LO12_S, Statement};
use crate::symbols::{object_symbols, start_symbols};
use elf32_write::object_parts::ObjectParts;
use indexmap::IndexSet;
use rv_decode::instr::Instr;
use std::alloc::{AllocError, Global};

// The statements of `_start`.
fn start_statements(
    alloc: Global,
    number: u64,
    functions: u32,
) -> Result<Vec<Statement>, AllocError>
    ensures { IfOk result (λ statements. statements.items ≡ start_statements number functions) }
{
    let mut statements = Vec::new(alloc);
    let first = immediate((number % 2048) as u32);
    statements.push(Statement::Plain(addi(A0, Zero, first)))?;
    for i in 0..functions {
        statements.push(Statement::Call(i))?;
    }
    statements.extend_from_slice(&[
        Statement::WithAddress(HI20, lui(Temp1, 0)),
        Statement::WithAddress(LO12_S, sw(A0, 0, Temp1)),
        Statement::WithAddress(HI20, lui(A1, 0)),
        Statement::WithAddress(LO12_I, addi(A1, A1, 0)),
    ])?;
    push_all(
        &mut statements,
        &[
            addi(A0, Zero, 1),
            addi(A2, Zero, 4),
            addi(A7, Zero, 64),
            Instr::Ecall,
            addi(A0, Zero, 0),
            addi(A7, Zero, 93),
            Instr::Ecall,
        ],
    )?;
    Ok(statements)
}

// The first object, of its statements. The functions that it calls are added to those that are named.
fn start_parts(
    alloc: Global,
    named: &mut IndexSet<u32>,
    statements: &[Statement],
) -> Result<ObjectParts, AllocError>
    requires range { All IsInRange statements.now }
    requires size { code_size statements.now < 2 ^ 31 }
    requires none { named.old.keys ≡ [] }
    ensures { let named = named_by [] statements.now in
        IfOk result (λ parts. parts ≡ record {
          flags = 0;
          sections = text_section_of 2 named statements.now ∷ result_section ∷ [];
          symbols = result_symbol ∷ start_symbol ∷ map undefined_symbol named;
        }) }
{
    let mut sections = code_sections(alloc, 2, named, statements)?;
    push_result(alloc, &mut sections)?;
    let symbols = start_symbols(alloc, named.as_slice())?;
    Ok(ObjectParts {
        flags: 0,
        sections,
        symbols,
    })
}

/// The first object.
pub fn start_object(alloc: Global, number: u64, functions: u32) -> Result<ObjectParts, AllocError>
    requires { functions ≤ FUNCTION_LIMIT }
    ensures { IfOk result (λ parts. IsStartObject number functions parts) }
{
    let statements = start_statements(alloc, number, functions)?;
    let mut named = IndexSet::new(alloc);
    start_parts(alloc, &mut named, &statements)
}

// The statements of functions, one after another.
fn all_statements(alloc: Global, bodies: &[Body]) -> Result<Vec<Statement>, AllocError>
    ensures { IfOk result (λ statements. statements.items ≡ flat_map (λ body. body) bodies.now) }
{
    let mut statements = Vec::new(alloc);
    for body in bodies {
        statements.extend_from_slice(&body.statements)?;
    }
    Ok(statements)
}

// `count` numbers, from `first` on.
fn numbers_from(alloc: Global, first: u32, count: u32) -> Result<IndexSet<u32>, AllocError>
    requires { first + count < 2 ^ 32 }
    ensures { IfOk result (λ numbers. numbers.keys ≡ range_with_len first count) }
{
    let mut numbers = IndexSet::new(alloc);
    for i in first..first + count {
        numbers.insert(i)?;
    }
    Ok(numbers)
}

// An object of functions, of their statements.
fn function_parts(
    alloc: Global,
    first: u32,
    bodies: &[Body],
    statements: &[Statement],
) -> Result<ObjectParts, AllocError>
    requires number { first + length bodies.now < 2 ^ 31 }
    requires code { statements.now ≡ flat_map (λ body. body) bodies.now }
    requires size { code_size statements.now < 2 ^ 31 }
    requires range { All IsInRange statements.now }
    ensures { IfOk result (λ parts. parts ≡ function_object first bodies.now) }
{
    // The functions that these call come after their own.
    let mut named = numbers_from(alloc, first, bodies.len() as u32)?;
    let sections = code_sections(alloc, 0, &mut named, statements)?;
    let symbols = object_symbols(alloc, first, bodies, named.as_slice())?;
    Ok(ObjectParts {
        flags: 0,
        sections,
        symbols,
    })
}

/// An object of functions, from a number on.
pub fn function_object(
    alloc: Global,
    first: u32,
    bodies: &[Body],
) -> Result<ObjectParts, AllocError>
    requires number { first + length bodies.now < 2 ^ 31 }
    requires size { code_size (flat_map (λ body. body) bodies.now) < 2 ^ 31 }
    requires range { All IsInRange (flat_map (λ body. body) bodies.now) }
    ensures { IfOk result (λ parts. parts ≡ function_object first bodies.now) }
{
    let statements = all_statements(alloc, bodies)?;
    function_parts(alloc, first, bodies, &statements)
}
