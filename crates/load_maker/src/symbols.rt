// Symbols of the generated objects.

ghost use Rattle.std.specs.Prelude.{◌≡◌, ◌<◌, ◌≤◌, ◌^◌, ◌+◌, [], ◌∷◌, ◌++◌, drop, length, map, IfOk, OnOk};
ghost use Rattle.std.specs.List.{flat_map};
ghost use Rattle.load_maker.specs.Objects.{function_name, function_symbols, result_symbol, start_symbol, undefined_symbol};
ghost use Rattle.load_maker.specs.Statements.{code_size};

use crate::body::Body;
use crate::statement::Statement;
use elf32_read::symbol::{GLOBAL, LOCAL, UNDEF};
use elf32_write::object_parts::PartSymbol;
use std::alloc::{AllocError, Global};

// Types of symbols (System V gABI, "Symbol Table").
const NO_TYPE: u8 = 0;

const OBJECT: u8 = 1;

const FUNCTION: u8 = 2;

// The sections of code and of `result`.
const TEXT: u16 = 1;

const BSS: u16 = 2;

fn function_name(alloc: Global, i: u32) -> Result<Vec<u8>, AllocError>
    ensures { IfOk result (λ name. name.items ≡ function_name i) }
{
    let mut name = Vec::from_slice(alloc, b"f")?;
    let digits = i.to_string(alloc)?;
    name.extend_from_slice(digits.as_bytes())?;
    Ok(name)
}

// The word that the program writes.
fn result_symbol(alloc: Global) -> Result<PartSymbol, AllocError>
    ensures { IfOk result (λ symbol. symbol ≡ result_symbol) }
{
    let name = Vec::from_slice(alloc, b"result")?;
    Ok(PartSymbol {
        name,
        value: 0,
        size: 4,
        bind: LOCAL,
        kind: OBJECT,
        home: BSS,
    })
}

// Where the program starts.
fn start_symbol(alloc: Global) -> Result<PartSymbol, AllocError>
    ensures { IfOk result (λ symbol. symbol ≡ start_symbol) }
{
    let name = Vec::from_slice(alloc, b"_start")?;
    Ok(PartSymbol {
        name,
        value: 0,
        size: 0,
        bind: GLOBAL,
        kind: NO_TYPE,
        home: TEXT,
    })
}

// The number of bytes of the statements' code.
fn code_size(statements: &[Statement]) -> u32
    requires { code_size statements.now < 2 ^ 32 }
    ensures { result ≡ code_size statements.now }
{
    let mut size = 0;
    for statement in statements {
        size += match *statement {
            Statement::Plain(_) | Statement::WithAddress(_, _) => 4,
            Statement::Call(_) => 8,
        };
    }
    size
}

// The symbols of functions, from a number on.
fn function_symbols(
    alloc: Global,
    first: u32,
    bodies: &[Body],
) -> Result<Vec<PartSymbol>, AllocError>
    requires number { first + length bodies.now < 2 ^ 32 }
    requires size { code_size (flat_map (λ body. body) bodies.now) < 2 ^ 32 }
    ensures { IfOk result (λ symbols. symbols.items ≡ function_symbols first 0 bodies.now) }
{
    let mut symbols = Vec::new(alloc);
    let mut i = first;
    let mut at = 0;
    for body in bodies {
        let name = function_name(alloc, i)?;
        let size = code_size(&body.statements);
        symbols.push(PartSymbol {
            name,
            value: at,
            size,
            bind: GLOBAL,
            kind: FUNCTION,
            home: TEXT,
        })?;
        i += 1;
        at += size;
    }
    Ok(symbols)
}

fn undefined_symbol(alloc: Global, i: u32) -> Result<PartSymbol, AllocError>
    ensures { IfOk result (λ symbol. symbol ≡ undefined_symbol i) }
{
    let name = function_name(alloc, i)?;
    Ok(PartSymbol {
        name,
        value: 0,
        size: 0,
        bind: GLOBAL,
        kind: NO_TYPE,
        home: UNDEF,
    })
}

// Appends the symbols of functions that other objects define.
fn push_undefined(
    alloc: Global,
    symbols: &mut Vec<PartSymbol>,
    functions: &[u32],
) -> Result<(), AllocError>
    ensures { OnOk result (symbols.new.items ≡ symbols.old.items ++ map undefined_symbol functions.now) }
{
    for i in functions {
        symbols.push(undefined_symbol(alloc, *i)?)?;
    }
    Ok(())
}

// The first symbols of the first object.
fn own_symbols(alloc: Global) -> Result<Vec<PartSymbol>, AllocError>
    ensures { IfOk result (λ symbols. symbols.items ≡ result_symbol ∷ start_symbol ∷ []) }
{
    let mut symbols = Vec::new(alloc);
    symbols.push(result_symbol(alloc)?)?;
    symbols.push(start_symbol(alloc)?)?;
    Ok(symbols)
}

/// The symbols of the first object: its own, and then those of the functions that it names.
pub fn start_symbols(alloc: Global, named: &[u32]) -> Result<Vec<PartSymbol>, AllocError>
    ensures { IfOk result (λ symbols. symbols.items ≡ result_symbol ∷ start_symbol ∷ map undefined_symbol named.now) }
{
    let mut symbols = own_symbols(alloc)?;
    push_undefined(alloc, &mut symbols, named)?;
    Ok(symbols)
}

/// The symbols of an object of functions, from a number on: its own, and then those of the others that it names.
pub fn object_symbols(
    alloc: Global,
    first: u32,
    bodies: &[Body],
    named: &[u32],
) -> Result<Vec<PartSymbol>, AllocError>
    requires number { first + length bodies.now < 2 ^ 32 }
    requires size { code_size (flat_map (λ body. body) bodies.now) < 2 ^ 32 }
    requires named { length bodies.now ≤ length named.now }
    ensures { IfOk result (λ symbols. symbols.items ≡
        function_symbols first 0 bodies.now ++ map undefined_symbol (drop (length bodies.now) named.now)) }
{
    let mut symbols = function_symbols(alloc, first, bodies)?;
    let others = &named[bodies.len()..];
    push_undefined(alloc, &mut symbols, others)?;
    Ok(symbols)
}
