// What is kept of lines, with one line more.

ghost use Rattle.std.specs.Prelude.{◌≡◌, ◌≢◌, ℕ, ◌+◌, ◌==◌, ◌++◌, ◌∷◌, ◌||◌, [], IfOk, List, Some};
ghost use Rattle.std.specs.BTreeMap.{get};
ghost use Rattle.std.specs.BTreeSet.{contains};
ghost use Rattle.std.specs.Ordering.{nat_cmp};
ghost use Rattle.devices.specs.Lines.{DevicesLine, answer_in, is_answer, is_registers, is_reset, is_then, outputs_of, ranges_of, then_in};
ghost use Rattle.devices.specs.Invariants.Kept.{CanFollow, IsSet, IsTable, shown};

use crate::kept_line::KeptLine;
use std::alloc::AllocError;
use std::collections::{BTreeMap, BTreeSet};

/// Lines and one more.
pub fn with_pushed(lines: Vec<KeptLine>, line: KeptLine) -> Result<Vec<KeptLine>, AllocError>
    ensures { IfOk result (λ all. all.items ≡ lines.items ++ line ∷ []) }
{
    let mut all = lines;
    all.push(line)?;
    Ok(all)
}

// The table with one range more.
fn with_range(
    ends: BTreeMap<u64, u64>,
    at: u32,
    size: u32,
) -> Result<BTreeMap<u64, u64>, AllocError>
    ensures puts { IfOk result (λ more. get nat_cmp more at ≡ Some (at + size)) }
    ensures keeps { IfOk result (λ more. (a : ℕ) → a ≢ at → get nat_cmp more a ≡ get nat_cmp ends a) }
{
    let mut more = ends;
    more.insert(u64::from(at), u64::from(at) + u64::from(size))?;
    Ok(more)
}

/// The table with the range of a line that may follow.
pub fn with_end(ends: BTreeMap<u64, u64>, line: &KeptLine) -> Result<BTreeMap<u64, u64>, AllocError>
    ensures { IfOk result (λ more. (before : List DevicesLine) → IsTable (get nat_cmp ends) (ranges_of before)
        → CanFollow before (shown line.now)
        → IsTable (get nat_cmp more) (ranges_of (before ++ shown line.now ∷ []))) }
{
    match line {
        KeptLine::Range { at, size } => {
            let more = with_range(ends, *at, *size)?;
            Ok(more)
        }
        KeptLine::Registers
        | KeptLine::Reset
        | KeptLine::Output(_)
        | KeptLine::Answer(_)
        | KeptLine::Then(_) => Ok(ends),
    }
}

// The set with one address more.
fn with_address(outputs: BTreeSet<u32>, at: u32) -> Result<BTreeSet<u32>, AllocError>
    ensures { IfOk result (λ more. (a : ℕ) → contains nat_cmp more a ≡ (contains nat_cmp outputs a || at == a)) }
{
    let mut more = outputs;
    more.insert(at)?;
    Ok(more)
}

/// The set with the address of a line for output.
pub fn with_output(outputs: BTreeSet<u32>, line: &KeptLine) -> Result<BTreeSet<u32>, AllocError>
    ensures { IfOk result (λ more. (before : List DevicesLine) → IsSet (contains nat_cmp outputs) (outputs_of before)
        → IsSet (contains nat_cmp more) (outputs_of (before ++ shown line.now ∷ []))) }
{
    match line {
        KeptLine::Output(at) => {
            let more = with_address(outputs, *at)?;
            Ok(more)
        }
        KeptLine::Range { .. }
        | KeptLine::Registers
        | KeptLine::Reset
        | KeptLine::Answer(_)
        | KeptLine::Then(_) => Ok(outputs),
    }
}

// Bytes, and others behind them.
fn with_bytes(bytes: Vec<u8>, others: &[u8]) -> Result<Vec<u8>, AllocError>
    ensures { IfOk result (λ all. all.items ≡ bytes.items ++ others.now) }
{
    let mut all = bytes;
    all.extend_from_slice(others)?;
    Ok(all)
}

/// The bytes that devices answer first, with those of a line.
pub fn with_first(first: Vec<u8>, line: &KeptLine) -> Result<Vec<u8>, AllocError>
    ensures { IfOk result (λ all. all.items ≡ first.items ++ answer_in (shown line.now)) }
{
    match line {
        KeptLine::Answer(bytes) => with_bytes(first, bytes.as_slice()),
        KeptLine::Range { .. }
        | KeptLine::Registers
        | KeptLine::Reset
        | KeptLine::Output(_)
        | KeptLine::Then(_) => Ok(first),
    }
}

/// The bytes that devices answer from there on, with those of a line.
pub fn with_again(again: Vec<u8>, line: &KeptLine) -> Result<Vec<u8>, AllocError>
    ensures { IfOk result (λ all. all.items ≡ again.items ++ then_in (shown line.now)) }
{
    match line {
        KeptLine::Then(bytes) => with_bytes(again, bytes.as_slice()),
        KeptLine::Range { .. }
        | KeptLine::Registers
        | KeptLine::Reset
        | KeptLine::Output(_)
        | KeptLine::Answer(_) => Ok(again),
    }
}

// Whether a line has what devices answer.
fn is_answer(line: &KeptLine) -> bool
    ensures { result ≡ is_answer (shown line.now) }
{
    match line {
        KeptLine::Answer(_) | KeptLine::Then(_) => true,
        KeptLine::Range { .. } | KeptLine::Registers | KeptLine::Reset | KeptLine::Output(_) =>
            false,
    }
}

/// Whether lines with one more have what devices answer.
pub fn is_answering(answering: bool, line: &KeptLine) -> bool
    ensures { result ≡ (answering || is_answer (shown line.now)) }
{
    answering || is_answer(line)
}

// Whether a line is `then`.
fn is_then(line: &KeptLine) -> bool
    ensures { result ≡ is_then (shown line.now) }
{
    match line {
        KeptLine::Then(_) => true,
        KeptLine::Range { .. }
        | KeptLine::Registers
        | KeptLine::Reset
        | KeptLine::Output(_)
        | KeptLine::Answer(_) => false,
    }
}

/// Whether nothing may follow lines with one more.
pub fn is_ended(ended: bool, line: &KeptLine) -> bool
    ensures { result ≡ (ended || is_then (shown line.now)) }
{
    ended || is_then(line)
}

/// Whether the registers are among lines with one more.
pub fn with_registers(registers: bool, line: &KeptLine) -> bool
    ensures { result ≡ (registers || is_registers (shown line.now)) }
{
    registers || matches!(line, KeptLine::Registers)
}

/// Whether runs start with sp not set, by lines with one more.
pub fn with_reset(reset: bool, line: &KeptLine) -> bool
    ensures { result ≡ (reset || is_reset (shown line.now)) }
{
    reset || matches!(line, KeptLine::Reset)
}
