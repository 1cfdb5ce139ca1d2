// The console's whole input.

ghost use Rattle.std.specs.Prelude.{◌≡◌, ◌+◌, ◌-◌, ◌^◌, IfOk, IfErr, length, min};
ghost use Rattle.zc_outside.specs.Desk.{OnlyTakes};
ghost use Rattle.zcld.specs.Input.{IsUntaken, IsUntakenUnless, TakesInput, TakesPart, TakesUnless, UntakenCause};

use crate::outcome::Outcome;
use std::alloc::Global;
use zc_outside::console::{Console, ConsoleFault};

/// The most bytes of input.
pub const INPUT_LIMIT: usize = 16_777_216;

// The number of bytes that are asked for at once.
const PIECE: usize = 4096;

/// All bytes that are left of the console's input, or how the call ends without them.
pub fn take_all<C: Console>(alloc: Global, console: &mut C) -> Result<Vec<u8>, Outcome>
    ensures ok { IfOk result (λ input. TakesInput input.items (C.shown console.old) (C.shown console.new)) }
    ensures err { IfErr result (λ outcome. IsUntaken outcome (C.shown console.old) (C.shown console.new)) }
{
    let mut input = Vec::new(alloc);
    while input.len() <= INPUT_LIMIT {
        if take_piece(&mut input, console)? == 0 {
            return Ok(input);
        }
    }
    Err(Outcome::ReadFault)
}

/// The console's whole input, or none if the answers are given without it; or how the call ends without the input.
pub fn take_unless<C: Console>(
    alloc: Global,
    answered: bool,
    console: &mut C,
) -> Result<Vec<u8>, Outcome>
    ensures ok { IfOk result (λ input. TakesUnless answered input.items (C.shown console.old) (C.shown console.new)) }
    ensures err { IfErr result (λ outcome.
        IsUntakenUnless answered outcome (C.shown console.old) (C.shown console.new)) }
{
    if answered {
        Ok(Vec::new(alloc))
    } else {
        take_all(alloc, console)
    }
}

// Takes a piece of the input after what was taken so far, and returns its length: 0 at the end.
fn take_piece<C: Console>(input: &mut Vec<u8>, console: &mut C) -> Result<usize, Outcome>
    ensures ok { IfOk result (λ n. TakesPart (C.shown console.old).input (C.shown console.new).input
        input.old.items input.new.items n) }
    ensures length { IfOk result (λ n. length input.new.items ≡ length input.old.items + n) }
    ensures taken { IfOk result (λ n.
        (C.shown console.new).taken ≡ min ((C.shown console.old).taken + n) (2 ^ 64 - 1)) }
    ensures err { IfErr result (λ outcome. UntakenCause outcome (C.shown console.old) (C.shown console.new)) }
    ensures only { OnlyTakes (C.shown console.old) (C.shown console.new) }
{
    let mut piece = [0; PIECE];
    let count = match console.take(&mut piece) {
        Ok(count) => count,
        Err(ConsoleFault::Failed) => return Err(Outcome::ReadFault),
        Err(ConsoleFault::OutOfMemory) => return Err(Outcome::OutOfMemory),
    };
    input.extend_from_slice(&piece[..count])?;
    Ok(count)
}
