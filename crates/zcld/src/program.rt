// The program: its words, what it does with a store and a console, and the status that it ends with.

ghost use Rattle.std.specs.Prelude.{Err};
ghost use Rattle.zc_outside.specs.Shelf.{Shelf};
ghost use Rattle.zc_outside.specs.World.{world};
ghost use Rattle.zcld.specs.Program.{Ends};

use crate::call::zcld;
use crate::err_line::write_line;
use crate::outcome::{Outcome, status};
use std::alloc::{AllocError, Global};
use std::io::ErrorKind;
use std::rt::Env;
use std::{env, io};
use thiserror::Error;
use zc_outside::console::Console;
use zc_outside::store::Store;

/// Why the words of the command line can't be had.
#[derive(Clone, Copy, PartialEq, Eq, Debug, Error)]
pub enum WordsFault {
    #[error("a word isn't UTF-8")]
    NotText,
    #[error("out of memory")]
    OutOfMemory,
}

impl From<AllocError> for WordsFault {
    ghost use Rattle.std.specs.Prelude.{◌≡◌};
    ghost use Rattle.zcld.specs.declared.program.WordsFault.TheVariants.{OutOfMemory};

    ghost from_gives = { λ _ fault. fault ≡ OutOfMemory };

    fn from(_refused: AllocError) -> WordsFault {
        WordsFault::OutOfMemory
    }
}

impl From<io::Error> for WordsFault {
    ghost use Rattle.std.specs.Prelude.{◌≡◌, ◌↔◌};
    ghost use Rattle.std.specs.IoError.{error_kind};
    ghost use Rattle.std.specs.declared.io.ErrorKind.TheVariants as kind;
    ghost use Rattle.zcld.specs.declared.program.WordsFault.TheVariants.{OutOfMemory};

    ghost from_gives = { λ refused fault. (error_kind refused ≡ kind.OutOfMemory) ↔ (fault ≡ OutOfMemory) };

    fn from(refused: io::Error) -> WordsFault {
        if refused.kind() == ErrorKind::OutOfMemory {
            WordsFault::OutOfMemory
        } else {
            WordsFault::NotText
        }
    }
}

/// The words after the program's name.
pub fn words<R: Env + AllocGlobal>(rt: &R) -> Result<Vec<String>, WordsFault> {
    Ok(env::args(rt)?.skip(1).collect(rt.alloc())?)
}

/// Does what the words say, or names why they can't be had, and says the status to end with.
pub fn end<S: Store, C: Console>(
    alloc: Global,
    words: Result<Vec<String>, WordsFault>,
    store: &mut S,
    console: &mut C,
) -> u8
    ensures { Ends words result
        (world (S.shown store.old) (C.shown console.old)) (world (S.shown store.new) (C.shown console.new)) }
{
    match words {
        Ok(words) => status(&zcld(alloc, words.as_slice(), store, console)),
        Err(fault) => end_without(fault, console),
    }
}

// Names why the words can't be had, and says the status.
fn end_without<C: Console>(fault: WordsFault, console: &mut C) -> u8
    ensures { (shelf : Shelf) → Ends (Err fault) result
        (world shelf (C.shown console.old)) (world shelf (C.shown console.new)) }
{
    let outcome = match fault {
        WordsFault::NotText => Outcome::Usage,
        WordsFault::OutOfMemory => Outcome::OutOfMemory,
    };
    write_line(&[], &outcome, console);
    status(&outcome)
}
