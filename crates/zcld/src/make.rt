// The command `make`: objects are made from a number, linked, traced and run, and what comes of that is written.

ghost use Rattle.std.specs.Prelude.{◌≡◌, ◌≤◌, ℕ, IfOk, IfErr, List, None, Some};
ghost use Rattle.block_cut.specs.Faults.{first_fault};
ghost use Rattle.command_words.specs.Command.{make_meant};
ghost use Rattle.load_runner.specs.Runs.{standard_inputs};
ghost use Rattle.psabi_sym.specs.Objects.{contents_of};
ghost use Rattle.zc_outside.specs.World.{world};
ghost use Rattle.zcld.specs.Call.{DoesWith};
ghost use Rattle.zcld.specs.ErrLine.{NamesNothing};
ghost use Rattle.zcld.specs.Make.{IsSummary, IsUnloaded};

use crate::outcome::Outcome;
use crate::print::print_text;
use crate::put_objects::put_named;
use command_words::command_line::MakeArgs;
use load_maker::fault::MakeFault;
use load_maker::make_objects::make_objects;
use load_runner::run_load::run_load;
use load_runner::summary::summary;
use std::alloc::Global;
use zc_outside::console::Console;
use zc_outside::store::Store;

/// Makes objects from a number, links them both ways, traces and runs them, and writes the summary. With a prefix
/// the objects are put, once all runs have come to their exits.
pub fn make<S: Store, C: Console>(
    alloc: Global,
    args: MakeArgs,
    store: &mut S,
    console: &mut C,
) -> Outcome
    requires { args.functions ≤ 1600 }
    ensures { (left : List (List ℕ)) → DoesWith (Some (make_meant args.entry)) left result
        (world (S.shown store.old) (C.shown console.old)) (world (S.shown store.new) (C.shown console.new)) }
{
    let objects = match make_objects(alloc, args.number, args.functions) {
        Ok(objects) => objects,
        Err(MakeFault::OutOfMemory) => return Outcome::OutOfMemory,
        Err(MakeFault::TooMany) => unreachable!(),
    };
    let text = match load(alloc, args.number, args.functions, objects.as_slice()) {
        Ok(text) => text,
        Err(outcome) => return outcome,
    };
    if let Some(prefix) = args.prefix {
        if let Err(outcome) = put_named(alloc, prefix, objects.as_slice(), store) {
            return outcome;
        }
    }
    print_text(text.as_slice(), console)
}

// The summary of what comes of these objects, or how the call ends without that.
fn load(alloc: Global, number: u64, functions: u32, objects: &[Vec<u8>]) -> Result<Vec<u8>, Outcome>
    requires { first_fault (standard_inputs (contents_of objects.now)) ≡ None }
    ensures ok { IfOk result (λ text. IsSummary number functions (contents_of objects.now) text.items) }
    ensures err { IfErr result (IsUnloaded number (contents_of objects.now)) }
    ensures line { IfErr result NamesNothing }
{
    let load = run_load(alloc, number, objects)?;
    Ok(summary(alloc, functions, objects.len() as u64, &load)?)
}
