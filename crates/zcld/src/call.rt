// The top call: a command does its work, and its outcome's line is written.

ghost use Rattle.psabi_sym.specs.Objects.{contents_of};
ghost use Rattle.zc_outside.specs.World.{world};
ghost use Rattle.command_words.specs.Command.{command_of, texts};
ghost use Rattle.zcld.specs.Call.{Calls, DoesWith, IsUsageOf};
ghost use Rattle.zcld.specs.Headline.{Links};

use crate::check::check;
use crate::ending::Ending;
use crate::err_line::write_line;
use crate::gc::gc;
use crate::list::list;
use crate::make::make;
use crate::merge::merge;
use crate::outcome::Outcome;
use crate::plain::plain;
use crate::run::run;
use crate::share::share;
use crate::trace::trace;
use crate::zc::zc;
use command_words::command_line::CommandLine;
use command_words::read::read;
use std::alloc::Global;
use zc_outside::console::Console;
use zc_outside::store::Store;

/// Does what the words say, over a store of files and a console, and names how it ended on standard
/// error. The words are those after the program's own name.
pub fn zcld<S: Store, C: Console>(
    alloc: Global,
    words: &[String],
    store: &mut S,
    console: &mut C,
) -> Outcome
    ensures usage { IsUsageOf (command_of (texts words.now)) result }
    ensures calls { Calls (command_of (texts words.now)) result
        (world (S.shown store.old) (C.shown console.old)) (world (S.shown store.new) (C.shown console.new)) }
    ensures links { Links (command_of (texts words.now)) result (S.shown store.old).files (S.shown store.new).files }
{
    let Ending { outcome, files } = perform(alloc, words, store, console);
    write_line(files.as_slice(), &outcome, console);
    outcome
}

// Does what the words say, and keeps of the files that it reads those in which the outcome's line may name something.
fn perform<S: Store, C: Console>(
    alloc: Global,
    words: &[String],
    store: &mut S,
    console: &mut C,
) -> Ending
    ensures { DoesWith (command_of (texts words.now)) (contents_of result.files.items) result.outcome
        (world (S.shown store.old) (C.shown console.old)) (world (S.shown store.new) (C.shown console.new)) }
{
    let command = match read(alloc, words) {
        Ok(Some(command)) => command,
        Ok(None) => return Ending::alone(alloc, Outcome::Usage),
        Err(_) => return Ending::alone(alloc, Outcome::OutOfMemory),
    };
    match command {
        CommandLine::Plain(args) => plain(alloc, &args, store, console),
        CommandLine::Zc(args) => zc(alloc, &args, store, console),
        CommandLine::Run(args) => Ending::alone(alloc, run(alloc, args, store, console)),
        CommandLine::Trace(args) => trace(alloc, &args, store, console),
        CommandLine::Check { cert } => Ending::alone(alloc, check(alloc, cert, store, console)),
        CommandLine::Make(args) => Ending::alone(alloc, make(alloc, args, store, console)),
        CommandLine::Gc(args) => gc(alloc, &args, store, console),
        CommandLine::Merge(args) => merge(alloc, &args, store, console),
        CommandLine::Share(args) => share(alloc, &args, store, console),
        CommandLine::List(args) => Ending::alone(alloc, list(alloc, args, store, console)),
    }
}
