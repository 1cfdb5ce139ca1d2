// The command `gc`: the code that nothing reaches is left out of objects, the results are put, and how much code is kept is
// written.

ghost use Rattle.std.specs.Prelude.{◌≡◌, ◌+◌, ◌++◌, ◌≤◌, Some, length};
ghost use Rattle.psabi_sym.specs.Objects.{contents_of};
ghost use Rattle.zc_base.specs.MemMap.{IsMap};
ghost use Rattle.zc_outside.specs.World.{world};
ghost use Rattle.command_words.specs.Command.{gc_meant};
ghost use Rattle.zcld.specs.Call.{DoesWith};
ghost use Rattle.zcld.specs.Gc.{kept_lines as lines_on, share_line};

use crate::ending::Ending;
use crate::err_line::ROOM;
use crate::objects::read_objects;
use crate::outcome::Outcome;
use crate::put_objects::{Results, put_and_print};
use arrayvec::ArrayString;
use command_words::command_line::GcArgs;
use itoa::Buffer;
use section_gc::gc::{Cleaned, gc as collect};
use std::alloc::Global;
use zc_outside::console::Console;
use zc_outside::store::Store;

/// Leaves the code that nothing reaches out of the objects, and writes how much is kept. The files are kept for the
/// line of a refusal.
pub fn gc<S: Store, C: Console>(
    alloc: Global,
    args: &GcArgs,
    store: &mut S,
    console: &mut C,
) -> Ending
    requires { IsMap args.now.options.map }
    ensures { DoesWith (Some (gc_meant args.now)) (contents_of result.files.items) result.outcome
        (world (S.shown store.old) (C.shown console.old)) (world (S.shown store.new) (C.shown console.new)) }
{
    let files = match read_objects(alloc, args.objects.as_slice(), store) {
        Ok(files) => files,
        Err(outcome) => return Ending::alone(alloc, outcome),
    };
    match collect(alloc, files.as_slice(), &args.options) {
        Ok(cleaned) => {
            let lines = kept_lines(&cleaned);
            let results = Results {
                prefix: args.prefix,
                objects: cleaned.objects.as_slice(),
                lines: lines.as_str(),
            };
            Ending::alone(alloc, put_and_print(alloc, &results, store, console))
        }
        Err(fault) => Ending {
            outcome: Outcome::from(fault),
            files,
        },
    }
}

// The lines on how much code is kept.
fn kept_lines(cleaned: &Cleaned) -> ArrayString<ROOM>
    ensures { result.bytes ≡ lines_on cleaned.now }
{
    let mut lines = ArrayString::new();
    push_share(&mut lines, "sections", cleaned.kept, cleaned.all);
    push_share(&mut lines, "code", cleaned.bytes, cleaned.from);
    lines
}

// Adds a line with two numbers, of which the first counts a part of what the second counts.
fn push_share(lines: &mut ArrayString<ROOM>, word: &str, part: u32, whole: u32)
    requires { length lines.old.bytes + length word.now ≤ 38 }
    ensures line { lines.new.bytes ≡ lines.old.bytes ++ share_line word.now part whole }
    ensures size { length lines.new.bytes ≤ length lines.old.bytes + length word.now + 26 }
{
    let mut digits = Buffer::new();
    lines.push_str(word);
    lines.push_str(" ");
    lines.push_str(digits.format(part));
    lines.push_str(" of ");
    lines.push_str(digits.format(whole));
    lines.push_str("\n");
}
