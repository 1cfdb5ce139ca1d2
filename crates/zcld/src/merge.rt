// The command `merge`: equal ends of functions are shared in objects, the results are put, and how much was removed is written.

ghost use Rattle.std.specs.Prelude.{◌≡◌, ◌+◌, ◌++◌, ◌≤◌, Some, decimal, length};
ghost use Rattle.psabi_sym.specs.Objects.{contents_of};
ghost use Rattle.zc_base.specs.MemMap.{IsMap};
ghost use Rattle.zc_outside.specs.World.{world};
ghost use Rattle.command_words.specs.Command.{merge_meant};
ghost use Rattle.zcld.specs.Call.{DoesWith};
ghost use Rattle.zcld.specs.ErrLine.{line as line_of};
ghost use Rattle.zcld.specs.Merge.{removed_lines as lines_on};

use crate::ending::Ending;
use crate::err_line::ROOM;
use crate::objects::read_objects;
use crate::outcome::Outcome;
use crate::put_objects::{Results, put_and_print};
use arrayvec::ArrayString;
use command_words::command_line::MergeArgs;
use itoa::Buffer;
use std::alloc::Global;
use tail_merge::merge::{Merged, merge as share};
use zc_outside::console::Console;
use zc_outside::store::Store;

/// Shares equal ends of functions in the objects, and writes how much was removed. The files are kept for the line of a
/// refusal.
pub fn merge<S: Store, C: Console>(
    alloc: Global,
    args: &MergeArgs,
    store: &mut S,
    console: &mut C,
) -> Ending
    requires { IsMap args.now.options.map }
    ensures { DoesWith (Some (merge_meant args.now)) (contents_of result.files.items) result.outcome
        (world (S.shown store.old) (C.shown console.old)) (world (S.shown store.new) (C.shown console.new)) }
{
    let files = match read_objects(alloc, args.objects.as_slice(), store) {
        Ok(files) => files,
        Err(outcome) => return Ending::alone(alloc, outcome),
    };
    match share(alloc, files.as_slice(), &args.options) {
        Ok(merged) => {
            let lines = removed_lines(&merged);
            let results = Results {
                prefix: args.prefix,
                objects: merged.objects.as_slice(),
                lines: lines.as_str(),
            };
            Ending::alone(alloc, put_and_print(alloc, &results, store, console))
        }
        Err(fault) => Ending {
            outcome: Outcome::from(fault),
            files,
        },
    }
}

// The lines on how much was removed.
fn removed_lines(merged: &Merged) -> ArrayString<ROOM>
    ensures { result.bytes ≡ lines_on merged.now }
{
    let mut lines = ArrayString::new();
    push_count(&mut lines, "tails ", merged.tails);
    push_count(&mut lines, "bytes ", merged.bytes);
    lines
}

// Adds a line with a word and a number.
fn push_count(lines: &mut ArrayString<ROOM>, word: &str, number: u32)
    requires { length lines.old.bytes + length word.now ≤ 53 }
    ensures line { lines.new.bytes ≡ lines.old.bytes ++ line_of (word.now ++ decimal number) }
    ensures size { length lines.new.bytes ≤ length lines.old.bytes + length word.now + 11 }
{
    let mut digits = Buffer::new();
    lines.push_str(word);
    lines.push_str(digits.format(number));
    lines.push_str("\n");
}
