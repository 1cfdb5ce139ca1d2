// The command `plain`: objects are linked with their instructions as they are, and the image and the
// length of its text are written.

ghost use Rattle.std.specs.Prelude.{Some};
ghost use Rattle.psabi_sym.specs.Objects.{contents_of};
ghost use Rattle.zc_base.specs.MemMap.{IsMap};
ghost use Rattle.zc_outside.specs.Desk.{OnlyWrites};
ghost use Rattle.zc_outside.specs.Shelf.{OnlyPuts};
ghost use Rattle.zc_outside.specs.World.{world};
ghost use Rattle.command_words.specs.Command.{plain_meant};
ghost use Rattle.zcld.specs.Call.{DoesWith};
ghost use Rattle.zcld.specs.ErrLine.{NamesNothing};
ghost use Rattle.zcld.specs.Plain.{plain_line, plain_output};
ghost use Rattle.zcld.specs.Puts.{PutsInTurn};

use crate::ending::Ending;
use crate::err_line::numbered_line;
use crate::objects::gather_named;
use crate::outcome::Outcome;
use crate::print::print_line;
use crate::put::put;
use command_words::command_line::PlainArgs;
use std::alloc::Global;
use zc_link::linked::Linked;
use zc_link::plain::link_plain;
use zc_outside::console::Console;
use zc_outside::store::Store;

/// Links the objects to an image, and writes how many bytes its text has.
#[tactic(auto, using(crate::proofs::Refusals::names_nothing))]
pub fn plain<S: Store, C: Console>(
    alloc: Global,
    args: &PlainArgs,
    store: &mut S,
    console: &mut C,
) -> Ending
    requires { IsMap args.now.options.map }
    ensures { DoesWith (Some (plain_meant args.now)) (contents_of result.files.items) result.outcome
        (world (S.shown store.old) (C.shown console.old)) (world (S.shown store.new) (C.shown console.new)) }
{
    let objects = match gather_named(alloc, args.objects.as_slice(), &args.options, store) {
        Ok(objects) => objects,
        Err(ending) => return ending,
    };
    match link_plain(alloc, objects) {
        Ok(linked) => Ending::alone(alloc, put_and_print(args.out, &linked, store, console)),
        Err(fault) => Ending::alone(alloc, Outcome::from(fault)),
    }
}

// Puts the image, then writes the line on its text, and says how that ended.
fn put_and_print<S: Store, C: Console>(
    out: &str,
    linked: &Linked,
    store: &mut S,
    console: &mut C,
) -> Outcome
    ensures done { PutsInTurn result (plain_output out.now linked.now.elf (plain_line linked.now.plain.text))
        (world (S.shown store.old) (C.shown console.old)) (world (S.shown store.new) (C.shown console.new)) }
    ensures puts { OnlyPuts (S.shown store.old) (S.shown store.new) }
    ensures writes { OnlyWrites (C.shown console.old) (C.shown console.new) }
    ensures line { NamesNothing result }
{
    if let Err(outcome) = put(out, linked.elf.as_slice(), store) {
        return outcome;
    }
    let line = numbered_line("plain text ", u64::from(linked.plain.text));
    print_line(line.as_str(), console)
}
