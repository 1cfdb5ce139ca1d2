// Objects that a command puts at its end, under names with a prefix and their numbers, and the lines that it writes then.

ghost use Rattle.std.specs.Prelude.{◌≡◌, ◌⊎◌, ℕ, IfOk, IfErr, List, OnOk, length};
ghost use Rattle.std.specs.String.{string_bytes};
ghost use Rattle.command_words.specs.Command.{texts};
ghost use Rattle.psabi_sym.specs.Objects.{contents_of};
ghost use Rattle.zc_outside.specs.Desk.{Desk, OnlyWrites};
ghost use Rattle.zc_outside.specs.Shelf.{OnlyPuts};
ghost use Rattle.zc_outside.specs.World.{world};
ghost use Rattle.zcld.specs.ErrLine.{NamesNothing};
ghost use Rattle.zcld.specs.ObjectNames.{named_from, names_from, object_name as name_of};
ghost use Rattle.zcld.specs.Puts.{PutsFiles, PutsInTurn};
ghost use Rattle.zcld.specs.declared.outcome.Outcome.TheVariants.{OutOfMemory};

use crate::outcome::Outcome;
use crate::print::print_text;
use crate::put::put;
use std::alloc::{AllocError, Global};
use zc_outside::console::Console;
use zc_outside::store::Store;

/// Objects, the prefix of their names, and the lines that are written of them.
#[derive(Clone, Copy)]
pub struct Results<'a> {
    pub prefix: &'a str,
    pub objects: &'a [Vec<u8>],
    pub lines: &'a str,
}

/// Puts results, then writes their lines, and says how that ended.
pub fn put_and_print<S: Store, C: Console>(
    alloc: Global,
    results: &Results,
    store: &mut S,
    console: &mut C,
) -> Outcome
    ensures done { ((result ≡ OutOfMemory)
        × (world (S.shown store.new) (C.shown console.new) ≡ world (S.shown store.old) (C.shown console.old)))
        ⊎ PutsInTurn result (record {
          files = named_from results.now.prefix.now 0 (contents_of results.now.objects.now);
          text = results.now.lines.now;
        })
        (world (S.shown store.old) (C.shown console.old)) (world (S.shown store.new) (C.shown console.new)) }
    ensures puts { OnlyPuts (S.shown store.old) (S.shown store.new) }
    ensures writes { OnlyWrites (C.shown console.old) (C.shown console.new) }
    ensures line { NamesNothing result }
{
    if let Err(outcome) = put_named(alloc, results.prefix, results.objects, store) {
        return outcome;
    }
    print_text(results.lines.as_bytes(), console)
}

/// Puts objects under their names, one after another, or says how the call ends where one can't be put. Nothing is put
/// before all names are made.
pub fn put_named<S: Store>(
    alloc: Global,
    prefix: &str,
    objects: &[Vec<u8>],
    store: &mut S,
) -> Result<(), Outcome>
    ensures ok { OnOk result (PutsFiles (S.shown store.old).files (S.shown store.new).files
        (named_from prefix.now 0 (contents_of objects.now))) }
    ensures err { IfErr result (λ outcome. ((outcome ≡ OutOfMemory) × (S.shown store.new ≡ S.shown store.old))
        ⊎ ((text : List ℕ) (desk : Desk) → PutsInTurn outcome
        (record { files = named_from prefix.now 0 (contents_of objects.now); text = text })
        (world (S.shown store.old) desk) (world (S.shown store.new) desk))) }
    ensures puts { OnlyPuts (S.shown store.old) (S.shown store.new) }
    ensures line { IfErr result NamesNothing }
{
    let names = object_names(alloc, prefix, objects.len())?;
    put_all(names.as_slice(), objects, store)
}

// Puts files under these names in turn, or says how the call ends where one can't be put.
fn put_all<S: Store>(names: &[String], objects: &[Vec<u8>], store: &mut S) -> Result<(), Outcome>
    requires { length names.now ≡ length objects.now }
    ensures ok { OnOk result ((prefix : List ℕ) → texts names.now ≡ names_from prefix 0 (length objects.now)
        → PutsFiles (S.shown store.old).files (S.shown store.new).files
        (named_from prefix 0 (contents_of objects.now))) }
    ensures err { IfErr result (λ outcome. (prefix text : List ℕ) (desk : Desk)
        → texts names.now ≡ names_from prefix 0 (length objects.now) → PutsInTurn outcome
        (record { files = named_from prefix 0 (contents_of objects.now); text = text })
        (world (S.shown store.old) desk) (world (S.shown store.new) desk)) }
    ensures puts { OnlyPuts (S.shown store.old) (S.shown store.new) }
    ensures line { IfErr result NamesNothing }
{
    for (i, object) in objects.iter().enumerate() {
        put(names[i].as_str(), object.as_slice(), store)?;
    }
    Ok(())
}

// The names of the first `count` objects.
fn object_names(alloc: Global, prefix: &str, count: usize) -> Result<Vec<String>, AllocError>
    ensures { IfOk result (λ names. texts names.items ≡ names_from prefix.now 0 count) }
{
    let mut names = Vec::with_capacity(alloc, count)?;
    for i in 0..count {
        names.push(object_name(alloc, prefix, i)?)?;
    }
    Ok(names)
}

// The name of the object with this number.
fn object_name(alloc: Global, prefix: &str, number: usize) -> Result<String, AllocError>
    ensures { IfOk result (λ name. string_bytes name ≡ name_of prefix.now number) }
{
    format!(in alloc; "{prefix}{number}.o")
}
