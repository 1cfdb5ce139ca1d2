// The command `zc`: objects are linked, the image and its certificate are put, and the report is
// written.

ghost use Rattle.std.specs.Prelude.{◌≡◌, ◌≢◌, ◌≤◌, ℕ, IfOk, List, Some, length};
ghost use Rattle.psabi_sym.specs.Inputs.{parsed};
ghost use Rattle.psabi_sym.specs.Objects.{contents_of};
ghost use Rattle.zc_base.specs.MemMap.{IsMap};
ghost use Rattle.zc_outside.specs.Desk.{OnlyWrites};
ghost use Rattle.zc_outside.specs.Shelf.{OnlyPuts};
ghost use Rattle.zc_outside.specs.World.{world};
ghost use Rattle.command_words.specs.Command.{zc_meant};
ghost use Rattle.zcld.specs.Call.{DoesWith};
ghost use Rattle.zcld.specs.ErrLine.{NamesNothing};
ghost use Rattle.zcld.specs.Puts.{PutsInTurn};
ghost use Rattle.zcld.specs.Zc.{fixed_count, fixed_told, output_of, zc_output};

use crate::ending::Ending;
use crate::objects::gather_named;
use crate::outcome::Outcome;
use crate::print::print_text;
use crate::put::put;
use command_words::command_line::ZcArgs;
use pick_check::write_certificate::write_certificate;
use psabi_sym::objects::Objects;
use size_report::report::{LinkCounts, report};
use std::alloc::{AllocError, Global};
use zc_link::linked::Linked;
use zc_link::zc::link_zc;
use zc_outside::console::Console;
use zc_outside::store::Store;

// What `zc` puts and writes: an image, the text of its table's certificate, and the report.
#[derive(Drop)]
struct ZcResults {
    image: Vec<u8>,
    certificate: Vec<u8>,
    report: Vec<u8>,
}

/// Links the objects to an image with the certificate of its table, and writes the report.
#[tactic(auto, using(crate::proofs::Refusals::names_nothing))]
pub fn zc<S: Store, C: Console>(
    alloc: Global,
    args: &ZcArgs,
    store: &mut S,
    console: &mut C,
) -> Ending
    requires map { IsMap args.now.options.map }
    requires names { args.now.out.now ≢ args.now.cert.now }
    ensures { DoesWith (Some (zc_meant args.now)) (contents_of result.files.items) result.outcome
        (world (S.shown store.old) (C.shown console.old)) (world (S.shown store.new) (C.shown console.new)) }
{
    let objects = match gather_named(alloc, args.objects.as_slice(), &args.options, store) {
        Ok(objects) => objects,
        Err(ending) => return ending,
    };
    let fixed = fixed_told(&objects);
    let linked = match link_zc(alloc, objects) {
        Ok(linked) => linked,
        Err(fault) => return Ending::alone(alloc, Outcome::from(fault)),
    };
    match results_of(alloc, linked, fixed) {
        Ok(results) => Ending::alone(alloc, put_and_report(args, &results, store, console)),
        Err(_) => Ending::alone(alloc, Outcome::OutOfMemory),
    }
}

// How many sections of the objects are fixed, if names of such are given.
fn fixed_told(objects: &Objects) -> Option<u32>
    ensures { result ≡ fixed_told (parsed objects.now) }
{
    if objects.fixed_names().is_empty() {
        None
    } else {
        Some(fixed_count(objects))
    }
}

// How many sections of the objects are fixed.
fn fixed_count(objects: &Objects) -> u32
    ensures { result ≡ fixed_count (parsed objects.now) }
{
    let mut count = 0;
    for k in 0..objects.section_count() {
        if objects.section_row(k).fixed {
            count += 1;
        }
    }
    count
}

// What is put and written of a link, with the number of fixed sections if names of such were given.
fn results_of(alloc: Global, linked: Linked, fixed: Option<u32>) -> Result<ZcResults, AllocError>
    requires savings { length linked.savings ≤ 0x1_0000 }
    requires slots { length linked.certificate.slots ≤ 256 }
    ensures { IfOk result (λ results. (out cert : List ℕ) → output_of out cert results
        ≡ zc_output out cert fixed linked) }
{
    let savings = linked.savings.as_slice();
    let certificate = write_certificate(alloc, savings, &linked.certificate)?;
    let counts = LinkCounts {
        plain: linked.plain,
        zc: linked.zc,
        fixed,
    };
    let report = report(alloc, &counts, savings, &linked.certificate)?;
    Ok(ZcResults {
        image: linked.elf,
        certificate,
        report,
    })
}

// Puts the image, then the certificate, then writes the report, and says how that ended.
fn put_and_report<S: Store, C: Console>(
    args: &ZcArgs,
    results: &ZcResults,
    store: &mut S,
    console: &mut C,
) -> Outcome
    requires { args.now.out.now ≢ args.now.cert.now }
    ensures done { PutsInTurn result (output_of args.now.out.now args.now.cert.now results.now)
        (world (S.shown store.old) (C.shown console.old)) (world (S.shown store.new) (C.shown console.new)) }
    ensures puts { OnlyPuts (S.shown store.old) (S.shown store.new) }
    ensures writes { OnlyWrites (C.shown console.old) (C.shown console.new) }
    ensures line { NamesNothing result }
{
    if let Err(outcome) = put(args.out, results.image.as_slice(), store) {
        return outcome;
    }
    if let Err(outcome) = put(args.cert, results.certificate.as_slice(), store) {
        return outcome;
    }
    print_text(results.report.as_slice(), console)
}
