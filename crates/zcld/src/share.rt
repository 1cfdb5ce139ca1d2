// The command `share`: objects are linked, and the image runs under a plan of interrupts that also write shared data.

ghost use Rattle.std.specs.Prelude.{◌≡◌, ◌⊎◌, ◌++◌, ◌∷◌, ℕ, [], IfOk, IfErr, List, None, Some};
ghost use Rattle.std.specs.List.Sorted.{IsPermutation};
ghost use Rattle.std.specs.Option.{option_or};
ghost use Rattle.block_cut.specs.Faults.{first_fault};
ghost use Rattle.command_words.specs.Command.{share_meant, texts};
ghost use Rattle.elf32_read.specs.Image.{image_fault};
ghost use Rattle.interrupt_plan.specs.Text.{shared_in};
ghost use Rattle.psabi_sym.specs.Faults.{gather_fault};
ghost use Rattle.psabi_sym.specs.Inputs.{parsed};
ghost use Rattle.psabi_sym.specs.Objects.{contents_of};
ghost use Rattle.psabi_sym.specs.Shared.{shared_ranges};
ghost use Rattle.shared_cells.specs.SharedRun.{shared_by};
ghost use Rattle.zc_base.specs.MemMap.{IsMap};
ghost use Rattle.zc_machine.specs.Load.{first_core_of};
ghost use Rattle.zc_outside.specs.Wanted.{AreRead, ReadsAll};
ghost use Rattle.zc_outside.specs.World.{world};
ghost use Rattle.zcld.specs.Call.{DoesWith};
ghost use Rattle.zcld.specs.ErrLine.{NamesNothing};
ghost use Rattle.zcld.specs.Machines.{TakesAndRuns};
ghost use Rattle.zcld.specs.Objects.{refused_for};
ghost use Rattle.zcld.specs.Reading.{KeepsAll};
ghost use Rattle.zcld.specs.Run.{plan_refusal};
ghost use Rattle.zcld.specs.Share.{IsReadyToShare, PutsAndRuns, RunsFrom, share_wanted};
ghost use Rattle.zcld.specs.Task.{UnreadCause};

use crate::ending::Ending;
use crate::objects::{Reading, gather, read_all};
use crate::outcome::Outcome;
use crate::put::put;
use crate::ready::{Ready, make_ready};
use crate::run::run_outcome;
use command_words::command_line::ShareArgs;
use elf32_read::image::Image;
use interrupt_plan::read_plan::PLAN_LIMIT;
use interrupt_plan::read_shared::read_shared;
use interrupt_plan::shared_plan::SharedPlan;
use psabi_sym::objects::Objects;
use shared_cells::run_shared::run_shared;
use std::alloc::{AllocError, Global};
use zc_link::zc::link_zc;
use zc_outside::console::Console;
use zc_outside::read_files::read_file;
use zc_outside::store::Store;

// The files that `share` reads: the objects, and the text of the plan.
#[derive(Drop)]
struct ShareFiles {
    objects: Reading,
    plan: Vec<u8>,
}

// What `share` puts and runs: an image, the plan, and the ranges in which the plan's cells are written.
#[derive(Drop)]
struct SharedImage {
    image: Vec<u8>,
    plan: SharedPlan,
    ranges: Vec<(u32, u32)>,
}

/// Links the objects to an image, and runs it over the console's whole input, under a plan of interrupts that also write
/// the objects' shared data, for at most `steps` commits.
pub fn share<S: Store, C: Console>(
    alloc: Global,
    args: &ShareArgs,
    store: &mut S,
    console: &mut C,
) -> Ending
    requires { IsMap args.now.options.map }
    ensures { DoesWith (Some (share_meant args.now)) (contents_of result.files.items) result.outcome
        (world (S.shown store.old) (C.shown console.old)) (world (S.shown store.new) (C.shown console.new)) }
{
    let files = match read_files(alloc, args, store) {
        Ok(files) => files,
        Err(outcome) => return Ending::alone(alloc, outcome),
    };
    let objects = match gather(alloc, files.objects, &args.options) {
        Ok(objects) => objects,
        Err(ending) => return ending,
    };
    match shared_image(alloc, objects, files.plan.as_slice()) {
        Ok(shared) => Ending::alone(alloc, put_and_run(alloc, args, &shared, store, console)),
        Err(outcome) => Ending::alone(alloc, outcome),
    }
}

// Reads the objects and then the plan, before any of them is judged, or says how the call ends without them.
fn read_files<S: Store>(
    alloc: Global,
    args: &ShareArgs,
    store: &mut S,
) -> Result<ShareFiles, Outcome>
    ensures ok { IfOk result (λ files. (read : List (List ℕ)) × KeepsAll read files.objects × AreRead
        (S.shown store.old).files (share_wanted args.now.plan.now (texts args.now.objects.items)) (read ++ files.plan.items ∷ [])) }
    ensures err { IfErr result (UnreadCause (share_wanted args.now.plan.now (texts args.now.objects.items))
        (S.shown store.old) (S.shown store.new)) }
    ensures reads { ReadsAll (share_wanted args.now.plan.now (texts args.now.objects.items))
        (S.shown store.old) (S.shown store.new) }
{
    let objects = read_all(alloc, args.objects.as_slice(), store)?;
    let plan = read_file(alloc, args.plan, PLAN_LIMIT as u32, store)?;
    Ok(ShareFiles { objects, plan })
}

// The image of the objects' link, with the plan that a text spells and the ranges of the objects' shared data; or why
// there is none.
fn shared_image(alloc: Global, objects: Objects, text: &[u8]) -> Result<SharedImage, Outcome>
    requires { gather_fault objects ≡ None }
    ensures ok { IfOk result (λ shared. IsReadyToShare objects text.now shared) }
    ensures err { IfErr result (λ outcome. (outcome ≡ Outcome.OutOfMemory)
        ⊎ (option_or (refused_for (first_fault objects)) (plan_refusal (shared_in text.now)) ≡ Some outcome)) }
    ensures line { IfErr result NamesNothing }
{
    let ranges = sorted_ranges(alloc, &objects)?;
    let linked = link_zc(alloc, objects)?;
    let plan = read_shared(alloc, text)?;
    Ok(SharedImage {
        image: linked.elf,
        plan,
        ranges,
    })
}

// The ranges of the objects' shared data, by their addresses: the range that a cell lies in is found fast among them.
fn sorted_ranges(alloc: Global, objects: &Objects) -> Result<Vec<(u32, u32)>, AllocError>
    ensures { IfOk result (λ ranges. IsPermutation (shared_ranges (parsed objects.now)) ranges.items) }
{
    let mut ranges = objects.shared(alloc)?;
    ranges.sort_unstable();
    Ok(ranges)
}

// Takes the console's whole input, puts the image, and runs it under the plan. All memory is taken before the image is put.
fn put_and_run<S: Store, C: Console>(
    alloc: Global,
    args: &ShareArgs,
    shared: &SharedImage,
    store: &mut S,
    console: &mut C,
) -> Outcome
    requires map { IsMap args.now.options.map }
    requires faultless { image_fault shared.now.image.items args.now.options.map ≡ None }
    ensures runs { TakesAndRuns (PutsAndRuns args.now.out.now shared.now.image.items
        (RunsFrom (first_core_of shared.now.image.items args.now.options.map)
        (shared_by shared.now.ranges.items shared.now.plan) args.now.steps)) result
        (world (S.shown store.old) (C.shown console.old)) (world (S.shown store.new) (C.shown console.new)) }
    ensures line { NamesNothing result }
{
    let Ok(image) = Image::read(shared.image.as_slice(), args.options.map()) else {
        unreachable!();
    };
    let Ready { mut machine, input } = match make_ready(alloc, &image, false, console) {
        Ok(ready) => ready,
        Err(outcome) => return outcome,
    };
    if let Err(outcome) = put(args.out, shared.image.as_slice(), store) {
        return outcome;
    }
    let end = run_shared(
        &mut machine,
        &shared.plan,
        shared.ranges.as_slice(),
        input.as_slice(),
        args.steps,
        console,
    );
    run_outcome(end, machine.pc())
}
