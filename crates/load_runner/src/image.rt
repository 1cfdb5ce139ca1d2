// The run of an image.

ghost use Rattle.std.specs.Prelude.{◌≡◌, ℕ, [], List, IfErr, IfOk, None};
ghost use Rattle.elf32_read.specs.Image.{image_fault};
ghost use Rattle.load_runner.specs.Cause.{BothCause, ImageCause};
ghost use Rattle.load_runner.specs.Runs.{BeginsImage, EventuallyExits, image_run};
ghost use Rattle.zc_base.specs.MemMap.{standard_map};
ghost use Rattle.zc_machine.specs.Load.{first_core_of};
ghost use Rattle.zc_outside.specs.Course.{ExitsAt};

use crate::ended::{Ended, exit_of};
use crate::load_end::LoadEnd;
use crate::run_load::LOAD_STEPS;
use elf32_read::image::Image;
use interrupt_plan::plan::{Plan, empty_plan};
use std::alloc::Global;
use zc_base::mem_map::MemMap;
use zc_link::linked::Linked;
use zc_machine::machine::Machine;
use zc_machine::run::{RunEnd, run};
use zc_outside::console::ConsoleFault;
use zc_outside::mem_console::MemConsole;

/// Runs the image of a link twice without input, first without interrupts and then under a plan, each up to its exit.
pub fn run_both(alloc: Global, linked: &Linked, plan: &Plan) -> Result<(Ended, Ended), LoadEnd>
    requires faultless { image_fault linked.now.elf standard_map ≡ None }
    requires uncut_exits { EventuallyExits linked.now.elf [] }
    requires exits { EventuallyExits linked.now.elf plan.now }
    ensures uncut { IfOk result (λ ends. ExitsAt (image_run linked.now.elf []) ends.0.count ends.0.exit) }
    ensures cut { IfOk result (λ ends. ExitsAt (image_run linked.now.elf plan.now) ends.1.count ends.1.exit) }
    ensures err { IfErr result (BothCause linked.now.elf plan.now) }
{
    let uncut = run_uncut(alloc, linked)?;
    let cut = run_image(alloc, linked, plan)?;
    Ok((uncut, cut))
}

/// Runs the image of a link without input and without interrupts, up to its exit.
pub fn run_uncut(alloc: Global, linked: &Linked) -> Result<Ended, LoadEnd>
    requires faultless { image_fault linked.now.elf standard_map ≡ None }
    requires exits { EventuallyExits linked.now.elf [] }
    ensures ok { IfOk result (λ ended. ExitsAt (image_run linked.now.elf []) ended.count ended.exit) }
    ensures err { IfErr result (ImageCause linked.now.elf []) }
{
    let no_cuts = empty_plan(alloc);
    run_image(alloc, linked, &no_cuts)
}

/// Runs the image of a link without input under a plan, up to its exit. An image that exits is never stopped before
/// its exit.
fn run_image(alloc: Global, linked: &Linked, plan: &Plan) -> Result<Ended, LoadEnd>
    requires faultless { image_fault linked.now.elf standard_map ≡ None }
    requires exits { EventuallyExits linked.now.elf plan.now }
    ensures ok { IfOk result (λ ended. ExitsAt (image_run linked.now.elf plan.now) ended.count ended.exit) }
    ensures err { IfErr result (ImageCause linked.now.elf plan.now) }
{
    let Ok(image) = Image::read(linked.elf.as_slice(), MemMap::standard()) else {
        unreachable!();
    };
    let mut machine = Machine::load(alloc, &image)?;
    run_machine(alloc, &mut machine, plan)
}

// Runs a machine from the initial state of an image.
fn run_machine(alloc: Global, machine: &mut Machine, plan: &Plan) -> Result<Ended, LoadEnd>
    requires { BeginsImage machine.old plan.now }
    ensures ok { IfOk result (λ ended. (elf : List ℕ) → machine.old ≡ first_core_of elf standard_map
        → ExitsAt (image_run elf plan.now) ended.count ended.exit) }
    ensures err { IfErr result (λ end. (elf : List ℕ) → machine.old ≡ first_core_of elf standard_map
        → ImageCause elf plan.now end) }
{
    let mut console = MemConsole::new(alloc, &[], &[])?;
    match run(machine, plan, &[], LOAD_STEPS, &mut console) {
        RunEnd::Exit(status) => Ok(Ended {
            count: machine.commits(),
            exit: exit_of(alloc, &console, status)?,
        }),
        RunEnd::Spent => Err(LoadEnd::Spent),
        RunEnd::Console(ConsoleFault::OutOfMemory) => Err(LoadEnd::OutOfMemory),
        RunEnd::Stopped(_) => unreachable!(),
        RunEnd::Console(ConsoleFault::Failed) => unreachable!(),
    }
}
