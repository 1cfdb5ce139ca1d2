// The command `run`: an image is read, and the machine runs it with devices and under a plan of interrupts.

ghost use Rattle.std.specs.Prelude.{◌≡◌, ◌⊎◌, ℕ, IfOk, IfErr, List, None, Ok, Err, Some, option_copied};
ghost use Rattle.devices.specs.Environment.{environment_of};
ghost use Rattle.zc_base.specs.MemMap.{IsMap};
ghost use Rattle.zc_machine.specs.Load.{first_core_of};
ghost use Rattle.zc_machine.specs.Run.{interrupts_by};
ghost use Rattle.zc_outside.specs.Desk.{OnlyWrites};
ghost use Rattle.zc_outside.specs.Wanted.{AreRead, ReadsAll};
ghost use Rattle.zc_outside.specs.Shelf.{Shelf};
ghost use Rattle.zc_outside.specs.World.{world};
ghost use Rattle.command_words.specs.Command.{run_meant};
ghost use Rattle.zcld.specs.Call.{DoesWith};
ghost use Rattle.zcld.specs.ErrLine.{NamesNothing};
ghost use Rattle.zcld.specs.Given.{lines_given, text_held};
ghost use Rattle.zcld.specs.Machines.{AnswersOrTakes};
ghost use Rattle.zcld.specs.Run.{EndsRun, Runs, files_in_order, plan_given, run_outcome as outcome_of_end, run_texts, run_wanted, started_core, texts_held, texts_refusal};
ghost use Rattle.zcld.specs.Task.{UnreadCause};

use crate::given::{devices_given, read_given};
use crate::limits::IMAGE_LIMIT;
use crate::outcome::{FileFault, Outcome};
use crate::ready::{Ready, make_ready};
use command_words::command_line::RunArgs;
use devices::device_list::Devices;
use devices::environment::Environment;
use devices::read_devices::DEVICES_LIMIT;
use elf32_read::image::Image;
use interrupt_plan::fault::PlanFault;
use interrupt_plan::plan::{Plan, empty_plan};
use interrupt_plan::read_plan::{PLAN_LIMIT, read_plan};
use std::alloc::Global;
use zc_base::mem_map::MemMap;
use zc_machine::machine::Machine;
use zc_machine::run::{RunEnd, run_with};
use zc_machine::schedule_cursor::ScheduleCursor;
use zc_outside::console::{Console, ConsoleFault};
use zc_outside::read_files::read_file;
use zc_outside::store::Store;

// The files that `run` reads: an image, and texts of devices and of a plan of interrupts if there are any.
#[derive(Drop)]
struct RunFiles {
    image: Vec<u8>,
    devices: Option<Vec<u8>>,
    plan: Option<Vec<u8>>,
}

// What an image runs with: devices, and a plan of interrupts.
#[derive(Drop)]
struct Setting {
    devices: Devices,
    plan: Plan,
}

/// Runs the image under a name, with the devices and under the plan of interrupts under other names if there are any,
/// for at most `steps` commits. It runs over the console's whole input, unless the devices have answers.
///
/// The line of its outcome names nothing in the files, so they aren't kept.
pub fn run<S: Store, C: Console>(
    alloc: Global,
    args: RunArgs,
    store: &mut S,
    console: &mut C,
) -> Outcome
    requires { IsMap args.map }
    ensures { (left : List (List ℕ)) → DoesWith (Some (run_meant args.entry)) left result
        (world (S.shown store.old) (C.shown console.old)) (world (S.shown store.new) (C.shown console.new)) }
{
    let files = match read_files(alloc, args, store) {
        Ok(files) => files,
        Err(outcome) => return outcome,
    };
    let image = match Image::read(files.image.as_slice(), args.map) {
        Ok(image) => image,
        Err(fault) => return Outcome::BadFile(FileFault::Image(fault)),
    };
    match setting_of(alloc, &files, args.map) {
        Ok(setting) => execute(alloc, &image, &setting, args.steps, console),
        Err(outcome) => outcome,
    }
}

// Reads the image, and then the devices and the plan, if there are any, before any of them is judged; or says how the
// call ends without them.
fn read_files<S: Store>(alloc: Global, args: RunArgs, store: &mut S) -> Result<RunFiles, Outcome>
    ensures ok { IfOk result (λ files. AreRead (S.shown store.old).files
        (run_wanted (option_copied args.entry.devices) (option_copied args.entry.plan) args.entry.image.now)
        (files_in_order (texts_held files))) }
    ensures texts { IfOk result (λ files. run_texts (option_copied args.entry.devices) (option_copied args.entry.plan)
        (files_in_order (texts_held files)) ≡ texts_held files) }
    ensures err { IfErr result (UnreadCause
        (run_wanted (option_copied args.entry.devices) (option_copied args.entry.plan) args.entry.image.now)
        (S.shown store.old) (S.shown store.new)) }
    ensures reads { ReadsAll
        (run_wanted (option_copied args.entry.devices) (option_copied args.entry.plan) args.entry.image.now)
        (S.shown store.old) (S.shown store.new) }
{
    let image = read_file(alloc, args.image, IMAGE_LIMIT, store)?;
    let devices = read_given(alloc, args.devices, DEVICES_LIMIT as u32, store)?;
    let plan = read_given(alloc, args.plan, PLAN_LIMIT as u32, store)?;
    Ok(RunFiles {
        image,
        devices,
        plan,
    })
}

// What the texts of devices and of a plan say, or the first fault in them.
fn setting_of(alloc: Global, files: &RunFiles, map: MemMap) -> Result<Setting, Outcome>
    ensures devices { IfOk result (λ setting. lines_given map (texts_held files.now).devices ≡ Ok setting.devices) }
    ensures plan { IfOk result (λ setting. plan_given (texts_held files.now).plan ≡ Ok setting.plan) }
    ensures err { IfErr result (λ outcome. (outcome ≡ Outcome.OutOfMemory)
        ⊎ (texts_refusal map (texts_held files.now) ≡ Some outcome)) }
    ensures line { IfErr result NamesNothing }
{
    let devices = devices_given(alloc, &files.devices, map)?;
    let plan = plan_given(alloc, &files.plan)?;
    Ok(Setting { devices, plan })
}

// The plan that a text spells, or the one without interrupts without a text.
fn plan_given(alloc: Global, text: &Option<Vec<u8>>) -> Result<Plan, PlanFault>
    ensures ok { IfOk result (λ plan. plan_given (text_held text.now) ≡ Ok plan) }
    ensures err { IfErr result (λ fault.
        (fault ≡ PlanFault.OutOfMemory) ⊎ (plan_given (text_held text.now) ≡ Err fault)) }
{
    match text {
        Some(text) => read_plan(alloc, text.as_slice()),
        None => Ok(empty_plan(alloc)),
    }
}

// Runs an image in the map that it was read under, with its devices and under its plan.
fn execute<C: Console>(
    alloc: Global,
    image: &Image,
    setting: &Setting,
    steps: u64,
    console: &mut C,
) -> Outcome
    requires { IsMap image.now.1 }
    ensures runs { (shelf : Shelf) → AnswersOrTakes setting.now.devices steps
        (Runs (started_core setting.now.devices (first_core_of image.now.0 image.now.1)) setting.now.plan steps) result
        (world shelf (C.shown console.old)) (world shelf (C.shown console.new)) }
    ensures line { NamesNothing result }
{
    let answered = setting.devices.has_answers();
    let Ready { mut machine, input } = match make_ready(alloc, image, answered, console) {
        Ok(ready) => ready,
        Err(outcome) => return outcome,
    };
    start(&mut machine, &setting.devices);
    let end = run_machine(&mut machine, setting, input.as_slice(), steps, console);
    run_outcome(end, machine.pc())
}

// Puts a machine at the start of its image in the state after a reset, if the lines of its devices say so.
fn start(machine: &mut Machine, devices: &Devices)
    ensures { machine.new ≡ started_core devices.now machine.old }
{
    if devices.starts_reset() {
        machine.reset();
    }
}

// Runs a machine from its start over what its devices answer, or this input, and under its plan.
fn run_machine<C: Console>(
    machine: &mut Machine,
    setting: &Setting,
    input: &[u8],
    steps: u64,
    console: &mut C,
) -> RunEnd
    requires running { machine.old.exit ≡ None }
    requires start { machine.old.commits ≡ 0 }
    ensures ran { EndsRun machine.old (interrupts_by setting.now.plan) steps
        (environment_of setting.now.devices steps input.now) (result, machine.new)
        (C.shown console.old) (C.shown console.new) }
    ensures writes { OnlyWrites (C.shown console.old) (C.shown console.new) }
{
    let between = ScheduleCursor::new(&setting.plan);
    let environment = Environment::new(&setting.devices, steps, input);
    run_with(machine, between, environment, steps, console)
}

/// How the call ends, by how the run did.
pub fn run_outcome(end: RunEnd, pc: u32) -> Outcome
    ensures value { result ≡ outcome_of_end end pc }
    ensures line { NamesNothing result }
{
    match end {
        RunEnd::Exit(code) => Outcome::Exited(code),
        RunEnd::Stopped(reason) => Outcome::Stopped(reason, pc),
        RunEnd::Spent => Outcome::Spent,
        RunEnd::Console(ConsoleFault::Failed) => Outcome::WriteFault,
        RunEnd::Console(ConsoleFault::OutOfMemory) => Outcome::OutOfMemory,
    }
}
