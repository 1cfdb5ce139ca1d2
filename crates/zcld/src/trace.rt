// The command `trace`: objects are read, and the symbolic machine runs them with devices.

ghost use Rattle.std.specs.Prelude.{◌≡◌, ◌⊎◌, ◌++◌, ℕ, IfOk, IfErr, List, None, Ok, Some, not, option_copied};
ghost use Rattle.std.specs.Option.{option_or};
ghost use Rattle.block_cut.specs.Faults.{first_fault};
ghost use Rattle.devices.specs.Lines.{starts_reset};
ghost use Rattle.psabi_sym.specs.Faults.{gather_fault};
ghost use Rattle.psabi_sym.specs.Inputs.{parsed};
ghost use Rattle.psabi_sym.specs.Objects.{contents_of};
ghost use Rattle.sym_machine.specs.Objects.{program_of};
ghost use Rattle.zc_base.specs.MemMap.{IsMap};
ghost use Rattle.zc_outside.specs.Shelf.{Shelf};
ghost use Rattle.zc_outside.specs.Wanted.{AreRead, ReadsAll};
ghost use Rattle.zc_outside.specs.World.{world};
ghost use Rattle.command_words.specs.Command.{texts, trace_meant};
ghost use Rattle.zcld.specs.Call.{DoesWith};
ghost use Rattle.zcld.specs.ErrLine.{NamesNothing};
ghost use Rattle.zcld.specs.Given.{IsGiven, devices_refusal, lines_given, text_file, text_held};
ghost use Rattle.zcld.specs.Machines.{AnswersOrTakes};
ghost use Rattle.zcld.specs.Objects.{refused_for};
ghost use Rattle.zcld.specs.Reading.{KeepsAll};
ghost use Rattle.zcld.specs.Task.{UnreadCause};
ghost use Rattle.zcld.specs.Trace.{Traces, trace_outcome as outcome_of_end, trace_wanted};

use crate::ending::Ending;
use crate::given::{devices_given, read_given};
use crate::input::take_unless;
use crate::objects::{Reading, gather, read_all};
use crate::outcome::Outcome;
use block_cut::cut::Cut;
use command_words::command_line::TraceArgs;
use devices::device_list::Devices;
use devices::environment::DeviceMap;
use devices::read_devices::DEVICES_LIMIT;
use psabi_sym::objects::Objects;
use std::alloc::Global;
use sym_machine::run::{TraceEnd, run_with};
use sym_machine::sym::Sym;
use zc_base::mem_map::MemMap;
use zc_outside::console::{Console, ConsoleFault};
use zc_outside::store::Store;

// The files that `trace` reads: the objects, and a text of devices if there is one.
#[derive(Drop)]
struct TraceFiles {
    objects: Reading,
    devices: Option<Vec<u8>>,
}

// What `trace` runs: the objects' items, with devices.
#[derive(Drop)]
struct Traceable {
    cut: Cut,
    devices: Devices,
}

/// Runs the objects at the places of their own code, with the devices under a name if there are any. They run over the
/// console's whole input, unless the devices have answers.
pub fn trace<S: Store, C: Console>(
    alloc: Global,
    args: &TraceArgs,
    store: &mut S,
    console: &mut C,
) -> Ending
    requires { IsMap args.now.options.map }
    ensures { DoesWith (Some (trace_meant args.now)) (contents_of result.files.items) result.outcome
        (world (S.shown store.old) (C.shown console.old)) (world (S.shown store.new) (C.shown console.new)) }
{
    let files = match read_files(alloc, args, store) {
        Ok(files) => files,
        Err(outcome) => return Ending::alone(alloc, outcome),
    };
    let objects = match gather(alloc, files.objects, &args.options) {
        Ok(objects) => objects,
        Err(ending) => return ending,
    };
    match make_traceable(alloc, objects, &files.devices, args.options.map()) {
        Ok(program) => Ending::alone(alloc, execute(alloc, &program, args.steps, console)),
        Err(outcome) => Ending::alone(alloc, outcome),
    }
}

// Reads the objects, and then the devices, if there are any, before any of them is judged; or says how the call ends
// without them.
fn read_files<S: Store>(
    alloc: Global,
    args: &TraceArgs,
    store: &mut S,
) -> Result<TraceFiles, Outcome>
    ensures ok { IfOk result (λ files. (read : List (List ℕ)) × KeepsAll read files.objects × AreRead
        (S.shown store.old).files (trace_wanted (option_copied args.now.devices) (texts args.now.objects.items))
        (read ++ text_file (text_held files.devices))) }
    ensures given { IfOk result (λ files. IsGiven (option_copied args.now.devices) (text_held files.devices)) }
    ensures err { IfErr result (UnreadCause
        (trace_wanted (option_copied args.now.devices) (texts args.now.objects.items))
        (S.shown store.old) (S.shown store.new)) }
    ensures reads { ReadsAll (trace_wanted (option_copied args.now.devices) (texts args.now.objects.items))
        (S.shown store.old) (S.shown store.new) }
{
    let objects = read_all(alloc, args.objects.as_slice(), store)?;
    let devices = read_given(alloc, args.devices, DEVICES_LIMIT as u32, store)?;
    Ok(TraceFiles { objects, devices })
}

// The items of objects, with the devices that a text names, or the first fault in them.
fn make_traceable(
    alloc: Global,
    objects: Objects,
    text: &Option<Vec<u8>>,
    map: MemMap,
) -> Result<Traceable, Outcome>
    requires { gather_fault objects ≡ None }
    ensures cut { IfOk result (λ program. (program.cut ≡ objects) × (first_fault objects ≡ None)) }
    ensures devices { IfOk result (λ program. lines_given map (text_held text.now) ≡ Ok program.devices) }
    ensures err { IfErr result (λ outcome. (outcome ≡ Outcome.OutOfMemory)
        ⊎ (option_or (refused_for (first_fault objects)) (devices_refusal (lines_given map (text_held text.now)))
        ≡ Some outcome)) }
    ensures line { IfErr result NamesNothing }
{
    let cut = Cut::new(alloc, objects)?;
    let devices = devices_given(alloc, text, map)?;
    Ok(Traceable { cut, devices })
}

// Runs objects with their devices.
fn execute<C: Console>(alloc: Global, program: &Traceable, steps: u64, console: &mut C) -> Outcome
    ensures runs { (shelf : Shelf) → AnswersOrTakes program.now.devices steps
        (Traces (not (starts_reset program.now.devices)) (program_of (parsed program.now.cut)) steps) result
        (world shelf (C.shown console.old)) (world shelf (C.shown console.new)) }
    ensures line { NamesNothing result }
{
    let input = match take_unless(alloc, program.devices.has_answers(), console) {
        Ok(input) => input,
        Err(outcome) => return outcome,
    };
    let answers = program.devices.answers(steps, input.as_slice());
    let sp_set = !program.devices.starts_reset();
    let Ok(mut machine) = Sym::start_with(alloc, &program.cut, answers, sp_set) else {
        return Outcome::OutOfMemory;
    };
    let devices = DeviceMap::new(&program.devices);
    let (end, _) = run_with(&mut machine, &program.cut, devices, steps, console);
    trace_outcome(end)
}

// How the call ends, by how the run did.
fn trace_outcome(end: TraceEnd) -> Outcome
    ensures value { result ≡ outcome_of_end end }
    ensures line { NamesNothing result }
{
    match end {
        TraceEnd::Exited(code) => Outcome::Exited(code),
        TraceEnd::Stuck(place, why) => Outcome::Stuck(place, why),
        TraceEnd::Spent => Outcome::Spent,
        TraceEnd::Console(ConsoleFault::Failed) => Outcome::WriteFault,
        TraceEnd::Console(ConsoleFault::OutOfMemory) | TraceEnd::OutOfMemory => {
            Outcome::OutOfMemory
        }
    }
}
