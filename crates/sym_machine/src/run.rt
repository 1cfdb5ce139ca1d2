// Runs of the symbolic machine.

ghost use Rattle.std.specs.Prelude.{◌≡◌, None};
ghost use Rattle.devices.specs.Environment.{no_devices};
ghost use Rattle.psabi_sym.specs.Inputs.{parsed};
ghost use Rattle.sym_machine.specs.Answer.{StepAnswers};
ghost use Rattle.sym_machine.specs.Kept.{IsOf};
ghost use Rattle.sym_machine.specs.Objects.{program_of};
ghost use Rattle.sym_machine.specs.RunEnd.{CountsSteps, Traced, plain_course};
ghost use Rattle.sym_machine.specs.State.{PlainCore};
ghost use Rattle.sym_machine.specs.Step.{plain_step, step_with};
ghost use Rattle.zc_outside.specs.Desk.{OnlyWrites};

use crate::answer::SymStep;
use crate::output::{show, write_to};
use crate::sym::Sym;
use crate::why::Why;
use block_cut::cut::Cut;
use devices::environment::DeviceMap;
use zc_base::place::Place;
use zc_outside::console::{Console, ConsoleFault};

/// How a run ends: the program exited with a status, it is stuck at a place, all steps were made, the
/// console refused a write, or there was no memory for a step.
#[derive(Clone, Copy, PartialEq, Eq, Debug)]
pub enum TraceEnd {
    Exited(u8),
    Stuck(Place, Why),
    Spent,
    Console(ConsoleFault),
    OutOfMemory,
}

/// Runs the symbolic machine on for at most `steps` steps. What the program writes goes to the console, each write in
/// one piece.
pub fn run<C: Console>(sym: &mut Sym<'_>, cut: &Cut, steps: u64, console: &mut C) -> TraceEnd
    requires of { IsOf (program_of (parsed cut.now)) sym.old }
    requires running { sym.old.exit ≡ None }
    ensures ran { Traced (plain_course (program_of (parsed cut.now)) sym.old no_devices steps) result
        (C.shown console.old) (C.shown console.new) }
    ensures writes { OnlyWrites (C.shown console.old) (C.shown console.new) }
{
    run_counted(sym, cut, steps, console).0
}

/// Runs the symbolic machine as `run` does, and says how many steps it made, of which an exit is one.
pub fn run_counted<C: Console>(
    sym: &mut Sym<'_>,
    cut: &Cut,
    steps: u64,
    console: &mut C,
) -> (TraceEnd, u64)
    requires of { IsOf (program_of (parsed cut.now)) sym.old }
    requires running { sym.old.exit ≡ None }
    ensures ran { Traced (plain_course (program_of (parsed cut.now)) sym.old no_devices steps) result.0
        (C.shown console.old) (C.shown console.new) }
    ensures count { CountsSteps (plain_course (program_of (parsed cut.now)) sym.old no_devices steps) result.0
        result.1 (C.shown console.old) (C.shown console.new) }
    ensures writes { OnlyWrites (C.shown console.old) (C.shown console.new) }
{
    run_with(sym, cut, DeviceMap::none(), steps, console)
}

/// Runs the symbolic machine as `run_counted` does, with devices. A load from one and an instruction of the system take
/// bytes from the front of the input, and a byte that is stored at an address for output goes to the console.
pub fn run_with<C: Console>(
    sym: &mut Sym<'_>,
    cut: &Cut,
    devices: DeviceMap<'_>,
    steps: u64,
    console: &mut C,
) -> (TraceEnd, u64)
    requires of { IsOf (program_of (parsed cut.now)) sym.old }
    requires running { sym.old.exit ≡ None }
    ensures ran { Traced (plain_course (program_of (parsed cut.now)) sym.old devices.entry steps) result.0
        (C.shown console.old) (C.shown console.new) }
    ensures count { CountsSteps (plain_course (program_of (parsed cut.now)) sym.old devices.entry steps) result.0
        result.1 (C.shown console.old) (C.shown console.new) }
    ensures writes { OnlyWrites (C.shown console.old) (C.shown console.new) }
{
    let mut made = 0;
    while made < steps {
        let (quiet, answer) = sym.advance(cut, steps - made);
        made += quiet;
        let Ok(mut step) = answer else {
            return (TraceEnd::OutOfMemory, made);
        };
        ask_if_stuck(sym, cut, &devices, &mut step);
        match step {
            SymStep::Done
            | SymStep::Read { .. }
            | SymStep::Loaded { .. }
            | SymStep::StoredCode { .. }
            | SymStep::System { .. } => {}
            SymStep::Wrote { fd, bytes } => {
                if let Err(fault) = write_to(console, fd, &bytes) {
                    return (TraceEnd::Console(fault), made);
                }
            }
            SymStep::Stored(sent) => {
                if let Err(fault) = show(console, &devices, sent) {
                    return (TraceEnd::Console(fault), made);
                }
            }
            SymStep::Exited(status) => return (TraceEnd::Exited(status), made + 1),
            SymStep::Stuck(place, why) => return (TraceEnd::Stuck(place, why), made),
        }
        made += 1;
    }
    (TraceEnd::Spent, steps)
}

// Asks devices for a step that is stuck, and puts their answer in its place if they have one. In place, since copies of
// an answer took a seventh of the time of a poll.
#[inline(always)]
fn ask_if_stuck(sym: &mut Sym<'_>, cut: &Cut, devices: &DeviceMap<'_>, step: &mut SymStep)
    requires { IsOf (program_of (parsed cut.now)) sym.old }
    ensures { let p = program_of (parsed cut.now) in (s : PlainCore) → StepAnswers (plain_step p s) step.old s sym.old
        → StepAnswers (step_with devices.now.all p s) step.new s sym.new }
{
    if let SymStep::Stuck(_, _) = step {
        if let Some(answer) = sym.ask(cut, devices) {
            *step = answer;
        }
    }
}
