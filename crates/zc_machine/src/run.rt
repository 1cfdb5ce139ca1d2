// Runs of the machine.

ghost use Rattle.std.specs.Prelude.{◌≡◌, ◌<◌, None};
ghost use Rattle.zc_machine.specs.Advance.{AdvancesTo};
ghost use Rattle.zc_machine.specs.Run.{interrupts_by};
ghost use Rattle.zc_machine.specs.RunEnd.{Ran, course_of, zc_course};
ghost use Rattle.zc_outside.specs.Desk.{OnlyWrites};

use crate::answer::{EnvCall, Step};
use crate::between::BetweenCommits;
use crate::device_access::{is_answered, show, unanswered};
use crate::machine::Machine;
use crate::output::write;
use crate::reason::Reason;
use crate::schedule_cursor::ScheduleCursor;
use devices::environment::Environment;
use interrupt_plan::plan::Plan;
use zc_outside::console::{Console, ConsoleFault};

/// How a run ends: the program exited with a status, it is stopped, all steps were made, or the
/// console refused a write.
#[derive(Clone, Copy, PartialEq, Eq, Debug)]
pub enum RunEnd {
    Exit(u8),
    Stopped(Reason),
    Spent,
    Console(ConsoleFault),
}

/// Runs a machine from its start for at most `steps` commits, of which an exit is one, and makes the interrupts of a
/// plan before the commits that they name. What it reads comes from the front of the input, and what it writes goes to
/// the console at once, piece by piece.
pub fn run<C: Console>(
    machine: &mut Machine,
    plan: &Plan,
    input: &[u8],
    steps: u64,
    console: &mut C,
) -> RunEnd
    requires running { machine.old.exit ≡ None }
    requires start { machine.old.commits ≡ 0 }
    ensures ran { Ran (interrupts_by plan.now) (zc_course machine.old input.now plan.now steps) result machine.new
        (C.shown console.old) (C.shown console.new) }
    ensures writes { OnlyWrites (C.shown console.old) (C.shown console.new) }
{
    let environment = Environment::of_input(input);
    run_with(
        machine,
        ScheduleCursor::new(plan),
        environment,
        steps,
        console,
    )
}

/// Runs a machine as `run` does, in an environment and with whatever happens between its commits. A device answers a load
/// with bytes from the front of the input, and a byte that is stored at an address for output goes to the console.
pub fn run_with<B: BetweenCommits + Drop, C: Console>(
    machine: &mut Machine,
    mut between: B,
    environment: Environment<'_>,
    steps: u64,
    console: &mut C,
) -> RunEnd
    requires running { machine.old.exit ≡ None }
    requires start { machine.old.commits ≡ 0 }
    ensures ran { Ran (B.happens between) (course_of machine.old environment.entry (B.happens between) steps) result
        machine.new (C.shown console.old) (C.shown console.new) }
    ensures writes { OnlyWrites (C.shown console.old) (C.shown console.new) }
{
    let Environment {
        devices,
        mut answers,
    } = environment;
    while machine.commits() < steps {
        between.act_on(machine);
        let until = between.next_commit().min(steps);
        match advance(machine, until) {
            Step::Committed => {}
            Step::Wants(EnvCall::Read { .. }) => {
                machine.answer_read_from(&mut answers);
            }
            Step::Wants(EnvCall::Write { fd, at, len }) => {
                if let Err(fault) = write(machine, fd, at, len, console) {
                    return RunEnd::Console(fault);
                }
                machine.answer_write();
            }
            Step::Wants(EnvCall::Exit(status)) => {
                machine.answer_exit();
                return RunEnd::Exit(status);
            }
            Step::Ended(status) => return RunEnd::Exit(status),
            Step::Stopped(reason) => return RunEnd::Stopped(reason),
            Step::Asks(access) => {
                if !is_answered(&devices, &access) {
                    return RunEnd::Stopped(unanswered(&access));
                }
                if let Err(fault) = show(&devices, &access, console) {
                    return RunEnd::Console(fault);
                }
                machine.answer_access(&access, &mut answers);
            }
        }
    }
    RunEnd::Spent
}

// Makes steps until the machine has made `until` commits, or up to one that answers something else. A program has
// this loop once, whatever consoles its runs write to, and whatever happens between their commits.
#[inline(never)]
fn advance(machine: &mut Machine, until: u64) -> Step
    requires { machine.old.commits < until }
    ensures { AdvancesTo machine.old machine.new until result }
{
    loop {
        match machine.step() {
            Step::Committed => {
                if machine.commits() >= until {
                    return Step::Committed;
                }
            }
            other => return other,
        }
    }
}
