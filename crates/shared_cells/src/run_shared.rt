// Runs under plans with cells.

ghost use Rattle.std.specs.Prelude.{◌≡◌, None};
ghost use Rattle.devices.specs.Environment.{only_input};
ghost use Rattle.zc_machine.specs.RunEnd.{Ran, course_of};
ghost use Rattle.zc_outside.specs.Desk.{OnlyWrites};
ghost use Rattle.shared_cells.specs.SharedRun.{shared_by};

use crate::ranges::Ranges;
use crate::shared_schedule::SharedSchedule;
use devices::environment::Environment;
use interrupt_plan::shared_plan::SharedPlan;
use zc_machine::machine::Machine;
use zc_machine::run::{RunEnd, run_with};
use zc_machine::schedule_cursor::ScheduleCursor;
use zc_outside::console::Console;

/// Runs a machine as `run` does, under a plan with cells: each interrupt is followed by its cells. Of these, those are
/// written that lie in one of the ranges `shared`, each a first address and a size, in any order, and in a segment of
/// data; the others are passed over.
pub fn run_shared<C: Console>(
    machine: &mut Machine,
    plan: &SharedPlan,
    shared: &[(u32, u32)],
    input: &[u8],
    steps: u64,
    console: &mut C,
) -> RunEnd
    requires running { machine.old.exit ≡ None }
    requires start { machine.old.commits ≡ 0 }
    ensures ran { Ran (shared_by shared.now plan.now) (course_of machine.old (only_input input.now)
        (shared_by shared.now plan.now) steps) result machine.new (C.shown console.old) (C.shown console.new) }
    ensures writes { OnlyWrites (C.shown console.old) (C.shown console.new) }
{
    let ranges = Ranges::new(shared);
    let schedule = SharedSchedule { plan, ranges };
    let environment = Environment::of_input(input);
    run_with(
        machine,
        ScheduleCursor::new(&schedule),
        environment,
        steps,
        console,
    )
}
