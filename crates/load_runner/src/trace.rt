// The run of the objects' program.

ghost use Rattle.std.specs.Prelude.{◌≡◌, [], IfErr, IfOk};
ghost use Rattle.load_runner.specs.Cause.{TraceCause};
ghost use Rattle.load_runner.specs.Runs.{IsTraced};
ghost use Rattle.psabi_sym.specs.Inputs.{parsed};
ghost use Rattle.sym_machine.specs.Objects.{program_of};
ghost use Rattle.sym_machine.specs.State.{first_plain};

use crate::ended::{Ended, exit_of};
use crate::load_end::LoadEnd;
use crate::run_load::LOAD_STEPS;
use block_cut::cut::Cut;
use std::alloc::Global;
use sym_machine::run::{TraceEnd, run_counted};
use sym_machine::sym::Sym;
use zc_outside::console::ConsoleFault;
use zc_outside::mem_console::MemConsole;

/// Traces the program of the objects without input, up to its exit.
pub fn trace(alloc: Global, cut: &Cut) -> Result<Ended, LoadEnd>
    ensures ok { IfOk result (λ ended. IsTraced cut.now ended.count ended.exit) }
    ensures err { IfErr result (TraceCause cut.now) }
{
    let mut sym = Sym::start(alloc, cut, &[])?;
    trace_start(alloc, cut, &mut sym)
}

// Traces the program from its start.
fn trace_start(alloc: Global, cut: &Cut, sym: &mut Sym<'_>) -> Result<Ended, LoadEnd>
    requires { sym.old ≡ first_plain (program_of (parsed cut.now)) [] }
    ensures ok { IfOk result (λ ended. IsTraced cut.now ended.count ended.exit) }
    ensures err { IfErr result (TraceCause cut.now) }
{
    let mut console = MemConsole::new(alloc, &[], &[])?;
    let (end, count) = run_counted(sym, cut, LOAD_STEPS, &mut console);
    match end {
        TraceEnd::Exited(status) => Ok(Ended {
            count,
            exit: exit_of(alloc, &console, status)?,
        }),
        TraceEnd::Stuck(place, why) => Err(LoadEnd::Stuck(place, why)),
        TraceEnd::Spent => Err(LoadEnd::Spent),
        TraceEnd::OutOfMemory | TraceEnd::Console(ConsoleFault::OutOfMemory) => {
            Err(LoadEnd::OutOfMemory)
        }
        TraceEnd::Console(ConsoleFault::Failed) => unreachable!(),
    }
}
