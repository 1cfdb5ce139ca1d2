// A plan with cells as a schedule of its interrupts, each with its cells.

ghost use Rattle.std.specs.Prelude.{◌≡◌, map};
ghost use Rattle.zc_machine.specs.Interrupt.{interrupted};
ghost use Rattle.shared_cells.specs.SharedRun.{cells_written};

use crate::ranges::Ranges;
use interrupt_plan::shared_plan::{SharedCut, SharedPlan};
use zc_machine::machine::Machine;
use zc_machine::schedule::Schedule;

/// A plan, and the ranges that its cells are written in.
#[derive(Drop)]
pub struct SharedSchedule<'a> {
    pub plan: &'a SharedPlan,
    pub ranges: Ranges<'a>,
}

impl Schedule for SharedSchedule<'_> {
    ghost entries = { λ s. map (λ e. record {
      at = e.entry.at;
      makes = λ z. cells_written s.ranges e.cells (interrupted e.entry.cut z);
    }) s.plan.now };

    fn count(&self) -> u32 {
        self.plan.cut_count()
    }

    fn at(&self, i: u32) -> u64 {
        self.plan.cut(i).at
    }

    #[tactic(auto, using(crate::proofs::SharedLaws::entry_commits, crate::proofs::SharedLaws::entry_exit))]
    fn make(&self, i: u32, machine: &mut Machine) {
        make_entry(machine, self.plan.cut(i), &self.ranges);
    }
}

// Makes an interrupt, and then writes those of its cells that lie in one of the ranges.
fn make_entry(machine: &mut Machine, cut: &SharedCut, ranges: &Ranges)
    ensures { machine.new ≡ cells_written ranges.now cut.now.cells (interrupted cut.now.entry.cut machine.old) }
{
    machine.cut(cut.done.as_slice(), cut.dirt.as_slice());
    write_cells(machine, cut.cells.as_slice(), ranges);
}

// Writes those cells that lie in one of the ranges.
fn write_cells(machine: &mut Machine, cells: &[(u32, u8)], ranges: &Ranges)
    ensures { machine.new ≡ cells_written ranges.now cells.now machine.old }
{
    for (at, byte) in cells {
        if ranges.contains(*at) {
            machine.poke(*at, *byte);
        }
    }
}
