// A plan as a schedule of its interrupts.

ghost use Rattle.std.specs.Prelude.{map};
ghost use Rattle.zc_machine.specs.Interrupt.{interrupted};

use crate::machine::Machine;
use crate::schedule::Schedule;
use interrupt_plan::plan::Plan;

impl Schedule for Plan {
    ghost entries = { λ plan. map (λ e. record { at = e.at; makes = interrupted e.cut }) plan };

    fn count(&self) -> u32 {
        self.cut_count()
    }

    fn at(&self, i: u32) -> u64 {
        self.cut(i).at
    }

    fn make(&self, i: u32, machine: &mut Machine) {
        let cut = self.cut(i);
        machine.cut(cut.done.as_slice(), cut.dirt.as_slice());
    }
}
