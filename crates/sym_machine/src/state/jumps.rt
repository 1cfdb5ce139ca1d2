// Jumps and branches.

ghost use Rattle.std.specs.Prelude.{◌≡◌, None};
ghost use Rattle.sym_machine.specs.Answer.{Makes, StepAnswers};
ghost use Rattle.sym_machine.specs.Change.{branch_does, jump_does};
ghost use Rattle.sym_machine.specs.Step.{applied};

use super::State;
use crate::answer::SymStep;
use crate::held::Held;
use crate::why::Why;
use std::alloc::AllocError;
use zc_base::place::Place;
use zc_base::reg::Reg;

impl State<'_> {
    // A jump, if it goes to a place in code, with the next place's address in a register.
    pub(super) fn jump(
        &mut self,
        to: Option<Place>,
        rd: Reg,
        next: Place,
    ) -> Result<SymStep, AllocError>
        requires { self.old.core.exit ≡ None }
        ensures { Makes result (applied self.old.map self.old.core (jump_does to rd next)) self.old.core self.new.core }
    {
        match to {
            Some(to) => self.give(rd, &Held::Code(next), to),
            None => Ok(self.stuck(Why::TargetUnknown)),
        }
    }

    // A branch, by its condition.
    pub(super) fn branch(&mut self, taken: Option<bool>, to: Place, next: Place) -> SymStep
        requires { self.old.core.exit ≡ None }
        ensures { StepAnswers (applied self.old.map self.old.core (branch_does taken to next)) result self.old.core
            self.new.core }
    {
        match taken {
            Some(true) => self.go(to),
            Some(false) => self.go(next),
            None => self.stuck(Why::ConditionUnknown),
        }
    }
}
