// Instructions that go by a sum: `addi`, `jalr`, loads and stores. The sum is that of a register and an
// immediate, or the lower part of an address.

ghost use Rattle.std.specs.Prelude.{◌≡◌, None};
ghost use Rattle.sym_machine.specs.Answer.{Makes};
ghost use Rattle.sym_machine.specs.AddressParts as parts;
ghost use Rattle.sym_machine.specs.Change.{base_register, by_sum};
ghost use Rattle.sym_machine.specs.Kept.{word_of};
ghost use Rattle.sym_machine.specs.State.{reg_of};
ghost use Rattle.sym_machine.specs.Step.{applied};

use super::State;
use crate::address_parts::low_sum;
use crate::answer::SymStep;
use crate::held::Held;
use crate::why::Why;
use psabi_sym::target::Target;
use rv_decode::instr::{ImmOp, Instr};
use std::alloc::AllocError;
use zc_base::place::Place;

impl State<'_> {
    // An instruction whose immediate is the lower part of a target.
    pub(super) fn step_lo(
        &mut self,
        instr: &Instr,
        target: Target,
        next: Place,
    ) -> Result<SymStep, AllocError>
        requires { self.old.core.exit ≡ None }
        ensures { Makes result (applied self.old.map self.old.core (by_sum instr.now (parts.low_sum target
            (reg_of self.old.core (base_register instr.now))) self.old.core next)) self.old.core self.new.core }
    {
        let word = low_sum(target, &self.base(instr));
        self.step_sum(instr, &word, next)
    }

    // The word in the register that the sum of an instruction begins with.
    pub(super) fn base(&self, instr: &Instr) -> Held
        ensures { word_of result ≡ reg_of self.now.core (base_register instr.now) }
    {
        match instr {
            Instr::Jalr { base, .. }
            | Instr::Load { base, .. }
            | Instr::Store { base, .. }
            | Instr::WithImm { first: base, .. } => *self.register(*base),
            _ => Held::Number(0),
        }
    }

    // An instruction that goes by a sum, with the word of that sum.
    pub(super) fn step_sum(
        &mut self,
        instr: &Instr,
        word: &Held,
        next: Place,
    ) -> Result<SymStep, AllocError>
        requires { self.old.core.exit ≡ None }
        ensures { Makes result (applied self.old.map self.old.core (by_sum instr.now
            (word_of word.now) self.old.core next)) self.old.core self.new.core }
    {
        match instr {
            Instr::Jalr { rd, .. } => self.jump(word.code(), *rd, next),
            Instr::Load { op, rd, .. } => self.step_load(*op, *rd, word.number(), next),
            Instr::Store { op, source, .. } => {
                self.step_store(*op, *source, word.number(), next)
            }
            Instr::WithImm {
                op: ImmOp::Addi,
                rd,
                ..
            } => self.give(*rd, word, next),
            _ => Ok(self.stuck(Why::NoInstruction)),
        }
    }
}
