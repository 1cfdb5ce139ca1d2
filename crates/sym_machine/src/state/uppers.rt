// `lui` and `auipc`.

ghost use Rattle.std.specs.Prelude.{◌≡◌, None};
ghost use Rattle.sym_machine.specs.Answer.{Makes};
ghost use Rattle.rv_decode.specs.declared.instr.UpperOp.TheVariants.{Auipc, Lui};
ghost use Rattle.sym_machine.specs.AddressParts as parts;
ghost use Rattle.sym_machine.specs.Words.{value_word};
ghost use Rattle.sym_machine.specs.declared.word.Value.TheVariants.{PcHi};
ghost use Rattle.sym_machine.specs.Change.{upper_does};
ghost use Rattle.sym_machine.specs.Step.{applied};

use super::State;
use crate::address_parts::high_word;
use crate::answer::SymStep;
use crate::held::Held;
use crate::why::Why;
use crate::word::Value;
use psabi_sym::target::Target;
use rv_decode::instr::{Instr, UpperOp};
use std::alloc::AllocError;
use zc_base::place::Place;

impl State<'_> {
    // An instruction whose immediate is the upper part of a target.
    pub(super) fn step_hi(
        &mut self,
        instr: &Instr,
        target: Target,
        next: Place,
    ) -> Result<SymStep, AllocError>
        requires { self.old.core.exit ≡ None }
        ensures { Makes result (applied self.old.map self.old.core (upper_does Lui instr.now
            (parts.high_word target) next)) self.old.core self.new.core }
    {
        match instr {
            Instr::Upper {
                op: UpperOp::Lui,
                rd,
                ..
            } => self.give(*rd, &high_word(target), next),
            _ => Ok(self.stuck(Why::NoInstruction)),
        }
    }

    // An `auipc` whose immediate is the upper part of the distance to a target.
    pub(super) fn step_pc_hi(&mut self, instr: &Instr, next: Place) -> Result<SymStep, AllocError>
        requires { self.old.core.exit ≡ None }
        ensures { Makes result (applied self.old.map self.old.core (upper_does Auipc instr.now (value_word
            (PcHi self.old.core.place)) next)) self.old.core self.new.core }
    {
        match instr {
            Instr::Upper {
                op: UpperOp::Auipc,
                rd,
                ..
            } => {
                let word = Held::of_value(Value::PcHi(self.place()));
                self.give(*rd, &word, next)
            }
            _ => Ok(self.stuck(Why::NoInstruction)),
        }
    }
}
