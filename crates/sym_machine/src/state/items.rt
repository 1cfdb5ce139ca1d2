// Steps of items.

ghost use Rattle.std.specs.Prelude.{◌≡◌, [], None, Some, true};
ghost use Rattle.psabi_sym.specs.Inputs.{parsed};
ghost use Rattle.sym_machine.specs.Answer.{Makes};
ghost use Rattle.sym_machine.specs.Change.{op_does};
ghost use Rattle.sym_machine.specs.Objects.{program_of};
ghost use Rattle.sym_machine.specs.Step.{applied, is_set, item_step, needs_stack};

use super::State;
use crate::address_parts::pc_low_sum;
use crate::answer::SymStep;
use crate::known::condition;
use crate::results::{imm_word, reg_word, sum, upper_word};
use crate::why::Why;
use block_cut::cut::Cut;
use block_cut::item::Item;
use rv_decode::instr::Instr;
use std::alloc::AllocError;
use zc_base::place::Place;

impl State<'_> {
    // The step of an item, with the place after it.
    pub(super) fn step_item(
        &mut self,
        cut: &Cut,
        item: &Item,
        next: Place,
    ) -> Result<SymStep, AllocError>
        requires running { self.old.core.exit ≡ None }
        requires stack { needs_stack (Some item.now) ≡ true → is_set self.old.map self.old.core ≡ true }
        ensures { Makes result
            (item_step [] self.old.map (program_of (parsed cut.now)) (Some item.now) self.old.core next)
            self.old.core self.new.core }
    {
        match item {
            Item::Op(instr) => self.step_op(instr, next),
            Item::Hi(instr, target) => self.step_hi(instr, *target, next),
            Item::Lo(instr, target) => self.step_lo(instr, *target, next),
            Item::PcHi(instr, _) => self.step_pc_hi(instr, next),
            Item::PcLo(instr, q) => {
                let word = pc_low_sum(cut, *q, &self.base(instr));
                self.step_sum(instr, &word, next)
            }
            Item::Branch {
                op,
                first,
                second,
                to,
            } => {
                let taken = condition(cut, *op, self.register(*first), self.register(*second));
                Ok(self.branch(taken, *to, next))
            }
            Item::Jump { rd, to } => self.jump(Some(*to), *rd, next),
            Item::Call { rd, temp, to } => Ok(self.call(*rd, *temp, *to, next)),
            Item::Align(_) => Ok(self.go(next)),
            Item::Word(_) | Item::Raw(_) => Ok(self.stuck(Why::NoInstruction)),
            Item::RawShort(half) => Ok(self.step_short(*half, next)),
            Item::RawPair(_, _) => Ok(self.stuck(Why::TargetUnknown)),
        }
    }

    // The step of an instruction without relocation.
    fn step_op(&mut self, instr: &Instr, next: Place) -> Result<SymStep, AllocError>
        requires { self.old.core.exit ≡ None }
        ensures { Makes result (applied self.old.map self.old.core (op_does instr.now self.old.core next)) self.old.core
            self.new.core }
    {
        match instr {
            Instr::Upper { op, rd, imm } => self.give(*rd, &upper_word(*op, *imm), next),
            Instr::Jalr { base, imm, .. }
            | Instr::Load { base, imm, .. }
            | Instr::Store { base, imm, .. } => {
                let word = sum(self.register(*base), *imm);
                self.step_sum(instr, &word, next)
            }
            Instr::WithImm { op, rd, first, imm } => {
                let word = imm_word(*op, self.register(*first), *imm);
                self.give(*rd, &word, next)
            }
            Instr::WithReg {
                op,
                rd,
                first,
                second,
            } => {
                let (a, b) = (self.register(*first), self.register(*second));
                let word = reg_word(*op, *first, *second, a, b);
                self.give(*rd, &word, next)
            }
            Instr::Fence { .. } => Ok(self.go(next)),
            Instr::Ecall => self.step_call(next),
            Instr::Jal { .. } | Instr::Branch { .. } | Instr::Ebreak | Instr::Csrrw { .. } => {
                Ok(self.stuck(Why::NoInstruction))
            }
        }
    }
}
