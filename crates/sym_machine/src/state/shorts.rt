// Steps of two bytes that stand for several instructions.

ghost use Rattle.std.specs.Prelude.{◌≡◌, ◌≢◌, ◌∷◌, [], None, Some, false, pos, true};
ghost use Rattle.std.specs.List.{list_any};
ghost use Rattle.std.specs.Option.{option_map_or};
ghost use Rattle.block_cut.specs.declared.item.Item.TheVariants.{RawShort};
ghost use Rattle.rv_decode.specs.declared.instr.ImmOp.TheVariants.{Addi};
ghost use Rattle.rv_decode.specs.declared.instr.Instr.TheVariants.{WithImm};
ghost use Rattle.sym_machine.specs.Answer.{RunsOn, RunsOnUnlessStuck, StepAnswers};
ghost use Rattle.sym_machine.specs.Change.{Goes, Stops, sets};
ghost use Rattle.sym_machine.specs.Expansions.{expansion};
ghost use Rattle.sym_machine.specs.Program.{Program};
ghost use Rattle.sym_machine.specs.State.{reg_of};
ghost use Rattle.sym_machine.specs.Step.{applied, in_turn, is_of_frame, is_set, item_step, needs_stack};
ghost use Rattle.sym_machine.specs.declared.why.Why.TheVariants.{NoInstruction};
ghost use Rattle.zc_decode.specs.Operands.{HasOperands, IsMoved};

use super::State;
use super::frames::PopEnd;
use crate::answer::SymStep;
use crate::why::Why;
use zc_base::place::Place;
use zc_base::reg::Reg;
use zc_decode::decode16::decode16;
use zc_decode::short::Short;

impl State<'_> {
    // The step of two bytes that are no instruction of RV32IM: a push, a pop or two moves.
    pub(super) fn step_short(&mut self, half: u16, next: Place) -> SymStep
        requires running { self.old.core.exit ≡ None }
        requires stack { needs_stack (Some (RawShort half)) ≡ true → is_set self.old.map self.old.core ≡ true }
        ensures { (p : Program) → StepAnswers (item_step [] self.old.map p (Some (RawShort half)) self.old.core next)
            result self.old.core self.new.core }
    {
        let Some(short) = decode16(half) else {
            return self.stuck(Why::NoInstruction);
        };
        match self.make_short(&short, next) {
            Some(why) => SymStep::Stuck(self.place(), why),
            None => SymStep::Done,
        }
    }

    // Makes the step of the short instruction that a halfword is, or changes nothing and says why it is stuck.
    fn make_short(&mut self, short: &Short, next: Place) -> Option<Why>
        requires running { self.old.core.exit ≡ None }
        requires stack { option_map_or (list_any is_of_frame) (expansion short.now) false ≡ true
            → is_set self.old.map self.old.core ≡ true }
        requires operands { HasOperands short.now }
        ensures { RunsOnUnlessStuck (option_map_or (λ is. in_turn self.old.map is next self.old.core)
            (expansion short.now) (applied self.old.map self.old.core (Stops NoInstruction))) result self.old.core
            self.new.core }
    {
        match short {
            Short::Base(_) | Short::TableJump { .. } => Some(Why::NoInstruction),
            Short::Push { list, adjust } => self.push(*list, *adjust, next),
            Short::Pop { list, adjust } => self.pop(*list, *adjust, PopEnd::GoesOn, next),
            Short::PopRet { list, adjust } => self.pop(*list, *adjust, PopEnd::Returns, next),
            Short::PopRetz { list, adjust } => {
                self.pop(*list, *adjust, PopEnd::ReturnsZero, next)
            }
            Short::MoveSa { first, second } => {
                self.move_to(*first, *second, next);
                None
            }
            Short::MoveAs { first, second } => {
                self.move_from(*first, *second, next);
                None
            }
        }
    }

    // Moves a0 and a1, one after the other, to two other registers.
    fn move_to(&mut self, first: Reg, second: Reg, next: Place)
        requires running { self.old.core.exit ≡ None }
        requires first { IsMoved first }
        requires second { IsMoved second }
        ensures { RunsOn (in_turn self.old.map (WithImm Addi first 10 (pos 0) ∷ WithImm Addi second 11 (pos 0) ∷ [])
            next self.old.core) [] self.old.core self.new.core }
    {
        self.copy(first, Reg::new(10).unwrap(), next);
        self.copy(second, Reg::new(11).unwrap(), next);
    }

    // Moves two registers, one after the other, to a0 and a1.
    fn move_from(&mut self, first: Reg, second: Reg, next: Place)
        requires { self.old.core.exit ≡ None }
        ensures { RunsOn (in_turn self.old.map (WithImm Addi 10 first (pos 0) ∷ WithImm Addi 11 second (pos 0) ∷ [])
            next self.old.core) [] self.old.core self.new.core }
    {
        self.copy(Reg::new(10).unwrap(), first, next);
        self.copy(Reg::new(11).unwrap(), second, next);
    }

    // A register that is neither register 0 nor sp gets the word of another. Of a number no bytes are copied.
    fn copy(&mut self, rd: Reg, from: Reg, next: Place)
        requires running { self.old.core.exit ≡ None }
        requires some { rd ≢ 0 }
        requires other { rd ≢ 2 }
        ensures made { RunsOn (applied self.old.map self.old.core (Goes (sets rd (reg_of self.old.core from) next)))
            [] self.old.core self.new.core }
        ensures map { self.new.map ≡ self.old.map }
    {
        match self.plain(from) {
            Some(n) => self.set_number(rd, n, next),
            None => {
                let word = *self.register(from);
                self.set_register(rd, word, next);
            }
        }
    }
}
