// How a step ends. Each end is a change of a state that hasn't exited.

ghost use Rattle.std.specs.Prelude.{◌≡◌, ◌≢◌, [], ◌∷◌, ◌&&◌, length, map, nat_le, None, Some, true};
ghost use Rattle.std.specs.Bool.{OnFalse, OnTrue};
ghost use Rattle.sym_machine.specs.declared.word.SymByte.TheVariants.{Num};
ghost use Rattle.rv_decode.specs.State.{Write};
ghost use Rattle.sym_machine.specs.Answer.{Makes, RunsOn, StepAnswers};
ghost use Rattle.sym_machine.specs.Change.{Goes, Stops, call_to, exit_does, sets, in_memory, is_output, continues, puts, read_does};
ghost use Rattle.sym_machine.specs.Events.{Numeric};
ghost use Rattle.sym_machine.specs.Kept.{word_of};
ghost use Rattle.sym_machine.specs.State.{reg_of};
ghost use Rattle.sym_machine.specs.Step.{applied};
ghost use Rattle.sym_machine.specs.Words.{code_word, number_word};

use super::State;
use crate::answer::SymStep;
use crate::arguments::Arguments;
use crate::held::Held;
use crate::why::Why;
use crate::word::SymByte;
use std::alloc::AllocError;
use zc_base::place::Place;
use zc_base::reg::Reg;

const A0: usize = 10;

impl State<'_> {
    // A step that is stuck.
    pub(super) fn stuck(&self, why: Why) -> SymStep
        requires { self.now.core.exit ≡ None }
        ensures { StepAnswers (applied self.now.map self.now.core (Stops why)) result self.now.core self.now.core }
    {
        SymStep::Stuck(self.place, why)
    }

    // Goes on to a place.
    pub(super) fn go(&mut self, to: Place) -> SymStep
        requires { self.old.core.exit ≡ None }
        ensures { StepAnswers (applied self.old.map self.old.core (Goes
            (continues to))) result self.old.core self.new.core }
    {
        self.pass(to);
        SymStep::Done
    }

    // Goes on to a place, and answers nothing.
    pub(super) fn pass(&mut self, to: Place)
        requires { self.old.core.exit ≡ None }
        ensures { RunsOn (applied self.old.map self.old.core (Goes (continues to))) [] self.old.core self.new.core }
    {
        self.place = to;
    }

    // Sets a register that is neither register 0 nor sp, and goes on to a place.
    #[inline(always)]
    pub(super) fn set_register(&mut self, rd: Reg, word: Held, to: Place)
        requires running { self.old.core.exit ≡ None }
        requires some { rd ≢ 0 }
        requires other { rd ≢ 2 }
        ensures made { RunsOn (applied self.old.map self.old.core (Goes (sets rd
            (word_of word) to))) [] self.old.core self.new.core }
        ensures map { self.new.map ≡ self.old.map }
    {
        self.registers[rd.number() as usize] = word;
        self.place = to;
    }

    // Sets a register that is neither register 0 nor sp to a number, and goes on to a place.
    #[inline(always)]
    pub(super) fn set_number(&mut self, rd: Reg, n: u32, to: Place)
        requires running { self.old.core.exit ≡ None }
        requires some { rd ≢ 0 }
        requires other { rd ≢ 2 }
        ensures made { RunsOn (applied self.old.map self.old.core (Goes (sets rd
            (number_word n) to))) [] self.old.core self.new.core }
        ensures map { self.new.map ≡ self.old.map }
    {
        self.registers[rd.number() as usize].set_number(n);
        self.place = to;
    }

    // Sets a register that is neither register 0 nor sp to a place's address, and goes on to a place.
    #[inline(always)]
    pub(super) fn set_code(&mut self, rd: Reg, q: Place, to: Place)
        requires running { self.old.core.exit ≡ None }
        requires some { rd ≢ 0 }
        requires other { rd ≢ 2 }
        ensures made { RunsOn (applied self.old.map self.old.core (Goes (sets rd
            (code_word q) to))) [] self.old.core self.new.core }
        ensures map { self.new.map ≡ self.old.map }
    {
        self.registers[rd.number() as usize].set_code(q);
        self.place = to;
    }

    // Sets a register to a number and goes on to a place, unless the register is register 0, or is sp and can't have
    // the number.
    #[inline(always)]
    pub(super) fn give_number(&mut self, rd: Reg, n: u32, to: Place) -> bool
        requires { self.old.core.exit ≡ None }
        ensures made { OnTrue result (RunsOn (applied self.old.map self.old.core (Goes (sets rd
            (number_word n) to))) [] self.old.core self.new.core) }
        ensures same { OnFalse result (self.new ≡ self.old) }
    {
        match rd.number() {
            0 => false,
            2 => self.move_sp(n, to),
            _ => {
                self.set_number(rd, n, to);
                true
            }
        }
    }

    // Sets a register to a word and goes on to a place, unless the register is register 0 or sp.
    #[inline(always)]
    pub(super) fn give_word(&mut self, rd: Reg, word: &Held, to: Place) -> bool
        requires { self.old.core.exit ≡ None }
        ensures made { OnTrue result (RunsOn (applied self.old.map self.old.core (Goes (sets rd
            (word_of word.now) to))) [] self.old.core self.new.core) }
        ensures same { OnFalse result (self.new ≡ self.old) }
    {
        match rd.number() {
            0 | 2 => false,
            _ => {
                self.set_register(rd, *word, to);
                true
            }
        }
    }

    // Moves sp to an address and goes on to a place, unless the address isn't in the stack.
    #[inline(never)]
    pub(super) fn move_sp(&mut self, sp: u32, to: Place) -> bool
        requires { self.old.core.exit ≡ None }
        ensures map { self.new.map ≡ self.old.map }
        ensures sp { OnTrue result (reg_of self.new.core 2 ≡ number_word sp) }
        ensures could { result ≡ (nat_le self.old.map.stack_low sp && nat_le sp self.old.map.stack_high) }
        ensures made { OnTrue result (RunsOn (applied self.old.map self.old.core (Goes (sets 2
            (number_word sp) to))) [] self.old.core self.new.core) }
        ensures same { OnFalse result (self.new ≡ self.old) }
    {
        let _ = &self.registers;
        if !self.memory.has_sp(sp) {
            return false;
        }
        self.memory.settle(sp);
        self.registers[2] = Held::Number(sp);
        self.place = to;
        true
    }

    // Jumps to a place, with the next place's address in a register, unless that register is sp.
    pub(super) fn link(&mut self, rd: Reg, to: Place, next: Place) -> bool
        requires { self.old.core.exit ≡ None }
        ensures made { OnTrue result (RunsOn (applied self.old.map self.old.core (Goes (sets rd
            (code_word next) to))) [] self.old.core self.new.core) }
        ensures same { OnFalse result (self.new ≡ self.old) }
    {
        match rd.number() {
            0 => {
                self.pass(to);
                true
            }
            2 => false,
            _ => {
                self.set_code(rd, next, to);
                true
            }
        }
    }

    // Sets a register to a word, and goes on to a place.
    pub(super) fn give(&mut self, rd: Reg, word: &Held, to: Place) -> Result<SymStep, AllocError>
        requires { self.old.core.exit ≡ None }
        ensures { Makes result (applied self.old.map self.old.core (Goes (sets rd
            (word_of word.now) to))) self.old.core self.new.core }
    {
        match rd.number() {
            0 => Ok(self.go(to)),
            2 => self.give_sp(word, to),
            _ => {
                self.set_register(rd, *word, to);
                Ok(SymStep::Done)
            }
        }
    }

    // Sets sp to a word and goes on to a place, or is stuck.
    fn give_sp(&mut self, word: &Held, to: Place) -> Result<SymStep, AllocError>
        requires { self.old.core.exit ≡ None }
        ensures { Makes result (applied self.old.map self.old.core (Goes (sets 2
            (word_of word.now) to))) self.old.core self.new.core }
    {
        if !self.set_sp(word, to) {
            return Ok(self.stuck(Why::StackPointer));
        }
        Ok(SymStep::Done)
    }

    // Calls a place: the first register isn't known afterwards, and the link register gets the next
    // place's address. Register 0 takes no part of an address, and sp stays set if it is.
    pub(super) fn call(&mut self, rd: Reg, temp: Reg, to: Place, next: Place) -> SymStep
        requires { self.old.core.exit ≡ None }
        ensures { StepAnswers (applied self.old.map self.old.core (call_to rd temp to next)) result self.old.core
            self.new.core }
    {
        let _ = &self.registers;
        let (link, part) = (rd.number() as usize, temp.number() as usize);
        if part == 0 {
            return self.stuck(Why::TargetUnknown);
        }
        if self.loses_sp(rd, temp) {
            return self.stuck(Why::StackPointer);
        }
        self.registers[part] = Held::UNDEFINED;
        if link != 0 {
            self.registers[link] = Held::Code(next);
        }
        self.place = to;
        SymStep::Done
    }

    // Writes bytes to memory from an address on, and goes on to a place.
    pub(super) fn put(&mut self, a: u32, bytes: &[SymByte], to: Place) -> SymStep
        requires { self.old.core.exit ≡ None }
        ensures { StepAnswers (applied self.old.map self.old.core (Goes
            (puts a bytes.now to))) result self.old.core self.new.core }
    {
        self.put_bytes(a, bytes, to);
        SymStep::Done
    }

    // Writes bytes to memory from an address on and goes on to a place, and answers nothing.
    pub(super) fn put_bytes(&mut self, a: u32, bytes: &[SymByte], to: Place)
        requires { self.old.core.exit ≡ None }
        ensures made { RunsOn (applied self.old.map self.old.core (Goes (puts a bytes.now to))) [] self.old.core
            self.new.core }
        ensures map { self.new.map ≡ self.old.map }
    {
        self.memory.write(a, bytes);
        self.place = to;
    }

    // Writes numbers to memory from an address on and goes on to a place, if all of them are kept; else changes
    // nothing.
    pub(super) fn put_numbers(&mut self, a: u32, numbers: &[u8], to: Place) -> bool
        requires { self.old.core.exit ≡ None }
        ensures there { OnTrue result (in_memory self.old.core a (length numbers.now) ≡ true) }
        ensures made { OnTrue result (RunsOn (applied self.old.map self.old.core (Goes (puts a
            (map Num numbers.now) to))) [] self.old.core self.new.core) }
        ensures same { OnFalse result (self.new ≡ self.old) }
        ensures map { self.new.map ≡ self.old.map }
    {
        if !self.memory.store(a, numbers) {
            return false;
        }
        self.place = to;
        true
    }

    // Reads as much of the input as there is and as goes into a buffer, and goes on to a place.
    pub(super) fn read(&mut self, arguments: Arguments, to: Place) -> SymStep
        requires { self.old.core.exit ≡ None }
        ensures { StepAnswers (applied self.old.map self.old.core (read_does self.old.core to arguments)) result
            self.old.core self.new.core }
    {
        let count = self
            .memory
            .fill(arguments.at, arguments.len, &mut self.answers);
        self.registers[A0] = Held::Number(count);
        self.place = to;
        SymStep::Read { count }
    }

    // Writes these bytes out, and goes on to a place.
    pub(super) fn write(&mut self, arguments: Arguments, bytes: Vec<u8>, to: Place) -> SymStep
        requires running { self.old.core.exit ≡ None }
        requires stream { is_output arguments.a0 ≡ true }
        ensures { StepAnswers (applied self.old.map self.old.core (Goes (record (sets 10
            (number_word arguments.len) to) { events = Numeric (Write arguments.a0 bytes.items) ∷ [] }))) result
            self.old.core self.new.core }
    {
        self.registers[A0] = Held::Number(arguments.len);
        self.place = to;
        SymStep::Wrote {
            fd: arguments.a0 as u8,
            bytes,
        }
    }

    // Exits with the low byte of a number.
    pub(super) fn end(&mut self, a0: u32) -> SymStep
        requires { self.old.core.exit ≡ None }
        ensures { StepAnswers (applied self.old.map self.old.core (exit_does
            (Some a0) self.old.core.place)) result self.old.core self.new.core }
    {
        let status = (a0 % 256) as u8;
        self.exit = Some(status);
        SymStep::Exited(status)
    }
}
