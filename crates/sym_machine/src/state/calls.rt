// Environment calls.

ghost use Rattle.std.specs.Prelude.{◌≡◌, ◌==◌, None};
ghost use Rattle.sym_machine.specs.Answer.{Makes, StepAnswers};
ghost use Rattle.sym_machine.specs.Change.{arguments_of, call_does, exit_does, is_buffer, is_output, read_does, with_buffer, write_does};
ghost use Rattle.sym_machine.specs.State.{reg_of};
ghost use Rattle.sym_machine.specs.Step.{applied};
ghost use Rattle.sym_machine.specs.Words.{number_of};

use super::State;
use crate::answer::SymStep;
use crate::arguments::Arguments;
use crate::why::Why;
use std::alloc::AllocError;
use zc_base::place::Place;

// The registers of a call: its arguments, and its number.
const A0: u8 = 10;

const A1: u8 = 11;

const A2: u8 = 12;

const A7: u8 = 17;

impl State<'_> {
    // The call that a7 says, with the place after it.
    pub(super) fn step_call(&mut self, next: Place) -> Result<SymStep, AllocError>
        requires { self.old.core.exit ≡ None }
        ensures { Makes result (applied self.old.map self.old.core (call_does (number_of
            (reg_of self.old.core 17)) self.old.core next)) self.old.core self.new.core }
    {
        match self.number_in(A7) {
            Some(93) => Ok(self.call_exit()),
            Some(63) => Ok(self.call_read(next)),
            Some(64) => self.call_write(next),
            Some(_) => Ok(self.stuck(Why::UnknownCall)),
            None => Ok(self.stuck(Why::ArgumentUnknown)),
        }
    }

    // The call that exits.
    fn call_exit(&mut self) -> SymStep
        requires { self.old.core.exit ≡ None }
        ensures { StepAnswers (applied self.old.map self.old.core (exit_does (number_of
            (reg_of self.old.core 10)) self.old.core.place)) result self.old.core self.new.core }
    {
        match self.number_in(A0) {
            Some(a0) => self.end(a0),
            None => self.stuck(Why::ArgumentUnknown),
        }
    }

    // What a call with a buffer uses, if all of it is known.
    fn arguments(&self) -> Option<Arguments>
        ensures { result ≡ arguments_of (number_of (reg_of self.now.core 10)) (number_of (reg_of self.now.core 11))
            (number_of (reg_of self.now.core 12)) }
    {
        let a0 = self.number_in(A0)?;
        let len = self.number_in(A2)?;
        match self.number_in(A1) {
            Some(at) => Some(Arguments { a0, at, len }),
            None if len == 0 => Some(Arguments { a0, at: 0, len }),
            None => None,
        }
    }

    // Whether a buffer lies in memory.
    fn is_buffer(&self, arguments: &Arguments) -> bool
        ensures { result ≡ is_buffer self.now.core arguments.now }
    {
        arguments.len == 0 || self.reaches(arguments.at, arguments.len)
    }

    // The call that reads.
    fn call_read(&mut self, next: Place) -> SymStep
        requires { self.old.core.exit ≡ None }
        ensures { StepAnswers (applied self.old.map self.old.core (with_buffer (λ a0. a0 == 0) self.old.core
            (read_does self.old.core next))) result self.old.core self.new.core }
    {
        let Some(arguments) = self.arguments() else {
            return self.stuck(Why::ArgumentUnknown);
        };
        if arguments.a0 != 0 {
            return self.stuck(Why::UnknownCall);
        }
        if !self.is_buffer(&arguments) {
            return self.stuck(Why::BadAddress);
        }
        self.read(arguments, next)
    }

    // The call that writes.
    fn call_write(&mut self, next: Place) -> Result<SymStep, AllocError>
        requires { self.old.core.exit ≡ None }
        ensures { Makes result (applied self.old.map self.old.core (with_buffer is_output self.old.core
            (write_does self.old.core next))) self.old.core self.new.core }
    {
        let Some(arguments) = self.arguments() else {
            return Ok(self.stuck(Why::ArgumentUnknown));
        };
        if arguments.a0 != 1 && arguments.a0 != 2 {
            return Ok(self.stuck(Why::UnknownCall));
        }
        if !self.is_buffer(&arguments) {
            return Ok(self.stuck(Why::BadAddress));
        }
        match self.numbers(arguments.at, arguments.len)? {
            Some(bytes) => Ok(self.write(arguments, bytes, next)),
            None => Ok(self.stuck(Why::ArgumentUnknown)),
        }
    }
}
