// The symbolic machine.

ghost use Rattle.std.specs.Prelude.{◌≡◌, ◌<◌, IfOk, None};
ghost use Rattle.psabi_sym.specs.Inputs.{parsed};
ghost use Rattle.sym_machine.specs.Advance.{Advanced};
ghost use Rattle.sym_machine.specs.Answer.{DevicesAnswer, Makes};
ghost use Rattle.sym_machine.specs.Kept.{IsOf};
ghost use Rattle.sym_machine.specs.Objects.{program_of};
ghost use Rattle.sym_machine.specs.State.{first_plain, start_plain};
ghost use Rattle.sym_machine.specs.Step.{plain_step, step_with};

use crate::answer::SymStep;
use crate::state::State;
use block_cut::cut::Cut;
use devices::answers::Answers;
use devices::environment::DeviceMap;
use std::alloc::{AllocError, Global};
use std::marker::Model;

/// The symbolic machine. Clauses see it as its state, but for the events.
#[derive(Drop)]
pub struct Sym<'a> {
    state: State<'a>,
}

impl<'a> Model for Sym<'a> {
    ghost use Rattle.sym_machine.specs.State.{PlainCore};

    ghost Value = { PlainCore };

    ghost view = { λ s. s.state.core };
}

impl<'a> Sym<'a> {
    /// The state at the objects' start, with this input.
    pub fn start(alloc: Global, cut: &Cut, input: &'a [u8]) -> Result<Sym<'a>, AllocError>
        ensures first { IfOk result (λ s. s ≡ first_plain (program_of (parsed cut.now)) input.now) }
        ensures of { IfOk result (λ s. IsOf (program_of (parsed cut.now)) s) }
        ensures running { IfOk result (λ s. s.exit ≡ None) }
    {
        Sym::start_with(alloc, cut, Answers::new(input, &[], 0), true)
    }

    /// The state at the objects' start, where sp is the stack's end, or undefined as after a reset. Reads take these
    /// answers from the front, and so do loads from devices and instructions of the system.
    pub fn start_with(
        alloc: Global,
        cut: &Cut,
        answers: Answers<'a>,
        sp_set: bool,
    ) -> Result<Sym<'a>, AllocError>
        ensures first { IfOk result (λ s. s ≡ start_plain sp_set (program_of (parsed cut.now)) answers.entry) }
        ensures of { IfOk result (λ s. IsOf (program_of (parsed cut.now)) s) }
        ensures running { IfOk result (λ s. s.exit ≡ None) }
    {
        let state = State::start_with(alloc, cut, answers, sp_set)?;
        Ok(Sym { state })
    }

    /// Makes one step of the objects that the machine was started with, in constant time but for a
    /// call's buffer, for a page that is written first, and, at a write below where sp has been, for a
    /// flag for each 32 bytes that sp rose over. After the exit, and if the machine is stuck, each step answers
    /// the same again.
    pub fn step(&mut self, cut: &Cut) -> Result<SymStep, AllocError>
        requires { IsOf (program_of (parsed cut.now)) self.old }
        ensures makes { Makes result (plain_step (program_of (parsed cut.now)) self.old) self.old self.new }
        ensures of { IsOf (program_of (parsed cut.now)) self.new }
    {
        self.state.step(cut)
    }

    /// Makes at most `steps` steps, up to the first with an answer other than that it is done. Returns how many came
    /// before that one, and its answer. A program has this loop once, whatever consoles its runs write to.
    #[inline(never)]
    pub fn advance(&mut self, cut: &Cut, steps: u64) -> (u64, Result<SymStep, AllocError>)
        requires some { 0 < steps }
        requires running { self.old.exit ≡ None }
        requires of { IsOf (program_of (parsed cut.now)) self.old }
        ensures within { result.0 < steps }
        ensures advanced { Advanced (program_of (parsed cut.now)) self.old self.new result.0 result.1 }
    {
        self.state.advance(cut, steps)
    }

    /// Asks devices for the step of the objects that the machine was started with. If one of them answers, the step is
    /// made; it is stuck where sp can't have the answer, or where an instruction of the system has an operand that isn't
    /// known. If none does, nothing changes, and the step is the one without devices.
    pub fn ask(&mut self, cut: &Cut, devices: &DeviceMap<'_>) -> Option<SymStep>
        requires { IsOf (program_of (parsed cut.now)) self.old }
        ensures asked { DevicesAnswer (step_with devices.now.all (program_of (parsed cut.now)) self.old)
            (plain_step (program_of (parsed cut.now)) self.old) result self.old self.new }
    {
        self.state.ask(cut, devices)
    }
}
