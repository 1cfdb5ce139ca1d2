// The machine.

ghost use Rattle.std.specs.Prelude.{◌≡◌, ◌<◌, ◌+◌, ◌-◌, ◌^◌, IfOk};
ghost use Rattle.zc_base.specs.MemMap.{IsMap};
ghost use Rattle.elf32_read.specs.Header.{entry_address};
ghost use Rattle.elf32_read.specs.Segments.{segments_of};
ghost use Rattle.rv_decode.specs.Bits.{add32};
ghost use Rattle.rv_decode.specs.Effect.{after, effect, gives, onward, swaps_jvt};
ghost use Rattle.rv_decode.specs.State.{reg_in, set_reg};
ghost use Rattle.zc_decode.specs.Effect.{short_effect};
ghost use Rattle.zc_machine.specs.Answer.{answer_of, core_after, fetched_as};
ghost use Rattle.zc_machine.specs.Fetch.{fetched_at};
ghost use Rattle.zc_machine.specs.Load.{first_core, reset_core};
ghost use Rattle.zc_machine.specs.Step.{effect_step, zc_step};

mod accesses;
mod calls;
mod device_answers;
mod frames;
mod interrupts;
mod jumps;
mod system;

use crate::answer::Step;
use crate::load::first_regions;
use crate::memory::Memory;
use crate::reason::Reason;
use elf32_read::image::Image;
use jumps::even;
use rv_decode::instr::Instr;
use rv_decode::results::{imm_result, is_taken, reg_result, upper_result};
use std::alloc::{AllocError, Global};
use std::marker::Model;
use zc_base::reg::Reg;
use zc_decode::short::Short;

/// A machine: its program counter, registers, table base, memory, number of commits and exit.
#[derive(Drop)]
pub struct Machine {
    pc: u32,
    regs: [u32; 32],
    jvt: u32,
    memory: Memory,
    commits: u64,
    exit: Option<u8>,
}

impl Model for Machine {
    ghost use Rattle.std.specs.Prelude.{◌≡◌, slice_index};
    ghost use Rattle.rv_decode.specs.State.{ZcCore};

    ghost Value = { ZcCore };

    ghost view = { λ m. record {
      pc = m.pc;
      regs = m.regs;
      jvt = m.jvt;
      memory = m.memory;
      commits = m.commits;
      exit = m.exit;
    } };

    // Register 0 holds 0.
    ghost invariant = { λ m. slice_index m.regs 0 ≡ 0 };
}

impl Machine {
    /// The machine at the start of an image. It takes memory for all its segments, those of code too,
    /// and for the stack.
    #[tactic(auto, unfolding(crate::specs::Load::first_core))]
    pub fn load(alloc: Global, image: &Image) -> Result<Machine, AllocError>
        requires { IsMap image.now.1 }
        ensures { IfOk result (λ machine. machine ≡ first_core (entry_address image.now.0)
            (segments_of image.now.0) image.now.1) }
    {
        let map = image.map();
        let memory = Memory::new(first_regions(alloc, image)?);
        let mut regs = [0; 32];
        regs[2] = map.stack_high;
        Ok(Machine {
            pc: image.entry(),
            regs,
            jvt: 0,
            memory,
            commits: 0,
            exit: None,
        })
    }

    /// Leaves sp unset, as after a chip's reset: it is 0.
    pub fn reset(&mut self)
        ensures { self.new ≡ reset_core self.old }
    {
        self.regs[2] = 0;
    }

    /// The program counter.
    pub fn pc(&self) -> u32
        ensures { result ≡ self.now.pc }
    {
        self.pc
    }

    /// What a register holds.
    pub fn register(&self, r: Reg) -> u32
        ensures { result ≡ reg_in self.now r }
    {
        self.regs[r.number() as usize]
    }

    /// The number of instructions that were committed.
    pub fn commits(&self) -> u64
        ensures { result ≡ self.now.commits }
    {
        self.commits
    }

    /// Makes one step: commits an instruction, or changes nothing and says why.
    #[inline(always)]
    #[tactic(auto, unfolding(crate::specs::Step::zc_step))]
    pub fn step(&mut self) -> Step
        requires { self.old.commits < 2 ^ 64 - 1 }
        ensures answer { result ≡ answer_of (zc_step self.old) }
        ensures state { self.new ≡ core_after (zc_step self.old) self.old }
    {
        if let Some(status) = self.exit {
            return Step::Ended(status);
        }
        match self.fetch() {
            Ok((short, size)) => self.execute(short, u32::from(size)),
            Err(reason) => match self.missed(reason) {
                Some(access) => Step::Asks(access),
                None => Step::Stopped(reason),
            },
        }
    }

    // The instruction at the program counter with its size in bytes. Each step calls it, and as a call of its own it would
    // hand the instruction over in memory.
    #[inline(always)]
    fn fetch(&mut self) -> Result<(Short, u8), Reason>
        ensures found { fetched_as result ≡ fetched_at self.old self.old.pc }
        ensures same { self.new ≡ self.old }
    {
        self.memory.fetch(self.pc)
    }

    // Makes the step of an instruction of this size.
    #[inline(always)]
    fn execute(&mut self, short: Short, size: u32) -> Step
        requires { self.old.commits < 2 ^ 64 - 1 }
        ensures answer { result ≡ answer_of (effect_step (short_effect short size self.old) self.old) }
        ensures state { self.new ≡ core_after (effect_step (short_effect short size self.old) self.old) self.old }
    {
        match short {
            Short::Base(instr) => self.execute_base(instr, size),
            Short::Push { list, adjust } => self.push(list, adjust, size),
            Short::Pop { list, adjust } => self.pop(list, adjust, size),
            Short::PopRet { list, adjust } => self.pop_ret(list, adjust, size),
            Short::PopRetz { list, adjust } => self.pop_retz(list, adjust, size),
            Short::MoveSa { first, second } => self.move_sa(first, second, size),
            Short::MoveAs { first, second } => self.move_as(first, second, size),
            Short::TableJump { index } => self.table_jump(index, size),
        }
    }

    // Makes the step of an instruction of RV32IM, of this size.
    #[inline(always)]
    fn execute_base(&mut self, instr: Instr, size: u32) -> Step
        requires { self.old.commits < 2 ^ 64 - 1 }
        ensures answer { result ≡ answer_of (effect_step (effect instr size self.old) self.old) }
        ensures state { self.new ≡ core_after (effect_step (effect instr size self.old) self.old) self.old }
    {
        match instr {
            Instr::Upper { op, rd, imm } => self.give(upper_result(op, self.pc, imm), rd, size),
            Instr::Jal { rd, distance } => {
                let to = self.pc.wrapping_add(distance.cast_unsigned());
                self.jump(to, rd, size)
            }
            Instr::Jalr { rd, base, imm } => {
                let to = even(self.address(base, imm));
                self.jump(to, rd, size)
            }
            Instr::Branch {
                op,
                first,
                second,
                distance,
            } => {
                let taken = is_taken(op, self.register(first), self.register(second));
                self.branch(taken, distance, size)
            }
            Instr::Load { op, rd, base, imm } => {
                self.load_to(op, self.address(base, imm), rd, size)
            }
            Instr::Store {
                op,
                source,
                base,
                imm,
            } => {
                let word = self.register(source);
                self.store(op, self.address(base, imm), word, size)
            }
            Instr::WithImm { op, rd, first, imm } => {
                self.give(imm_result(op, self.register(first), imm), rd, size)
            }
            Instr::WithReg {
                op,
                rd,
                first,
                second,
            } => {
                let value = reg_result(op, self.register(first), self.register(second));
                self.give(value, rd, size)
            }
            Instr::Fence { .. } => self.go_on(size),
            Instr::Ecall => self.call(),
            Instr::Ebreak => Step::Stopped(Reason::Break),
            Instr::Csrrw { rd, source } => self.swap_jvt(self.register(source), rd, size),
        }
    }

    // The sum of a register's word and an immediate.
    #[inline(always)]
    fn address(&self, base: Reg, imm: i32) -> u32
        ensures { result ≡ add32 (reg_in self.now base) imm }
    {
        self.register(base).wrapping_add(imm.cast_unsigned())
    }

    // The address after an instruction of this size.
    #[inline(always)]
    fn after(&self, size: u32) -> u32
        ensures { result ≡ after self.now size }
    {
        self.pc.wrapping_add(size)
    }

    // Gives a value to a register.
    #[inline(always)]
    fn set(&mut self, rd: Reg, value: u32)
        ensures { self.new ≡ record self.old { regs = set_reg self.old.regs rd value } }
    {
        if rd.number() != 0 {
            self.regs[rd.number() as usize] = value;
        }
    }

    // Commits an instruction after which the program goes on at an address.
    #[inline(always)]
    fn commit(&mut self, pc: u32) -> Step
        requires { self.old.commits < 2 ^ 64 - 1 }
        ensures answer { result ≡ Step.Committed }
        ensures state { self.new ≡ record self.old { pc = pc; commits = self.old.commits + 1 } }
    {
        self.pc = pc;
        self.commits += 1;
        Step::Committed
    }

    // Commits an instruction of this size that changes nothing else.
    #[inline(always)]
    fn go_on(&mut self, size: u32) -> Step
        requires { self.old.commits < 2 ^ 64 - 1 }
        ensures answer { result ≡ Step.Committed }
        ensures state { self.new ≡ onward self.old size self.old.regs }
    {
        self.commit(self.after(size))
    }

    // Commits an instruction of this size that gives a value to a register.
    #[inline(always)]
    fn give(&mut self, value: u32, rd: Reg, size: u32) -> Step
        requires { self.old.commits < 2 ^ 64 - 1 }
        ensures answer { result ≡ answer_of (effect_step (gives value rd size self.old) self.old) }
        ensures state { self.new ≡ core_after (effect_step (gives value rd size self.old) self.old) self.old }
    {
        self.set(rd, value);
        self.go_on(size)
    }

    // Commits the move of a0 and a1 to two registers.
    fn move_sa(&mut self, first: Reg, second: Reg, size: u32) -> Step
        requires { self.old.commits < 2 ^ 64 - 1 }
        ensures answer { result ≡ Step.Committed }
        ensures state { self.new ≡ core_after (effect_step (short_effect (Short.MoveSa first second)
            size self.old) self.old) self.old }
    {
        let (a0, a1) = (self.regs[10], self.regs[11]);
        self.set(first, a0);
        self.set(second, a1);
        self.go_on(size)
    }

    // Commits the move of two registers to a0 and a1.
    fn move_as(&mut self, first: Reg, second: Reg, size: u32) -> Step
        requires { self.old.commits < 2 ^ 64 - 1 }
        ensures answer { result ≡ Step.Committed }
        ensures state { self.new ≡ core_after (effect_step (short_effect (Short.MoveAs first second)
            size self.old) self.old) self.old }
    {
        let (a0, a1) = (self.register(first), self.register(second));
        self.regs[10] = a0;
        self.regs[11] = a1;
        self.go_on(size)
    }

    // Commits the exchange of the jump table's base.
    fn swap_jvt(&mut self, word: u32, rd: Reg, size: u32) -> Step
        requires { self.old.commits < 2 ^ 64 - 1 }
        ensures answer { result ≡ Step.Committed }
        ensures state { self.new ≡ core_after (effect_step (swaps_jvt word rd size self.old) self.old) self.old }
    {
        self.set(rd, self.jvt);
        self.jvt = word & !63;
        self.go_on(size)
    }
}
