// The state of the symbolic machine, and its steps.

ghost use Rattle.std.specs.Prelude.{◌≡◌, ◌<◌, [], if◌then◌else◌, IfOk, IfSome, MatchOption, None, Some, true};
ghost use Rattle.psabi_sym.specs.Inputs.{parsed};
ghost use Rattle.rv_decode.specs.Effect.{load_width};
ghost use Rattle.rv_decode.specs.State.{start_regs};
ghost use Rattle.sym_machine.specs.Answer.{Makes};
ghost use Rattle.sym_machine.specs.Change.{in_memory, load_word, numbers_at};
ghost use Rattle.sym_machine.specs.Kept.{IsOf, register_words, word_of};
ghost use Rattle.sym_machine.specs.Objects.{program_of};
ghost use Rattle.sym_machine.specs.Program.{Program};
ghost use Rattle.sym_machine.specs.State.{reg_of, start_plain};
ghost use Rattle.sym_machine.specs.Step.{is_set, item_step, plain_step};
ghost use Rattle.sym_machine.specs.Words.{code_word, number_of, number_word, undef_word};

mod accesses;
mod advance;
mod calls;
mod device_answers;
mod ends;
mod frames;
mod items;
mod jumps;
mod quick;
mod shorts;
mod stack_pointer;
mod sums;
mod uppers;

use crate::answer::SymStep;
use crate::first_data::first_data;
use crate::held::{Held, signed_byte, signed_half, zero_byte, zero_half};
use crate::memory::SymMemory;
use crate::why::Why;
use crate::word::{SymByte, Value};
use block_cut::cut::Cut;
use devices::answers::Answers;
use rv_decode::instr::LoadOp;
use std::alloc::{AllocError, Global};
use std::marker::Model;
use zc_base::place::Place;
use zc_base::reg::Reg;

/// The machine's state, but for the events: the place of the next item, the registers, memory, the
/// input that is left, and the exit's status.
#[derive(Drop)]
pub struct State<'a> {
    place: Place,
    registers: [Held; 32],
    memory: SymMemory,
    answers: Answers<'a>,
    exit: Option<u8>,
    alloc: Global,
}

impl<'a> Model for State<'a> {
    ghost use Rattle.sym_machine.specs.Kept.{IsWorking, Working, regions_of, register_words};

    ghost Value = { Working };

    ghost view = { λ s. record {
      core = record {
        place = s.place;
        regs = register_words s.registers;
        memory = regions_of s.memory;
        input = s.answers;
        exit = s.exit;
      };
      map = s.memory.map;
    } };

    ghost invariant = { λ s. IsWorking (register_words s.registers) s.memory };
}

// The registers at the start, where sp is the stack's end, or undefined.
fn first_registers(sp_set: bool, end: u32) -> [Held; 32]
    ensures { register_words result
        ≡ start_regs (number_word 0) (if sp_set then number_word end else undef_word) undef_word }
{
    let mut registers = [Held::UNDEFINED; 32];
    registers[0] = Held::Number(0);
    if sp_set {
        registers[2] = Held::Number(end);
    }
    registers
}

impl<'a> State<'a> {
    /// The state at the objects' start, with this input; sp is the stack's end, or undefined.
    #[tactic(auto, unfolding(crate::specs::Objects::program_of))]
    pub fn start_with(
        alloc: Global,
        cut: &Cut,
        answers: Answers<'a>,
        sp_set: bool,
    ) -> Result<State<'a>, AllocError>
        ensures { IfOk result (λ s. s.core ≡ start_plain sp_set (program_of (parsed cut.now)) answers.entry) }
    {
        let map = cut.objects().map();
        let data = first_data(alloc, cut)?;
        let memory = SymMemory::new(alloc, map, data)?;
        Ok(State {
            place: cut.entry(),
            registers: first_registers(sp_set, map.stack_high),
            memory,
            answers,
            exit: None,
            alloc,
        })
    }

    /// The place of the next item.
    #[inline(always)]
    pub fn place(&self) -> Place
        ensures value { result ≡ self.now.core.place }
        ensures set { (p : Program) → IsOf p self.now.core
            → is_set p.map self.now.core ≡ is_set self.now.map self.now.core }
        ensures step { (p : Program) → IsOf p self.now.core → self.now.core.exit ≡ None
            → is_set p.map self.now.core ≡ true → plain_step p self.now.core
            ≡ item_step [] self.now.map p (p.item result) self.now.core (p.next result) }
    {
        self.place
    }

    /// The word in a register.
    pub fn register(&self, r: Reg) -> &Held
        ensures { word_of result.now ≡ reg_of self.now.core r }
    {
        &self.registers[r.number() as usize]
    }

    /// The number in a register, by the register's number, if it holds one.
    pub fn number_in(&self, r: u8) -> Option<u32>
        requires { r < 32 }
        ensures { result ≡ number_of (reg_of self.now.core r) }
    {
        self.registers[r as usize].number()
    }

    /// Whether `n` bytes from an address on lie in data, or in the stack.
    pub fn reaches(&self, a: u32, n: u32) -> bool
        ensures { result ≡ in_memory self.now.core a n }
    {
        self.memory.reaches(a, n)
    }

    /// What a load from an address gives.
    pub fn loaded(&self, op: LoadOp, a: u32) -> Held
        ensures { word_of result ≡ load_word op self.now.core a }
    {
        let memory = &self.memory;
        match op {
            LoadOp::Lb => Held::of_signed_byte(memory.byte(u64::from(a))),
            LoadOp::Lh => {
                let (low, high) = memory.half(a);
                Held::of_signed_half(low, high)
            }
            LoadOp::Lw => Held::of_bytes(memory.word(a)),
            LoadOp::Lbu => Held::of_byte(memory.byte(u64::from(a))),
            LoadOp::Lhu => {
                let (low, high) = memory.half(a);
                Held::of_half(low, high)
            }
        }
    }

    /// The number that a load from an address gives, if it gives one and the bytes are kept.
    #[inline(always)]
    pub fn loaded_number(&self, op: LoadOp, a: u32) -> Option<u32>
        ensures there { IfSome result (λ _. in_memory self.now.core a (load_width op) ≡ true) }
        ensures value { IfSome result (λ n. number_word n ≡ load_word op self.now.core a) }
    {
        let memory = &self.memory;
        match op {
            LoadOp::Lb => Some(signed_byte(memory.number_at(a)?)),
            LoadOp::Lh => {
                let (low, high) = memory.pair_at(a)?;
                Some(signed_half(low, high))
            }
            LoadOp::Lw => memory.word_at(a),
            LoadOp::Lbu => Some(zero_byte(memory.number_at(a)?)),
            LoadOp::Lhu => {
                let (low, high) = memory.pair_at(a)?;
                Some(zero_half(low, high))
            }
        }
    }

    /// The place whose address the word at an address is, if it is one. It copies no word.
    #[inline(always)]
    pub fn loaded_code(&self, a: u32) -> Option<Place>
        ensures { IfSome result (λ q. code_word q ≡ load_word LoadOp.Lw self.now.core a) }
    {
        let (memory, a) = (&self.memory, u64::from(a));
        let first = memory.byte(a);
        let SymByte::Part(Value::Code(q), _) = first else {
            return None;
        };
        let value = Value::Code(q);
        if first.is_part(value, 0)
            && memory.byte(a + 1).is_part(value, 1)
            && memory.byte(a + 2).is_part(value, 2)
            && memory.byte(a + 3).is_part(value, 3)
        {
            Some(q)
        } else {
            None
        }
    }

    /// Whether all bytes of the word at an address are undefined.
    #[inline(always)]
    pub fn is_undefined(&self, a: u32) -> bool
        ensures { result ≡ true → load_word LoadOp.Lw self.now.core a ≡ undef_word }
    {
        let (memory, a) = (&self.memory, u64::from(a));
        matches!(memory.byte(a), SymByte::Undef)
            && matches!(memory.byte(a + 1), SymByte::Undef)
            && matches!(memory.byte(a + 2), SymByte::Undef)
            && matches!(memory.byte(a + 3), SymByte::Undef)
    }

    /// The `n` bytes from an address on, if all are numbers.
    pub fn numbers(&self, a: u32, n: u32) -> Result<Option<Vec<u8>>, AllocError>
        ensures { IfOk result (λ found. MatchOption found
            (numbers_at self.now.core.memory a n ≡ None)
            (λ bytes. numbers_at self.now.core.memory a n ≡ Some bytes.items)) }
    {
        self.memory.numbers(self.alloc, a, n)
    }

    /// Makes one step of the objects that the state is of.
    pub fn step(&mut self, cut: &Cut) -> Result<SymStep, AllocError>
        requires { IsOf (program_of (parsed cut.now)) self.old.core }
        ensures { Makes result (plain_step (program_of (parsed cut.now)) self.old.core) self.old.core self.new.core }
    {
        if let Some(status) = self.exit {
            return Ok(SymStep::Exited(status));
        }
        let place = self.place;
        let Some(here) = cut.at(place) else {
            return Ok(self.stuck(Why::NoInstruction));
        };
        let Some(item) = &here.item else {
            return Ok(self.stuck(Why::NoInstruction));
        };
        if self.lacks_stack(item) {
            return Ok(self.stuck(Why::StackPointer));
        }
        // Objects without a fault have no item near the end of the numbers.
        cut.recall_invariant();
        let next = Place {
            object: place.object,
            section: place.section,
            offset: place.offset + u32::from(here.size),
        };
        self.step_item(cut, item, next)
    }
}
