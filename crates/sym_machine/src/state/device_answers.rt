// Loads and stores that devices answer, and instructions of the system.

ghost use Rattle.std.specs.Prelude.{◌≡◌, ◌<◌, ◌%◌, ◌^◌, [], None, Some, MatchOption, drop, take, true};
ghost use Rattle.std.specs.Bool.{OnFalse, OnTrue};
ghost use Rattle.std.specs.Option.{option_map, option_map_or};
ghost use Rattle.psabi_sym.specs.Inputs.{parsed};
ghost use Rattle.rv_decode.specs.Devices.{number_from, sent_bytes};
ghost use Rattle.rv_decode.specs.Effect as effects;
ghost use Rattle.rv_decode.specs.System.{system_width};
ghost use Rattle.sym_machine.specs.Answer.{DevicesAnswer, RunsOn, StepAnswers};
ghost use Rattle.sym_machine.specs.Change.{Goes, Stops, by_sum, sets, stored_bytes};
ghost use Rattle.sym_machine.specs.Devices.{byte_numbers, device_by_sum, device_load, device_store, stored_code, system_does};
ghost use Rattle.sym_machine.specs.Invariants.Asked.{FindsDevice, device_system, operand_of, where_stuck};
ghost use Rattle.sym_machine.specs.Kept.{IsOf, word_of};
ghost use Rattle.sym_machine.specs.Objects.{program_of};
ghost use Rattle.sym_machine.specs.State.{reg_of};
ghost use Rattle.sym_machine.specs.Step.{Stuck, accesses_by_sp, applied, item_step, needs_stack, plain_step, step_with};
ghost use Rattle.sym_machine.specs.Words.{number_of, number_word};
ghost use Rattle.sym_machine.specs.declared.why.Why.TheVariants.{BadAddress, NoInstruction, StackPointer};

use super::State;
use super::accesses::is_multiple;
use super::stack_pointer::SP;
use crate::address_parts::{low_sum, pc_low_sum};
use crate::answer::{SentWord, SymStep};
use crate::held::Held;
use crate::known::{Known, known_of};
use crate::results::sum;
use crate::why::Why;
use crate::word::{SymByte, SymWord};
use block_cut::cut::Cut;
use block_cut::item::Item;
use devices::answers::Answers;
use devices::environment::DeviceMap;
use rv_decode::bits::register_at;
use rv_decode::instr::{Instr, LoadOp, StoreOp};
use rv_decode::system::{is_system, system_width, takes_register};
use rv_decode::widths::{load_width, store_width};
use zc_base::place::Place;
use zc_base::reg::Reg;

impl State<'_> {
    /// Asks devices for the step of the objects that the state is of.
    pub fn ask(&mut self, cut: &Cut, devices: &DeviceMap<'_>) -> Option<SymStep>
        requires { IsOf (program_of (parsed cut.now)) self.old.core }
        ensures { DevicesAnswer (step_with devices.now.all (program_of (parsed cut.now)) self.old.core)
            (plain_step (program_of (parsed cut.now)) self.old.core) result self.old.core self.new.core }
    {
        if let Some(_) = self.exit {
            return None;
        }
        let place = self.place;
        let Some(here) = cut.at(place) else {
            return None;
        };
        let Some(item) = &here.item else {
            return None;
        };
        // Objects without a fault have no item near the end of the numbers.
        cut.recall_invariant();
        let next = Place {
            object: place.object,
            section: place.section,
            offset: place.offset + u32::from(here.size),
        };
        // What needs sp isn't answered, whether sp is set or not.
        self.ask_item(cut, item, next, devices)
    }

    // Asks devices for the step of an item, with the place after it.
    fn ask_item(
        &mut self,
        cut: &Cut,
        item: &Item,
        next: Place,
        devices: &DeviceMap<'_>,
    ) -> Option<SymStep>
        requires { self.old.core.exit ≡ None }
        ensures answered { let p = program_of (parsed cut.now) in DevicesAnswer
            (item_step devices.now.all self.old.map p (Some item.now) self.old.core next)
            (item_step [] self.old.map p (Some item.now) self.old.core next) result self.old.core self.new.core }
        ensures none { needs_stack (Some item.now) ≡ true → result ≡ None }
    {
        match item {
            Item::Op(instr) => match instr {
                Instr::Load { base, imm, .. } | Instr::Store { base, imm, .. } => {
                    let word = sum(self.register(*base), *imm);
                    self.ask_access(instr, &word, next, devices)
                }
                _ => None,
            },
            Item::Lo(instr, target) => {
                let word = low_sum(*target, &self.base(instr));
                self.ask_access(instr, &word, next, devices)
            }
            Item::PcLo(instr, q) => {
                let word = pc_low_sum(cut, *q, &self.base(instr));
                self.ask_access(instr, &word, next, devices)
            }
            Item::Raw(word) => self.ask_system(*word, next, devices),
            _ => None,
        }
    }

    // Asks devices for a load or store, by the word of the sum of its base and its immediate.
    fn ask_access(
        &mut self,
        instr: &Instr,
        word: &Held,
        next: Place,
        devices: &DeviceMap<'_>,
    ) -> Option<SymStep>
        requires { self.old.core.exit ≡ None }
        ensures answered { DevicesAnswer (applied self.old.map self.old.core (where_stuck (option_map Goes
            (device_by_sum devices.now.all instr.now (word_of word.now) self.old.core next))
            (by_sum instr.now (word_of word.now) self.old.core next)))
            (applied self.old.map self.old.core (by_sum instr.now (word_of word.now) self.old.core next)) result
            self.old.core self.new.core }
        ensures none { accesses_by_sp instr.now ≡ true → result ≡ None }
    {
        match instr {
            Instr::Load { op, rd, base, .. } => {
                let a = self.device_address(devices, *base, load_width(*op), word)?;
                Some(self.answer_load(*op, *rd, a, next))
            }
            Instr::Store {
                op,
                source,
                base,
                ..
            } => {
                let a = self.device_address(devices, *base, store_width(*op), word)?;
                self.answer_store(*op, *source, a, next)
            }
            _ => None,
        }
    }

    // The address of an access, by the word that it is, if a device lies there and memory doesn't.
    fn device_address(
        &self,
        devices: &DeviceMap<'_>,
        base: Reg,
        width: u32,
        word: &Held,
    ) -> Option<u32>
        requires { 0 < width }
        ensures { FindsDevice devices.now.all base width (number_of (word_of word.now)) self.now.core result }
    {
        let a = word.number()?;
        if base.number() == SP || !is_multiple(a, width) {
            return None;
        }
        if self.reaches(a, width) || !devices.has(a, width) {
            return None;
        }
        Some(a)
    }

    // A device answers a load from an address. Where sp can't have what it answers, nothing is taken.
    fn answer_load(&mut self, op: LoadOp, rd: Reg, a: u32, next: Place) -> SymStep
        requires { self.old.core.exit ≡ None }
        ensures { StepAnswers (applied self.old.map self.old.core (Goes (device_load op rd self.old.core next a)))
            result self.old.core self.new.core }
    {
        let mut answers = self.answers.copy();
        let n = answers.take_value(op);
        if !self.take_answer(rd, n, next) {
            return self.stuck(Why::StackPointer);
        }
        self.answers = answers;
        SymStep::Loaded { op, at: a }
    }

    // Sets a register to a number and goes on to a place, unless the register is sp, which is set and can't have it.
    fn take_answer(&mut self, rd: Reg, n: u32, to: Place) -> bool
        requires { self.old.core.exit ≡ None }
        ensures made { OnTrue result (RunsOn (applied self.old.map self.old.core (Goes (sets rd
            (number_word n) to))) [] self.old.core self.new.core) }
        ensures stuck { OnFalse result (applied self.old.map self.old.core (Goes (sets rd
            (number_word n) to)) ≡ Stuck StackPointer) }
        ensures same { OnFalse result (self.new ≡ self.old) }
    {
        match rd.number() {
            0 => {
                self.pass(to);
                true
            }
            2 => self.set_sp(&Held::Number(n), to),
            _ => {
                self.set_number(rd, n, to);
                true
            }
        }
    }

    // A device gets what a store sends to an address, if that is numbers or a place's address.
    fn answer_store(&mut self, op: StoreOp, source: Reg, a: u32, next: Place) -> Option<SymStep>
        requires running { self.old.core.exit ≡ None }
        requires aligned { a % effects.store_width op ≡ 0 }
        ensures { let s = self.old.core in DevicesAnswer (applied self.old.map s (option_map_or Goes
            (device_store op (reg_of s source) next a) (Stops BadAddress)))
            (applied self.old.map s (Stops BadAddress)) result s self.new.core }
    {
        let held = *self.register(source);
        if let Some(word) = sent_word(op, held.bytes()) {
            self.pass(next);
            return Some(SymStep::Stored(SentWord { op, at: a, word }));
        }
        let place = sent_place(op, &held)?;
        self.pass(next);
        Some(SymStep::StoredCode { at: a, place })
    }

    // Asks devices for a word that no table has, if it is an instruction of the system.
    fn ask_system(&mut self, word: u32, next: Place, devices: &DeviceMap<'_>) -> Option<SymStep>
        requires { self.old.core.exit ≡ None }
        ensures { DevicesAnswer (applied self.old.map self.old.core (where_stuck
            (device_system devices.now.all word self.old.core next) (Stops NoInstruction)))
            (applied self.old.map self.old.core (Stops NoInstruction)) result self.old.core self.new.core }
    {
        if !devices.has_registers() || !is_system(word) {
            return None;
        }
        Some(self.answer_system(word, next))
    }

    // An instruction of the system is answered, if its operand is known. Where sp can't have the answer, nothing is
    // taken.
    fn answer_system(&mut self, word: u32, next: Place) -> SymStep
        requires { self.old.core.exit ≡ None }
        ensures { StepAnswers (applied self.old.map self.old.core (system_does word self.old.core next)) result
            self.old.core self.new.core }
    {
        let operand = self.system_operand(word);
        if let Known::Unknown = operand {
            return self.stuck(Why::ArgumentUnknown);
        }
        let mut answers = self.answers.copy();
        let n = take_word(&mut answers, word);
        if !self.take_answer(register_at(word, 7), n, next) {
            return self.stuck(Why::StackPointer);
        }
        self.answers = answers;
        SymStep::System { word, operand }
    }

    // What the operand of an instruction of the system is known to be.
    fn system_operand(&self, word: u32) -> Known
        ensures { result ≡ operand_of word self.now.core }
    {
        let source = register_at(word, 15);
        if takes_register(word) {
            known_of(self.register(source))
        } else {
            Known::Number(u32::from(source.number()))
        }
    }
}

// Takes what an instruction of the system gets, and gives the number that it is; bytes that are missing count as 0.
fn take_word(answers: &mut Answers<'_>, word: u32) -> u32
    ensures value { result ≡ number_from (take (system_width word) answers.old) }
    ensures left { answers.new ≡ drop (system_width word) answers.old }
{
    if system_width(word) == 0 {
        return 0;
    }
    answers.take_number(LoadOp::Lw)
}

// The place whose address a store of a word sends, if it sends a whole one.
fn sent_place(op: StoreOp, word: &Held) -> Option<Place>
    ensures { MatchOption result (stored_code op (word_of word.now) ≡ None)
        (λ q. stored_code op (word_of word.now) ≡ Some q) }
{
    match op {
        StoreOp::Sw => word.code(),
        StoreOp::Sb | StoreOp::Sh => None,
    }
}

// A word with the bytes that a store of another sends, if all are numbers.
fn sent_word(op: StoreOp, word: SymWord) -> Option<u32>
    ensures { MatchOption result (byte_numbers (stored_bytes op word) ≡ None)
        (λ n. byte_numbers (stored_bytes op word) ≡ Some (sent_bytes op n)) }
{
    match (op, word.b0, word.b1, word.b2, word.b3) {
        (StoreOp::Sb, SymByte::Num(a), _, _, _) => Some(u32::from_le_bytes([a, 0, 0, 0])),
        (StoreOp::Sh, SymByte::Num(a), SymByte::Num(b), _, _) => Some(u32::from_le_bytes([
            a, b, 0, 0,
        ])),
        (StoreOp::Sw, SymByte::Num(a), SymByte::Num(b), SymByte::Num(c), SymByte::Num(d)) => {
            Some(u32::from_le_bytes([a, b, c, d]))
        }
        _ => None,
    }
}
