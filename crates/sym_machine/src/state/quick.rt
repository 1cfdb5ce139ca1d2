// The fast path beside `step_item`: steps by numbers alone, jumps to places that are known, and loads and stores of any
// word. They are made in place, and answer no more than whether they were made. All else changes nothing here, and
// `step_item` makes it.

ghost use Rattle.std.specs.Prelude.{◌≡◌, ◌<◌, ◌^◌, ◌%◌, [], None, Some, IfSome};
ghost use Rattle.std.specs.Bool.{OnFalse, OnTrue};
ghost use Rattle.rv_decode.specs.Effect as effects;
ghost use Rattle.rv_decode.specs.Results as results;
ghost use Rattle.rv_decode.specs.declared.instr.Instr.TheVariants.{Jalr};
ghost use Rattle.sym_machine.specs.Answer.{RunsOn};
ghost use Rattle.sym_machine.specs.Change.{Goes, load_does, load_word, op_does, sets, store_does};
ghost use Rattle.sym_machine.specs.Conditions.{condition};
ghost use Rattle.sym_machine.specs.Program.{Program};
ghost use Rattle.sym_machine.specs.State.{reg_of};
ghost use Rattle.sym_machine.specs.Step.{applied, item_step};
ghost use Rattle.sym_machine.specs.Words.{code_word, imm_word, number_of, number_word, reg_word, sum_word};

use super::State;
use super::accesses::is_multiple;
use crate::held::Held;
use block_cut::item::Item;
use rv_decode::instr::{BranchOp, ImmOp, Instr, LoadOp, RegOp, StoreOp, UpperOp};
use rv_decode::results::{imm_result, is_taken, reg_result, upper_result};
use rv_decode::widths::{load_width, store_width};
use zc_base::place::Place;
use zc_base::reg::Reg;

impl State<'_> {
    // Makes the step of an item, with the place after it, if it is a quick one, and else changes nothing.
    #[inline(always)]
    pub(super) fn quick_item(&mut self, item: &Item, next: Place) -> bool
        requires { self.old.core.exit ≡ None }
        ensures made { OnTrue result ((p : Program) → RunsOn
            (item_step [] self.old.map p (Some item.now) self.old.core next) [] self.old.core
            self.new.core) }
        ensures same { OnFalse result (self.new ≡ self.old) }
    {
        match item {
            Item::Op(instr) => self.quick_op(instr, next),
            Item::Branch {
                op,
                first,
                second,
                to,
            } => match self.quick_compare(*op, *first, *second) {
                Some(taken) => {
                    self.pass(if taken { *to } else { next });
                    true
                }
                None => false,
            },
            Item::Jump { rd, to } => self.link(*rd, *to, next),
            Item::Hi(..)
            | Item::Lo(..)
            | Item::PcHi(..)
            | Item::PcLo(..)
            | Item::Call { .. }
            | Item::Align(_)
            | Item::Word(_)
            | Item::Raw(_)
            | Item::RawShort(_)
            | Item::RawPair(..) => false,
        }
    }

    // Makes the step of an instruction without relocation if it is a quick one, and else changes nothing.
    #[inline(always)]
    fn quick_op(&mut self, instr: &Instr, next: Place) -> bool
        requires { self.old.core.exit ≡ None }
        ensures made { OnTrue result (RunsOn (applied self.old.map self.old.core (op_does instr.now self.old.core next))
            [] self.old.core self.new.core) }
        ensures same { OnFalse result (self.new ≡ self.old) }
    {
        match instr {
            Instr::WithImm { op, rd, first, imm } => match self.quick_imm(*op, *first, *imm) {
                Some(n) => self.give_number(*rd, n, next),
                None => false,
            },
            Instr::WithReg {
                op,
                rd,
                first,
                second,
            } => match self.quick_reg(*op, *first, *second) {
                Some(n) => self.give_number(*rd, n, next),
                None => false,
            },
            Instr::Jalr { rd, base, imm } => self.quick_return(*rd, *base, *imm, next),
            Instr::Load { op, rd, base, imm } => {
                match self.quick_address(*base, *imm, load_width(*op)) {
                    Some(a) => self.quick_load(*op, *rd, a, next),
                    None => false,
                }
            }
            Instr::Store {
                op,
                source,
                base,
                imm,
            } => match self.quick_address(*base, *imm, store_width(*op)) {
                Some(a) => self.quick_store(*op, *source, a, next),
                None => false,
            },
            Instr::Upper { op, rd, imm } => match op {
                UpperOp::Lui => self.give_number(*rd, upper_result(UpperOp::Lui, 0, *imm), next),
                UpperOp::Auipc => false,
            },
            Instr::Jal { .. }
            | Instr::Branch { .. }
            | Instr::Fence { .. }
            | Instr::Ecall
            | Instr::Ebreak
            | Instr::Csrrw { .. } => false,
        }
    }

    // The number that a register holds, if the register tells it without a look at bytes.
    #[inline(always)]
    pub(super) fn plain(&self, r: Reg) -> Option<u32>
        ensures is { IfSome result (λ n. reg_of self.now.core r ≡ number_word n) }
        ensures below { IfSome result (λ n. n < 2 ^ 32) }
    {
        match self.register(r) {
            Held::Number(n) => Some(*n),
            Held::Code(_) | Held::Bytes(_) => None,
        }
    }

    // The place whose address a register holds, if the register tells it without a look at bytes.
    #[inline(always)]
    fn plain_code(&self, r: Reg) -> Option<Place>
        ensures { IfSome result (λ q. reg_of self.now.core r ≡ code_word q) }
    {
        match self.register(r) {
            Held::Code(q) => Some(*q),
            Held::Number(_) | Held::Bytes(_) => None,
        }
    }

    // The number that an operation on a register and an immediate gives, if it is known.
    #[inline(always)]
    fn quick_imm(&self, op: ImmOp, first: Reg, imm: i32) -> Option<u32>
        ensures { IfSome result (λ n. number_word n ≡ imm_word op (reg_of self.now.core first) imm) }
    {
        Some(of_imm(op, self.plain(first)?, imm))
    }

    // The number that an operation on two registers gives, if it is known.
    #[inline(always)]
    fn quick_reg(&self, op: RegOp, first: Reg, second: Reg) -> Option<u32>
        ensures { IfSome result (λ n. number_word n
            ≡ reg_word op first second (reg_of self.now.core first) (reg_of self.now.core second)) }
    {
        Some(of_words(op, self.plain(first)?, self.plain(second)?))
    }

    // A `jalr` to the place whose address a register holds.
    #[inline(always)]
    fn quick_return(&mut self, rd: Reg, base: Reg, imm: i32, next: Place) -> bool
        requires { self.old.core.exit ≡ None }
        ensures made { OnTrue result (RunsOn (applied self.old.map self.old.core (op_does (Jalr rd base imm)
            self.old.core next)) [] self.old.core self.new.core) }
        ensures same { OnFalse result (self.new ≡ self.old) }
    {
        if imm != 0 {
            return false;
        }
        match self.plain_code(base) {
            Some(to) => self.link(rd, to, next),
            None => false,
        }
    }

    // Whether a condition on two registers holds, if it is known.
    #[inline(always)]
    fn quick_compare(&self, op: BranchOp, first: Reg, second: Reg) -> Option<bool>
        ensures { (p : Program) → IfSome result (λ holds.
            condition p op (reg_of self.now.core first) (reg_of self.now.core second) ≡ Some holds) }
    {
        Some(is_taken(op, self.plain(first)?, self.plain(second)?))
    }

    // The address of an access by a register and an immediate, if it is known and is a multiple of the
    // access's width.
    #[inline(always)]
    fn quick_address(&self, base: Reg, imm: i32, width: u32) -> Option<u32>
        requires { 0 < width }
        ensures known { IfSome result (λ a. number_of (sum_word (reg_of self.now.core base) imm) ≡ Some a) }
        ensures aligned { IfSome result (λ a. a % width ≡ 0) }
    {
        let a = self.plain(base)?.wrapping_add(imm.cast_unsigned());
        if is_multiple(a, width) { Some(a) } else { None }
    }

    // A load from an address that is a multiple of its width.
    #[inline(always)]
    fn quick_load(&mut self, op: LoadOp, rd: Reg, a: u32, next: Place) -> bool
        requires running { self.old.core.exit ≡ None }
        requires aligned { a % effects.load_width op ≡ 0 }
        ensures made { OnTrue result (RunsOn (applied self.old.map self.old.core (load_does op rd
            (Some a) self.old.core next)) [] self.old.core self.new.core) }
        ensures same { OnFalse result (self.new ≡ self.old) }
    {
        match self.loaded_number(op, a) {
            Some(n) => self.give_number(rd, n, next),
            None => self.load_bytes(op, rd, a, next),
        }
    }

    // A load of what is no number, if it lies in data or the stack.
    #[inline(never)]
    fn load_bytes(&mut self, op: LoadOp, rd: Reg, a: u32, next: Place) -> bool
        requires running { self.old.core.exit ≡ None }
        requires aligned { a % effects.load_width op ≡ 0 }
        ensures made { OnTrue result (RunsOn (applied self.old.map self.old.core (load_does op rd
            (Some a) self.old.core next)) [] self.old.core self.new.core) }
        ensures same { OnFalse result (self.new ≡ self.old) }
    {
        if !self.reaches(a, load_width(op)) {
            return false;
        }
        match op {
            LoadOp::Lw => self.load_word(rd, a, next),
            LoadOp::Lb | LoadOp::Lh | LoadOp::Lbu | LoadOp::Lhu => {
                self.load_any(op, rd, a, next)
            }
        }
    }

    // The word at an address goes to a register. A place's address isn't copied, nor is a word that is undefined.
    #[inline(always)]
    fn load_word(&mut self, rd: Reg, a: u32, next: Place) -> bool
        requires { self.old.core.exit ≡ None }
        ensures made { OnTrue result (RunsOn (applied self.old.map self.old.core (Goes (sets rd
            (load_word LoadOp.Lw self.old.core a) next))) [] self.old.core self.new.core) }
        ensures same { OnFalse result (self.new ≡ self.old) }
    {
        if let Some(q) = self.loaded_code(a) {
            return self.link(rd, next, q);
        }
        if self.is_undefined(a) {
            return self.give_word(rd, &Held::UNDEFINED, next);
        }
        self.load_any(LoadOp::Lw, rd, a, next)
    }

    // Gives a register the word that a load copies from an address, whatever it is.
    #[inline(never)]
    fn load_any(&mut self, op: LoadOp, rd: Reg, a: u32, next: Place) -> bool
        requires { self.old.core.exit ≡ None }
        ensures made { OnTrue result (RunsOn (applied self.old.map self.old.core (Goes (sets rd
            (load_word op self.old.core a) next))) [] self.old.core self.new.core) }
        ensures same { OnFalse result (self.new ≡ self.old) }
    {
        let word = self.loaded(op, a);
        self.give_word(rd, &word, next)
    }

    // A store to an address that is a multiple of its width.
    #[inline(always)]
    fn quick_store(&mut self, op: StoreOp, source: Reg, a: u32, next: Place) -> bool
        requires running { self.old.core.exit ≡ None }
        requires aligned { a % effects.store_width op ≡ 0 }
        ensures made { OnTrue result (RunsOn (applied self.old.map self.old.core (store_does op
            (reg_of self.old.core source) (Some a) self.old.core next)) [] self.old.core self.new.core) }
        ensures same { OnFalse result (self.new ≡ self.old) }
    {
        if self.store_number(op, source, a, next) {
            return true;
        }
        self.store_bytes(op, source, a, next)
    }

    // A store of a number to places that are kept.
    #[inline(always)]
    fn store_number(&mut self, op: StoreOp, source: Reg, a: u32, next: Place) -> bool
        requires running { self.old.core.exit ≡ None }
        requires aligned { a % effects.store_width op ≡ 0 }
        ensures made { OnTrue result (RunsOn (applied self.old.map self.old.core (store_does op
            (reg_of self.old.core source) (Some a) self.old.core next)) [] self.old.core self.new.core) }
        ensures same { OnFalse result (self.new ≡ self.old) }
    {
        let Some(n) = self.plain(source) else {
            return false;
        };
        let bytes = n.to_le_bytes();
        match op {
            StoreOp::Sb => self.put_numbers(a, &bytes[..1], next),
            StoreOp::Sh => self.put_numbers(a, &bytes[..2], next),
            StoreOp::Sw => self.put_numbers(a, &bytes, next),
        }
    }

    // A store of any word, if its address lies in data or the stack.
    #[inline(never)]
    fn store_bytes(&mut self, op: StoreOp, source: Reg, a: u32, next: Place) -> bool
        requires running { self.old.core.exit ≡ None }
        requires aligned { a % effects.store_width op ≡ 0 }
        ensures made { OnTrue result (RunsOn (applied self.old.map self.old.core (store_does op
            (reg_of self.old.core source) (Some a) self.old.core next)) [] self.old.core self.new.core) }
        ensures same { OnFalse result (self.new ≡ self.old) }
    {
        let width = store_width(op);
        if !self.reaches(a, width) {
            return false;
        }
        let word = self.register(source).bytes();
        let bytes = [word.b0, word.b1, word.b2, word.b3];
        self.put_bytes(a, &bytes[..width as usize], next);
        true
    }
}

// What an operation on two words gives. A sum, which most are, takes no call.
#[inline(always)]
fn of_words(op: RegOp, a: u32, b: u32) -> u32
    ensures { result ≡ results.reg_result op a b }
{
    match op {
        RegOp::Add => a.wrapping_add(b),
        _ => reg_result(op, a, b),
    }
}

// What an operation on a word and an immediate gives. A sum, which most are, takes no call.
#[inline(always)]
fn of_imm(op: ImmOp, n: u32, imm: i32) -> u32
    ensures { result ≡ results.imm_result op n imm }
{
    match op {
        ImmOp::Addi => n.wrapping_add(imm.cast_unsigned()),
        _ => imm_result(op, n, imm),
    }
}
