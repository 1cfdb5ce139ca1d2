// The stack pointer: whether it is set, what needs it to be, and what it may be set to.

ghost use Rattle.std.specs.Prelude.{◌≡◌, ◌==◌, ◌&&◌, ◌||◌, [], MatchOption, None, Some, false, not, true};
ghost use Rattle.std.specs.Bool.{OnFalse, OnTrue};
ghost use Rattle.std.specs.Option.{option_map_or};
ghost use Rattle.block_cut.specs.declared.item.Item.TheVariants.{RawShort};
ghost use Rattle.sym_machine.specs.Answer.{RunsOn};
ghost use Rattle.sym_machine.specs.Change.{Goes, sets};
ghost use Rattle.sym_machine.specs.Kept.{word_of};
ghost use Rattle.sym_machine.specs.Step.{Stuck, accesses_by_sp, applied, in_stack, is_of_frame, is_set, needs_stack};
ghost use Rattle.sym_machine.specs.Words.{number_of};
ghost use Rattle.sym_machine.specs.declared.why.Why.TheVariants.{StackPointer};

use super::State;
use crate::held::Held;
use block_cut::item::Item;
use rv_decode::instr::{ImmOp, Instr};
use zc_base::place::Place;
use zc_base::reg::Reg;
use zc_decode::decode16::decode16;
use zc_decode::short::Short;

pub(super) const SP: u8 = 2;

impl State<'_> {
    // The address of the stack, or its end, that a word is, if it is one.
    #[inline(always)]
    fn stack_address(&self, word: &Held) -> Option<u32>
        ensures { MatchOption result
            (option_map_or (in_stack self.now.map) (number_of (word_of word.now)) false ≡ false)
            (λ sp. (number_of (word_of word.now) ≡ Some sp) × (in_stack self.now.map sp ≡ true)) }
    {
        let sp = word.number()?;
        if self.memory.has_sp(sp) {
            Some(sp)
        } else {
            None
        }
    }

    // Whether sp is set.
    #[inline(always)]
    pub(super) fn sp_is_set(&self) -> bool
        ensures { result ≡ is_set self.now.map self.now.core }
    {
        self.stack_address(&self.registers[SP as usize]).is_some()
    }

    // Whether sp isn't set though an item needs it.
    pub(super) fn lacks_stack(&self, item: &Item) -> bool
        ensures { result ≡ (needs_stack (Some item.now) && not (is_set self.now.map self.now.core)) }
    {
        !self.sp_is_set() && needs_stack(item)
    }

    // Whether a call by these registers would leave no number in sp though it is set.
    pub(super) fn loses_sp(&self, rd: Reg, temp: Reg) -> bool
        ensures { result ≡ ((rd == 2 || temp == 2) && is_set self.now.map self.now.core) }
    {
        (rd.number() == SP || temp.number() == SP) && self.sp_is_set()
    }

    // Sets sp to a word and goes on to a place, unless sp is set and wouldn't be any more.
    pub(super) fn set_sp(&mut self, word: &Held, to: Place) -> bool
        requires { self.old.core.exit ≡ None }
        ensures made { OnTrue result (RunsOn (applied self.old.map self.old.core (Goes (sets 2
            (word_of word.now) to))) [] self.old.core self.new.core) }
        ensures stuck { OnFalse result (applied self.old.map self.old.core (Goes (sets 2
            (word_of word.now) to)) ≡ Stuck StackPointer) }
        ensures same { OnFalse result (self.new ≡ self.old) }
    {
        let _ = &self.registers;
        if let Some(sp) = self.stack_address(word) {
            self.memory.settle(sp);
            self.registers[SP as usize] = *word;
            self.place = to;
            return true;
        }
        if self.sp_is_set() {
            return false;
        }
        self.registers[SP as usize] = *word;
        self.place = to;
        true
    }
}

// Whether an item needs sp to be set.
fn needs_stack(item: &Item) -> bool
    ensures { result ≡ needs_stack (Some item.now) }
{
    match item {
        Item::Op(instr) => is_of_frame(instr),
        Item::Lo(instr, _) | Item::PcLo(instr, _) => accesses_by_sp(instr),
        Item::RawShort(half) => is_frame(*half),
        Item::Hi(..)
        | Item::PcHi(..)
        | Item::Branch { .. }
        | Item::Jump { .. }
        | Item::Call { .. }
        | Item::Align(_)
        | Item::Word(_)
        | Item::Raw(_)
        | Item::RawPair(..) => false,
    }
}

// Whether an instruction is a load or store by sp.
fn accesses_by_sp(instr: &Instr) -> bool
    ensures { result ≡ accesses_by_sp instr.now }
{
    match instr {
        Instr::Load { base, .. } | Instr::Store { base, .. } => base.number() == SP,
        _ => false,
    }
}

// Whether an instruction is one of which frames are made.
fn is_of_frame(instr: &Instr) -> bool
    ensures { result ≡ is_of_frame instr.now }
{
    match instr {
        Instr::WithImm { op, rd, first, .. } => {
            *op == ImmOp::Addi && rd.number() == SP && first.number() == SP
        }
        _ => accesses_by_sp(instr),
    }
}

// Whether a halfword is a push or a pop.
fn is_frame(half: u16) -> bool
    ensures { result ≡ needs_stack (Some (RawShort half)) }
{
    let Some(short) = decode16(half) else {
        return false;
    };
    match short {
        Short::Push { .. } | Short::Pop { .. } | Short::PopRet { .. } | Short::PopRetz { .. } => {
            true
        }
        Short::Base(_) | Short::TableJump { .. } | Short::MoveSa { .. } | Short::MoveAs { .. } =>
            false,
    }
}
