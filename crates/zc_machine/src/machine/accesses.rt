// Loads and stores.

ghost use Rattle.std.specs.Prelude.{◌≡◌, ◌<◌, ◌-◌, ◌^◌, ◌%◌, ◌==◌, if◌then◌else◌};
ghost use Rattle.rv_decode.specs.Effect.{load_width, loads, store_width, stores};
ghost use Rattle.rv_decode.specs.Memory.{byte_of, changed, extents_of, is_data, lies_in, written};
ghost use Rattle.zc_machine.specs.Answer.{answer_of, core_after};
ghost use Rattle.zc_machine.specs.Step.{effect_step};

use super::Machine;
use crate::answer::Step;
use crate::cells::loaded;
use crate::memory::Memory;
use crate::reason::Reason;
use crate::region::AccessKind;
use rv_decode::device_access::DeviceAccess;
use rv_decode::instr::{LoadOp, StoreOp};
use zc_base::reg::Reg;

impl Machine {
    // Loads from an address into a register.
    #[inline(always)]
    pub(super) fn load_to(&mut self, op: LoadOp, a: u32, rd: Reg, size: u32) -> Step
        requires { self.old.commits < 2 ^ 64 - 1 }
        ensures answer { result ≡ answer_of (effect_step (loads op a rd size self.old) self.old) }
        ensures state { self.new ≡ core_after (effect_step (loads op a rd size self.old) self.old) self.old }
    {
        if !is_aligned_load(op, a) {
            return Step::Stopped(Reason::Misaligned);
        }
        match loaded(op, self.memory.reach(AccessKind::Data, a)) {
            Some(value) => self.give(value, rd, size),
            None => Step::Asks(DeviceAccess::Load {
                op,
                at: a,
                rd,
                size,
            }),
        }
    }

    // Stores the low bytes of a word at an address.
    #[inline(always)]
    pub(super) fn store(&mut self, op: StoreOp, a: u32, word: u32, size: u32) -> Step
        requires { self.old.commits < 2 ^ 64 - 1 }
        ensures answer { result ≡ answer_of (effect_step (stores op a word size self.old) self.old) }
        ensures state { self.new ≡ core_after (effect_step (stores op a word size self.old) self.old) self.old }
    {
        if !is_aligned_store(op, a) {
            return Step::Stopped(Reason::Misaligned);
        }
        if put(&mut self.memory, op, a, word) {
            self.go_on(size)
        } else {
            Step::Asks(DeviceAccess::Store {
                op,
                at: a,
                word,
                size,
            })
        }
    }
}

// Writes the low bytes of a word, if they lie in memory for data, and says whether they do.
#[inline(always)]
pub(super) fn put(memory: &mut Memory, op: StoreOp, a: u32, word: u32) -> bool
    ensures reached { result ≡ lies_in is_data (extents_of memory.old) a (store_width op) }
    ensures after { memory.new ≡ (if result then changed (written a (store_width op)
        (byte_of word)) memory.old else memory.old) }
{
    let bytes = word.to_le_bytes();
    match op {
        StoreOp::Sb => memory.write(AccessKind::Data, a, &bytes[..1]),
        StoreOp::Sh => memory.write(AccessKind::Data, a, &bytes[..2]),
        StoreOp::Sw => memory.write(AccessKind::Data, a, &bytes),
    }
}

// Whether an address is a multiple of what a load takes.
fn is_aligned_load(op: LoadOp, a: u32) -> bool
    ensures { result ≡ (a % load_width op == 0) }
{
    match op {
        LoadOp::Lb | LoadOp::Lbu => true,
        LoadOp::Lh | LoadOp::Lhu => a % 2 == 0,
        LoadOp::Lw => a % 4 == 0,
    }
}

// Whether an address is a multiple of what a store writes.
fn is_aligned_store(op: StoreOp, a: u32) -> bool
    ensures { result ≡ (a % store_width op == 0) }
{
    match op {
        StoreOp::Sb => true,
        StoreOp::Sh => a % 2 == 0,
        StoreOp::Sw => a % 4 == 0,
    }
}
