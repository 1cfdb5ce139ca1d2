// Interrupts, and data that are written from outside.

ghost use Rattle.std.specs.Prelude.{◌≡◌, ◌<◌, IfSome, slice_get};
ghost use Rattle.std.specs.Option.{option_map};
ghost use Rattle.rv_decode.specs.State.{reg_in};
ghost use Rattle.zc_decode.specs.Accesses.{accesses_of, words_below};
ghost use Rattle.zc_decode.specs.Lists.{registers_of};
ghost use Rattle.zc_machine.specs.Interrupt.{dirtied, done_all, done_one, interrupted};
ghost use Rattle.zc_machine.specs.Poked.{poked_core};

use super::Machine;
use crate::region::AccessKind;
use zc_decode::lists::registers;
use zc_decode::short::Short;

impl Machine {
    /// Makes an interrupt before the next commit. If a push or pop stands at pc, the accesses of it
    /// with the numbers in `done` are made first, from 0 for that of the highest register, and those
    /// that it doesn't have or that can't be made are passed over. Then the bytes of `dirt` are
    /// written by address, where an interrupt may write: in the stack, below sp.
    pub fn cut(&mut self, done: &[u8], dirt: &[(u32, u8)])
        ensures { self.new ≡ interrupted (record { done = done.now; dirt = dirt.now }) self.old }
    {
        if let Ok((short, _size)) = self.fetch() {
            self.make_done(&short, done);
        }
        for (a, b) in dirt {
            self.dirty(*a, *b);
        }
    }

    /// Writes a byte between two commits, if the address lies in a segment of data.
    pub fn poke(&mut self, at: u32, byte: u8)
        ensures { self.new ≡ poked_core (at, byte) self.old }
    {
        self.memory.write(AccessKind::Poke, at, &[byte]);
    }

    // Makes the accesses with these numbers of the instruction that stands at pc.
    fn make_done(&mut self, short: &Short, done: &[u8])
        ensures { self.new ≡ done_all short.now (accesses_of short.now (reg_in self.old 2)) done.now self.old }
    {
        let sp = self.regs[2];
        for number in done {
            self.make_one(short, sp, *number);
        }
    }

    // Makes the access with this number, if the instruction has it at this sp and it can be made.
    fn make_one(&mut self, short: &Short, sp: u32, number: u8)
        ensures { self.new ≡ done_one short.now (slice_get (accesses_of short.now sp) number) self.old }
    {
        match short {
            Short::Push { list, .. } => self.save_numbered(sp, *list, number),
            Short::Pop { list, adjust }
            | Short::PopRet { list, adjust }
            | Short::PopRetz { list, adjust } => {
                self.restore_numbered(sp.wrapping_add(u32::from(*adjust)), *list, number);
            }
            Short::Base(_)
            | Short::MoveSa { .. }
            | Short::MoveAs { .. }
            | Short::TableJump { .. } => {}
        }
    }

    fn save_numbered(&mut self, top: u32, list: u8, number: u8)
        ensures { self.new ≡ done_one (Short.Push list 0)
            (slice_get (words_below top (registers_of list)) number) self.old }
    {
        if let Some((at, register)) = access(top, list, number) {
            self.save_one(at, register);
        }
    }

    fn restore_numbered(&mut self, top: u32, list: u8, number: u8)
        ensures { self.new ≡ done_one (Short.Pop list 0)
            (slice_get (words_below top (registers_of list)) number) self.old }
    {
        if let Some((at, register)) = access(top, list, number) {
            self.restore_one(at, register);
        }
    }

    // Writes a byte, if an interrupt may write there.
    fn dirty(&mut self, address: u32, byte: u8)
        ensures { self.new ≡ dirtied (address, byte) self.old }
    {
        if address < self.regs[2] {
            self.memory.write(AccessKind::Interrupt, address, &[byte]);
        }
    }
}

// The address and the register of the access with this number, if a list has it below this address.
fn access(top: u32, list: u8, number: u8) -> Option<(u32, u8)>
    ensures is { slice_get (words_below top (registers_of list)) number
        ≡ option_map (λ a. record { at = a.0; register = a.1 }) result }
    ensures known { IfSome result (λ a. (0 < a.1) × (a.1 < 32)) }
{
    let registers = registers(list);
    let index = usize::from(number);
    if index < registers.len() {
        let at = top.wrapping_sub(4 * (u32::from(number) + 1));
        Some((at, registers[index]))
    } else {
        None
    }
}
