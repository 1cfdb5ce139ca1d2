// Environment calls, and the answers to them.

ghost use Rattle.std.specs.Prelude.{◌≡◌, ℕ, ◌<◌, ◌+◌, ◌≤◌, ◌%◌, ◌-◌, ◌^◌, IfSome, OnSome, is_some, length};
ghost use Rattle.rv_decode.specs.Memory.{extents_of, is_data, lies_in};
ghost use Rattle.rv_decode.specs.State.{reg_in};
ghost use Rattle.zc_machine.specs.Answer.{WantsExit, WantsRead, WantsWrite, answer_of, exited, has_read, has_written};
ghost use Rattle.zc_machine.specs.Buffer.{IsPiece};
ghost use Rattle.zc_machine.specs.Step.{Wants, buffered, called, zc_step};

use super::Machine;
use crate::answer::{EnvCall, Step};
use crate::reason::Reason;
use crate::region::AccessKind;

// Pieces end at multiples of this.
const PAGE: u32 = 4096;

impl Machine {
    /// Makes the commit of the exit that `step` wants.
    pub fn answer_exit(&mut self)
        requires room { self.old.commits < 2 ^ 64 - 1 }
        requires wanted { WantsExit (zc_step self.old) }
        ensures { (status : ℕ) → zc_step self.old ≡ Wants (EnvCall.Exit status) → self.new ≡ exited status self.old }
    {
        self.exit = Some(self.exit_status());
        self.commits += 1;
    }

    /// Makes the commit of the read that `step` wants, of which these bytes came.
    pub fn answer_read(&mut self, bytes: &[u8])
        requires room { self.old.commits < 2 ^ 64 - 1 }
        requires wanted { WantsRead (length bytes.now) (zc_step self.old) }
        ensures { self.new ≡ has_read bytes.now self.old }
    {
        let len = self.regs[12];
        let fits = bytes.len() as u64 <= u64::from(len);
        prove!(fits);
        self.memory.write(AccessKind::Data, self.regs[11], bytes);
        self.regs[10] = bytes.len() as u32;
        self.pc = self.pc.wrapping_add(4);
        self.commits += 1;
    }

    /// Makes the commit of the write that `step` wants.
    pub fn answer_write(&mut self)
        requires room { self.old.commits < 2 ^ 64 - 1 }
        requires wanted { WantsWrite (zc_step self.old) }
        ensures { self.new ≡ has_written self.old }
    {
        self.regs[10] = self.regs[12];
        self.pc = self.pc.wrapping_add(4);
        self.commits += 1;
    }

    /// The first of `len` bytes at an address, up to where they end or to the next multiple of 4,096, or none if they
    /// don't lie in one segment of data or in the stack.
    pub fn piece(&self, at: u32, len: u32) -> Option<&[u8]>
        requires { 0 < len }
        ensures within { is_some result ≡ lies_in is_data (extents_of self.now.memory) at len }
        ensures below { OnSome result (at + len ≤ 2 ^ 32) }
        ensures some { IfSome result (λ piece. IsPiece self.now at len piece.now) }
    {
        if !self.memory.holds(AccessKind::Data, at, len as usize) {
            return None;
        }
        let count = len.min(PAGE - at % PAGE);
        Some(&self.memory.reach(AccessKind::Data, at)[..count as usize])
    }

    // The environment call that the registers ask for.
    pub(super) fn call(&self) -> Step
        ensures { result ≡ answer_of (called self.now) }
    {
        let (a0, at, len) = (self.regs[10], self.regs[11], self.regs[12]);
        match self.regs[17] {
            93 => Step::Wants(EnvCall::Exit(self.exit_status())),
            63 if a0 == 0 => self.buffered(EnvCall::Read { at, len }),
            64 if a0 == 1 || a0 == 2 => {
                let fd = a0 as u8;
                self.buffered(EnvCall::Write { fd, at, len })
            }
            _ => Step::Stopped(Reason::UnknownCall),
        }
    }

    // A call with a buffer, which must lie in memory for data.
    fn buffered(&self, call: EnvCall) -> Step
        ensures { result ≡ answer_of (buffered self.now call) }
    {
        let (at, len) = (self.regs[11], self.regs[12]);
        if len == 0 || self.memory.holds(AccessKind::Data, at, len as usize) {
            Step::Wants(call)
        } else {
            Step::Stopped(Reason::BadAccess)
        }
    }

    // The status of an exit that is called here: the low byte of a0.
    fn exit_status(&self) -> u8
        ensures { result ≡ reg_in self.now 10 % 256 }
    {
        (self.regs[10] % 256) as u8
    }
}
