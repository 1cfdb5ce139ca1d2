// What reads and loads from devices take from the answers of a machine's environment.

ghost use Rattle.std.specs.Prelude.{◌≡◌, ◌+◌, ◌<◌, ◌-◌, ◌^◌, drop, length, slice_index, take, true};
ghost use Rattle.rv_decode.specs.Devices.{number_from};
ghost use Rattle.rv_decode.specs.Memory.{changed, extents_of, is_data, lies_in, written};
ghost use Rattle.rv_decode.specs.State.{ZcState, reg_in};
ghost use Rattle.rv_decode.specs.System.{system_width};
ghost use Rattle.zc_machine.specs.Answer.{WantsRead, has_read};
ghost use Rattle.zc_machine.specs.Run.{device_answers};
ghost use Rattle.zc_machine.specs.Step.{zc_step};

use super::Machine;
use crate::memory::Memory;
use crate::region::AccessKind;
use devices::answers::Answers;
use rv_decode::bits::register_at;
use rv_decode::device_access::DeviceAccess;
use rv_decode::instr::LoadOp;
use rv_decode::system::system_width;

impl Machine {
    /// Makes the commit of the read that `step` wants, with as many bytes from the front of the answers as its buffer has
    /// room for, or with all that are left.
    pub fn answer_read_from(&mut self, answers: &mut Answers<'_>)
        requires room { self.old.commits < 2 ^ 64 - 1 }
        requires wanted { WantsRead 0 (zc_step self.old) }
        ensures state { self.new ≡ has_read (take (reg_in self.old 12) answers.old) self.old }
        ensures left { answers.new ≡ drop (reg_in self.old 12) answers.old }
    {
        let (at, len) = (self.regs[11], self.regs[12]);
        self.regs[10] = fill(&mut self.memory, at, len, answers);
        self.pc = self.pc.wrapping_add(4);
        self.commits += 1;
    }

    /// Makes the commit of a device's answer to an access. A load, and an instruction of the system that has a register
    /// for it, takes its bytes from the front of the answers.
    pub fn answer_access(&mut self, access: &DeviceAccess, answers: &mut Answers<'_>)
        requires { self.old.commits < 2 ^ 64 - 1 }
        ensures state { (r : ZcState) → r.core ≡ self.old → r.input ≡ answers.old
            → self.new ≡ (device_answers access.now r).core }
        ensures left { (r : ZcState) → r.input ≡ answers.old → answers.new ≡ (device_answers access.now r).input }
    {
        match access {
            DeviceAccess::Load { op, rd, size, .. } => {
                let value = answers.take_value(*op);
                self.give(value, *rd, *size);
            }
            DeviceAccess::Store { size, .. } => {
                self.go_on(*size);
            }
            DeviceAccess::System { word, .. } => {
                let value = system_value(*word, answers);
                self.give(value, register_at(*word, 7), 4);
            }
        }
    }
}

// Takes what is answered to an instruction of the system, and gives the number that it is.
fn system_value(word: u32, answers: &mut Answers<'_>) -> u32
    ensures value { result ≡ number_from (take (system_width word) answers.old) }
    ensures left { answers.new ≡ drop (system_width word) answers.old }
{
    if system_width(word) == 0 {
        return 0;
    }
    answers.take_value(LoadOp::Lw)
}

// Writes bytes from the front of the answers to a buffer, until it is full or none are left, and returns their number.
fn fill(memory: &mut Memory, at: u32, len: u32, answers: &mut Answers<'_>) -> u32
    requires { 0 < len → lies_in is_data (extents_of memory.old) at len ≡ true }
    ensures count { result ≡ length (take len answers.old) }
    ensures memory { memory.new ≡ changed (written at (length (take len answers.old))
        (slice_index (take len answers.old))) memory.old }
    ensures left { answers.new ≡ drop len answers.old }
{
    // It ends at 2^32 or before.
    memory.recall_invariant();
    let mut done = 0;
    while done < len {
        let piece = answers.take_piece((len - done) as usize);
        if piece.is_empty() {
            break;
        }
        memory.write(AccessKind::Data, at + done, piece);
        done += piece.len() as u32;
    }
    done
}
