// Jumps and branches.

ghost use Rattle.std.specs.Prelude.{◌≡◌, ◌<◌, ◌-◌, ◌*◌, ◌/◌, ◌^◌, if◌then◌else◌, nat_lt, None, Some};
ghost use Rattle.rv_decode.specs.Effect.{branches, jumps};
ghost use Rattle.rv_decode.specs.Memory.{extents_of, is_text, lies_in};
ghost use Rattle.rv_decode.specs.State.{word_at};
ghost use Rattle.zc_decode.specs.Effect.{entry_at, table_jumps};
ghost use Rattle.zc_machine.specs.Answer.{answer_of, core_after};
ghost use Rattle.zc_machine.specs.Step.{effect_step};

use super::Machine;
use crate::answer::Step;
use crate::cells::first_word;
use crate::reason::Reason;
use crate::region::AccessKind;
use zc_base::reg::Reg;

impl Machine {
    // Commits a jump of this size to an address, with the one after it in a register.
    #[inline(always)]
    pub(super) fn jump(&mut self, to: u32, rd: Reg, size: u32) -> Step
        requires { self.old.commits < 2 ^ 64 - 1 }
        ensures answer { result ≡ answer_of (effect_step (jumps to rd size self.old) self.old) }
        ensures state { self.new ≡ core_after (effect_step (jumps to rd size self.old) self.old) self.old }
    {
        let after = self.after(size);
        self.set(rd, after);
        self.commit(to)
    }

    // Commits a branch of this size.
    #[inline(always)]
    pub(super) fn branch(&mut self, taken: bool, distance: i32, size: u32) -> Step
        requires { self.old.commits < 2 ^ 64 - 1 }
        ensures answer { result ≡ answer_of (effect_step (branches taken distance size self.old) self.old) }
        ensures state { self.new ≡ core_after (effect_step (branches taken distance size self.old) self.old) self.old }
    {
        if taken {
            self.commit(self.pc.wrapping_add(distance.cast_unsigned()))
        } else {
            self.go_on(size)
        }
    }

    // Commits a jump of this size to the address in an entry of the jump table.
    pub(super) fn table_jump(&mut self, index: u8, size: u32) -> Step
        requires { self.old.commits < 2 ^ 64 - 1 }
        ensures answer { result ≡ answer_of (effect_step (table_jumps index size self.old) self.old) }
        ensures state { self.new ≡ core_after (effect_step (table_jumps index size self.old) self.old) self.old }
    {
        match self.table_entry(index) {
            Some(entry) => self.jump(even(entry), link_of(index), size),
            None => Step::Stopped(Reason::BadAccess),
        }
    }

    // The entry of the jump table with this index, if it lies in code.
    fn table_entry(&self, index: u8) -> Option<u32>
        ensures { result ≡ (if lies_in is_text (extents_of self.now.memory) (entry_at index self.now) 4
            then Some (word_at self.now (entry_at index self.now)) else None) }
    {
        self.code_word(self.jvt.wrapping_add(4 * u32::from(index)))
    }

    // The word at an address, if it lies in code.
    #[inline(always)]
    pub(super) fn code_word(&self, at: u32) -> Option<u32>
        ensures { result ≡ (if lies_in is_text (extents_of self.now.memory) at 4
            then Some (word_at self.now at) else None) }
    {
        first_word(self.memory.reach(AccessKind::Fetch, at))
    }
}

// An address with bit 0 cleared.
pub(super) fn even(address: u32) -> u32
    ensures { result ≡ address / 2 * 2 }
{
    address & !1
}

// The register that a table jump links to.
fn link_of(index: u8) -> Reg
    ensures { result ≡ (if nat_lt index 32 then 0 else 1) }
{
    let number = if index < 32 { 0 } else { 1 };
    Reg::new(number).unwrap()
}
