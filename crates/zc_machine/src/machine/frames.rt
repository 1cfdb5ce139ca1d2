// Pushes and pops.

ghost use Rattle.std.specs.Prelude.{◌≡◌, ◌<◌, ◌≤◌, ◌*◌, ◌+◌, ◌-◌, ◌^◌, ◌%◌, ◌==◌, ◌&&◌, All, if◌then◌else◌, is_none, true, length};
ghost use Rattle.rv_decode.specs.Memory.{extents_of, is_data, lies_in};
ghost use Rattle.rv_decode.specs.State.{reg_in};
ghost use Rattle.zc_decode.specs.Accesses.{sp_after, words_below};
ghost use Rattle.zc_decode.specs.Effect.{restored, returned, saved, short_effect, zeroed};
ghost use Rattle.zc_decode.specs.Lists.{registers_of};
ghost use Rattle.zc_decode.specs.declared.short.Short.TheVariants.{Push, Pop, PopRet, PopRetz};
ghost use Rattle.zc_machine.specs.Frames.{MakesStep, all_made, obstacle, popped, pushed, word_obstacle, words_put, words_taken};
ghost use Rattle.zc_machine.specs.Step.{effect_step};

use super::Machine;
use super::accesses::put;
use super::jumps::even;
use crate::answer::Step;
use crate::cells::first_word;
use crate::reason::Reason;
use crate::region::AccessKind;
use rv_decode::instr::StoreOp;
use zc_base::fields::{put_u32, u32_at};
use zc_decode::lists::registers;

impl Machine {
    // Makes a push of this size.
    pub(super) fn push(&mut self, list: u8, adjust: u8, size: u32) -> Step
        requires { self.old.commits < 2 ^ 64 - 1 }
        ensures { MakesStep (effect_step (short_effect (Push list adjust) size self.old) self.old) result self.old
            self.new }
    {
        match self.save_list(list, adjust) {
            Some(reason) => Step::Stopped(reason),
            None => self.go_on(size),
        }
    }

    // Makes a pop of this size.
    pub(super) fn pop(&mut self, list: u8, adjust: u8, size: u32) -> Step
        requires { self.old.commits < 2 ^ 64 - 1 }
        ensures { MakesStep (effect_step (short_effect (Pop list adjust) size self.old) self.old) result self.old
            self.new }
    {
        match self.restore_list(list, adjust) {
            Some(reason) => Step::Stopped(reason),
            None => self.go_on(size),
        }
    }

    // Makes a pop that returns.
    pub(super) fn pop_ret(&mut self, list: u8, adjust: u8, size: u32) -> Step
        requires { self.old.commits < 2 ^ 64 - 1 }
        ensures { MakesStep (effect_step (short_effect (PopRet list adjust) size self.old) self.old) result self.old
            self.new }
    {
        match self.restore_list(list, adjust) {
            Some(reason) => Step::Stopped(reason),
            None => self.go_back(),
        }
    }

    // Makes a pop that returns 0.
    pub(super) fn pop_retz(&mut self, list: u8, adjust: u8, size: u32) -> Step
        requires { self.old.commits < 2 ^ 64 - 1 }
        ensures { MakesStep (effect_step (short_effect (PopRetz list adjust) size self.old) self.old) result self.old
            self.new }
    {
        if let Some(reason) = self.restore_list(list, adjust) {
            return Step::Stopped(reason);
        }
        self.clear_a0();
        self.go_back()
    }

    // Gives 0 to a0.
    fn clear_a0(&mut self)
        ensures { self.new ≡ zeroed self.old }
    {
        self.regs[10] = 0;
    }

    // Commits a return to ra.
    fn go_back(&mut self) -> Step
        requires { self.old.commits < 2 ^ 64 - 1 }
        ensures answer { result ≡ Step.Committed }
        ensures state { self.new ≡ returned (record self.old { commits = self.old.commits + 1 }) }
    {
        self.commit(even(self.regs[1]))
    }

    // Saves the registers of a list and lowers sp, or changes nothing and says why.
    fn save_list(&mut self, list: u8, adjust: u8) -> Option<Reason>
        ensures why { result ≡ obstacle (words_below (reg_in self.old 2) (registers_of list)) self.old }
        ensures after { self.new ≡ (if is_none result then pushed list adjust self.old else self.old) }
        ensures commits { self.new.commits ≡ self.old.commits }
    {
        let sp = self.regs[2];
        let obstacle = self.save(sp, registers(list));
        if obstacle.is_none() {
            self.regs[2] = sp.wrapping_sub(u32::from(adjust));
        }
        obstacle
    }

    // Restores the registers of a list and raises sp, or changes nothing and says why.
    fn restore_list(&mut self, list: u8, adjust: u8) -> Option<Reason>
        ensures why { result ≡ obstacle (words_below (sp_after (Pop list adjust) (reg_in self.old 2))
            (registers_of list)) self.old }
        ensures after { self.new ≡ (if is_none result then popped list adjust self.old else self.old) }
        ensures commits { self.new.commits ≡ self.old.commits }
    {
        let to = self.regs[2].wrapping_add(u32::from(adjust));
        let obstacle = self.restore(to, registers(list));
        if obstacle.is_none() {
            self.regs[2] = to;
        }
        obstacle
    }

    // Saves registers to the words below an address, or changes nothing and says why.
    fn save(&mut self, top: u32, registers: &[u8]) -> Option<Reason>
        requires few { length registers.now ≤ 13 }
        requires known { All (λ r. (0 < r) × (r < 32)) registers.now }
        ensures why { result ≡ obstacle (words_below top registers.now) self.old }
        ensures after { self.new ≡ (if is_none result then all_made saved (words_below top registers.now)
            self.old else self.old) }
        ensures commits { self.new.commits ≡ self.old.commits }
    {
        if self.save_together(top, registers) {
            return None;
        }
        let obstacle = self.obstacle(top, registers);
        if obstacle.is_none() {
            self.save_each(top, registers);
        }
        obstacle
    }

    // Saves registers by one write, if the words lie together in memory, and says whether they do.
    fn save_together(&mut self, top: u32, registers: &[u8]) -> bool
        requires few { length registers.now ≤ 13 }
        requires known { All (λ r. (0 < r) × (r < 32)) registers.now }
        ensures why { result ≡ true → is_none (obstacle (words_below top registers.now) self.old) ≡ true }
        ensures after { self.new ≡ (if result then all_made saved (words_below top registers.now)
            self.old else self.old) }
    {
        let count = 4 * registers.len();
        if top % 4 != 0 || (top as usize) < count {
            return false;
        }
        let mut bytes = [0; 52];
        put_words(&mut bytes, &self.regs, registers);
        let low = top - count as u32;
        self.memory.write(AccessKind::Data, low, &bytes[..count])
    }

    // Saves registers word by word.
    fn save_each(&mut self, top: u32, registers: &[u8])
        requires known { All (λ r. (0 < r) × (r < 32)) registers.now }
        requires free { is_none (obstacle (words_below top registers.now) self.old) ≡ true }
        ensures { self.new ≡ all_made saved (words_below top registers.now) self.old }
    {
        let mut at = top;
        for r in registers {
            at = at.wrapping_sub(4);
            self.save_one(at, *r);
        }
    }

    // Saves a register to a word, if it can be stored there.
    pub(super) fn save_one(&mut self, at: u32, register: u8)
        requires { register < 32 }
        ensures { self.new ≡ (if at % 4 == 0 && lies_in is_data (extents_of self.old.memory) at 4
            then saved (record { at = at; register = register }) self.old else self.old) }
    {
        if at % 4 == 0 {
            let word = self.regs[usize::from(register)];
            put(&mut self.memory, StoreOp::Sw, at, word);
        }
    }

    // Restores registers from the words below an address, or changes nothing and says why.
    fn restore(&mut self, top: u32, registers: &[u8]) -> Option<Reason>
        requires few { length registers.now ≤ 13 }
        requires known { All (λ r. (0 < r) × (r < 32)) registers.now }
        ensures why { result ≡ obstacle (words_below top registers.now) self.old }
        ensures after { self.new ≡ (if is_none result then all_made restored (words_below top registers.now)
            self.old else self.old) }
        ensures commits { self.new.commits ≡ self.old.commits }
    {
        if self.restore_together(top, registers) {
            return None;
        }
        let obstacle = self.obstacle(top, registers);
        if obstacle.is_none() {
            self.restore_each(top, registers);
        }
        obstacle
    }

    // Restores registers from the words below an address, if these lie together in memory, and says
    // whether they do.
    fn restore_together(&mut self, top: u32, registers: &[u8]) -> bool
        requires few { length registers.now ≤ 13 }
        requires known { All (λ r. (0 < r) × (r < 32)) registers.now }
        ensures why { result ≡ true → is_none (obstacle (words_below top registers.now) self.old) ≡ true }
        ensures after { self.new ≡ (if result then all_made restored (words_below top registers.now)
            self.old else self.old) }
    {
        let count = 4 * registers.len();
        if top % 4 != 0 || (top as usize) < count {
            return false;
        }
        let cells = self.memory.reach(AccessKind::Data, top - count as u32);
        if cells.len() < count {
            return false;
        }
        take_words(&mut self.regs, registers, cells);
        true
    }

    // Restores registers word by word.
    fn restore_each(&mut self, top: u32, registers: &[u8])
        requires known { All (λ r. (0 < r) × (r < 32)) registers.now }
        requires free { is_none (obstacle (words_below top registers.now) self.old) ≡ true }
        ensures { self.new ≡ all_made restored (words_below top registers.now) self.old }
    {
        let mut at = top;
        for r in registers {
            at = at.wrapping_sub(4);
            self.restore_one(at, *r);
        }
    }

    // Restores a register from a word, if it can be loaded.
    pub(super) fn restore_one(&mut self, at: u32, register: u8)
        requires { (0 < register) × (register < 32) }
        ensures { self.new ≡ (if at % 4 == 0 && lies_in is_data (extents_of self.old.memory) at 4
            then restored (record { at = at; register = register }) self.old else self.old) }
    {
        if at % 4 != 0 {
            return;
        }
        if let Some(word) = first_word(self.memory.reach(AccessKind::Data, at)) {
            self.regs[usize::from(register)] = word;
        }
    }

    // Why the words below an address can't all be loaded and stored, if they can't.
    fn obstacle(&self, top: u32, registers: &[u8]) -> Option<Reason>
        ensures { result ≡ obstacle (words_below top registers.now) self.now }
    {
        let mut at = top;
        for _register in registers {
            at = at.wrapping_sub(4);
            let obstacle = self.word_obstacle(at);
            if obstacle.is_some() {
                return obstacle;
            }
        }
        None
    }

    // Why a word can't be loaded and stored, if it can't.
    fn word_obstacle(&self, at: u32) -> Option<Reason>
        ensures { result ≡ word_obstacle at self.now }
    {
        if at % 4 != 0 {
            Some(Reason::Misaligned)
        } else if self.memory.holds(AccessKind::Data, at, 4) {
            None
        } else {
            Some(Reason::BadAccess)
        }
    }
}

// Writes the words of registers to bytes, each below the one before it, so that the last is at the
// start.
fn put_words(bytes: &mut [u8], regs: &[u32; 32], registers: &[u8])
    requires room { 4 * length registers.now ≤ length bytes.old }
    requires known { All (λ r. (0 < r) × (r < 32)) registers.now }
    ensures { bytes.new ≡ words_put regs.now registers.now (4 * length registers.now) bytes.old }
{
    let mut end = 4 * registers.len();
    for r in registers {
        end -= 4;
        put_u32(bytes, end, regs[usize::from(*r)]);
    }
}

// Gives registers the words of bytes, in that order.
fn take_words(regs: &mut [u32; 32], registers: &[u8], bytes: &[u8])
    requires room { 4 * length registers.now ≤ length bytes.now }
    requires known { All (λ r. (0 < r) × (r < 32)) registers.now }
    ensures { regs.new ≡ words_taken bytes.now registers.now (4 * length registers.now) regs.old }
{
    let mut end = 4 * registers.len();
    for r in registers {
        end -= 4;
        regs[usize::from(*r)] = u32_at(bytes, end);
    }
}
