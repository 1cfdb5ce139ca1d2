// Steps one after another.

ghost use Rattle.std.specs.Prelude.{◌≡◌, ◌<◌, None};
ghost use Rattle.psabi_sym.specs.Inputs.{parsed};
ghost use Rattle.sym_machine.specs.Advance.{Advanced};
ghost use Rattle.sym_machine.specs.Kept.{IsOf};
ghost use Rattle.sym_machine.specs.Objects.{program_of};

use super::State;
use crate::answer::SymStep;
use crate::cursor::{Cursor, item_here};
use block_cut::cut::Cut;
use std::alloc::AllocError;

impl State<'_> {
    /// Makes at most `steps` steps, up to the first with an answer other than that it is done. Returns how many came
    /// before that one, and its answer.
    #[inline(always)]
    pub fn advance(&mut self, cut: &Cut, steps: u64) -> (u64, Result<SymStep, AllocError>)
        requires some { 0 < steps }
        requires running { self.old.core.exit ≡ None }
        requires of { IsOf (program_of (parsed cut.now)) self.old.core }
        ensures within { result.0 < steps }
        ensures advanced { Advanced (program_of (parsed cut.now)) self.old.core self.new.core result.0 result.1 }
    {
        // The loop doesn't look whether a step needs sp to be set. Once set, sp stays so.
        if !self.sp_is_set() {
            return (0, self.step(cut));
        }
        let Some(mut cursor) = Cursor::new(cut, self.place()) else {
            return (0, self.step(cut));
        };
        let mut made = 0;
        while made + 1 < steps {
            let place = self.place();
            let Some((found, here)) = cursor.find(cut, place) else {
                return (made, self.step(cut));
            };
            let Some((item, next)) = item_here(cut, here, place) else {
                return (made, self.step(cut));
            };
            cursor = found.next();
            if !self.quick_item(item, next) {
                match self.step_item(cut, item, next) {
                    Ok(SymStep::Done) => {}
                    answer => return (made, answer),
                }
            }
            made += 1;
        }
        (made, self.step(cut))
    }
}
