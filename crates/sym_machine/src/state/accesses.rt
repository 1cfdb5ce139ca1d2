// Loads and stores.

ghost use Rattle.std.specs.Prelude.{◌≡◌, ◌==◌, ◌<◌, ◌≤◌, ◌%◌, ℕ, None};
ghost use Rattle.sym_machine.specs.Answer.{Makes, reached};
ghost use Rattle.sym_machine.specs.Change.{Does, load_does, accessing, store_does};
ghost use Rattle.sym_machine.specs.State.{reg_of};
ghost use Rattle.sym_machine.specs.Step.{applied};

use super::State;
use crate::answer::SymStep;
use crate::why::Why;
use rv_decode::instr::{LoadOp, StoreOp};
use rv_decode::widths::{load_width, store_width};
use std::alloc::AllocError;
use zc_base::place::Place;
use zc_base::reg::Reg;

impl State<'_> {
    // A load from an address.
    pub(super) fn step_load(
        &mut self,
        op: LoadOp,
        rd: Reg,
        address: Option<u32>,
        next: Place,
    ) -> Result<SymStep, AllocError>
        requires { self.old.core.exit ≡ None }
        ensures { Makes result (applied self.old.map self.old.core (load_does op rd address self.old.core next))
            self.old.core self.new.core }
    {
        match self.reach(load_width(op), address) {
            Ok(a) => {
                let word = self.loaded(op, a);
                self.give(rd, &word, next)
            }
            Err(why) => Ok(self.stuck(why)),
        }
    }

    // A store to an address.
    pub(super) fn step_store(
        &mut self,
        op: StoreOp,
        source: Reg,
        address: Option<u32>,
        next: Place,
    ) -> Result<SymStep, AllocError>
        requires { self.old.core.exit ≡ None }
        ensures { Makes result (applied self.old.map self.old.core (store_does op
            (reg_of self.old.core source) address self.old.core next)) self.old.core self.new.core }
    {
        match self.reach(store_width(op), address) {
            Ok(a) => {
                let word = self.register(source).bytes();
                let bytes = [word.b0, word.b1, word.b2, word.b3];
                Ok(self.put(a, &bytes[..store_width(op) as usize], next))
            }
            Err(why) => Ok(self.stuck(why)),
        }
    }

    // The address of an access of `n` bytes, or why it can't be made.
    pub(super) fn reach(&self, n: u32, address: Option<u32>) -> Result<u32, Why>
        requires { 0 < n }
        ensures { (go : ℕ → Does) → accessing n address self.now.core go ≡ reached result go }
    {
        let Some(a) = address else {
            return Err(Why::AddressUnknown);
        };
        if !is_multiple(a, n) {
            return Err(Why::Misaligned);
        }
        if !self.reaches(a, n) {
            return Err(Why::BadAddress);
        }
        Ok(a)
    }
}

// Whether a number is a multiple of another. The widths of accesses need no division.
pub(super) fn is_multiple(a: u32, n: u32) -> bool
    requires { 0 < n }
    ensures { result ≡ (a % n == 0) }
{
    match n {
        1 => true,
        2 => a % 2 == 0,
        4 => a % 4 == 0,
        _ => a % n == 0,
    }
}
