// Numbered calls, of which some are to fail.

ghost use Rattle.std.specs.Prelude.{◌≡◌, ◌↔◌, Contains, IfOk, IsTrue};
ghost use Rattle.zc_outside.specs.Calls.{next_call};

use std::alloc::{AllocError, Global};

/// Calls that are numbered from 0, and the numbers of those that fail.
#[derive(Drop)]
pub struct NumberedCalls {
    failing: Vec<u32>,
    made: u32,
}

impl NumberedCalls {
    /// No call was made yet; the calls with these numbers will fail.
    pub fn new(alloc: Global, failing: &[u32]) -> Result<NumberedCalls, AllocError>
        ensures failing { IfOk result (λ c. c.failing.items ≡ failing.now) }
        ensures none { IfOk result (λ c. c.made ≡ 0) }
    {
        let failing = Vec::from_slice(alloc, failing)?;
        Ok(NumberedCalls { failing, made: 0 })
    }

    /// Counts a call, and returns whether it is to fail. The count stops at its largest value.
    pub fn next_fails(&mut self) -> bool
        ensures listed { IsTrue result ↔ Contains self.old.failing.items self.old.made }
        ensures counted { self.new.made ≡ next_call self.old.made }
        ensures failing { self.new.failing ≡ self.old.failing }
    {
        let fails = self.failing.contains(&self.made);
        self.made = self.made.saturating_add(1);
        fails
    }
}
