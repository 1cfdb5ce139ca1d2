// Marks at halfwords of code.

ghost use Rattle.std.specs.Prelude.{◌≡◌, ◌≢◌, slice_index_or, true, ◌&&◌, ◌||◌, ◌==◌, ℕ, false, IfOk};
ghost use Rattle.block_cut.specs.Invariants.Led.{mark_at};

use std::alloc::{AllocError, Global};
use std::marker::Model;

/// Which halfwords of a section of code are marked, and at last whether its end is; for any other section there are
/// none.
#[derive(Drop)]
pub struct Marks {
    marks: Vec<bool>,
}

impl Model for Marks {
    ghost use Rattle.std.specs.Prelude.{Bool, List};

    ghost Value = { List Bool };

    ghost view = { λ marks. marks.marks.items };
}

// Whether a halfword has a number other than 0.
fn is_numbered(numbers: &[u32], k: usize) -> bool
    ensures { result ≡ true → slice_index_or numbers.now k 0 ≢ 0 }
{
    match numbers.get(k) {
        None => false,
        Some(number) => *number != 0,
    }
}

// Whether each halfword that is marked has a number other than 0.
fn are_numbered(marks: &[bool], numbers: &[u32]) -> bool
    ensures { result ≡ true → (k : ℕ) → mark_at marks.now k ≡ true → slice_index_or numbers.now k 0 ≢ 0 }
{
    for (k, mark) in marks.iter().enumerate() {
        if *mark && !is_numbered(numbers, k) {
            return false;
        }
    }
    true
}

impl Marks {
    /// `count` halfwords without a mark.
    pub fn new(alloc: Global, count: usize) -> Result<Marks, AllocError>
        ensures { IfOk result (λ marks. (k : ℕ) → mark_at marks k ≡ false) }
    {
        Ok(Marks {
            marks: vec![in alloc; false; count]?,
        })
    }

    /// Marks a halfword, or says that it isn't there.
    pub fn mark(&mut self, k: u32) -> bool
        ensures { (n : ℕ) → mark_at self.new n ≡ (mark_at self.old n || (result && n == k)) }
    {
        if self.marks.len() <= k as usize {
            return false;
        }
        self.marks[k as usize] = true;
        true
    }

    /// Whether each halfword that is marked has a number other than 0.
    pub fn are_numbered(&self, numbers: &[u32]) -> bool
        ensures { result ≡ true → (k : ℕ) → mark_at self.now k ≡ true → slice_index_or numbers.now k 0 ≢ 0 }
    {
        are_numbered(&self.marks, numbers)
    }

    /// Whether a halfword is marked.
    pub fn has(&self, k: u32) -> bool
        ensures { result ≡ mark_at self.now k }
    {
        match self.marks.get(k as usize) {
            None => false,
            Some(mark) => *mark,
        }
    }
}
