// Plans of interrupts that also write shared data.

ghost use Rattle.std.specs.Prelude.{◌≡◌, ◌<◌, ◌^◌, length, slice_get, Some};

use std::marker::Model;

/// An interrupt before commit `at`: the accesses of the push or pop at pc that were already completed, by their
/// numbers; the bytes that were then written, by address; and the cells that are written after it, by address.
#[derive(Drop)]
pub struct SharedCut {
    pub at: u64,
    pub done: Vec<u8>,
    pub dirt: Vec<(u32, u8)>,
    pub cells: Vec<(u32, u8)>,
}

impl Model for SharedCut {
    ghost use Rattle.interrupt_plan.specs.SharedPlan.{SharedEntry};

    ghost Value = { SharedEntry };

    ghost view = { λ e. record {
      entry = record { at = e.at; cut = record { done = e.done.items; dirt = e.dirt.items } };
      cells = e.cells.items;
    } };
}

/// The interrupts of a run with their cells, in the order in which they happen.
#[derive(Drop)]
pub struct SharedPlan {
    cuts: Vec<SharedCut>,
}

impl Model for SharedPlan {
    ghost use Rattle.std.specs.Prelude.{◌<◌, ◌^◌, List, length};
    ghost use Rattle.interrupt_plan.specs.Order.{IsSharedInOrder};
    ghost use Rattle.interrupt_plan.specs.SharedPlan.{SharedEntry};

    ghost Value = { List SharedEntry };

    ghost view = { λ p. p.cuts.items };

    ghost invariant = { λ p. (length p.cuts.items < 2 ^ 32) × IsSharedInOrder p.cuts.items };
}

impl SharedPlan {
    ghost use Rattle.interrupt_plan.specs.Order.{IsSharedInOrder};

    /// The plan of these interrupts.
    pub(crate) fn new(cuts: Vec<SharedCut>) -> SharedPlan
        requires few { length cuts.items < 2 ^ 32 }
        requires in_order { IsSharedInOrder cuts.items }
        ensures { result ≡ cuts.items }
    {
        SharedPlan { cuts }
    }

    /// The number of interrupts.
    pub fn cut_count(&self) -> u32
        ensures count { result ≡ length self.now }
        ensures in_order { IsSharedInOrder self.now }
    {
        self.cuts.len() as u32
    }

    /// The interrupt with this number, counted from 0.
    pub fn cut(&self, i: u32) -> &SharedCut
        requires { i < length self.now }
        ensures { slice_get self.now i ≡ Some result.now }
    {
        &self.cuts[i as usize]
    }
}
