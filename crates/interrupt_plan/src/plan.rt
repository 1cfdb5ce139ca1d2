// Plans of interrupts.

ghost use Rattle.std.specs.Prelude.{◌≡◌, ◌<◌, ◌^◌, [], length, slice_get, Some};

use std::alloc::Global;
use std::marker::Model;

/// An interrupt before commit `at`: the accesses of the push or pop at pc that were already completed, by
/// their numbers, and the bytes that were then written, by address.
#[derive(Drop)]
pub struct PlanCut {
    pub at: u64,
    pub done: Vec<u8>,
    pub dirt: Vec<(u32, u8)>,
}

impl Model for PlanCut {
    ghost use Rattle.interrupt_plan.specs.Plan.{Entry};

    ghost Value = { Entry };

    ghost view = { λ e. record { at = e.at; cut = record { done = e.done.items; dirt = e.dirt.items } } };
}

/// The interrupts of a run, in the order in which they happen.
#[derive(Drop)]
pub struct Plan {
    cuts: Vec<PlanCut>,
}

impl Model for Plan {
    ghost use Rattle.std.specs.Prelude.{◌<◌, ◌^◌, List, length};
    ghost use Rattle.interrupt_plan.specs.Order.{IsInOrder};
    ghost use Rattle.interrupt_plan.specs.Plan.{Entry};

    ghost Value = { List Entry };

    ghost view = { λ p. p.cuts.items };

    ghost invariant = { λ p. (length p.cuts.items < 2 ^ 32) × IsInOrder p.cuts.items };
}

/// The plan without interrupts.
pub fn empty_plan(alloc: Global) -> Plan
    ensures { result ≡ [] }
{
    Plan {
        cuts: Vec::new(alloc),
    }
}

impl Plan {
    ghost use Rattle.interrupt_plan.specs.Order.{IsInOrder};

    /// The plan of these interrupts.
    pub(crate) fn new(cuts: Vec<PlanCut>) -> Plan
        requires few { length cuts.items < 2 ^ 32 }
        requires in_order { IsInOrder cuts.items }
        ensures { result ≡ cuts.items }
    {
        Plan { cuts }
    }

    /// The number of interrupts.
    pub fn cut_count(&self) -> u32
        ensures count { result ≡ length self.now }
        ensures in_order { IsInOrder self.now }
    {
        self.cuts.len() as u32
    }

    /// The interrupt with this number, counted from 0.
    pub fn cut(&self, i: u32) -> &PlanCut
        requires { i < length self.now }
        ensures { slice_get self.now i ≡ Some result.now }
    {
        &self.cuts[i as usize]
    }
}
