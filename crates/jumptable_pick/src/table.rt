// Candidates for the jump table.

ghost use Rattle.std.specs.Prelude.{◌≡◌};
ghost use Rattle.jumptable_pick.specs.Tables.{better, table_of};
ghost use Rattle.pick_check.specs.Best.{IsAssignment};

use pick_check::assignment::{cost_of, saved_of};
use pick_check::saving::Saving;
use std::marker::Model;

/// A candidate for the jump table. The net is what its slots save, less the bytes of the table itself; 0 if these are
/// more.
#[derive(Drop)]
pub struct Table {
    pub slots: Vec<u32>,
    pub net: u64,
}

impl Model for Table {
    ghost use Rattle.jumptable_pick.specs.Tables.{SlotTable};

    ghost Value = { SlotTable };

    ghost view = { λ t. record { slots = t.slots.items; net = t.net } };
}

impl Table {
    /// The table with these slots.
    pub fn of(savings: &[Saving], slots: Vec<u32>) -> Table
        requires { IsAssignment savings.now slots.items }
        ensures { result ≡ table_of savings.now slots.items }
    {
        let net = saved_of(savings, &slots).saturating_sub(cost_of(&slots));
        Table { slots, net }
    }

    /// The other table if its net is greater, otherwise this one.
    pub fn or_better(self, other: Table) -> Table
        ensures { result ≡ better self other }
    {
        if self.net < other.net { other } else { self }
    }
}
