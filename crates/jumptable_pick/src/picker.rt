// The choice of a jump table.

ghost use Rattle.std.specs.Prelude.{◌≡◌, ◌≤◌, IfOk, IsTrue, length};
ghost use Rattle.std.specs.List.{list_all};
ghost use Rattle.jumptable_pick.specs.Picked.{picked};
ghost use Rattle.jumptable_pick.specs.Ranking.{is_small, ranking};
ghost use Rattle.jumptable_pick.specs.Tables.{best_table};
ghost use Rattle.pick_check.specs.Best.{NoneSavesMore};
ghost use Rattle.pick_check.specs.Certified.{IsAccepted};
ghost use Rattle.pick_check.specs.declared.part.Part.TheVariants.{Calls, Jumps};

use crate::prices::prices_of;
use crate::ranking::{Rank, ranking};
use crate::slot_lists::{call_table, jump_table};
use crate::table::Table;
use pick_check::certificate::Certificate;
use pick_check::part::Part;
use pick_check::saving::Saving;
use std::alloc::{AllocError, Global};

/// The certificate of the table that saves most, with prices that show it.
///
/// It takes n log n steps. The table has no slots; or slots for at most 32 targets, those whose jump sites save most;
/// or these and, from slot 32 on, slots for at most 224 targets, those whose call sites save most.
pub fn pick(alloc: Global, savings: &[Saving]) -> Result<Certificate, AllocError>
    requires few { length savings.now ≤ 1048576 }
    requires small { IsTrue (list_all is_small savings.now) }
    ensures value { IfOk result (λ c. c ≡ picked savings.now) }
    ensures accepted { IfOk result (IsAccepted savings.now) }
    // no assignment saves more than the net of the certificate
    ensures best { IfOk result (λ c. NoneSavesMore savings.now c.net) }
{
    let jumps = ranking(alloc, Part::Jumps, savings)?;
    let calls = ranking(alloc, Part::Calls, savings)?;
    let table = best_table(alloc, savings, &jumps, &calls)?;
    let prices = prices_of(&jumps, &calls);
    Ok(Certificate {
        slots: table.slots,
        prices,
        net: table.net,
    })
}

// The table with the greatest net, the first if equal: without slots, for jumps alone, or for jumps and calls.
#[tactic(auto, using(crate::proofs::PickLaws::none_fit))]
fn best_table(
    alloc: Global,
    savings: &[Saving],
    jumps: &[Rank],
    calls: &[Rank],
) -> Result<Table, AllocError>
    requires jumps { jumps.now ≡ ranking Jumps savings.now }
    requires calls { calls.now ≡ ranking Calls savings.now }
    ensures { IfOk result (λ table. table ≡ best_table savings.now jumps.now calls.now) }
{
    let for_jumps = jump_table(alloc, jumps)?;
    let for_both = call_table(alloc, jumps, calls)?;
    let none = Table::of(savings, Vec::new(alloc));
    let first = none.or_better(Table::of(savings, for_jumps));
    Ok(first.or_better(Table::of(savings, for_both)))
}
