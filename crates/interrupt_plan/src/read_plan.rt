// Plans as texts.

ghost use Rattle.std.specs.Prelude.{◌≡◌, ◌⊎◌, IfOk, IfErr, Ok, Err};
ghost use Rattle.interrupt_plan.specs.Fault.{IsPlanFault};
ghost use Rattle.interrupt_plan.specs.Plan.{IsPlan};
ghost use Rattle.interrupt_plan.specs.Text.{IsPlanText, ReadsEach, plan_in};

use crate::fault::PlanFault;
use crate::plan::{Plan, PlanCut};
use crate::read_lines::read_text;
use std::alloc::Global;

/// The longest text that is read, in bytes.
pub const PLAN_LIMIT: usize = 8_388_608;

/// The plan that a text spells, or the first fault in the text, with the number of its line.
pub fn read_plan(alloc: Global, text: &[u8]) -> Result<Plan, PlanFault>
    ensures ok { IfOk result (λ plan. plan_in text.now ≡ Ok plan) }
    ensures err { IfErr result (λ fault. (fault ≡ PlanFault.OutOfMemory) ⊎ (plan_in text.now ≡ Err fault)) }
    ensures fault { IfErr result (IsPlanFault text.now) }
    ensures spells { IfOk result (λ plan. IsPlanText text.now plan) }
    ensures bytes { IfOk result (λ plan. IsPlan plan) }
    ensures complete { ReadsEach (IsPlanText text.now) text.now result }
{
    let cuts = read_text::<PlanCut>(alloc, text)?;
    Ok(Plan::new(cuts))
}
