// Plans that are generated from a number.

ghost use Rattle.std.specs.Prelude.{◌≡◌, ◌+◌, ◌<◌, ◌≤◌, ◌^◌, IfOk, OnOk};
ghost use Rattle.interrupt_plan.specs.Made.{after_dirt, cut_after, dirt_from, drawn_accesses, made_plan};
ghost use Rattle.zc_base.specs.Draws.{stepped};

use crate::plan::{Plan, PlanCut};
use std::alloc::{AllocError, Global};
use zc_base::draws::Draws;

/// The plan of `count` interrupts, at most 63 commits apart, that is generated from a number.
#[tactic(auto, unfolding(crate::specs::Made::made_plan), using(crate::proofs::MadeLaws::cuts_more))]
pub fn make_plan(alloc: Global, number: u64, count: u32) -> Result<Plan, AllocError>
    requires { count ≤ 10000 }
    ensures { IfOk result (λ plan. plan ≡ made_plan number count) }
{
    let mut cuts = Vec::new(alloc);
    let mut draws = Draws::new(number);
    let mut at = 0;
    for _i in 0..count {
        let cut = draw_cut(alloc, at, &mut draws)?;
        at = cut.at;
        cuts.push(cut)?;
    }
    Ok(Plan::new(cuts))
}

// Draws an interrupt, at most 63 commits after the one before it.
fn draw_cut(alloc: Global, before: u64, draws: &mut Draws) -> Result<PlanCut, AllocError>
    requires { before + 63 < 2 ^ 64 }
    ensures cut { IfOk result (λ cut. cut ≡ cut_after before draws.old) }
    ensures near { IfOk result (λ cut. cut.at ≤ before + 63) }
    ensures after { OnOk result (draws.new ≡ after_dirt 4 (stepped (stepped draws.old))) }
{
    let at = before + u64::from(draws.next() % 64);
    let bits = draws.next();
    let done = drawn_accesses(alloc, bits)?;
    let dirt = draw_dirt(alloc, 4, draws)?;
    Ok(PlanCut { at, done, dirt })
}

// The completed accesses by a drawn number: those whose bits are set.
fn drawn_accesses(alloc: Global, bits: u32) -> Result<Vec<u8>, AllocError>
    ensures { IfOk result (λ done. done.items ≡ drawn_accesses bits) }
{
    let mut done = Vec::new(alloc);
    for access in 0..13u8 {
        if (bits >> access) % 2 == 1 {
            done.push(access)?;
        }
    }
    Ok(done)
}

// Draws `count` bytes near the top of the standard stack.
fn draw_dirt(alloc: Global, count: u32, draws: &mut Draws) -> Result<Vec<(u32, u8)>, AllocError>
    ensures dirt { IfOk result (λ dirt. dirt.items ≡ dirt_from count draws.old) }
    ensures after { OnOk result (draws.new ≡ after_dirt count draws.old) }
{
    let mut dirt = Vec::new(alloc);
    for _k in 0..count {
        let address = 0x0FFF_F000 + draws.next() % 4096;
        let byte = (draws.next() % 256) as u8;
        dirt.push((address, byte))?;
    }
    Ok(dirt)
}
