// Tables that are picked, and the targets of their slots.

ghost use Rattle.std.specs.Prelude.{◌≡◌, ◌≤◌, IfOk, IsTrue, length};
ghost use Rattle.std.specs.List.{list_all};
ghost use Rattle.jumptable_pick.specs.Ranking.{is_small};
ghost use Rattle.pick_check.specs.Certified.{IsAccepted};

use crate::rows::{cut, expect, number};
use jumptable_pick::picker::pick;
use jumptable_pick::slots::slot_places;
use pick_check::certificate::Certificate;
use pick_check::saving::Saving;
use std::alloc::{AllocError, Global};
use std::test::Fail;
use zc_base::place::Place;

// Adds `count` savings with these sites, at offsets four apart.
fn add(
    savings: &mut Vec<Saving>,
    count: u32,
    jump_sites: u32,
    call_sites: u32,
) -> Result<(), Fail> {
    for _ in 0..count {
        let target = Place {
            object: 0,
            section: 1,
            offset: u32::try_from(savings.len())?.wrapping_mul(4),
        };
        savings.push(Saving {
            target,
            jump_sites,
            call_sites,
        })?;
    }
    Ok(())
}

// Adds the savings of a group.
fn add_group(savings: &mut Vec<Saving>, group: &str) -> Result<(), Fail> {
    let (count, sites) = cut(group, ':')?;
    let (jumps, calls) = cut(sites, ':')?;
    add(savings, number(count)?, number(jumps)?, number(calls)?)
}

// The savings of groups: how many, and the jump sites and call sites of each.
fn savings_of(alloc: Global, groups: &str) -> Result<Vec<Saving>, Fail> {
    let mut savings = Vec::new(alloc);
    for group in groups.split_whitespace() {
        add_group(&mut savings, group)?;
    }
    Ok(savings)
}

// Whether savings are as few and as small as a pick requires.
fn may_pick(savings: &[Saving]) -> bool
    ensures few { IsTrue result → length savings.now ≤ 1048576 }
    ensures small { IsTrue result → IsTrue (list_all is_small savings.now) }
{
    savings.len() <= 1_048_576 && are_small(savings)
}

fn are_small(savings: &[Saving]) -> bool
    ensures { result ≡ list_all is_small savings.now }
{
    savings.iter().all(
        |saving| -> bool
            ensures { result ≡ is_small saving.now }
        { saving.jump_sites <= 1_073_741_824 && saving.call_sites <= 1_073_741_824 },
    )
}

fn picked(alloc: Global, savings: &[Saving]) -> Result<Certificate, Fail>
    ensures { IfOk result (IsAccepted savings.now) }
{
    if may_pick(savings) {
        Ok(pick(alloc, savings)?)
    } else {
        Err("too many".into())
    }
}

// Adds slots in runs, each by its first slot and how many follow each other: `0*32` are 32 holes, and `1*32` are the
// slots of the savings 1 to 32.
fn add_runs(text: &mut String, slots: &[u32]) -> Result<(), AllocError> {
    let mut first = 0_u32;
    let mut count = 0_u32;
    for slot in slots {
        let next = if first == 0 {
            0
        } else {
            first.wrapping_add(count)
        };
        if count > 0 && *slot == next {
            count = count.wrapping_add(1);
        } else {
            add_run(text, first, count)?;
            first = *slot;
            count = 1;
        }
    }
    add_run(text, first, count)
}

fn add_run(text: &mut String, first: u32, count: u32) -> Result<(), AllocError> {
    if count == 0 {
        return Ok(());
    }
    write!(text, "{first}*{count} ")
}

fn add_certificate(text: &mut String, c: &Certificate) -> Result<(), AllocError> {
    add_runs(text, c.slots.as_slice())?;
    let [jump, low, high] = c.prices;
    write!(text, "at {jump}")?;
    write!(text, " {low}")?;
    write!(text, " {high} net {}", c.net)
}

fn certificate_of(alloc: Global, savings: &[Saving]) -> Result<String, Fail> {
    let c = picked(alloc, savings)?;
    let mut text = String::new(alloc);
    add_certificate(&mut text, &c)?;
    Ok(text)
}

/// The slots, prices and net that are picked for savings in groups.
pub fn certificate(alloc: Global, groups: &str) -> Result<String, Fail> {
    let savings = savings_of(alloc, groups)?;
    certificate_of(alloc, savings.as_slice())
}

// Savings with the same sites get slots in their order. In the last row but one a target has a slot in both parts; in
// the last one no target has a slot.
const PICKED: &str = "1:0:50 = at 0 0 0 net 0
1:0:30 1:0:50 1:0:4 = 0*32 2*1 1*1 3*1 at 0 0 0 net 16
1:10:0 1:3:0 1:2:0 = 1*2 at 0 0 0 net 6
1:5:0 2:6:0 1:5:0 = 2*2 1*1 4*1 at 0 0 0 net 16
32:9:0 224:0:9 = 1*256 at 0 0 0 net 3572
33:9:0 225:0:9 = 1*32 34*224 at 14 18 14 net 3572
34:9:0 = 1*32 at 14 18 0 net 436
1:9:90 = 1*1 0*31 1*1 at 0 0 0 net 54
4:2:2 = at 0 0 0 net 0";

#[test]
fn tables_are_picked(rt: HostRuntime) -> Result<(), Fail> {
    expect(&rt, "pick", PICKED)
}

// The targets of the picked slots.
fn targets_of(alloc: Global, savings: &[Saving]) -> Result<Vec<Option<Place>>, Fail> {
    let c = picked(alloc, savings)?;
    Ok(slot_places(alloc, savings, &c)?)
}

fn add_offset(text: &mut String, place: &Option<Place>) -> Result<(), AllocError> {
    match place {
        Some(place) => write!(text, " {}", place.offset),
        None => text.push_str("-"),
    }
}

fn offsets(alloc: Global, targets: &[Option<Place>]) -> Result<String, AllocError> {
    let mut text = String::new(alloc);
    for place in targets {
        add_offset(&mut text, place)?;
    }
    Ok(text)
}

/// The offsets of the targets of the slots that are picked for savings in groups, with a dash for each hole.
pub fn places(alloc: Global, groups: &str) -> Result<String, Fail> {
    let savings = savings_of(alloc, groups)?;
    let targets = targets_of(alloc, savings.as_slice())?;
    Ok(offsets(alloc, targets.as_slice())?)
}

const PLACES: &str = "1:0:50 =
1:0:30 1:0:50 1:0:4 = -------------------------------- 4 0 8
1:9:90 = 0------------------------------- 0
1:2:0 2:10:0 = 4 8";

#[test]
fn slots_lead_to_the_targets(rt: HostRuntime) -> Result<(), Fail> {
    expect(&rt, "slot_places", PLACES)
}
