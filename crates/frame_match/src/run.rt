// Runs of consecutive instructions.

ghost use Rattle.std.specs.Prelude.{◌≡◌, ◌==◌, ◌<◌, ◌≤◌, ℕ, true, length, slice_get, take};
ghost use Rattle.std.specs.Option.{is_some};
ghost use Rattle.psabi_sym.specs.Inputs.{parsed};
ghost use Rattle.block_cut.specs.Items.{place_of};
ghost use Rattle.block_cut.specs.Places.{code_place};
ghost use Rattle.frame_match.specs.Groups.{may_have_groups, spot_on};
ghost use Rattle.frame_match.specs.Invariants.Runs as runs;
ghost use Rattle.frame_match.specs.Invariants.Runs.{op_in, run_from, spots_of, HaveOps, ArePlacesOf, IsRun};

use crate::read::op_of;
use block_cut::code_place::CodePlace;
use block_cut::cut::Cut;
use psabi_sym::section_ref::SectionRef;
use rv_decode::instr::Instr;
use std::marker::Model;
use zc_base::place::Place;

/// Consecutive instructions of a section that have no relocation.
#[derive(Drop)]
pub struct Run<'a> {
    places: &'a [CodePlace],
}

impl<'a> Model for Run<'a> {
    ghost use Rattle.std.specs.Prelude.{List};
    ghost use Rattle.rv_decode.specs.declared.instr.Instr.{Instr};
    ghost use Rattle.frame_match.specs.Invariants.Runs.{ops_of, HaveOps};

    ghost Value = { List Instr };

    ghost view = { λ run. ops_of run.places.now };

    ghost invariant = { λ run. HaveOps run.places.now };
}

/// The instruction at a place, if it has no relocation.
pub fn op_at(place: &CodePlace) -> Option<Instr>
    ensures { result ≡ op_in place.now }
{
    match &place.item {
        Some(item) => op_of(item),
        None => None,
    }
}

/// The place of an offset in a section.
pub fn place_in(section: &SectionRef, place: &CodePlace) -> Place
    ensures { result ≡ place_of section.now place.now.offset }
{
    Place {
        object: section.object(),
        section: section.index(),
        offset: place.offset,
    }
}

// Whether the instruction at a place goes on a run: no basic block begins there, unless it is the run's first.
fn joins(cut: &Cut, section: &SectionRef, place: &CodePlace, is_first: bool) -> bool
    requires may { may_have_groups (parsed cut.now) section.now.object section.now.index ≡ true }
    requires place { place.now ≡ code_place (parsed cut.now) section.now place.now.offset }
    ensures op { result ≡ true → is_some (op_in place.now) ≡ true }
    ensures joins { result ≡ runs.joins is_first (spot_on (parsed cut.now) section.now place.now.offset) }
{
    op_at(place).is_some() && (is_first || !cut.leader(place_in(section, place)))
}

// The number of instructions in a run, up to where a basic block begins; at most 16, since no group has more.
fn run_length(cut: &Cut, section: &SectionRef, places: &[CodePlace]) -> usize
    requires may { may_have_groups (parsed cut.now) section.now.object section.now.index ≡ true }
    requires places { ArePlacesOf (parsed cut.now) section.now places.now }
    ensures within { result ≤ length places.now }
    ensures ops { HaveOps (take result places.now) }
    ensures run { IsRun (spots_of (parsed cut.now) section.now places.now) result }
{
    let limit = places.len().min(16);
    for n in 0..limit {
        if !joins(cut, section, &places[n], n == 0) {
            return n;
        }
    }
    limit
}

impl<'a> Run<'a> {
    /// The run of instructions from the first of some places of a section on, as far as a group may extend.
    pub fn new(cut: &Cut, section: &SectionRef, places: &'a [CodePlace]) -> Run<'a>
        requires may { may_have_groups (parsed cut.now) section.now.object section.now.index ≡ true }
        requires places { ArePlacesOf (parsed cut.now) section.now places.now }
        ensures { take 16 result ≡ take 16 (run_from (spots_of (parsed cut.now) section.now places.now)) }
    {
        let count = run_length(cut, section, places);
        Run {
            places: &places[..count],
        }
    }

    /// The instruction at an index.
    pub fn get(&self, n: usize) -> Option<Instr>
        ensures { result ≡ slice_get self.now n }
    {
        match self.places.get(n) {
            Some(place) => op_at(place),
            None => None,
        }
    }
}
