// Where offsets go in a section whose tails are removed.

ghost use Rattle.std.specs.Prelude.{◌≡◌, ◌≤◌, ℕ, IfSome};
ghost use Rattle.std.specs.List.Sorted.{IsNonDecreasingBy};
ghost use Rattle.psabi_sym.specs.Inputs.{ParsedInputs, parsed};
ghost use Rattle.tail_merge.specs.Merged.{removed_at};
ghost use Rattle.tail_merge.specs.MovedTails.{AreMovedAt, last_before, down_from_tail, tail_over};
ghost use Rattle.tail_merge.specs.Tails.{host_offset, merged_offset, moved_down};
ghost use Rattle.tail_merge.specs.declared.moved_tail.MovedTail.{MovedTail};

use crate::removed_tail::RemovedTail;
use block_cut::cut::Cut;
use zc_base::place::Place;

/// A removed tail as an entry of its section's table: where it begins and ends and where the host's tail begins, where
/// the jump in its place stands and ends, and how many bytes fewer there are up to the tail's end.
#[derive(Clone, Copy)]
pub struct MovedTail {
    pub tail: RemovedTail,
    pub start: u32,
    pub stop: u32,
    pub host: u32,
    pub jump: u32,
    pub after: u32,
    pub saved: u32,
}

impl MovedTail {
    /// Where an offset goes that is no less than the tail's start, up to the next tail.
    pub fn moved(&self, n: u32) -> u32
        ensures { result ≡ down_from_tail self.now n }
    {
        if n == self.start {
            self.jump
        } else if n < self.stop {
            self.after
        } else {
            n.saturating_sub(self.saved)
        }
    }
}

/// The last tail that begins at an offset or before it, in logarithmic time, as do all that follow.
pub fn last_before(tails: &[MovedTail], n: u32) -> Option<MovedTail>
    ensures { IsNonDecreasingBy (λ (t : MovedTail). t.start) tails.now → result ≡ last_before tails.now n }
{
    match tails.partition_point(|t| t.start <= n) {
        0 => None,
        k => Some(tails[k - 1]),
    }
}

/// The tail that an offset lies in.
pub fn tail_over(tails: &[MovedTail], n: u32) -> Option<MovedTail>
    ensures { IsNonDecreasingBy (λ (t : MovedTail). t.start) tails.now → result ≡ tail_over tails.now n }
{
    match last_before(tails, n) {
        Some(tail) if n < tail.stop => Some(tail),
        _ => None,
    }
}

/// Where an offset of a section moves down to, by the section's table.
pub fn moved_down(tails: &[MovedTail], n: u32) -> u32
    ensures { (inputs : ParsedInputs) (o i : ℕ) → AreMovedAt inputs o i tails.now
        → result ≡ moved_down (removed_at inputs o i) n }
{
    match last_before(tails, n) {
        None => n,
        Some(tail) => tail.moved(n),
    }
}

// The offset of the host's item, if at a place stands a later item of a removed tail.
fn host_offset(tails: &[MovedTail], cut: &Cut, place: Place) -> Option<u32>
    requires { AreMovedAt (parsed cut.now) place.object place.section tails.now }
    ensures offset { result ≡ host_offset (removed_at (parsed cut.now) place.object place.section) place.offset }
    ensures small { IfSome result (λ offset. offset ≤ 0x40_0000) }
{
    // Sections without a fault are whole, so each item has bytes.
    cut.recall_invariant();
    let tail = tail_over(tails, place.offset)?.tail;
    let section = cut.objects().section_number(place.object, place.section)?;
    let index = cut.number(place)?.index;
    let back = tail.end - index;
    if back + 1 < tail.count {
        Some(cut.places(section)[(tail.host - back) as usize].offset)
    } else {
        None
    }
}

/// Where what stands at a place of code is found in its section, by the section's table.
pub fn merged_offset(tails: &[MovedTail], cut: &Cut, place: Place) -> u32
    requires { AreMovedAt (parsed cut.now) place.object place.section tails.now }
    ensures offset { result ≡ merged_offset (removed_at (parsed cut.now) place.object place.section) place.offset }
    ensures small { place.offset ≤ 0x40_0000 → result ≤ 0x40_0004 }
{
    match host_offset(tails, cut, place) {
        None => moved_down(tails, place.offset),
        Some(offset) => moved_down(tails, offset),
    }
}
