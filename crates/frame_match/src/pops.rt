// Pops, with and without a return.

ghost use Rattle.std.specs.Prelude.{◌≡◌, ◌≤◌, ◌<◌, ◌+◌, ℕ, true, false, if◌then◌else◌, slice_get, IfSome};
ghost use Rattle.std.specs.Option.{is_some, option_or};
ghost use Rattle.frame_match.specs.declared.found.Ending.TheVariants.{GoesOn, Returns};
ghost use Rattle.frame_match.specs.declared.found.Found.{Found};
ghost use Rattle.frame_match.specs.declared.slot.Access.TheVariants.{Restores};
ghost use Rattle.frame_match.specs.Matches as matches;
ghost use Rattle.frame_match.specs.Matches.{before, ending_items, pop_of};
ghost use Rattle.frame_match.specs.Read.{slot_accessed};
ghost use Rattle.frame_match.specs.Invariants.Frames.{list_leaving_out, IsKnown};
ghost use Rattle.frame_match.specs.Invariants.Kinds.{tail_as, tail_at, Beats, IsPop};

use crate::found::{Ending, Found};
use crate::frame::Frame;
use crate::pushes::is_framed;
use crate::read::{is_return, is_zero, raised, slot_accessed};
use crate::run::Run;
use crate::slot::Access;
use zc_decode::short::Short;

/// How a pop ends, and the size of its frame in bytes.
#[derive(Clone, Copy)]
pub struct Tail {
    pub ending: Ending,
    pub bytes: u32,
}

// The index of a pop's first load, by whether a0 is set before the loads.
fn first_load(zeroed: bool) -> usize
    ensures { result ≡ (if zeroed then 1 else 0) }
{
    if zeroed { 1 } else { 0 }
}

// The number of loads from an index on, at most 14.
fn loads(run: &Run, from: usize) -> u8
    requires { from < 2 }
    ensures loads { (m : ℕ) → m < result → is_some (slot_accessed Restores (slice_get run.now (from + m))) ≡ true }
    ensures stops { result < 14 → is_some (slot_accessed Restores (slice_get run.now (from + result))) ≡ false }
    ensures few { result ≤ 14 }
{
    for n in 0..14u8 {
        if slot_accessed(Access::Restores, run.get(from + usize::from(n))).is_none() {
            return n;
        }
    }
    14
}

// The size of the frame that the instructions after a pop's loads release, if they form an epilogue of this kind.
fn frame_at(ending: Ending, run: &Run, n: usize) -> Option<u32>
    requires { n < 16 }
    ensures { result ≡ matches.frame_at ending run.now n }
{
    match ending {
        Ending::GoesOn => raised(run.get(n)),
        Ending::Returns | Ending::ZeroFirst => {
            if is_return(run.get(n + 1)) {
                raised(run.get(n))
            } else {
                None
            }
        }
        Ending::ZeroBeforeRaise => {
            if is_zero(run.get(n)) && is_return(run.get(n + 2)) {
                raised(run.get(n + 1))
            } else {
                None
            }
        }
        Ending::ZeroBeforeReturn => {
            if is_zero(run.get(n + 1)) && is_return(run.get(n + 2)) {
                raised(run.get(n))
            } else {
                None
            }
        }
    }
}

fn tail_with(ending: Ending, run: &Run, n: usize) -> Option<Tail>
    requires { n < 16 }
    ensures { result ≡ tail_as ending run.now n }
{
    let bytes = frame_at(ending, run, n)?;
    Some(Tail { ending, bytes })
}

// The end of a pop that returns, or else of one after which execution goes on.
fn later_tail(run: &Run, n: usize) -> Option<Tail>
    requires { n < 16 }
    ensures { result ≡ option_or (tail_as Returns run.now n) (tail_as GoesOn run.now n) }
{
    match tail_with(Ending::Returns, run, n) {
        Some(tail) => Some(tail),
        None => tail_with(Ending::GoesOn, run, n),
    }
}

// The longest end that fits a pop that doesn't set a0 before its loads.
fn plain_tail(run: &Run, n: usize) -> Option<Tail>
    requires { n < 16 }
    ensures { result ≡ tail_at false run.now n }
{
    if let Some(tail) = tail_with(Ending::ZeroBeforeRaise, run, n) {
        return Some(tail);
    }
    match tail_with(Ending::ZeroBeforeReturn, run, n) {
        Some(tail) => Some(tail),
        None => later_tail(run, n),
    }
}

// The end of a pop that begins at an index, after its loads, by whether a0 was set before them.
fn tail_behind(zeroed: bool, run: &Run, n: usize) -> Option<Tail>
    requires { n < 16 }
    ensures { result ≡ tail_at zeroed run.now n }
{
    if zeroed {
        tail_with(Ending::ZeroFirst, run, n)
    } else {
        plain_tail(run, n)
    }
}

// The number of a pop's instructions that aren't loads.
fn around(ending: Ending) -> u32
    ensures count { result ≡ before ending + ending_items ending }
    ensures few { result ≤ 3 }
{
    match ending {
        Ending::GoesOn => 1,
        Ending::Returns => 2,
        Ending::ZeroFirst | Ending::ZeroBeforeRaise | Ending::ZeroBeforeReturn => 3,
    }
}

fn pop_kind(ending: Ending, list: u8, adjust: u8) -> Short
    ensures { result ≡ matches.pop_kind ending list adjust }
{
    match ending {
        Ending::GoesOn => Short::Pop { list, adjust },
        Ending::Returns => Short::PopRet { list, adjust },
        Ending::ZeroFirst | Ending::ZeroBeforeRaise | Ending::ZeroBeforeReturn => {
            Short::PopRetz { list, adjust }
        }
    }
}

// The group of a pop with this ending and frame.
fn popped(ending: Ending, frame: Frame) -> Found
    requires known { IsKnown frame.left_out }
    requires bytes { frame.bytes ≤ 2032 }
    ensures { result ≡ pop_of ending (list_leaving_out frame.left_out) frame.bytes }
{
    Found {
        items: frame.count() + around(ending),
        kind: pop_kind(ending, frame.list(), frame.adjust()),
        rest: frame.rest(),
    }
}

/// The longest pop that instructions begin with. The number of its loads decides its register list.
pub fn pop(run: &Run) -> Option<Found>
    ensures known { IfSome result (λ g. IsPop run.now g) }
    ensures each { (g : Found) → IsPop run.now g → Beats result g }
{
    let zeroed = is_zero(run.get(0));
    let from = first_load(zeroed);
    let count = loads(run, from);
    if count == 0 || count == 12 || count == 14 {
        return None;
    }
    let tail = tail_behind(zeroed, run, from + usize::from(count))?;
    let frame = Frame {
        left_out: 13 - count,
        bytes: tail.bytes,
    };
    if is_framed(Access::Restores, run, from, frame) {
        Some(popped(tail.ending, frame))
    } else {
        None
    }
}
