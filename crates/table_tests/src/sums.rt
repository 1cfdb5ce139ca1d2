// Trees of sums: their nodes and the sums of the first sizes, before and after sizes change.

ghost use Rattle.std.specs.Prelude.{◌≡◌, ◌<◌, ◌^◌, IfOk, IsTrue};
ghost use Rattle.std.specs.List.{sum};

use crate::rows;
use crate::rows::{cut, expect};
use shrink_layout::sums::Sums;
use std::alloc::{AllocError, Global};
use std::test::Fail;

// Adds sizes: `2*1023` is 1,023 times the size 2, and any other word one size.
fn add(sizes: &mut Vec<u32>, word: &str) -> Result<(), Fail> {
    let (size, count) = word.split_once('*').unwrap_or((word, "1"));
    let size = size.parse::<u32>()?;
    for _ in 0..count.parse::<u32>()? {
        sizes.push(size)?;
    }
    Ok(())
}

// Whether the sum of all sizes is as small as a tree requires.
fn are_small(sizes: &[u32]) -> bool
    ensures { IsTrue result → sum sizes.now < 2 ^ 32 }
{
    let mut total: u32 = 0;
    for size in sizes {
        match total.checked_add(*size) {
            Some(more) => total = more,
            None => return false,
        }
    }
    true
}

// The tree of the sizes in a line.
fn tree(alloc: Global, line: &str) -> Result<Sums, Fail> {
    let mut sizes = Vec::new(alloc);
    for word in line.split_whitespace() {
        add(&mut sizes, word)?;
    }
    if are_small(&sizes) {
        Ok(Sums::of(alloc, sizes)?)
    } else {
        Err("too large".into())
    }
}

// All sizes of a tree.
fn sizes_of(alloc: Global, sums: &Sums) -> Result<Vec<u32>, AllocError>
    ensures { IfOk result (λ sizes. sizes.items ≡ sums.now) }
{
    let mut sizes = Vec::new(alloc);
    for i in 0..sums.count() {
        sizes.push(sums.size(i))?;
    }
    Ok(sizes)
}

// Changes one size.
fn set(alloc: Global, sums: &mut Sums, i: usize, size: u32) -> Result<(), Fail> {
    let mut sizes = sizes_of(alloc, sums)?;
    if i >= sizes.len() {
        return Err("no such size".into());
    }
    sizes[i] = size;
    if !are_small(&sizes) {
        return Err("too large".into());
    }
    sums.set(i, size);
    Ok(())
}

// A node, or the sum of the first sizes.
fn number(sums: &Sums, call: &str, i: usize) -> Option<u32> {
    match call {
        "nodes" => sums.nodes().get(i).copied(),
        "before" if i <= sums.count() => Some(sums.before(i)),
        _ => None,
    }
}

// Adds a number to a line.
fn add_number(line: &mut String, sums: &Sums, call: &str, i: usize) -> Result<(), Fail> {
    let number = number(sums, call, i).ok_or("no such number")?;
    Ok(write!(line, " {number}")?)
}

fn add_numbers(
    line: &mut String,
    sums: &Sums,
    call: &str,
    first: usize,
    end: usize,
) -> Result<(), Fail> {
    for i in first..end {
        add_number(line, sums, call, i)?;
    }
    Ok(())
}

// Takes a step, and adds its result to the line: `set 2 7` sets the size with index 2 to 7, `nodes 0 4` gives the first
// four nodes, and `before 0 4` the sums of the first 0, 1, 2 and 3 sizes.
fn take(alloc: Global, sums: &mut Sums, step: &str, line: &mut String) -> Result<(), Fail> {
    let (call, numbers) = cut(step.trim(), ' ')?;
    let (first, second) = cut(numbers, ' ')?;
    let first = rows::number(first)? as usize;
    let second = rows::number(second)?;
    if call == "set" {
        set(alloc, sums, first, second)
    } else {
        add_numbers(line, sums, call, first, second as usize)
    }
}

/// The results of the steps, taken in turn, starting with the tree of these sizes.
pub fn steps(alloc: Global, given: &str) -> Result<String, Fail> {
    let (sizes, steps) = cut(given, ';')?;
    let mut sums = tree(alloc, sizes)?;
    let mut line = String::new(alloc);
    for step in steps.split(',') {
        take(alloc, &mut sums, step, &mut line)?;
    }
    Ok(line)
}

// A branch and a jump of four bytes, 1,023 pieces of two, and one of four; then the branch has two. Any twenty sizes,
// and what they are after five changes. The greatest sum.
const STEPS: &str =
    "0 0 4 4 2*1023 4; nodes 0 4, nodes 1027 1028, before 1028 1029 = 0 0 4 8 10 2058
0 0 4 4 2*1023 4; set 2 2, nodes 0 4, nodes 1027 1028, before 2 4, before 1028 1029 = 0 0 2 6 10 0 2 2056
3 1 4 1 5 9 2 6 5 3 5 8 9 7 9 3 2 3 8 4; nodes 0 20 = 3 4 4 9 5 14 2 31 5 8 5 21 9 16 9 80 2 5 8 17
3 1 4 1 5 9 2 6 5 3 5 8 9 7 9 3 2 3 8 4; before 0 21 = 0 3 4 8 9 14 23 25 31 36 39 44 52 61 68 77 80 82 85 93 97
3 1 4 1 5 9 2 6 5 3 5 8 9 7 9 3 2 3 8 4; set 0 10, set 19 0, set 7 0, set 12 40, set 7 2, before 0 21 \
= 0 10 11 15 16 21 30 32 34 39 42 47 55 95 102 111 114 116 119 127 127
3 1 4 1 5 9 2 6 5 3 5 8 9 7 9 3 2 3 8 4; set 0 10, set 19 0, set 7 0, set 12 40, set 7 2, nodes 0 20 \
= 10 11 4 16 5 14 2 34 5 8 5 21 40 47 9 114 2 5 8 13
4294967295 0 0; nodes 0 3, set 0 4294967294, set 2 1, before 0 4 \
= 4294967295 4294967295 0 0 4294967294 4294967294 4294967295";

#[test]
fn nodes_and_sums(rt: HostRuntime) -> Result<(), Fail> {
    expect(&rt, "sums", STEPS)
}
