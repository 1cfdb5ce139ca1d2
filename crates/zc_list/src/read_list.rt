// Listings as texts.

ghost use Rattle.std.specs.Prelude.{◌≡◌, ◌↔◌, ◌+◌, ◌^◌, ◌<◌, ◌≤◌, [], IfOk, IfErr, MatchResult, Ok, Err, List, length};
ghost use Rattle.elf32_read.specs.Segments.{SegmentData};
ghost use Rattle.zc_list.specs.Fault.{IsListFault};
ghost use Rattle.zc_list.specs.Listing.{IsListText};
ghost use Rattle.zc_list.specs.Reader.{StopsAt, read_left};
ghost use Rattle.zc_list.specs.Spelled.{Between, segments_in};

use crate::fault::ListFault;
use crate::list_segment::ListSegment;
use crate::read_head::read_head;
use crate::read_segment::{Lines, read_segment};
use std::alloc::Global;
use text_lines::split::split_line;

/// The longest text that is read, in bytes.
pub const LIST_LIMIT: usize = 268_435_456;

/// The segments that a listing spells, or the text's fault.
pub fn read_list(alloc: Global, text: &[u8]) -> Result<Vec<ListSegment>, ListFault>
    ensures ok { IfOk result (λ segments. segments_in text.now ≡ Ok segments.items) }
    ensures spells { IfOk result (λ segments. IsListText text.now segments.items) }
    ensures fault { IfErr result (IsListFault text.now) }
    ensures large { (result ≡ Err ListFault.TooLarge) ↔ (268435456 < length text.now) }
    ensures complete { (segments : List SegmentData) → IsListText text.now segments → length text.now ≤ 268435456
        → MatchResult result (λ found. found.items ≡ segments) (λ fault. fault ≡ ListFault.OutOfMemory) }
{
    if text.len() > LIST_LIMIT {
        return Err(ListFault::TooLarge);
    }
    read_titled(alloc, text)
}

// The segments that a text spells.
fn read_titled(alloc: Global, text: &[u8]) -> Result<Vec<ListSegment>, ListFault>
    requires { length text.now ≤ LIST_LIMIT }
    ensures ok { IfOk result (λ segments. segments_in text.now ≡ Ok segments.items) }
    ensures err { IfErr result (λ fault. StopsAt fault (λ n. segments_in text.now ≡ Err n)) }
{
    let Some((title, rest)) = split_line(text) else {
        return Err(ListFault::BadLine { number: 1 });
    };
    if title != b"zcld list 1".as_slice() {
        return Err(ListFault::BadLine { number: 1 });
    }
    let mut scratch = Vec::new(alloc);
    read_segments(alloc, &mut scratch, Lines { rest, number: 2 })
}

// Reads segments until the line that ends the listing. What `scratch` holds is lost.
fn read_segments(
    alloc: Global,
    scratch: &mut Vec<u8>,
    lines: Lines,
) -> Result<Vec<ListSegment>, ListFault>
    requires { lines.number + length lines.rest.now < 2 ^ 32 }
    ensures ok { IfOk result (λ segments. read_left (Between []) lines.entry ≡ Ok segments.items) }
    ensures err { IfErr result (λ fault. StopsAt fault (λ n. read_left (Between []) lines.entry ≡ Err n)) }
{
    let mut segments = Vec::new(alloc);
    let mut rest = lines.rest;
    let mut number = lines.number;
    while let Some((line, behind)) = split_line(rest) {
        if line == b"end".as_slice() {
            if behind.is_empty() {
                return Ok(segments);
            }
            return Err(ListFault::BadLine { number: number + 1 });
        }
        let Some(head) = read_head(line) else {
            return Err(ListFault::BadLine { number });
        };
        let below = Lines {
            rest: behind,
            number: number + 1,
        };
        let (segment, after) = read_segment(alloc, scratch, head, below)?;
        if segments.push(segment).is_err() {
            return Err(ListFault::OutOfMemory);
        }
        rest = after.rest;
        number = after.number;
    }
    Err(ListFault::BadLine { number })
}
