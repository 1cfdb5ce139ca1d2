// The lines of a segment after its first, one after another.

ghost use Rattle.std.specs.Prelude.{◌≡◌, ◌++◌, ◌∷◌, ◌+◌, ◌^◌, ◌<◌, ◌≤◌, [], Err, List, false, IfErr, IfOk, length};
ghost use Rattle.elf32_read.specs.Segments.{SegmentData};
ghost use Rattle.zc_list.specs.Reader.{IsFurther, StopsAt, read_left, segment_with};
ghost use Rattle.zc_list.specs.Spelled.{Between, inside};

use crate::fault::ListFault;
use crate::list_segment::ListSegment;
use crate::read_content::{Open, read_content};
use crate::read_head::Head;
use std::alloc::Global;
use text_lines::split::split_line;

/// The lines of a text that are left, and the number of the first of them.
#[derive(Clone, Copy)]
pub struct Lines<'a> {
    pub rest: &'a [u8],
    pub number: u32,
}

// Reads lines until all bytes of a segment are there.
fn read_bytes<'a>(
    scratch: &mut Vec<u8>,
    bytes: &mut Vec<u8>,
    head: Head,
    lines: Lines<'a>,
) -> Result<Lines<'a>, ListFault>
    requires within { length bytes.old.items ≤ head.size }
    requires counted { lines.number + length lines.rest.now < 2 ^ 32 }
    ensures ok { IfOk result (λ behind. (done : List SegmentData)
        → read_left (inside done (segment_with head bytes.old.items) false) lines.entry
        ≡ read_left (Between (done ++ segment_with head bytes.new.items ∷ [])) behind) }
    ensures err { IfErr result (λ fault. StopsAt fault (λ n. (done : List SegmentData)
        → read_left (inside done (segment_with head bytes.old.items) false) lines.entry ≡ Err n)) }
    ensures further { IfOk result (IsFurther lines.entry) }
{
    let mut rest = lines.rest;
    let mut number = lines.number;
    let mut last = false;
    while bytes.len() < head.size as usize {
        let Some((line, behind)) = split_line(rest) else {
            return Err(ListFault::BadLine { number });
        };
        let Some(stage) = read_content(scratch, bytes, Open { head, last }, line)? else {
            return Err(ListFault::BadLine { number });
        };
        rest = behind;
        number += 1;
        if stage.has_all_bytes() {
            return Ok(Lines { rest, number });
        }
        last = stage.is_last();
    }
    Ok(Lines { rest, number })
}

/// Reads the lines of a segment after its first. What `scratch` holds is lost.
pub fn read_segment<'a>(
    alloc: Global,
    scratch: &mut Vec<u8>,
    head: Head,
    lines: Lines<'a>,
) -> Result<(ListSegment, Lines<'a>), ListFault>
    requires { lines.number + length lines.rest.now < 2 ^ 32 }
    ensures ok { IfOk result (λ r. (done : List SegmentData)
        → read_left (inside done (segment_with head []) false) lines.entry
        ≡ read_left (Between (done ++ r.0 ∷ [])) r.1) }
    ensures err { IfErr result (λ fault. StopsAt fault (λ n. (done : List SegmentData)
        → read_left (inside done (segment_with head []) false) lines.entry ≡ Err n)) }
    ensures further { IfOk result (λ r. IsFurther lines.entry r.1) }
{
    let mut bytes = Vec::new(alloc);
    let behind = read_bytes(scratch, &mut bytes, head, lines)?;
    let segment = ListSegment {
        at: head.at,
        code: head.code,
        size: head.size,
        bytes,
    };
    Ok((segment, behind))
}
