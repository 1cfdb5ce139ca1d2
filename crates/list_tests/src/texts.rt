// What texts spell.

use crate::fixture::expect;
use std::alloc::Global;
use std::test::Fail;
use zc_list::list_segment::ListSegment;
use zc_list::read_list::read_list;

// Segments, each with a semicolon after it.
fn shown(alloc: Global, segments: &[ListSegment]) -> Result<String, Fail> {
    let mut text = String::new(alloc);
    for s in segments {
        let kind = if s.code { "code" } else { "data" };
        let bytes = hex::encode(alloc, s.bytes.as_slice())?;
        let part = format!(in alloc; "{:08x} {} {kind} {bytes}; ", s.at, s.size)?;
        text.push_str(part.as_str())?;
    }
    Ok(text)
}

// The segments that a text spells, or its fault.
fn read(alloc: Global, text: &[u8]) -> Result<String, Fail> {
    match read_list(alloc, text) {
        Ok(segments) => shown(alloc, segments.as_slice()),
        Err(fault) => Ok(format!(in alloc; "{fault}")?),
    }
}

/// What a text spells that is given as a line, with `/` for each line feed.
pub fn spelled(alloc: Global, given: &str) -> Result<String, Fail> {
    let mut text = Vec::new(alloc);
    for byte in given.as_bytes() {
        text.push(if *byte == b'/' { b'\n' } else { *byte })?;
    }
    read(alloc, text.as_slice())
}

// The listing of an image of three instructions.
const THREE: &str = "zcld list 1
segment 00010000 10 code
00010000 c.li x10 x0 3
00010002 addi x17 x0 93
00010006 ecall
segment 00100000 0 data
end
";

/// What this listing spells with another line: the line's number, and its text, or `-` to leave the line out. A `+` before
/// the text puts it before the line.
pub fn changed(alloc: Global, given: &str) -> Result<String, Fail> {
    let (number, text) = given.split_once(" ").ok_or("no text")?;
    let number = number.parse::<u32>()?;
    let mut listing = String::new(alloc);
    let mut count: u32 = 0;
    for line in THREE.lines() {
        count = count.wrapping_add(1);
        let line = match text.strip_prefix("+") {
            _ if count != number => format!(in alloc; "{line}\n")?,
            Some(first) => format!(in alloc; "{first}\n{line}\n")?,
            None if text == "-" => String::new(alloc),
            None => format!(in alloc; "{text}\n")?,
        };
        listing.push_str(line.as_str())?;
    }
    read(alloc, listing.as_bytes())
}

const CHANGES: &str = "0 - = 00010000 10 code 0d459308d00573000000; 00100000 0 data ; | no change
1 zcld list 2 = line 1 isn't one of a listing | each line in turn
2 segment 0001000 10 code = line 2 isn't one of a listing | an address of seven digits
3 00010000 c.li x32 x0 3 = line 3 isn't one of a listing | a register that doesn't exist
4 00010002 addi x17 x0 093 = line 4 isn't one of a listing | a leading zero
5 00010006 ecall x0 = line 5 isn't one of a listing | an operand too many
6 segment 00100000 0 date = line 6 isn't one of a listing | no kind
7 ends = line 7 isn't one of a listing | not the end
4 00010003 addi x17 x0 93 = line 4 isn't one of a listing | an address off by one
6 +0001000a c.addi x0 x0 0 = line 6 isn't one of a listing | a line too many
5 - = line 5 isn't one of a listing | a line that is missing
7 - = line 7 isn't one of a listing | no end
7 +end = line 8 isn't one of a listing | a line after the end";

const TEXTS: &str = "zcld list 1 = line 1 isn't one of a listing | no line feed
zcld list 1/end/ =  | no segments
zcld list 1/end/x = line 3 isn't one of a listing | text after the end
zcld list 1/segment 00100000 16 data/00100000 .zero 17/end/ = line 3 isn't one of a listing | too many zeros
zcld list 1/segment 00100000 9 data/00100000 .byte 00/00100001 .byte 00/end/ = line 4 isn't one of a listing | bytes after a last row
zcld list 1/segment 00010000 2 code/00010000 addi x17 x0 93/end/ = line 3 isn't one of a listing | no room for a word
zcld list 1/segment 00010000 4 code/00010000 .byte 13 00/00010002 .zero 2/end/ = 00010000 4 code 1300; | a cut word
zcld list 1/segment ffffffff 10 data/ffffffff .zero 10/end/ = ffffffff 10 data ; | addresses wrap around";

#[test]
fn a_listing_is_read_with_changes(rt: HostRuntime) -> Result<(), Fail> {
    expect(&rt, "changed", CHANGES)
}

#[test]
fn texts_are_read(rt: HostRuntime) -> Result<(), Fail> {
    expect(&rt, "read", TEXTS)
}
