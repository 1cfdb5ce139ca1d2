// The listing of an image.

ghost use Rattle.std.specs.Prelude.{◌≡◌, ◌++◌, ◌∷◌, [], ◌+◌, ◌-◌, ◌/◌, ◌^◌, ◌<◌, ◌≤◌, All, IfOk, Ok, drop, length};
ghost use Rattle.elf32_read.specs.Segment.{segment_data};
ghost use Rattle.elf32_read.specs.Segments.{segments_of};
ghost use Rattle.zc_list.specs.Listing.{FitsSegment, code_contents, content_lines, file_contents, list_text, segment_lines, sixteens, text_of_lines, zero_contents};
ghost use Rattle.zc_list.specs.Spelled.{segments_in};

use crate::line::{push_bytes_line, push_code_line, push_segment_line, push_zeros_line};
use elf32_read::image::Image;
use elf32_read::segment::Segment;
use instruction_text::machine_code::MachineCode;
use std::alloc::{AllocError, Global};

// Adds the first line of code, and returns how many bytes it stands for.
#[tactic(auto, unfolding(crate::specs::Listing::code_contents))]
fn push_first_line(text: &mut Vec<u8>, at: u64, rest: &[u8]) -> Result<usize, AllocError>
    ensures lines { IfOk result (λ n.
        text.new.items ++ text_of_lines (content_lines (at + n) (code_contents (drop n rest.now)))
        ≡ text.old.items ++ text_of_lines (content_lines at (code_contents rest.now))) }
    ensures some { IfOk result (λ n. 0 < length rest.now → 0 < n) }
    ensures within { IfOk result (λ n. n ≤ length rest.now) }
{
    match rest {
        [] => Ok(0),
        [a, b, c, d, ..] if *a % 4 == 3 => {
            push_code_line(
                text,
                at,
                MachineCode::Word(u32::from_le_bytes([*a, *b, *c, *d])),
            )?;
            Ok(4)
        }
        [a, b, ..] if *a % 4 != 3 => {
            push_code_line(text, at, MachineCode::Half(u16::from_le_bytes([*a, *b])))?;
            Ok(2)
        }
        _ => {
            push_bytes_line(text, at, rest)?;
            Ok(rest.len())
        }
    }
}

// Adds the lines of code.
#[tactic(auto, unfolding(crate::specs::Listing::code_contents))]
fn push_code_lines(text: &mut Vec<u8>, at: u32, bytes: &[u8]) -> Result<(), AllocError>
    ensures { IfOk result (λ _. text.new.items
        ≡ text.old.items ++ text_of_lines (content_lines at (code_contents bytes.now))) }
{
    let mut done = 0;
    while done < bytes.len() {
        done += push_first_line(text, u64::from(at) + done as u64, &bytes[done..])?;
    }
    Ok(())
}

// Adds the lines of data.
fn push_data_lines(text: &mut Vec<u8>, at: u32, bytes: &[u8]) -> Result<(), AllocError>
    ensures { IfOk result (λ _. text.new.items
        ≡ text.old.items ++ text_of_lines (content_lines at (sixteens ((length bytes.now + 15) / 16) bytes.now))) }
{
    let count = bytes.len().div_ceil(16);
    for i in 0..count {
        let rest = &bytes[16 * i..];
        let size = rest.len().min(16);
        push_bytes_line(text, u64::from(at) + 16 * i as u64, &rest[..size])?;
    }
    Ok(())
}

// Adds the lines of the bytes that a segment has from the file.
#[tactic(auto, unfolding(crate::specs::Listing::file_contents))]
fn push_file_lines(text: &mut Vec<u8>, segment: &Segment) -> Result<(), AllocError>
    ensures { let s = segment_data segment.now in
        IfOk result (λ _. text.new.items
        ≡ text.old.items ++ text_of_lines (content_lines s.at (file_contents s.code s.bytes))) }
{
    if segment.code {
        push_code_lines(text, segment.at, segment.bytes)
    } else {
        push_data_lines(text, segment.at, segment.bytes)
    }
}

// Adds the line of the zeros after a segment's bytes, if there are any.
fn push_zeros(text: &mut Vec<u8>, at: u64, count: u32) -> Result<(), AllocError>
    ensures { IfOk result (λ _. text.new.items
        ≡ text.old.items ++ text_of_lines (content_lines at (zero_contents count))) }
{
    if count == 0 {
        return Ok(());
    }
    push_zeros_line(text, at, count)
}

// Adds the lines of a segment.
fn push_segment(text: &mut Vec<u8>, segment: &Segment) -> Result<(), AllocError>
    requires { length segment.now.bytes.now ≤ segment.now.size }
    ensures { IfOk result (λ _. text.new.items
        ≡ text.old.items ++ text_of_lines (segment_lines (segment_data segment.now))) }
{
    let held = segment.bytes.len() as u32;
    push_segment_line(text, segment)?;
    push_file_lines(text, segment)?;
    push_zeros(
        text,
        u64::from(segment.at) + u64::from(held),
        segment.size - held,
    )
}

// That the numbers of a segment fit their types is known of an argument.
#[inline]
fn recall_fits(segment: Segment)
    requires { length segment.bytes.now ≤ segment.size }
    ensures { FitsSegment (segment_data segment.entry) }
{
    recall_bytes(segment.bytes);
}

// The same of bytes.
#[inline]
fn recall_bytes(bytes: &[u8])
    ensures { All (λ b. b < 256) bytes.now }
{}

/// The listing of an image's segments.
pub fn list(alloc: Global, image: &Image) -> Result<Vec<u8>, AllocError>
    ensures text { IfOk result (λ text. text.items ≡ list_text (segments_of image.now.0)) }
    ensures back { IfOk result (λ text. segments_in text.items ≡ Ok (segments_of image.now.0)) }
{
    let mut text = Vec::from_slice(alloc, b"zcld list 1\n")?;
    // That the image has no fault is a clause of this call: so no segment has more bytes than it is long.
    image.map();
    for i in 0..image.segment_count() {
        let segment = image.segment(i);
        recall_fits(segment);
        push_segment(&mut text, &segment)?;
    }
    text.extend_from_slice(b"end\n")?;
    Ok(text)
}
