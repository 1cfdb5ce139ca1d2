// Files of images.

use crate::row::bytes_of;
use std::alloc::Global;
use std::test::Fail;

// A file's header up to the number of segments.
const HEADER: &str = "
464C457F 00010101 00000000 00000000 00F30002 00000001 00010000
00000034 00000000 00000001 00200034";

/// The file of an image with this text at 0x10000, and with segments of data, each of which ends with `;`: an address, a
/// size in memory, how many zeros come first in the file, and then bytes. A segment of code begins with that word. Numbers
/// are hexadecimal: bytes have two digits, halfwords four, and words eight.
pub fn file_of(alloc: Global, text: &str, data: &str) -> Result<Vec<u8>, Fail> {
    let mut content = bytes_of(alloc, text)?;
    let count = u32::try_from(data.split(';').count())?;
    let start = count.wrapping_mul(32).wrapping_add(52);
    let size = u32::try_from(content.len())?;
    let mut headers = format!(in alloc;
        "{HEADER} {count:04x} 0028 00000000
        00000001 {start:08x} 00010000 00010000 {size:08x} {size:08x} 00000005 00000004"
    )?;
    for segment in data.split(';') {
        if !segment.is_empty() {
            let header = segment_of(alloc, segment, start, &mut content)?;
            headers.push_str(header.as_str())?;
        }
    }
    let mut file = bytes_of(alloc, headers.as_str())?;
    file.extend_from_slice(content.as_slice())?;
    Ok(file)
}

// The program header of a segment, whose bytes are put after the others.
fn segment_of(
    alloc: Global,
    segment: &str,
    start: u32,
    content: &mut Vec<u8>,
) -> Result<String, Fail> {
    let (flags, segment) = match segment.trim().strip_prefix("code ") {
        Some(rest) => (5, rest),
        None => (6, segment.trim()),
    };
    let (at, rest) = segment.split_once(' ').ok_or("no size")?;
    let (memory, rest) = rest.split_once(' ').ok_or("no zeros")?;
    let (zeros, rest) = rest.split_once(' ').unwrap_or((rest, ""));
    let offset = start.wrapping_add(u32::try_from(content.len())?);
    let bytes = bytes_of(alloc, rest)?;
    let zeros = u32::from_str_radix(zeros, 16)?;
    for _ in 0..zeros {
        content.push(0)?;
    }
    content.extend_from_slice(bytes.as_slice())?;
    let size = zeros.wrapping_add(u32::try_from(bytes.len())?);
    Ok(format!(in alloc;
        " 00000001 {offset:08x} {at} {at} {size:08x} {memory} {flags:08x} 00000001"
    )?)
}
