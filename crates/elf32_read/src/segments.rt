// Whether the segments of an image lie in the regions for their kinds.

ghost use Rattle.std.specs.Prelude.{◌≡◌, ◌≤◌, ◌+◌, length};
ghost use Rattle.std.specs.List.{list_any};
ghost use Rattle.elf32_read.specs.Image.{bad_segments, is_bad_load, some_overlap};
ghost use Rattle.elf32_read.specs.Segments.{is_code, is_entry_of, is_in_place, loads_of, overlap_in_memory};

use crate::header::{ProgramHeader, entry_address};
use zc_base::mem_map::MemMap;

const EXECUTE: u32 = 1;

const WRITE: u32 = 2;

/// Whether a segment holds code.
pub fn is_code(header: &ProgramHeader) -> bool
    ensures { result ≡ is_code header.now }
{
    header.flags & EXECUTE == EXECUTE
}

fn memory_end(header: &ProgramHeader) -> u64
    ensures { result ≡ header.now.address + header.now.memory_size }
{
    u64::from(header.address) + u64::from(header.memory_size)
}

// Whether a segment lies in the region for its kind: code from text to below data_low, all else in the room for data,
// from data_low on.
fn is_in_place(map: &MemMap, header: &ProgramHeader) -> bool
    ensures { result ≡ is_in_place map.now header.now }
{
    let data = u64::from(map.data_low);
    let (low, high) = if is_code(header) {
        (u64::from(map.text), data)
    } else {
        (data, data + u64::from(map.data_limit()))
    };
    low <= u64::from(header.address) && memory_end(header) <= high
}

fn is_bad_load(map: &MemMap, header: &ProgramHeader) -> bool
    ensures { result ≡ is_bad_load map.now header.now }
{
    header.memory_size < header.file_size
        || (is_code(header) && header.flags & WRITE == WRITE)
        || !is_in_place(map, header)
}

fn has_bad_load(map: &MemMap, loads: &[ProgramHeader]) -> bool
    ensures { result ≡ list_any (is_bad_load map.now) loads.now }
{
    loads.iter().any(|header| is_bad_load(map, header))
}

fn overlap_in_memory(first: &ProgramHeader, second: &ProgramHeader) -> bool
    ensures { result ≡ overlap_in_memory first.now second.now }
{
    let low = u64::from(first.address.max(second.address));
    low < memory_end(first).min(memory_end(second))
}

fn overlaps_one(header: &ProgramHeader, others: &[ProgramHeader]) -> bool
    ensures { result ≡ list_any (overlap_in_memory header.now) others.now }
{
    others.iter().any(|other| overlap_in_memory(header, other))
}

fn has_overlap(loads: &[ProgramHeader]) -> bool
    ensures { result ≡ some_overlap loads.now }
{
    for (i, header) in loads.iter().enumerate() {
        if overlaps_one(header, &loads[i + 1..]) {
            return true;
        }
    }
    false
}

fn starts_in(entry: u32, header: &ProgramHeader) -> bool
    ensures { result ≡ is_entry_of entry header.now }
{
    is_code(header)
        && header.address <= entry
        && u64::from(entry) <= u64::from(header.address) + u64::from(header.file_size)
}

fn is_in_code(entry: u32, loads: &[ProgramHeader]) -> bool
    ensures { result ≡ list_any (is_entry_of entry) loads.now }
{
    loads.iter().any(|header| starts_in(entry, header))
}

/// Whether one of the segments that these headers load is bad, two of them overlap, or the entry address
/// isn't in their code.
pub fn has_bad_segments(bytes: &[u8], map: &MemMap, loads: &[ProgramHeader]) -> bool
    requires start { 52 ≤ length bytes.now }
    requires loads { loads.now ≡ loads_of bytes.now }
    requires most { length loads.now ≤ 16 }
    ensures { result ≡ bad_segments bytes.now map.now }
{
    let entry = entry_address(bytes);
    has_bad_load(map, loads) || has_overlap(loads) || entry % 2 == 1 || !is_in_code(entry, loads)
}
