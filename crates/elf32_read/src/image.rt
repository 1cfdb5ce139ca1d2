// Images.

ghost use Rattle.std.specs.Prelude.{◌≡◌, ℕ, ◌≤◌, ◌<◌, ◌+◌, List, length, slice_get, None, Some, MatchResult};
ghost use Rattle.zc_base.specs.declared.mem_map.MemMap.{MemMap};
ghost use Rattle.elf32_read.specs.Header.{entry_address};
ghost use Rattle.elf32_read.specs.Image.{image_fault, image_truncated, not_image, IsReadImage};
ghost use Rattle.elf32_read.specs.Places.{place_list};
ghost use Rattle.elf32_read.specs.Segment.{segment_data};
ghost use Rattle.elf32_read.specs.Segments.{segment_of, segments_of};

use crate::bounds::{has_truncated_load, is_truncated, lacks_program_headers};
use crate::header::{
    EXECUTABLE, ProgramHeader, are_known_flags, begins_as, entry_address, file_flags,
    has_other_section_headers, program_count, program_header_size,
};
use crate::image_fault::ImageFault;
use crate::loads::{Loads, loads_in};
use crate::places::{ENTRY_SIZE, entry, places_in};
use crate::sections::Sections;
use crate::segment::Segment;
use crate::segments::{has_bad_segments, is_code};
use std::marker::Model;
use zc_base::mem_map::MemMap;
use zc_base::place::Place;

const MOST_BYTES: usize = 0x80_0000;

fn is_no_image(bytes: &[u8]) -> bool
    ensures { result ≡ not_image bytes.now }
{
    bytes.len() < 52
        || !begins_as(EXECUTABLE, bytes)
        || !are_known_flags(file_flags(bytes))
        || (program_count(bytes) != 0 && program_header_size(bytes) != 32)
        || has_other_section_headers(bytes)
}

fn is_truncated_image(bytes: &[u8]) -> bool
    requires { 52 ≤ length bytes.now }
    ensures { result ≡ image_truncated bytes.now }
{
    lacks_program_headers(bytes) || is_truncated(bytes) || has_truncated_load(bytes)
}

// The segment that a program header loads.
fn segment_at<'a>(bytes: &'a [u8], header: &ProgramHeader) -> Segment<'a>
    requires { header.now.offset + header.now.file_size ≤ length bytes.now }
    ensures { segment_data result ≡ segment_of bytes.entry.now header.now }
{
    let start = header.offset as usize;
    Segment {
        at: header.address,
        size: header.memory_size,
        code: is_code(header),
        bytes: &bytes[start..start + header.file_size as usize],
    }
}

/// An executable image without a fault under a memory map. Clauses see it as its bytes and the map.
#[derive(Drop)]
pub struct Image<'a> {
    bytes: &'a [u8],
    map: MemMap,
    loads: Loads,
    entries: &'a [u8],
}

impl<'a> Model for Image<'a> {
    ghost Value = { List ℕ × MemMap };

    ghost view = { λ image. (image.bytes.now, image.map) };

    ghost invariant = { λ image. IsReadImage image.bytes.now image.map image.loads image.entries.now };
}

impl<'a> Image<'a> {
    /// Reads an image under a memory map, or returns the first fault of its bytes. It reads each header
    /// and each place a fixed number of times.
    #[tactic(auto, unfolding(crate::specs::Image::image_fault))]
    pub fn read(bytes: &'a [u8], map: MemMap) -> Result<Image<'a>, ImageFault>
        ensures { MatchResult result
            (λ image. (image ≡ (bytes.entry.now, map)) × (image_fault bytes.entry.now map ≡ None))
            (λ fault. image_fault bytes.entry.now map ≡ Some fault) }
    {
        if MOST_BYTES < bytes.len() {
            return Err(ImageFault::TooLarge);
        }
        if is_no_image(bytes) {
            return Err(ImageFault::NotElf);
        }
        if is_truncated_image(bytes) {
            return Err(ImageFault::Truncated);
        }
        let Some(loads) = loads_in(bytes) else {
            return Err(ImageFault::BadSegment);
        };
        if has_bad_segments(bytes, &map, loads.as_slice()) {
            return Err(ImageFault::BadSegment);
        }
        let entries = places_in(&Sections::new(bytes), &map)?;
        Ok(Image {
            bytes,
            map,
            loads,
            entries,
        })
    }

    /// The memory map that it was read under.
    pub fn map(&self) -> MemMap
        ensures map { result ≡ self.now.1 }
        ensures faultless { image_fault self.now.0 self.now.1 ≡ None }
    {
        self.map
    }

    /// The address at which the program starts.
    pub fn entry(&self) -> u32
        ensures { result ≡ entry_address self.now.0 }
    {
        entry_address(self.bytes)
    }

    /// The number of segments.
    pub fn segment_count(&self) -> u32
        ensures count { result ≡ length (segments_of self.now.0) }
        ensures most { result ≤ 16 }
    {
        self.loads.as_slice().len() as u32
    }

    /// A segment, by its index, in the order of the program headers.
    pub fn segment(&self, i: u32) -> Segment<'a>
        requires { i < length (segments_of self.now.0) }
        ensures { slice_get (segments_of self.now.0) i ≡ Some (segment_data result) }
    {
        segment_at(self.bytes, &self.loads.as_slice()[i as usize])
    }

    /// The number of places that the image lists.
    pub fn place_count(&self) -> u32
        ensures { result ≡ length (place_list self.now.0) }
    {
        (self.entries.len() / ENTRY_SIZE) as u32
    }

    /// A place and its address, by its index, in ascending order of the places.
    pub fn place(&self, i: u32) -> (Place, u32)
        requires { i < length (place_list self.now.0) }
        ensures { slice_get (place_list self.now.0) i ≡ Some result }
    {
        entry(self.entries, i as usize)
    }
}
