// The segments of a listing.

use std::marker::Model;

/// A segment as a listing has it: `size` bytes of memory from the address `at` on, which are `bytes` and zeros after
/// them. `code` is whether it holds code.
#[derive(Drop)]
pub struct ListSegment {
    pub at: u32,
    pub code: bool,
    pub size: u32,
    pub bytes: Vec<u8>,
}

impl Model for ListSegment {
    ghost use Rattle.elf32_read.specs.Segments.{SegmentData};

    ghost Value = { SegmentData };

    ghost view = { λ s. record { at = s.at; size = s.size; code = s.code; bytes = s.bytes.items } };
}
