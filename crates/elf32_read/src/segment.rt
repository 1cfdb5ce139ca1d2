// Segments.

/// A segment of an image (System V gABI, "Program Header").
///
/// It lies in memory from the address `at` on, and has `size` bytes: `bytes`, which come from the file, and zeros after
/// them. `code` is whether it is executable.
#[derive(Clone, Copy)]
pub struct Segment<'a> {
    pub at: u32,
    pub size: u32,
    pub code: bool,
    pub bytes: &'a [u8],
}
