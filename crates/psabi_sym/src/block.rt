// Blocks of data.

/// Room in data: `size` bytes that begin at a multiple of `align`, of which 0 counts as 1.
#[derive(Clone, Copy)]
pub struct Block {
    pub align: u32,
    pub size: u32,
}
