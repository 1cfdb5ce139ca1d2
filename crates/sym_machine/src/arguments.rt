// The arguments of environment calls.

/// What a call with a buffer uses: a0, the buffer's address, and its length in bytes.
#[derive(Clone, Copy)]
pub struct Arguments {
    pub a0: u32,
    pub at: u32,
    pub len: u32,
}
