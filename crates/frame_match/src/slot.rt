// The words of a frame that registers are saved in.

/// A word of a frame: its offset from the stack pointer while the frame exists, and the register that is saved in it.
#[derive(Clone, Copy)]
pub struct Slot {
    pub offset: u32,
    pub register: u8,
}

/// Whether registers are saved to a frame or restored from it.
#[derive(Clone, Copy)]
pub enum Access {
    Saves,
    Restores,
}
