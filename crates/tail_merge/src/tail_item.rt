// What an item of code means for tails.

/// An item of code: the word of its instruction, if it is one without relocation; its number of bytes; whether it ends
/// tails; whether it can stand in a tail before its end; and whether a basic block begins with it.
#[derive(Clone, Copy)]
pub struct TailItem {
    pub word: u32,
    pub size: u8,
    pub ends: bool,
    pub inner: bool,
    pub leader: bool,
}
