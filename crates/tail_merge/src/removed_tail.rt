// A tail that is removed from a section of code.

/// A tail that is removed, and the equal one that the code jumps to in its place: the number of the item that ends each,
/// among the items of their section from 0 on, and how many items both have.
#[derive(Clone, Copy, PartialEq, Eq, Debug)]
pub struct RemovedTail {
    pub end: u32,
    pub host: u32,
    pub count: u32,
}
