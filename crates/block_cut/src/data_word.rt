// Words of data that hold addresses.

use psabi_sym::target::Target;

/// A word of data that holds the address of its target: where it lies in memory, at any offset, and what
/// its relocation resolves to.
#[derive(Clone, Copy)]
pub struct DataWord {
    pub at: u32,
    pub target: Target,
}
