// Groups of items.

use zc_base::place::Place;
use zc_decode::short::Short;

/// Consecutive items that are written together: the place of the first, their number, and what is written for them.
/// `rest` is how many bytes a second instruction moves the stack pointer by, if the first can't move it far enough.
#[derive(Clone, Copy)]
pub struct Group {
    pub start: Place,
    pub items: u32,
    pub kind: Short,
    pub rest: u16,
}
