// Where a page is held.

/// The page of a pool that holds a page: one of numbers, or one of any cells.
#[derive(Clone, Copy)]
pub enum Page {
    Numbers(usize),
    Cells(usize),
}
