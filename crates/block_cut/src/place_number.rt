// Where places stand among all.

/// Where a place of code stands: the number of its section among all, and the number of that section's items before it.
#[derive(Clone, Copy)]
pub struct PlaceNumber {
    pub section: u32,
    pub index: u32,
}
