// Places in the code of the objects.

/// A place in code: an object, a section of it, and an offset in bytes into that section.
///
/// Places are ordered by object, then section, then offset. They name code that has no address yet.
#[derive(Clone, Copy, PartialEq, Eq, PartialOrd, Ord, Debug)]
pub struct Place {
    pub object: u16,
    pub section: u16,
    pub offset: u32,
}
