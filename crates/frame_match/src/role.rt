// The roles of items in groups.

use crate::group::Group;

/// The role of an item: it is written by itself, is the first of a group, or a later one.
#[derive(Clone, Copy)]
pub enum Role {
    Alone,
    First(Group),
    Inside,
}
