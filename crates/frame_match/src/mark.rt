// What is stored for each item.

ghost use Rattle.std.specs.Prelude.{◌≡◌, ◌<◌, Some, length, slice_get};

use std::marker::Model;

/// What is stored for an item: it belongs to no group, starts the group with this number, or is inside a group.
#[derive(Clone, Copy)]
pub enum Mark {
    Apart,
    Start(u32),
    Within,
}

/// The marks of a section's items, in order.
#[derive(Drop)]
pub struct Marks {
    pub marks: Vec<Mark>,
}

impl Model for Marks {
    ghost use Rattle.std.specs.Prelude.{List};
    ghost use Rattle.frame_match.specs.declared.mark.Mark.{Mark};

    ghost Value = { List Mark };

    ghost view = { λ marks. marks.marks.items };
}

impl Marks {
    /// The number of items in the section.
    pub fn len(&self) -> usize
        ensures { result ≡ length self.now }
    {
        self.marks.len()
    }

    /// The mark of an item, by its index.
    pub fn get(&self, index: u32) -> Mark
        requires { index < length self.now }
        ensures { slice_get self.now index ≡ Some result }
    {
        self.marks[index as usize]
    }
}
