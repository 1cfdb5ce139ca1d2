// What the layout knows of an item.

ghost use Rattle.std.specs.Prelude.{◌≡◌, ◌<◌, ◌≤◌, ◌+◌};
ghost use Rattle.shrink_layout.specs.Forms.{HasAlignment, IsForm, form_reaches, longer, longest, near_limit, shortest, target, width};

use psabi_reloc::reaches::{branch_reaches, short_branch_reaches, short_jump_reaches};

/// What the layout knows of an item, of the padding before a section, or of the table with its stub before all code.
///
/// | Piece | Stands for |
/// |---|---|
/// | `Fixed` | an item that has one size wherever it lies, as most have; or what stands in front |
/// | `WithOthers` | a group's first item (the bytes of all) or another one (none); a jump or call through the table |
/// | `Align` | padding up to a multiple of the alignment |
/// | `Branch` | a branch; `short` says whether it has a form of two bytes |
/// | `Jump` | a jump or a call that has a form of two bytes |
///
/// `to` counts the pieces before the target.
#[derive(Clone, Copy)]
pub enum Piece {
    Fixed { size: u16 },
    WithOthers { size: u16 },
    Align { alignment: u32 },
    Branch { to: u32, short: bool },
    Jump { to: u32 },
}

impl Piece {
    /// The shortest form.
    pub fn shortest(self) -> u16
        ensures { result ≡ shortest self }
    {
        match self {
            Piece::Fixed { size } | Piece::WithOthers { size } => size,
            Piece::Align { .. } => 0,
            Piece::Branch { short: true, .. } | Piece::Jump { .. } => 2,
            Piece::Branch { short: false, .. } => 4,
        }
    }

    /// The next longer form, if there is one, or else this one.
    pub fn longer(self, size: u16) -> u16
        ensures { result ≡ longer self size }
    {
        match self {
            Piece::Fixed { .. } | Piece::WithOthers { .. } | Piece::Align { .. } => size,
            Piece::Branch { .. } => { if size == 2 { 4 } else { 8 } }
            Piece::Jump { .. } => 4,
        }
    }

    /// The number of pieces before the target; 0 if there is no target.
    pub fn target(self) -> u32
        ensures { result ≡ target self }
    {
        match self {
            Piece::Fixed { .. } | Piece::WithOthers { .. } | Piece::Align { .. } => 0,
            Piece::Branch { to, .. } | Piece::Jump { to } => to,
        }
    }

    /// Whether an address is in range of this form at another address, which is less than 2 GiB away.
    pub fn reaches(self, size: u16, from: u32, to: u32) -> bool
        ensures { from < to + near_limit → to < from + near_limit → result ≡ form_reaches self size from to }
    {
        let distance = to.wrapping_sub(from).cast_signed();
        match self {
            Piece::Fixed { .. } | Piece::WithOthers { .. } | Piece::Align { .. } => true,
            Piece::Branch { .. } if size == 2 => short_branch_reaches(distance),
            Piece::Branch { .. } if size == 4 => branch_reaches(distance),
            Piece::Branch { .. } => true,
            Piece::Jump { .. } => size != 2 || short_jump_reaches(distance),
        }
    }

    /// The bytes that a piece takes at an address: its size, or what its alignment needs.
    pub fn width(self, size: u16, at: u32) -> u32
        requires alignment { HasAlignment self }
        requires form { IsForm self size }
        ensures value { result ≡ width self size at }
        ensures most { result ≤ longest self }
    {
        match self {
            Piece::Align { alignment } => (alignment - at % alignment) % alignment,
            Piece::Fixed { .. }
            | Piece::WithOthers { .. }
            | Piece::Branch { .. }
            | Piece::Jump { .. } => u32::from(size),
        }
    }
}
