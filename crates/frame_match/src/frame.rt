// Frames of register lists.

ghost use Rattle.std.specs.Prelude.{◌≡◌, ◌≤◌, ◌<◌, ◌-◌, length};
ghost use Rattle.zc_decode.specs.Lists.{stack_adjust_base, registers_of};
ghost use Rattle.frame_match.specs.Matches as matches;
ghost use Rattle.frame_match.specs.Invariants.Frames.{list_leaving_out, IsKnown};

/// The frame of a register list: how many of the 13 registers the list doesn't have, and the frame's size in bytes.
#[derive(Clone, Copy)]
pub struct Frame {
    pub left_out: u8,
    pub bytes: u32,
}

// The least stack adjustment of the list.
fn stack_adjust_base(list: u8) -> u32
    ensures { result ≡ stack_adjust_base list }
{
    if list == 15 {
        64
    } else if list < 8 {
        16
    } else if list < 12 {
        32
    } else {
        48
    }
}

impl Frame {
    /// The list's number.
    pub fn list(self) -> u8
        requires { self.left_out < 13 }
        ensures { result ≡ list_leaving_out self.left_out }
    {
        if self.left_out == 0 {
            15
        } else {
            16 - self.left_out
        }
    }

    /// The number of registers in the list.
    pub fn count(self) -> u32
        requires { IsKnown self.left_out }
        ensures count { result ≡ length (registers_of (list_leaving_out self.left_out)) }
        ensures few { result ≤ 13 }
    {
        13 - u32::from(self.left_out)
    }

    /// Whether the list may have a frame of `bytes` bytes.
    pub fn is_fit(self) -> bool
        requires { self.left_out < 13 }
        ensures { result ≡ matches.is_frame (list_leaving_out self.left_out) self.bytes }
    {
        self.bytes % 16 == 0 && stack_adjust_base(self.list()) <= self.bytes && self.bytes <= 2032
    }

    /// The part of the frame beyond the stack adjustment of the halfword.
    pub fn rest(self) -> u16
        requires list { self.left_out < 13 }
        requires bytes { self.bytes ≤ 2032 }
        ensures { result ≡ matches.rest_of (list_leaving_out self.left_out) self.bytes }
    {
        self.bytes
            .saturating_sub(stack_adjust_base(self.list()) + 48) as u16
    }

    /// The stack adjustment of the halfword.
    pub fn adjust(self) -> u8
        requires list { self.left_out < 13 }
        requires bytes { self.bytes ≤ 2032 }
        ensures { result ≡ self.bytes - matches.rest_of (list_leaving_out self.left_out) self.bytes }
    {
        self.bytes.min(stack_adjust_base(self.list()) + 48) as u8
    }
}
