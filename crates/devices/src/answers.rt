// What devices answer, and reads read, as it is taken from the front.

ghost use Rattle.std.specs.Prelude.{◌≡◌, ◌^◌, ◌⊎◌, ◌<◌, ◌≤◌, ◌++◌, ◌∷◌, [], MatchOption, drop, length, slice_index, take};
ghost use Rattle.rv_decode.specs.Devices.{number_from, widened};
ghost use Rattle.rv_decode.specs.Effect.{load_width};
ghost use Rattle.devices.specs.Lines.{repeated};

use rv_decode::bits::signed_of;
use rv_decode::instr::LoadOp;
use std::marker::Model;

/// Bytes that are taken from the front: some bytes, and then copies of others.
#[derive(Drop)]
pub struct Answers<'a> {
    rest: &'a [u8],
    again: &'a [u8],
    copies: u128,
}

impl<'a> Model for Answers<'a> {
    ghost use Rattle.std.specs.Prelude.{ℕ, ◌++◌, List};
    ghost use Rattle.devices.specs.Lines.{repeated};

    ghost Value = { List ℕ };

    ghost view = { λ a. a.rest.now ++ repeated a.copies a.again.now };
}

// What is left, with a copy at its front if nothing else is there and a copy is left.
fn refilled<'a>(rest: &'a [u8], again: &'a [u8], copies: u128) -> (&'a [u8], u128)
    ensures same { result.0.now ++ repeated result.1 again.now ≡ rest.now ++ repeated copies again.now }
    ensures none { result.0.now ≡ [] → repeated result.1 again.now ≡ [] }
{
    if rest.is_empty() && copies > 0 {
        (again, copies - 1)
    } else {
        (rest, copies)
    }
}

impl<'a> Answers<'a> {
    /// These bytes, and then `copies` copies of others.
    pub fn new(first: &'a [u8], again: &'a [u8], copies: u128) -> Answers<'a>
        ensures { result ≡ first.now ++ repeated copies again.now }
    {
        Answers {
            rest: first,
            again,
            copies,
        }
    }

    /// Takes bytes that lie side by side, at most `most`. It takes none only if none are wanted or none are left.
    pub fn take_piece(&mut self, most: usize) -> &'a [u8]
        ensures taken { self.old ≡ result.now ++ self.new }
        ensures within { length result.now ≤ most }
        ensures none { result.now ≡ [] → (most ≡ 0) ⊎ (self.new ≡ []) }
    {
        let (rest, copies) = refilled(self.rest, self.again, self.copies);
        let (front, behind) = rest.split_at(most.min(rest.len()));
        self.rest = behind;
        self.copies = copies;
        front
    }

    // Takes a byte; one that is missing is 0.
    fn take_byte(&mut self) -> u32
        ensures value { result ≡ slice_index (take 1 self.old) 0 }
        ensures below { result < 256 }
        ensures left { self.new ≡ drop 1 self.old }
    {
        match self.take_piece(1) {
            [byte, ..] => u32::from(*byte),
            [] => 0,
        }
    }

    /// Takes what a load gets, and gives the number that it is; bytes that are missing count as 0.
    pub fn take_number(&mut self, op: LoadOp) -> u32
        ensures value { result ≡ number_from (take (load_width op) self.old) }
        ensures below { result < 256 ^ load_width op }
        ensures left { self.new ≡ drop (load_width op) self.old }
    {
        let first = self.take_byte();
        match op {
            LoadOp::Lb | LoadOp::Lbu => first,
            LoadOp::Lh | LoadOp::Lhu => first + 256 * self.take_byte(),
            LoadOp::Lw => {
                let second = self.take_byte();
                let third = self.take_byte();
                let fourth = self.take_byte();
                first + 256 * (second + 256 * (third + 256 * fourth))
            }
        }
    }

    /// Takes what a load gets, and gives the word that the load makes of it.
    pub fn take_value(&mut self, op: LoadOp) -> u32
        ensures value { result ≡ widened op (number_from (take (load_width op) self.old)) }
        ensures left { self.new ≡ drop (load_width op) self.old }
    {
        widened(op, self.take_number(op))
    }

    /// The same bytes. What is taken from them isn't taken from these.
    pub fn copy(&self) -> Answers<'a>
        ensures { result ≡ self.now }
    {
        Answers {
            rest: self.rest,
            again: self.again,
            copies: self.copies,
        }
    }
}

// What a load makes of the number that its bytes are.
fn widened(op: LoadOp, n: u32) -> u32
    requires { n < 256 ^ load_width op }
    ensures { result ≡ widened op n }
{
    match op {
        LoadOp::Lb => signed_of(8, n).cast_unsigned(),
        LoadOp::Lh => signed_of(16, n).cast_unsigned(),
        LoadOp::Lw | LoadOp::Lbu | LoadOp::Lhu => n,
    }
}
