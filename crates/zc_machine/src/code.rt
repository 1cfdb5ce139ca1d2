// Bytes of code, and what was decoded of them.

ghost use Rattle.std.specs.Prelude.{◌≡◌, ◌+◌, ◌<◌, ◌≤◌, IfOk, IfSome, drop, length, vec_capacity};
ghost use Rattle.zc_machine.specs.Answer.{fetched_as};
ghost use Rattle.zc_machine.specs.Cells.{instruction};
ghost use Rattle.zc_machine.specs.Fetch.{Found};
ghost use Rattle.zc_machine.specs.Invariants.Kept.{IsDecodedFrom, extended_to_index};

use crate::cells::instruction;
use crate::reason::Reason;
use std::alloc::{AllocError, Global};
use std::marker::Model;
use zc_decode::short::Short;

/// A decoded-instruction cache entry: empty, or the instruction that begins at a halfword, with its size in bytes. The
/// size stands beside the tag, so that an entry takes 16 bytes.
#[derive(Clone, Copy)]
pub enum Kept {
    Unknown,
    Known { size: u8, short: Short },
}

/// The bytes of a region of code, which are never written, and what was decoded of them. Clauses see the
/// bytes alone.
#[derive(Drop)]
pub struct Code {
    bytes: Vec<u8>,
    // An entry for each halfword from the start on, up to the last of which anything is kept. There is room for all, so
    // that keeping takes no memory.
    kept: Vec<Kept>,
}

impl Model for Code {
    ghost use Rattle.std.specs.Prelude.{ℕ, List, vec_capacity};
    ghost use Rattle.zc_machine.specs.Invariants.Kept.{IsCodeCache};

    ghost Value = { List ℕ };

    ghost view = { λ c. c.bytes.items };

    ghost invariant = { λ c. IsCodeCache c.bytes.items c.kept.items (vec_capacity c.kept) };
}

impl Code {
    /// Code of which nothing was decoded yet.
    pub fn new(alloc: Global, bytes: Vec<u8>) -> Result<Code, AllocError>
        ensures { IfOk result (λ code. code ≡ bytes.items) }
    {
        let kept = Vec::with_capacity(alloc, bytes.len() / 2)?;
        Ok(Code { bytes, kept })
    }

    /// The number of bytes.
    #[inline(always)]
    pub fn len(&self) -> usize
        ensures { result ≡ length self.now }
    {
        self.bytes.len()
    }

    /// The bytes from an offset on.
    #[inline(always)]
    pub fn bytes_from(&self, offset: u32) -> &[u8]
        requires { offset ≤ length self.now }
        ensures { result.now ≡ drop offset self.now }
    {
        &self.bytes[offset as usize..]
    }

    /// What is kept of the halfword at an offset, if there is an entry for it.
    #[inline(always)]
    pub fn entry(&self, offset: u32) -> Option<&Kept>
        ensures { IfSome result (λ entry. IsDecodedFrom entry.now (drop offset self.now)) }
    {
        if offset % 2 != 0 {
            return None;
        }
        self.kept.get((offset / 2) as usize)
    }

    /// The instruction at an offset and its size, which are kept from then on if the offset is even.
    pub fn fetch(&mut self, offset: u32) -> Result<(Short, u8), Reason>
        requires { offset ≤ length self.old }
        ensures found { fetched_as result ≡ instruction (drop offset self.old) }
        ensures same { self.new ≡ self.old }
    {
        match self.known(offset) {
            Some(found) => Ok(found),
            None => self.decode(offset),
        }
    }

    fn known(&self, offset: u32) -> Option<(Short, u8)>
        ensures { IfSome result (λ found. instruction (drop offset self.now) ≡ Found found.0 found.1) }
    {
        match self.entry(offset)? {
            Kept::Known { size, short } => Some((*short, *size)),
            Kept::Unknown => None,
        }
    }

    fn decode(&mut self, offset: u32) -> Result<(Short, u8), Reason>
        requires { offset ≤ length self.old }
        ensures found { fetched_as result ≡ instruction (drop offset self.old) }
        ensures same { self.new ≡ self.old }
    {
        match instruction(self.bytes_from(offset)) {
            Ok((short, size)) => {
                self.keep(offset as usize, &short, size);
                Ok((short, size))
            }
            Err(reason) => Err(reason),
        }
    }

    fn keep(&mut self, offset: usize, short: &Short, size: u8)
        requires within { offset + 2 ≤ length self.old }
        requires stands { instruction (drop offset self.old) ≡ Found short.now size }
        ensures { self.new ≡ self.old }
    {
        let index = offset / 2;
        if offset % 2 == 0 {
            extend(&mut self.kept, index);
            self.kept[index] = Kept::Known {
                size,
                short: *short,
            };
        }
    }
}

// Gives a list entries that say nothing, up to one with this index.
fn extend(kept: &mut Vec<Kept>, index: usize)
    requires { index < vec_capacity kept.old }
    ensures entries { kept.new.items ≡ extended_to_index kept.old.items index }
    ensures room { vec_capacity kept.old ≤ vec_capacity kept.new }
{
    if kept.len() <= index {
        kept.resize(index + 1, Kept::Unknown).unwrap();
    }
}
