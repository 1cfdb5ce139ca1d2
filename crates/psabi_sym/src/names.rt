// Names, numbered in the order in which they are first seen.

ghost use Rattle.std.specs.Prelude.{◌≡◌, ◌+◌, ◌^◌, ◌<◌, ◌≤◌, [], IfOk, OnOk, length};
ghost use Rattle.elf32_read.specs.Names.{name_at};
ghost use Rattle.psabi_sym.specs.Invariants.Keys.{AreLongEnds, AreNames, HaveAdded, HaveRead, lent, names_of};
ghost use Rattle.psabi_sym.specs.Invariants.Rows.{name_number};

use crate::name_ends::{NameEnd, name_ends, name_with_key};
use crate::name_lengths::has_long_name;
use crate::texts::Texts;
use std::alloc::{AllocError, Global};

/// Names, each by its number: the place where it was first seen. Names that end alike share the blocks
/// that are numbered, so none is read whole.
#[derive(Drop)]
pub struct Names<'a> {
    pub tails: Texts<'a>,
    pub names: Texts<'a>,
}

impl<'a> Names<'a> {
    /// No names.
    pub fn new(alloc: Global) -> Names<'a>
        ensures are { AreNames result }
        ensures none { names_of result ≡ [] }
        ensures tails { result.tails.texts.items ≡ [] }
    {
        Names {
            tails: Texts::new(alloc),
            names: Texts::new(alloc),
        }
    }

    /// Reads a table of names: the ends of those with a block of bytes or more, if there are such names.
    /// It looks at each byte three times at most.
    pub fn read(&mut self, alloc: Global, table: &'a [u8]) -> Result<Vec<NameEnd>, AllocError>
        requires few { length table.now ≤ 0x40_0000 }
        requires room { length self.old.tails.texts.items ≤ 2 ^ 31 }
        requires are { AreNames self.old }
        ensures read { OnOk result (HaveRead self.old self.new (length table.now)) }
        ensures ends { IfOk result (λ ends. AreLongEnds self.new.tails.texts.items table.now ends.items) }
    {
        if !has_long_name(table) {
            return Ok(Vec::new(alloc));
        }
        let ends = name_ends(alloc, table, &mut self.tails)?;
        Ok(ends)
    }

    /// The number of the name that begins at an offset of a table that was read; it is new if it wasn't
    /// seen before. It looks at no more than a block of bytes.
    pub fn number(&mut self, table: &'a [u8], ends: &[NameEnd], at: u32) -> Result<u32, AllocError>
        requires few { length (names_of self.old) + 1 < 2 ^ 32 }
        requires are { AreNames self.old }
        requires ends { AreLongEnds self.old.tails.texts.items table.now ends.now }
        ensures added { OnOk result (HaveAdded self.old self.new (name_at table.now at)) }
        ensures number { IfOk result (λ n. n ≡ name_number (names_of self.new) (name_at table.now at)) }
        ensures within { IfOk result (λ n. n < length (names_of self.new)) }
    {
        let (name, key) = name_with_key(table, ends, at);
        let number = self.names.number(key, name)?;
        Ok(number)
    }

    /// The names, by their numbers. What they were numbered by is let go.
    pub fn into_texts(self) -> Vec<&'a [u8]>
        ensures { lent result.items ≡ names_of self.entry }
    {
        let Names { names, .. } = self;
        let Texts { texts, .. } = names;
        texts
    }
}
