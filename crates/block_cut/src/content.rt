// The content of a section of code.

ghost use Rattle.std.specs.Prelude.{◌≡◌, ◌≤◌, ◌+◌, ◌%◌, ◌==◌, false, if◌then◌else◌, IfOk, length};
ghost use Rattle.block_cut.specs.CodeSizes.{is_long_at, own_size};
ghost use Rattle.block_cut.specs.Instrs.{instrs_in};
ghost use Rattle.block_cut.specs.Items.{raw_in};
ghost use Rattle.block_cut.specs.Relocs.{instr_in};
ghost use Rattle.zc_base.specs.Fields.{word_in};

use crate::item::Item;
use crate::kinds::{instr_at, short_instr_at};
use crate::section_words::{decode_words, instr_on};
use rv_decode::instr::Instr;
use std::alloc::{AllocError, Global};
use std::marker::Model;
use zc_base::fields::{u16_at, u32_at};

/// The bytes of a section of code, with the instruction that each of its words is, by the offset / 4. Where the object
/// is compressed, an instruction may begin at any halfword, so the words aren't used.
#[derive(Drop)]
pub struct Content<'a> {
    bytes: &'a [u8],
    words: Vec<Option<Instr>>,
    compressed: bool,
}

impl<'a> Model for Content<'a> {
    ghost use Rattle.std.specs.Prelude.{◌≡◌, false};
    ghost use Rattle.block_cut.specs.Instrs.{instrs_in, CodeBytes};

    ghost Value = { CodeBytes };

    ghost view = { λ content. record { bytes = content.bytes.now; compressed = content.compressed } };

    ghost invariant = { λ content. content.compressed ≡ false → content.words.items ≡ instrs_in content.bytes.now };
}

// Whether a 32-bit instruction starts at an offset: four bytes are left, and the low two bits of the first are 11.
fn is_long_at(bytes: &[u8], at: usize) -> bool
    ensures { result ≡ is_long_at bytes.now at }
{
    4 <= bytes.len() && at <= bytes.len() - 4 && bytes[at] % 4 == 3
}

impl<'a> Content<'a> {
    /// The content with these bytes, and with their words decoded, each once, unless the object is compressed.
    pub fn new(alloc: Global, bytes: &'a [u8], compressed: bool) -> Result<Content<'a>, AllocError>
        ensures { IfOk result (λ content. content ≡ record { bytes = bytes.entry.now; compressed = compressed }) }
    {
        let words = decode_words(alloc, compressed, bytes)?;
        Ok(Content {
            bytes,
            words,
            compressed,
        })
    }

    /// The instruction that each word spells, by the offset / 4, unless the object is compressed.
    pub fn words(&self) -> &[Option<Instr>]
        ensures { self.now.compressed ≡ false → result.now ≡ instrs_in self.now.bytes }
    {
        &self.words
    }

    /// The number of bytes.
    pub fn len(&self) -> usize
        ensures { result ≡ length self.now.bytes }
    {
        self.bytes.len()
    }

    /// The number of bytes that an item without a relocation takes at an offset.
    #[inline(always)]
    pub fn own_size(&self, at: usize) -> u8
        ensures { result ≡ own_size self.now.compressed self.now.bytes at }
    {
        if self.compressed && !is_long_at(self.bytes, at) {
            return 2;
        }
        4
    }

    /// The word at an offset.
    pub fn word(&self, at: usize) -> u32
        requires { at + 4 ≤ length self.now.bytes }
        ensures { result ≡ word_in self.now.bytes at }
    {
        u32_at(self.bytes, at)
    }

    /// `size` bytes at an offset, copied unread.
    pub fn raw(&self, size: u8, at: usize) -> Item
        requires { at + (if size == 2 then 2 else 4) ≤ length self.now.bytes }
        ensures { result ≡ raw_in size self.now.bytes at }
    {
        if size == 2 {
            return Item::RawShort(u16_at(self.bytes, at));
        }
        Item::Raw(u32_at(self.bytes, at))
    }

    /// The instruction that the `size` bytes at an offset are.
    pub fn instr(&self, size: u8, at: usize) -> Option<Instr>
        requires aligned { self.now.compressed ≡ false → at % 4 ≡ 0 }
        requires inside { at + (if size == 2 then 2 else 4) ≤ length self.now.bytes }
        ensures { result ≡ instr_in size self.now.bytes at }
    {
        if size == 2 {
            return short_instr_at(self.bytes, at);
        }
        if self.compressed {
            return instr_at(self.bytes, at);
        }
        instr_on(&self.words, at)
    }
}
