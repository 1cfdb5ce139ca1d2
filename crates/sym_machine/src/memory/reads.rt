// What is read from memory: numbers, and bytes that may be none.

ghost use Rattle.std.specs.Prelude.{◌≡◌, ◌+◌, ◌<◌, ◌^◌, IfOk, IfSome, MatchOption, None, Some, true};
ghost use Rattle.rv_decode.specs.Memory.{cell_at, extents_of, is_data, lies_in};
ghost use Rattle.sym_machine.specs.Change.{numbers_at};
ghost use Rattle.sym_machine.specs.Kept.{regions_of, sym_word_at};
ghost use Rattle.sym_machine.specs.Words.{number_word};
ghost use Rattle.sym_machine.specs.declared.word.SymByte.TheVariants.{Num, Undef};

use super::SymMemory;
use crate::span::Span;
use crate::word::{SymByte, SymWord};
use std::alloc::{AllocError, Global};

impl SymMemory {
    /// The number at an address, if it is kept and is one.
    #[inline(always)]
    pub fn number_at(&self, a: u32) -> Option<u8>
        ensures there { IfSome result (λ _. lies_in is_data (extents_of (regions_of self.now)) a 1 ≡ true) }
        ensures value { IfSome result (λ b. cell_at Undef (regions_of self.now) a ≡ Num b) }
    {
        match self.span(a, 1) {
            Span::Data(i) => self.bytes.number_at(i),
            Span::Stack(i) => self.stack.number_at(i),
            Span::Below | Span::Elsewhere => None,
        }
    }

    /// The two numbers from an address on, if both are kept in one page and are numbers.
    #[inline(always)]
    pub fn pair_at(&self, a: u32) -> Option<(u8, u8)>
        ensures there { IfSome result (λ _. lies_in is_data (extents_of (regions_of self.now)) a 2 ≡ true) }
        ensures low { IfSome result (λ b. cell_at Undef (regions_of self.now) a ≡ Num b.0) }
        ensures high { IfSome result (λ b. cell_at Undef (regions_of self.now) (a + 1) ≡ Num b.1) }
    {
        match self.span(a, 2) {
            Span::Data(i) => self.bytes.pair_at(i),
            Span::Stack(i) => self.stack.pair_at(i),
            Span::Below | Span::Elsewhere => None,
        }
    }

    /// The number that the four bytes from an address on are, if all are kept in one page and are
    /// numbers.
    #[inline(always)]
    pub fn word_at(&self, a: u32) -> Option<u32>
        ensures there { IfSome result (λ _. lies_in is_data (extents_of (regions_of self.now)) a 4 ≡ true) }
        ensures value { IfSome result (λ n. number_word n ≡ sym_word_at (regions_of self.now) a) }
    {
        match self.span(a, 4) {
            Span::Data(i) => self.bytes.word_at(i),
            Span::Stack(i) => self.stack.word_at(i),
            Span::Below | Span::Elsewhere => None,
        }
    }

    /// The two bytes from an address on.
    #[inline(always)]
    pub fn half(&self, a: u32) -> (SymByte, SymByte)
        ensures low { result.0 ≡ cell_at Undef (regions_of self.now) a }
        ensures high { result.1 ≡ cell_at Undef (regions_of self.now) (a + 1) }
    {
        (self.byte(u64::from(a)), self.byte(u64::from(a) + 1))
    }

    /// The word of the four bytes from an address on.
    #[inline(always)]
    pub fn word(&self, a: u32) -> SymWord
        ensures { result ≡ sym_word_at (regions_of self.now) a }
    {
        match self.span(a, 4) {
            Span::Data(i) => self.bytes.word(i),
            Span::Stack(i) => self.stack.word(i),
            Span::Below => SymWord::UNDEFINED,
            Span::Elsewhere => self.gathered(u64::from(a)),
        }
    }

    // The word at an address, byte by byte: at a region's edge, or where not all bytes are kept.
    fn gathered(&self, a: u64) -> SymWord
        requires { a < 2 ^ 32 }
        ensures { result ≡ sym_word_at (regions_of self.now) a }
    {
        SymWord {
            b0: self.byte(a),
            b1: self.byte(a + 1),
            b2: self.byte(a + 2),
            b3: self.byte(a + 3),
        }
    }

    /// The `n` bytes from an address on, if all are numbers.
    pub fn numbers(&self, alloc: Global, a: u32, n: u32) -> Result<Option<Vec<u8>>, AllocError>
        ensures { IfOk result (λ found. MatchOption found
            (numbers_at (regions_of self.now) a n ≡ None)
            (λ bytes. numbers_at (regions_of self.now) a n ≡ Some bytes.items)) }
    {
        let mut bytes = Vec::with_capacity(alloc, n as usize)?;
        for i in 0..n {
            match self.byte(u64::from(a) + u64::from(i)) {
                SymByte::Num(byte) => bytes.push(byte)?,
                SymByte::Part(_, _) | SymByte::Undef => return Ok(None),
            }
        }
        Ok(Some(bytes))
    }
}
