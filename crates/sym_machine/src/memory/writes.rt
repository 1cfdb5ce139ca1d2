// What is written to memory.

ghost use Rattle.std.specs.Bool.{OnFalse, OnTrue};
ghost use Rattle.std.specs.Prelude.{◌≡◌, ◌<◌, ◌^◌, true, drop, length, map, min, slice_index_or, take};
ghost use Rattle.rv_decode.specs.Memory.{extents_of, is_data, lies_in, written};
ghost use Rattle.sym_machine.specs.Kept.{IsChanged, regions_of};
ghost use Rattle.sym_machine.specs.declared.word.SymByte.TheVariants.{Num, Undef};

use super::SymMemory;
use crate::span::Span;
use crate::word::SymByte;
use devices::answers::Answers;

impl SymMemory {
    /// Writes numbers from an address on if all of their places are kept, and else changes nothing.
    #[inline(always)]
    pub fn store(&mut self, a: u32, numbers: &[u8]) -> bool
        ensures there { OnTrue result (lies_in is_data (extents_of (regions_of self.old)) a (length numbers.now)
            ≡ true) }
        ensures done { OnTrue result (IsChanged (written a (length (map Num numbers.now)) (λ i. slice_index_or
            (map Num numbers.now) i Undef)) self.old self.new) }
        ensures same { OnFalse result (self.new ≡ self.old) }
    {
        match self.span(a, numbers.len()) {
            Span::Data(i) => {
                self.bytes.write_numbers(i, numbers);
                true
            }
            Span::Stack(i) => {
                self.stack.write_numbers(i, numbers);
                true
            }
            Span::Below | Span::Elsewhere => false,
        }
    }

    /// Writes bytes from an address on, each if it is kept.
    #[inline(always)]
    pub fn write(&mut self, a: u32, bytes: &[SymByte])
        ensures { IsChanged (written a (length bytes.now) (λ i. slice_index_or bytes.now i Undef)) self.old self.new }
    {
        match self.span(a, bytes.len()) {
            Span::Data(i) => self.bytes.write_cells(i, bytes),
            Span::Stack(i) => self.stack.write_cells(i, bytes),
            Span::Below => {}
            Span::Elsewhere => self.put_each(a, bytes),
        }
    }

    // Writes byte by byte: at a region's edge, or where not all places are kept.
    fn put_each(&mut self, a: u32, bytes: &[SymByte])
        ensures { IsChanged (written a (length bytes.now) (λ i. slice_index_or bytes.now i Undef)) self.old self.new }
    {
        let _ = &self.map;
        for i in 0..bytes.len() {
            self.put(u64::from(a) + i as u64, bytes[i]);
        }
    }

    /// Writes numbers from an address on, each if it is kept.
    pub fn write_numbers(&mut self, a: u32, numbers: &[u8])
        ensures { IsChanged (written a (length (map Num numbers.now)) (λ i. slice_index_or
            (map Num numbers.now) i Undef)) self.old self.new }
    {
        if !self.store(a, numbers) {
            self.put_each_number(a, numbers);
        }
    }

    // Writes numbers byte by byte, each if it is kept.
    fn put_each_number(&mut self, a: u32, numbers: &[u8])
        ensures { IsChanged (written a (length (map Num numbers.now)) (λ i. slice_index_or
            (map Num numbers.now) i Undef)) self.old self.new }
    {
        let _ = &self.map;
        for i in 0..numbers.len() {
            self.put(u64::from(a) + i as u64, SymByte::Num(numbers[i]));
        }
    }

    /// Writes bytes from the front of the answers to a buffer, each if it is kept, until it is full or none are left.
    /// Returns their number.
    pub fn fill(&mut self, a: u32, len: u32, answers: &mut Answers<'_>) -> u32
        ensures count { result ≡ min len (length answers.old) }
        ensures left { answers.new ≡ drop result answers.old }
        ensures filled { let bytes = map Num (take result answers.old) in
            IsChanged (written a (length bytes) (λ i. slice_index_or bytes i Undef)) self.old self.new }
    {
        let _ = &self.map;
        let mut done = 0;
        while done < len {
            let piece = answers.take_piece((len - done) as usize);
            if piece.is_empty() {
                break;
            }
            self.write_piece(u64::from(a) + u64::from(done), piece);
            done += piece.len() as u32;
        }
        done
    }

    // Writes numbers from an address on, each if it is kept.
    fn write_piece(&mut self, a: u64, numbers: &[u8])
        ensures { IsChanged (written a (length (map Num numbers.now)) (λ i. slice_index_or
            (map Num numbers.now) i Undef)) self.old self.new }
    {
        let _ = &self.map;
        if a < 1 << 32 {
            self.write_numbers(a as u32, numbers);
        }
    }

    // Writes the byte at an address, if it is kept.
    fn put(&mut self, a: u64, byte: SymByte)
        ensures { IsChanged (written a 1 (λ _. byte)) self.old self.new }
    {
        if u64::from(self.map.stack_low) <= a {
            let i = a - u64::from(self.map.stack_low);
            if u64::from(self.from) <= a && i < self.stack.len() as u64 {
                self.stack.write(i as usize, byte);
            }
        } else if u64::from(self.map.data_low) <= a {
            let i = a - u64::from(self.map.data_low);
            if i < self.bytes.len() as u64 {
                self.bytes.write(i as usize, byte);
            }
        }
    }
}
