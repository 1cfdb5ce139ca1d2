// A stack of cells. All cells below sp are undefined after each step, and sp may rise over many of them
// at once, so they are made so by a mark alone. What lies below the mark is brought up to date when
// something is written there, strip by strip.

ghost use Rattle.std.specs.Prelude.{◌≡◌, ◌≤◌, ◌<◌, ◌+◌, ◌*◌, ◌/◌, ◌%◌, ◌^◌, ◌∷◌, [], ℕ, IfOk, IfSome, false, length, map, nat_lt, slice_index_or, true, if◌then◌else◌};
ghost use Rattle.rv_decode.specs.Memory.{blank};
ghost use Rattle.sym_machine.specs.Pages.{AreCellsWritten, cell_word};
ghost use Rattle.sym_machine.specs.Stack.{AreAlike, AreOpened, is_open, stack_cells};
ghost use Rattle.sym_machine.specs.Words.{number_word};
ghost use Rattle.sym_machine.specs.declared.word.SymByte.{SymByte};
ghost use Rattle.sym_machine.specs.declared.word.SymByte.TheVariants.{Num, Undef};

use crate::cells::end_up;
use crate::pages::Pages;
use crate::word::{SymByte, SymWord};
use std::alloc::{AllocError, Global};
use std::marker::Model;

// The number of cells in a strip.
const STRIP: usize = 32;

/// The cells of a stack.
#[derive(Drop)]
pub struct Stack {
    cells: Pages,
    live: Vec<bool>,
    mark: usize,
}

impl Model for Stack {
    ghost use Rattle.sym_machine.specs.Stack.{AreStrips, Strips};

    ghost Value = { Strips };

    ghost view = { λ s. record { cells = s.cells; live = s.live.items; mark = s.mark } };

    ghost invariant = { λ s. AreStrips (record { cells = s.cells; live = s.live.items; mark = s.mark }) };
}

impl Stack {
    /// `size` undefined cells.
    pub fn undefined(alloc: Global, size: usize) -> Result<Stack, AllocError>
        requires { size ≤ 2 ^ 32 }
        ensures { IfOk result (λ stack. stack_cells stack ≡ blank size Undef) }
    {
        let cells = Pages::undefined(alloc, size)?;
        let mut live = Vec::new(alloc);
        live.resize(size / STRIP + 1, false)?;
        Ok(Stack {
            cells,
            live,
            mark: size,
        })
    }

    // Says what holds of every stack, for the proof of a caller that needs no value of it. Nothing runs.
    #[inline]
    fn recall_invariant(&self)
        ensures few { length (stack_cells self.now) ≤ 2 ^ 52 }
    {
        let _size = self.len();
    }

    /// The number of cells.
    #[inline(always)]
    pub fn len(&self) -> usize
        ensures value { result ≡ length (stack_cells self.now) }
        ensures few { result ≤ 2 ^ 52 }
    {
        self.cells.len()
    }

    // Whether a cell is what is held for it.
    #[inline(always)]
    fn is_open(&self, i: usize) -> bool
        requires { i < length self.now.cells }
        ensures { result ≡ is_open self.now i }
    {
        self.mark <= i && self.live[i / STRIP]
    }

    /// The cell at an index.
    #[inline(always)]
    pub fn cell(&self, i: usize) -> SymByte
        ensures { result ≡ slice_index_or (stack_cells self.now) i Undef }
    {
        if i < self.cells.len() && self.is_open(i) {
            self.cells.cell(i)
        } else {
            SymByte::Undef
        }
    }

    /// The number at an index, if it is one.
    #[inline(always)]
    pub fn number_at(&self, i: usize) -> Option<u8>
        requires { i < length (stack_cells self.now) }
        ensures { IfSome result (λ b. slice_index_or (stack_cells self.now) i Undef ≡ Num b) }
    {
        if self.is_open(i) {
            self.cells.number_at(i)
        } else {
            None
        }
    }

    /// The two numbers from an index on, if both are numbers and lie in one strip.
    #[inline(always)]
    pub fn pair_at(&self, i: usize) -> Option<(u8, u8)>
        requires { i + 2 ≤ length (stack_cells self.now) }
        ensures low { IfSome result (λ b. slice_index_or (stack_cells self.now) i Undef ≡ Num b.0) }
        ensures high { IfSome result (λ b. slice_index_or (stack_cells self.now) (i + 1) Undef ≡ Num b.1) }
    {
        if i % STRIP <= STRIP - 2 && self.is_open(i) {
            self.cells.pair_at(i)
        } else {
            None
        }
    }

    /// The number that the four cells from an index on are, if all are numbers and lie in one strip.
    #[inline(always)]
    pub fn word_at(&self, i: usize) -> Option<u32>
        requires { i + 4 ≤ length (stack_cells self.now) }
        ensures { IfSome result (λ n. number_word n ≡ cell_word (stack_cells self.now) i) }
    {
        if i % STRIP <= STRIP - 4 && self.is_open(i) {
            self.cells.word_at(i)
        } else {
            None
        }
    }

    /// The word of the four cells from an index on.
    #[inline(always)]
    pub fn word(&self, i: usize) -> SymWord
        requires { i + 4 ≤ length (stack_cells self.now) }
        ensures { result ≡ cell_word (stack_cells self.now) i }
    {
        if i % STRIP <= STRIP - 4 && self.is_open(i) {
            self.cells.word(i)
        } else {
            self.word_across(i)
        }
    }

    // The word of the four cells from an index on, cell by cell.
    #[cold]
    fn word_across(&self, i: usize) -> SymWord
        requires { i + 4 ≤ length (stack_cells self.now) }
        ensures { result ≡ cell_word (stack_cells self.now) i }
    {
        // The number of cells is far below the largest index, so no sum overflows.
        self.recall_invariant();
        SymWord {
            b0: self.cell(i),
            b1: self.cell(i + 1),
            b2: self.cell(i + 2),
            b3: self.cell(i + 3),
        }
    }

    /// Writes numbers from an index on.
    #[inline(always)]
    pub fn write_numbers(&mut self, i: usize, numbers: &[u8])
        requires { i + length numbers.now ≤ length (stack_cells self.old) }
        ensures len { length (stack_cells self.new) ≡ length (stack_cells self.old) }
        ensures each { AreCellsWritten i (map Num numbers.now) (stack_cells self.old) (stack_cells self.new) }
    {
        self.open(i, numbers.len());
        self.cells.write_numbers(i, numbers);
    }

    /// Writes cells from an index on.
    #[inline(always)]
    pub fn write_cells(&mut self, i: usize, cells: &[SymByte])
        requires { i + length cells.now ≤ length (stack_cells self.old) }
        ensures len { length (stack_cells self.new) ≡ length (stack_cells self.old) }
        ensures each { AreCellsWritten i cells.now (stack_cells self.old) (stack_cells self.new) }
    {
        self.open(i, cells.len());
        self.cells.write_cells(i, cells);
    }

    /// Writes a cell.
    pub fn write(&mut self, i: usize, cell: SymByte)
        requires { i < length (stack_cells self.old) }
        ensures len { length (stack_cells self.new) ≡ length (stack_cells self.old) }
        ensures each { AreCellsWritten i (cell ∷ []) (stack_cells self.old) (stack_cells self.new) }
    {
        self.write_cells(i, &[cell]);
    }

    /// Makes the cells below an index undefined.
    #[inline(always)]
    pub fn clear_below(&mut self, i: usize)
        requires { i ≤ length (stack_cells self.old) }
        ensures len { length (stack_cells self.new) ≡ length (stack_cells self.old) }
        ensures each { (j : ℕ) (d : SymByte) → j < length (stack_cells self.old)
            → slice_index_or (stack_cells self.new) j d
            ≡ (if nat_lt j i then Undef else slice_index_or (stack_cells self.old) j d) }
    {
        self.mark = self.mark.max(i);
    }

    // Opens `n` cells from an index on. What they are until they are written isn't said.
    #[inline(always)]
    fn open(&mut self, i: usize, n: usize)
        requires { i + n ≤ length self.old.cells }
        ensures { AreOpened i n self.old self.new }
    {
        // The number of cells is far below the largest index, so no sum overflows.
        self.cells.recall_invariant();
        if i % STRIP + n > STRIP {
            self.open_across(i, n);
        } else if n > 0 && !self.is_open(i) {
            self.open_strip(i, n);
        }
    }

    // Opens `n` cells from an index on that lie in more than one strip.
    #[cold]
    #[inline(never)]
    fn open_across(&mut self, i: usize, n: usize)
        requires { i + n ≤ length self.old.cells }
        ensures { AreOpened i n self.old self.new }
    {
        // The number of cells is far below the largest index, so no sum overflows.
        self.cells.recall_invariant();
        for k in 0..n {
            self.open_strip(i + k, 1);
        }
    }

    // Opens `n` cells from an index on that lie in one strip.
    fn open_strip(&mut self, i: usize, n: usize)
        requires some { 0 < n }
        requires within { i + n ≤ length self.old.cells }
        requires strip { i % 32 + n ≤ 32 }
        ensures { AreOpened i n self.old self.new }
    {
        self.lower(i / STRIP);
        self.begin(i / STRIP);
        self.cover(i, n);
    }

    // Lowers the mark to the end of a strip, if it is higher.
    #[inline(always)]
    fn lower(&mut self, strip: usize)
        requires { 32 * strip < length self.old.cells }
        ensures alike { AreAlike self.old self.new }
        ensures mark { self.new.mark ≤ 32 * strip + 32 }
    {
        // The number of cells is far below the largest index, so no sum overflows.
        self.cells.recall_invariant();
        if STRIP * strip + STRIP < self.mark {
            self.lower_to(strip + 1);
        }
    }

    // Lowers the mark to the start of a strip: no strip from there up to the mark is live.
    #[cold]
    #[inline(never)]
    fn lower_to(&mut self, strip: usize)
        requires { 32 * strip ≤ self.old.mark }
        ensures alike { AreAlike self.old self.new }
        ensures mark { self.new.mark ≡ 32 * strip }
    {
        let last = self.mark / STRIP;
        self.cells.clear(STRIP * last, self.mark);
        end_up(self.live.as_mut_slice(), strip, last - strip);
        self.mark = STRIP * strip;
    }

    // Makes a strip live.
    #[inline(always)]
    fn begin(&mut self, strip: usize)
        requires { 32 * strip < length self.old.cells }
        ensures alike { AreAlike self.old self.new }
        ensures mark { self.new.mark ≡ self.old.mark }
        ensures live { slice_index_or self.new.live strip false ≡ true }
    {
        if !self.live[strip] {
            self.begin_undefined(strip);
        }
    }

    // Makes a strip live that isn't.
    #[cold]
    #[inline(never)]
    fn begin_undefined(&mut self, strip: usize)
        requires within { 32 * strip < length self.old.cells }
        requires none { slice_index_or self.old.live strip false ≡ false }
        ensures alike { AreAlike self.old self.new }
        ensures mark { self.new.mark ≡ self.old.mark }
        ensures live { slice_index_or self.new.live strip false ≡ true }
    {
        let size = self.cells.len();
        let start = STRIP * strip;
        self.cells.clear(start, size.min(start + STRIP));
        self.live[strip] = true;
    }

    // Lowers the mark to an index in a live strip. The mark isn't above that strip.
    #[inline(always)]
    fn cover(&mut self, i: usize, n: usize)
        requires within { i + n ≤ length self.old.cells }
        requires strip { i % 32 + n ≤ 32 }
        requires mark { self.old.mark ≤ 32 * (i / 32) + 32 }
        requires live { slice_index_or self.old.live (i / 32) false ≡ true }
        ensures { AreOpened i n self.old self.new }
    {
        // The number of cells is far below the largest index, so no sum overflows.
        self.cells.recall_invariant();
        if i + n < self.mark {
            self.cells.clear(i + n, self.mark);
            self.mark = i;
        } else {
            self.mark = self.mark.min(i);
        }
    }
}
