// A list of cells in pages.

ghost use Rattle.std.specs.Prelude.{◌≡◌, ◌≤◌, ◌<◌, ◌+◌, ◌-◌, ◌++◌, ◌∷◌, [], ◌^◌, ◌%◌, ℕ, IfOk, IfSome, length, map, replicate, slice_index_or};
ghost use Rattle.rv_decode.specs.Memory.{blank, written};
ghost use Rattle.sym_machine.specs.Pages.{AreCellsWritten, cell_word};
ghost use Rattle.sym_machine.specs.Words.{number_word};
ghost use Rattle.sym_machine.specs.declared.word.SymByte.{SymByte};
ghost use Rattle.sym_machine.specs.declared.word.SymByte.TheVariants.{Num, Undef};

use crate::page::Page;
use crate::pool::{PAGE, Pool};
use crate::word::{SymByte, SymWord};
use std::alloc::{AllocError, Global};
use std::marker::Model;

/// Cells in pages.
#[derive(Drop)]
pub struct Pages {
    size: usize,
    pool: Pool,
}

impl Model for Pages {
    ghost use Rattle.std.specs.Prelude.{List};
    ghost use Rattle.sym_machine.specs.Pages.{ArePages, cells_of_pages};
    ghost use Rattle.sym_machine.specs.declared.word.SymByte.{SymByte};

    ghost Value = { List SymByte };

    ghost view = { λ p. cells_of_pages p.pool p.size };

    ghost invariant = { λ p. ArePages p.pool p.size };
}

impl Pages {
    /// `size` undefined cells.
    pub fn undefined(alloc: Global, size: usize) -> Result<Pages, AllocError>
        requires { size ≤ 2 ^ 32 }
        ensures { IfOk result (λ pages. pages ≡ blank size Undef) }
    {
        let pool = Pool::new(alloc, size.div_ceil(PAGE), Page::Cells(0))?;
        Ok(Pages { size, pool })
    }

    /// The cells of these numbers, and zeros after them up to this size.
    pub fn numbers(alloc: Global, numbers: &[u8], size: usize) -> Result<Pages, AllocError>
        requires few { size ≤ 2 ^ 32 }
        requires within { length numbers.now ≤ size }
        ensures { IfOk result (λ pages. pages ≡ map Num (numbers.now ++ replicate (size - length numbers.now) 0)) }
    {
        let mut pages = Pages::zeros(alloc, size)?;
        pages.write_numbers(0, numbers);
        Ok(pages)
    }

    // `size` zeros.
    fn zeros(alloc: Global, size: usize) -> Result<Pages, AllocError>
        requires { size ≤ 2 ^ 32 }
        ensures { IfOk result (λ pages. pages ≡ replicate size (Num 0)) }
    {
        let pool = Pool::new(alloc, size.div_ceil(PAGE), Page::Numbers(0))?;
        Ok(Pages { size, pool })
    }

    /// Says what holds of all pages, for the proof of a caller that needs no value of them. Nothing runs.
    #[inline]
    pub fn recall_invariant(&self)
        ensures few { length self.now ≤ 2 ^ 52 }
    {
        let _size = self.len();
    }

    /// The number of cells.
    #[inline(always)]
    pub fn len(&self) -> usize
        ensures value { result ≡ length self.now }
        ensures few { result ≤ 2 ^ 52 }
    {
        self.size
    }

    /// The cell at an index.
    #[inline(always)]
    pub fn cell(&self, i: usize) -> SymByte
        ensures { result ≡ slice_index_or self.now i Undef }
    {
        if i < self.size {
            self.pool.cell(i)
        } else {
            SymByte::Undef
        }
    }

    /// The number at an index, if it is one.
    #[inline(always)]
    pub fn number_at(&self, i: usize) -> Option<u8>
        requires { i < length self.now }
        ensures { IfSome result (λ b. slice_index_or self.now i Undef ≡ Num b) }
    {
        self.pool.number(i)
    }

    /// The two numbers from an index on, if both are numbers and lie in one page.
    #[inline(always)]
    pub fn pair_at(&self, i: usize) -> Option<(u8, u8)>
        requires { i + 2 ≤ length self.now }
        ensures low { IfSome result (λ b. slice_index_or self.now i Undef ≡ Num b.0) }
        ensures high { IfSome result (λ b. slice_index_or self.now (i + 1) Undef ≡ Num b.1) }
    {
        if i % PAGE > PAGE - 2 {
            return None;
        }
        self.pool.pair(i)
    }

    /// The number that the four cells from an index on are, if all are numbers and lie in one page.
    #[inline(always)]
    pub fn word_at(&self, i: usize) -> Option<u32>
        requires { i + 4 ≤ length self.now }
        ensures { IfSome result (λ n. number_word n ≡ cell_word self.now i) }
    {
        if i % PAGE > PAGE - 4 {
            return None;
        }
        self.pool.number_word(i)
    }

    /// The word of the four cells from an index on.
    #[inline(always)]
    pub fn word(&self, i: usize) -> SymWord
        requires { i + 4 ≤ length self.now }
        ensures { result ≡ cell_word self.now i }
    {
        if i % PAGE > PAGE - 4 {
            return self.word_across(i);
        }
        self.pool.word(i)
    }

    // The word of the four cells from an index on, cell by cell: they lie in two pages.
    #[cold]
    fn word_across(&self, i: usize) -> SymWord
        requires { i + 4 ≤ length self.now }
        ensures { result ≡ cell_word self.now i }
    {
        // The number of cells is far below the largest index, so no sum overflows.
        self.recall_invariant();
        SymWord {
            b0: self.cell(i),
            b1: self.cell(i + 1),
            b2: self.cell(i + 2),
            b3: self.cell(i + 3),
        }
    }

    /// Writes numbers from an index on.
    #[inline(always)]
    pub fn write_numbers(&mut self, i: usize, numbers: &[u8])
        requires { i + length numbers.now ≤ length self.old }
        ensures len { length self.new ≡ length self.old }
        ensures each { AreCellsWritten i (map Num numbers.now) self.old self.new }
    {
        if i % PAGE + numbers.len() <= PAGE && !numbers.is_empty() {
            self.write_page_numbers(i, numbers);
        } else {
            self.write_numbers_across(i, numbers);
        }
    }

    // Writes numbers that lie in one page.
    #[inline(always)]
    fn write_page_numbers(&mut self, i: usize, numbers: &[u8])
        requires some { 0 < length numbers.now }
        requires within { i + length numbers.now ≤ length self.old }
        requires page { i % 4096 + length numbers.now ≤ 4096 }
        ensures len { length self.new ≡ length self.old }
        ensures each { AreCellsWritten i (map Num numbers.now) self.old self.new }
    {
        self.pool.write_numbers(i, numbers);
    }

    // Writes numbers page by page.
    #[cold]
    #[inline(never)]
    fn write_numbers_across(&mut self, i: usize, numbers: &[u8])
        requires { i + length numbers.now ≤ length self.old }
        ensures len { length self.new ≡ length self.old }
        ensures each { AreCellsWritten i (map Num numbers.now) self.old self.new }
    {
        // The number of cells is far below the largest index, so no sum overflows.
        self.recall_invariant();
        let mut done = 0;
        while done < numbers.len() {
            let at = i + done;
            let end = numbers.len().min(done + (PAGE - at % PAGE));
            self.write_page_numbers(at, &numbers[done..end]);
            done = end;
        }
    }

    /// Writes cells from an index on.
    #[inline(always)]
    pub fn write_cells(&mut self, i: usize, cells: &[SymByte])
        requires { i + length cells.now ≤ length self.old }
        ensures len { length self.new ≡ length self.old }
        ensures each { AreCellsWritten i cells.now self.old self.new }
    {
        match cells.first() {
            Some(SymByte::Part(_, _) | SymByte::Undef) if i % PAGE + cells.len() <= PAGE => {
                self.write_page_cells(i, cells);
            }
            _ => self.write_each(i, cells),
        }
    }

    // Writes cells that lie in one page, which becomes one of any cells.
    #[inline(always)]
    fn write_page_cells(&mut self, i: usize, cells: &[SymByte])
        requires some { 0 < length cells.now }
        requires within { i + length cells.now ≤ length self.old }
        requires page { i % 4096 + length cells.now ≤ 4096 }
        ensures len { length self.new ≡ length self.old }
        ensures each { AreCellsWritten i cells.now self.old self.new }
    {
        self.pool.write_cells(i, cells);
    }

    // Writes cells one by one.
    fn write_each(&mut self, i: usize, cells: &[SymByte])
        requires { i + length cells.now ≤ length self.old }
        ensures len { length self.new ≡ length self.old }
        ensures each { AreCellsWritten i cells.now self.old self.new }
    {
        // The number of cells is far below the largest index, so no sum overflows.
        self.recall_invariant();
        for k in 0..cells.len() {
            self.write(i + k, cells[k]);
        }
    }

    /// Writes a cell. A number leaves a page of numbers one.
    pub fn write(&mut self, i: usize, cell: SymByte)
        requires { i < length self.old }
        ensures len { length self.new ≡ length self.old }
        ensures each { AreCellsWritten i (cell ∷ []) self.old self.new }
    {
        match cell {
            SymByte::Num(byte) => self.write_page_numbers(i, &[byte]),
            SymByte::Part(_, _) | SymByte::Undef => self.write_page_cells(i, &[cell]),
        }
    }

    /// Makes the cells from an index up to another one undefined.
    #[inline(always)]
    pub fn clear(&mut self, from: usize, to: usize)
        requires order { from ≤ to }
        requires within { to ≤ length self.old }
        ensures len { length self.new ≡ length self.old }
        ensures each { (j : ℕ) (d : SymByte) → j < length self.old
            → slice_index_or self.new j d ≡ written from (to - from) (λ _. Undef) j (slice_index_or self.old j d) }
    {
        self.pool.clear(from, to);
    }
}
