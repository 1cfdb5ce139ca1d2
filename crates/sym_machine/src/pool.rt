// Pages of cells, each in one of two pools.

ghost use Rattle.std.specs.Bool.{OnTrue};
ghost use Rattle.std.specs.Prelude.{◌≡◌, ◌≤◌, ◌<◌, ◌+◌, ◌-◌, ◌*◌, ◌/◌, ◌%◌, ◌^◌, ℕ, IfOk, IfSome, length, map, replicate, slice_index, slice_index_or};
ghost use Rattle.rv_decode.specs.Memory.{written};
ghost use Rattle.sym_machine.specs.Pages.{IsMade, IsPooled, IsSame, bytes_in, number_in_pool, page_of, pooled_cell, pooled_word, cell_word};
ghost use Rattle.sym_machine.specs.Words.{number_word};
ghost use Rattle.sym_machine.specs.declared.page.Page.TheVariants as page;
ghost use Rattle.sym_machine.specs.declared.word.SymByte.TheVariants.{Num, Undef};

use crate::cells::{copy_up, fill_up, write_bytes, write_up};
use crate::page::Page;
use crate::word::{SymByte, SymWord};
use std::alloc::{AllocError, Global};
use std::marker::Model;

/// The size of a page.
pub const PAGE: usize = 4096;

/// Pages of cells, of which one takes memory of its own from its first write on.
#[derive(Drop)]
pub struct Pool {
    pages: Vec<Page>,
    // The pools. Page 0 of each is never written, and both have room for all pages.
    numbers: Vec<u8>,
    cells: Vec<SymByte>,
}

impl Model for Pool {
    ghost use Rattle.std.specs.Prelude.{vec_capacity};
    ghost use Rattle.sym_machine.specs.Pages.{Pooled};

    ghost Value = { Pooled };

    ghost view = { λ p. record {
      pages = p.pages.items;
      numbers = p.numbers.items;
      cells = p.cells.items;
      number_room = vec_capacity p.numbers;
      cell_room = vec_capacity p.cells;
    } };
}

impl Pool {
    /// `count` pages, all held by one page.
    pub fn new(alloc: Global, count: usize, page: Page) -> Result<Pool, AllocError>
        requires { count ≤ 2 ^ 40 }
        ensures pages { IfOk result (λ p. p.pages ≡ replicate count page) }
        ensures numbers { IfOk result (λ p. p.numbers ≡ replicate 4096 0) }
        ensures cells { IfOk result (λ p. p.cells ≡ replicate 4096 Undef) }
        ensures number_room { IfOk result (λ p. 4096 * count + 4096 ≤ p.number_room) }
        ensures cell_room { IfOk result (λ p. 4096 * count + 4096 ≤ p.cell_room) }
    {
        let mut pages = Vec::new(alloc);
        pages.resize(count, page)?;
        let mut numbers = Vec::with_capacity(alloc, PAGE * count + PAGE)?;
        numbers.resize(PAGE, 0)?;
        let mut cells = Vec::with_capacity(alloc, PAGE * count + PAGE)?;
        cells.resize(PAGE, SymByte::Undef)?;
        Ok(Pool {
            pages,
            numbers,
            cells,
        })
    }

    /// The cell at an index.
    #[inline(always)]
    pub fn cell(&self, i: usize) -> SymByte
        requires pooled { IsPooled self.now }
        requires within { i < 4096 * length self.now.pages }
        ensures { result ≡ pooled_cell self.now i }
    {
        match self.pages[i / PAGE] {
            Page::Numbers(n) => SymByte::Num(byte_in_numbers(&self.numbers, n, i % PAGE)),
            Page::Cells(n) => cell_in_cells(&self.cells, n, i % PAGE),
        }
    }

    /// The number at an index, if it is one.
    #[inline(always)]
    pub fn number(&self, i: usize) -> Option<u8>
        requires pooled { IsPooled self.now }
        requires within { i < 4096 * length self.now.pages }
        ensures { IfSome result (λ b. pooled_cell self.now i ≡ Num b) }
    {
        match self.pages[i / PAGE] {
            Page::Numbers(n) => Some(byte_in_numbers(&self.numbers, n, i % PAGE)),
            Page::Cells(n) => byte_in_cells(&self.cells, n, i % PAGE),
        }
    }

    /// The two numbers from an index on that lie in one page, if both are numbers.
    #[inline(always)]
    pub fn pair(&self, i: usize) -> Option<(u8, u8)>
        requires pooled { IsPooled self.now }
        requires within { i < 4096 * length self.now.pages }
        requires page { i % 4096 + 2 ≤ 4096 }
        ensures low { IfSome result (λ b. pooled_cell self.now i ≡ Num b.0) }
        ensures high { IfSome result (λ b. pooled_cell self.now (i + 1) ≡ Num b.1) }
    {
        match self.pages[i / PAGE] {
            Page::Numbers(n) => Some(pair_in_numbers(&self.numbers, n, i % PAGE)),
            Page::Cells(n) => pair_in_cells(&self.cells, n, i % PAGE),
        }
    }

    /// The number that the four cells from an index on are, which lie in one page, if all are numbers.
    #[inline(always)]
    pub fn number_word(&self, i: usize) -> Option<u32>
        requires pooled { IsPooled self.now }
        requires within { i < 4096 * length self.now.pages }
        requires page { i % 4096 + 4 ≤ 4096 }
        ensures { IfSome result (λ n. number_word n ≡ pooled_word self.now i) }
    {
        match self.pages[i / PAGE] {
            Page::Numbers(n) => Some(number_in_numbers(&self.numbers, n, i % PAGE)),
            Page::Cells(n) => number_in_cells(&self.cells, n, i % PAGE),
        }
    }

    /// The word of the four cells from an index on, which lie in one page.
    #[inline(always)]
    pub fn word(&self, i: usize) -> SymWord
        requires pooled { IsPooled self.now }
        requires within { i < 4096 * length self.now.pages }
        requires page { i % 4096 + 4 ≤ 4096 }
        ensures { result ≡ pooled_word self.now i }
    {
        match self.pages[i / PAGE] {
            Page::Numbers(n) => word_in_numbers(&self.numbers, n, i % PAGE),
            Page::Cells(n) => word_in_cells(&self.cells, n, i % PAGE),
        }
    }

    /// Writes numbers from an index on that lie in one page.
    #[inline(always)]
    pub fn write_numbers(&mut self, at: usize, numbers: &[u8])
        requires pooled { IsPooled self.old }
        requires within { at < 4096 * length self.old.pages }
        requires page { at % 4096 + length numbers.now ≤ 4096 }
        ensures { IsMade (written at (length (map Num numbers.now)) (λ i. slice_index_or
            (map Num numbers.now) i Undef)) self.old self.new }
    {
        match self.own(at / PAGE) {
            Page::Numbers(n) => write_bytes(
                self.numbers.as_mut_slice(),
                PAGE * n + at % PAGE,
                numbers,
            ),
            Page::Cells(n) => write_up(self.cells.as_mut_slice(), PAGE * n + at % PAGE, numbers),
        }
    }

    /// Writes cells from an index on that lie in one page.
    #[inline(always)]
    pub fn write_cells(&mut self, at: usize, cells: &[SymByte])
        requires pooled { IsPooled self.old }
        requires within { at < 4096 * length self.old.pages }
        requires page { at % 4096 + length cells.now ≤ 4096 }
        ensures { IsMade (written at (length cells.now) (λ i. slice_index_or cells.now i Undef)) self.old self.new }
    {
        let n = self.own_cells(at / PAGE);
        copy_up(self.cells.as_mut_slice(), PAGE * n + at % PAGE, cells);
    }

    /// Makes the cells from an index up to another one undefined.
    #[inline(never)]
    pub fn clear(&mut self, from: usize, to: usize)
        requires pooled { IsPooled self.old }
        requires order { from ≤ to }
        requires within { to ≤ 4096 * length self.old.pages }
        ensures { IsMade (written from (to - from) (λ _. Undef)) self.old self.new }
    {
        let mut at = from;
        while at < to {
            let end = to.min(at - at % PAGE + PAGE);
            self.clear_page(at, end - at);
            at = end;
        }
    }

    // Makes `count` cells from an index on undefined, which lie in one page.
    fn clear_page(&mut self, at: usize, count: usize)
        requires pooled { IsPooled self.old }
        requires within { at < 4096 * length self.old.pages }
        requires page { at % 4096 + count ≤ 4096 }
        ensures { IsMade (written at count (λ _. Undef)) self.old self.new }
    {
        if !self.is_undefined(at / PAGE) {
            let n = self.own_cells(at / PAGE);
            fill_up(self.cells.as_mut_slice(), PAGE * n + at % PAGE, count);
        }
    }

    // Whether a page was never written, and is undefined.
    #[inline(always)]
    fn is_undefined(&self, number: usize) -> bool
        requires { number < length self.now.pages }
        ensures { OnTrue result (page_of self.now number ≡ page.Cells 0) }
    {
        matches!(self.pages[number], Page::Cells(0))
    }

    // The page that holds this one alone.
    #[inline(always)]
    fn own(&mut self, number: usize) -> Page
        requires pooled { IsPooled self.old }
        requires within { number < length self.old.pages }
        ensures same { IsSame self.old self.new }
        ensures page { page_of self.new number ≡ result }
        ensures own { 0 < number_in_pool result }
    {
        match self.pages[number] {
            Page::Numbers(0) => Page::Numbers(self.take_numbers(number)),
            Page::Cells(0) => Page::Cells(self.take_cells(number)),
            page => page,
        }
    }

    // The page of any cells that holds this one alone.
    #[inline(always)]
    fn own_cells(&mut self, number: usize) -> usize
        requires pooled { IsPooled self.old }
        requires within { number < length self.old.pages }
        ensures same { IsSame self.old self.new }
        ensures page { page_of self.new number ≡ page.Cells result }
        ensures own { 0 < result }
    {
        match self.pages[number] {
            Page::Numbers(m) => self.copy_numbers(number, m),
            Page::Cells(0) => self.take_cells(number),
            Page::Cells(n) => n,
        }
    }

    // Gives a page of zeros that was never written a page of numbers of its own.
    #[cold]
    #[inline(never)]
    fn take_numbers(&mut self, number: usize) -> usize
        requires pooled { IsPooled self.old }
        requires within { number < length self.old.pages }
        requires none { page_of self.old number ≡ page.Numbers 0 }
        ensures same { IsSame self.old self.new }
        ensures page { page_of self.new number ≡ page.Numbers result }
        ensures own { 0 < result }
    {
        let len = self.numbers.len();
        let n = len / PAGE;
        self.numbers.resize(len + PAGE, 0).unwrap();
        self.pages[number] = Page::Numbers(n);
        n
    }

    // Gives an undefined page that was never written a page of any cells of its own.
    #[cold]
    #[inline(never)]
    fn take_cells(&mut self, number: usize) -> usize
        requires pooled { IsPooled self.old }
        requires within { number < length self.old.pages }
        requires none { page_of self.old number ≡ page.Cells 0 }
        ensures same { IsSame self.old self.new }
        ensures page { page_of self.new number ≡ page.Cells result }
        ensures own { 0 < result }
    {
        let len = self.cells.len();
        let n = len / PAGE;
        self.cells.resize(len + PAGE, SymByte::Undef).unwrap();
        self.pages[number] = Page::Cells(n);
        n
    }

    // Moves a page from a page of numbers to one of any cells of its own.
    #[cold]
    #[inline(never)]
    fn copy_numbers(&mut self, number: usize, m: usize) -> usize
        requires pooled { IsPooled self.old }
        requires within { number < length self.old.pages }
        requires from { page_of self.old number ≡ page.Numbers m }
        ensures same { IsSame self.old self.new }
        ensures page { page_of self.new number ≡ page.Cells result }
        ensures own { 0 < result }
    {
        let n = self.cells.len() / PAGE;
        for k in 0..PAGE {
            let byte = self.numbers[PAGE * m + k];
            self.cells.push(SymByte::Num(byte)).unwrap();
        }
        self.pages[number] = Page::Cells(n);
        n
    }
}

// The number that a cell is, if it is one.
#[inline(always)]
fn number_of(cell: &SymByte) -> Option<u8>
    ensures { IfSome result (λ b. cell.now ≡ Num b) }
{
    match cell {
        SymByte::Num(b) => Some(*b),
        SymByte::Part(_, _) | SymByte::Undef => None,
    }
}

// The numbers that two cells are, if both are numbers.
#[inline(always)]
fn pair_of(low: &SymByte, high: &SymByte) -> Option<(u8, u8)>
    ensures low { IfSome result (λ b. low.now ≡ Num b.0) }
    ensures high { IfSome result (λ b. high.now ≡ Num b.1) }
{
    match (low, high) {
        (SymByte::Num(a), SymByte::Num(b)) => Some((*a, *b)),
        _ => None,
    }
}

// The number that four cells are, the lowest first, if all are numbers.
#[inline(always)]
fn word_of(b0: &SymByte, b1: &SymByte, b2: &SymByte, b3: &SymByte) -> Option<u32>
    ensures { IfSome result (λ n. number_word n ≡ record { b0 = b0.now; b1 = b1.now; b2 = b2.now; b3 = b3.now }) }
{
    match (b0, b1, b2, b3) {
        (SymByte::Num(a), SymByte::Num(b), SymByte::Num(c), SymByte::Num(d)) => {
            Some(u32::from_le_bytes([*a, *b, *c, *d]))
        }
        _ => None,
    }
}

// What is read at an offset of a page in a pool. The pools' vectors are lent, since bounds are proved faster of one alone.

// The number at an offset of a page of numbers.
#[inline(always)]
fn byte_in_numbers(numbers: &Vec<u8>, page: usize, offset: usize) -> u8
    requires { 4096 * page + offset + 1 ≤ length numbers.now.items }
    ensures { result ≡ slice_index numbers.now.items (4096 * page + offset) }
{
    numbers[PAGE * page + offset]
}

// The cell at an offset of a page of cells.
#[inline(always)]
fn cell_in_cells(cells: &Vec<SymByte>, page: usize, offset: usize) -> SymByte
    requires { 4096 * page + offset + 1 ≤ length cells.now.items }
    ensures { result ≡ slice_index_or cells.now.items (4096 * page + offset) Undef }
{
    cells[PAGE * page + offset]
}

// The number that the cell at an offset is, if it is one.
#[inline(always)]
fn byte_in_cells(cells: &Vec<SymByte>, page: usize, offset: usize) -> Option<u8>
    requires { 4096 * page + offset + 1 ≤ length cells.now.items }
    ensures { IfSome result (λ b. slice_index_or cells.now.items (4096 * page + offset) Undef ≡ Num b) }
{
    number_of(&cells[PAGE * page + offset])
}

// The two numbers from an offset on.
#[inline(always)]
fn pair_in_numbers(numbers: &Vec<u8>, page: usize, offset: usize) -> (u8, u8)
    requires { 4096 * page + offset + 2 ≤ length numbers.now.items }
    ensures low { result.0 ≡ slice_index numbers.now.items (4096 * page + offset) }
    ensures high { result.1 ≡ slice_index numbers.now.items (4096 * page + offset + 1) }
{
    let x = PAGE * page + offset;
    (numbers[x], numbers[x + 1])
}

// The numbers that the two cells from an offset on are, if both are numbers.
#[inline(always)]
fn pair_in_cells(cells: &Vec<SymByte>, page: usize, offset: usize) -> Option<(u8, u8)>
    requires { 4096 * page + offset + 2 ≤ length cells.now.items }
    ensures low { IfSome result (λ b. slice_index_or cells.now.items (4096 * page + offset) Undef ≡ Num b.0) }
    ensures high { IfSome result (λ b. slice_index_or cells.now.items (4096 * page + offset + 1) Undef ≡ Num b.1) }
{
    let x = PAGE * page + offset;
    pair_of(&cells[x], &cells[x + 1])
}

// The word of the four numbers from an offset on.
#[inline(always)]
fn word_in_numbers(numbers: &Vec<u8>, page: usize, offset: usize) -> SymWord
    requires { 4096 * page + offset + 4 ≤ length numbers.now.items }
    ensures { result ≡ bytes_in numbers.now.items (4096 * page + offset) }
{
    let x = PAGE * page + offset;
    SymWord {
        b0: SymByte::Num(numbers[x]),
        b1: SymByte::Num(numbers[x + 1]),
        b2: SymByte::Num(numbers[x + 2]),
        b3: SymByte::Num(numbers[x + 3]),
    }
}

// The word of the four cells from an offset on.
#[inline(always)]
fn word_in_cells(cells: &Vec<SymByte>, page: usize, offset: usize) -> SymWord
    requires { 4096 * page + offset + 4 ≤ length cells.now.items }
    ensures { result ≡ cell_word cells.now.items (4096 * page + offset) }
{
    let x = PAGE * page + offset;
    SymWord {
        b0: cells[x],
        b1: cells[x + 1],
        b2: cells[x + 2],
        b3: cells[x + 3],
    }
}

// The number that the four numbers from an offset on are, the lowest first.
#[inline(always)]
fn number_in_numbers(numbers: &Vec<u8>, page: usize, offset: usize) -> u32
    requires { 4096 * page + offset + 4 ≤ length numbers.now.items }
    ensures { number_word result ≡ bytes_in numbers.now.items (4096 * page + offset) }
{
    let x = PAGE * page + offset;
    u32::from_le_bytes([numbers[x], numbers[x + 1], numbers[x + 2], numbers[x + 3]])
}

// The number that the four cells from an offset on are, if all are numbers.
#[inline(always)]
fn number_in_cells(cells: &Vec<SymByte>, page: usize, offset: usize) -> Option<u32>
    requires { 4096 * page + offset + 4 ≤ length cells.now.items }
    ensures { IfSome result (λ n. number_word n ≡ cell_word cells.now.items (4096 * page + offset)) }
{
    let x = PAGE * page + offset;
    word_of(&cells[x], &cells[x + 1], &cells[x + 2], &cells[x + 3])
}
