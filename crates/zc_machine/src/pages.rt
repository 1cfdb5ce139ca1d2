// Cells in pages of 4,096 bytes. Those that were never written share one page of zeros.

ghost use Rattle.std.specs.Prelude.{◌≡◌, ℕ, ◌+◌, ◌-◌, ◌*◌, ◌%◌, ◌^◌, ◌<◌, ◌≤◌, ◌++◌, IfOk};
ghost use Rattle.std.specs.Prelude.{drop, length, min, slice_index, take, vec_capacity};
ghost use Rattle.rv_decode.specs.Memory.{blank, cells_changed, written};
ghost use Rattle.zc_machine.specs.Invariants.Pool.{IsPool, byte_of_pages};

use std::alloc::{AllocError, Global};
use std::marker::Model;

/// The size of a page.
pub const PAGE: usize = 4096;

/// Bytes in pages, of which a page takes memory from its first write on.
#[derive(Drop)]
pub struct Pages {
    // The number of bytes of the first page before the first cell, and the number of cells.
    skip: usize,
    size: usize,
    // For each page the number of the one of the pool that holds it.
    table: Vec<usize>,
    // The page of zeros, which is never written, and a page for each that was. It has room for all.
    pool: Vec<u8>,
}

impl Model for Pages {
    ghost use Rattle.std.specs.Prelude.{vec_capacity};
    ghost use Rattle.zc_machine.specs.Pages.{Paged};
    ghost use Rattle.zc_machine.specs.Invariants.Pool.{AreCellPages, pooled_bytes};

    ghost Value = { Paged };

    ghost view = { λ p. record { skip = p.skip; cells = pooled_bytes p.table.items p.pool.items p.skip p.size } };

    ghost invariant = { λ p. AreCellPages p.table.items p.pool.items (vec_capacity p.pool) p.skip p.size };
}

impl Pages {
    /// The bytes, and zeros after them up to this size, for the addresses from `at` on.
    pub fn new(alloc: Global, at: u32, bytes: &[u8], size: u32) -> Result<Pages, AllocError>
        ensures { IfOk result (λ pages. pages
            ≡ record { skip = at % 4096; cells = bytes.now ++ blank (size - length bytes.now) 0 }) }
    {
        let size = bytes.len().max(size as usize);
        let mut pages = Pages::zeros(alloc, at as usize % PAGE, size)?;
        pages.write(0, bytes);
        Ok(pages)
    }

    // `size` zeros, with `skip` bytes before them in the first page.
    fn zeros(alloc: Global, skip: usize, size: usize) -> Result<Pages, AllocError>
        requires first { skip < 4096 }
        requires few { size ≤ 2 ^ 63 }
        ensures { IfOk result (λ pages. pages ≡ record { skip = skip; cells = blank size 0 }) }
    {
        let count = (skip + size).div_ceil(PAGE);
        let mut table = Vec::new(alloc);
        table.resize(count, 0)?;
        let mut pool = Vec::with_capacity(alloc, PAGE * count + PAGE)?;
        pool.resize(PAGE, 0)?;
        Ok(Pages {
            skip,
            size,
            table,
            pool,
        })
    }

    /// The number of cells.
    #[inline(always)]
    pub fn len(&self) -> usize
        ensures { result ≡ length self.now.cells }
    {
        self.size
    }

    /// The cells from an index on, up to their end or that of the page.
    #[inline(always)]
    pub fn cells_from(&self, index: u32) -> &[u8]
        requires { index < length self.now.cells }
        ensures { result.now ≡ take (min (4096 - (self.now.skip + index) % 4096) (length self.now.cells - index))
            (drop index self.now.cells) }
    {
        let at = self.skip + index as usize;
        let start = PAGE * self.table[at / PAGE] + at % PAGE;
        let count = (PAGE - at % PAGE).min(self.size - index as usize);
        let pool = self.pool.as_slice();
        &pool[start..start + count]
    }

    /// Writes bytes from an index on.
    #[inline(always)]
    pub fn write(&mut self, index: u32, bytes: &[u8])
        requires { index + length bytes.now ≤ length self.old.cells }
        ensures { self.new ≡ record self.old {
          cells = cells_changed (written index (length bytes.now) (slice_index bytes.now)) 0 self.old.cells;
        } }
    {
        if !bytes.is_empty() && bytes.len() <= self.room(index as usize) {
            self.write_page(index as usize, bytes);
        } else {
            self.write_across(index, bytes);
        }
    }

    // The number of bytes from an index up to the end of its page.
    #[inline(always)]
    fn room(&self, index: usize) -> usize
        requires { index ≤ length self.now.cells }
        ensures { result ≡ 4096 - (self.now.skip + index) % 4096 }
    {
        PAGE - (self.skip + index) % PAGE
    }

    // Writes bytes that lie in one page.
    #[inline(always)]
    fn write_page(&mut self, index: usize, bytes: &[u8])
        requires some { 0 < length bytes.now }
        requires within { index + length bytes.now ≤ length self.old.cells }
        requires page { length bytes.now ≤ 4096 - (self.old.skip + index) % 4096 }
        ensures { self.new ≡ record self.old {
          cells = cells_changed (written index (length bytes.now) (slice_index bytes.now)) 0 self.old.cells;
        } }
    {
        let at = self.skip + index;
        write_to(self.table.as_mut_slice(), &mut self.pool, at, bytes);
    }

    // Writes bytes page by page.
    #[cold]
    #[inline(never)]
    fn write_across(&mut self, index: u32, bytes: &[u8])
        requires { index + length bytes.now ≤ length self.old.cells }
        ensures { self.new ≡ record self.old {
          cells = cells_changed (written index (length bytes.now) (slice_index bytes.now)) 0 self.old.cells;
        } }
    {
        let mut done = 0;
        while done < bytes.len() {
            let at = index as usize + done;
            let end = bytes.len().min(done + self.room(at));
            self.write_page(at, &bytes[done..end]);
            done = end;
        }
    }
}

// Writes bytes to a page, which gets one of the pool if it has none.
#[inline(always)]
fn write_to(table: &mut [usize], pool: &mut Vec<u8>, at: usize, bytes: &[u8])
    requires pool { IsPool table.old pool.old.items (vec_capacity pool.old) }
    requires within { at < 4096 * length table.old }
    requires page { at % 4096 + length bytes.now ≤ 4096 }
    ensures pool { IsPool table.new pool.new.items (vec_capacity pool.new) }
    ensures bytes { (i : ℕ) → byte_of_pages table.new pool.new.items i
        ≡ written at (length bytes.now) (slice_index bytes.now) i (byte_of_pages table.old pool.old.items i) }
{
    let page = own_page(table, pool, at / PAGE);
    write_cells(pool.as_mut_slice(), PAGE * page + at % PAGE, bytes);
}

// The page of the pool that holds the page with this number alone.
#[inline(always)]
fn own_page(table: &mut [usize], pool: &mut Vec<u8>, number: usize) -> usize
    requires pool { IsPool table.old pool.old.items (vec_capacity pool.old) }
    requires within { number < length table.old }
    ensures pool { IsPool table.new pool.new.items (vec_capacity pool.new) }
    ensures own { (0 < result) × (slice_index table.new number ≡ result) }
    ensures same { (i : ℕ) → byte_of_pages table.new pool.new.items i ≡ byte_of_pages table.old pool.old.items i }
{
    let page = table[number];
    if page == 0 {
        take_page(table, pool, number)
    } else {
        page
    }
}

// Gives a page that has none a page of zeros of its own.
#[cold]
#[inline(never)]
fn take_page(table: &mut [usize], pool: &mut Vec<u8>, number: usize) -> usize
    requires pool { IsPool table.old pool.old.items (vec_capacity pool.old) }
    requires within { number < length table.old }
    requires none { slice_index table.old number ≡ 0 }
    ensures pool { IsPool table.new pool.new.items (vec_capacity pool.new) }
    ensures own { (0 < result) × (slice_index table.new number ≡ result) }
    ensures same { (i : ℕ) → byte_of_pages table.new pool.new.items i ≡ byte_of_pages table.old pool.old.items i }
{
    let len = pool.len();
    let page = len / PAGE;
    pool.resize(len + PAGE, 0).unwrap();
    table[number] = page;
    page
}

// Writes bytes from an index on.
#[inline(always)]
fn write_cells(cells: &mut [u8], index: usize, bytes: &[u8])
    requires { index + length bytes.now ≤ length cells.old }
    ensures { cells.new ≡ cells_changed (written index (length bytes.now) (slice_index bytes.now)) 0 cells.old }
{
    cells[index..index + bytes.len()].copy_from_slice(bytes);
}
