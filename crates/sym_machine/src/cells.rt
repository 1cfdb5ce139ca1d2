// Cells, bytes and flags, written from an index up.

ghost use Rattle.std.specs.Prelude.{◌≡◌, ◌≤◌, ◌<◌, ◌+◌, ℕ, Bool, false, length, map, slice_index_or};
ghost use Rattle.rv_decode.specs.Memory.{written};
ghost use Rattle.sym_machine.specs.Pages.{AreBytesWritten, AreCellsWritten};
ghost use Rattle.sym_machine.specs.declared.word.SymByte.{SymByte};
ghost use Rattle.sym_machine.specs.declared.word.SymByte.TheVariants.{Num, Undef};

use crate::word::SymByte;

/// Writes bytes over others from an index up.
#[inline(always)]
pub fn write_bytes(held: &mut [u8], start: usize, bytes: &[u8])
    requires { start + length bytes.now ≤ length held.old }
    ensures len { length held.new ≡ length held.old }
    ensures each { AreBytesWritten start bytes.now held.old held.new }
{
    for k in 0..bytes.len() {
        held[start + k] = bytes[k];
    }
}

/// Writes numbers to cells from an index up.
#[inline(always)]
pub fn write_up(cells: &mut [SymByte], start: usize, numbers: &[u8])
    requires { start + length numbers.now ≤ length cells.old }
    ensures len { length cells.new ≡ length cells.old }
    ensures each { AreCellsWritten start (map Num numbers.now) cells.old cells.new }
{
    for k in 0..numbers.len() {
        cells[start + k] = SymByte::Num(numbers[k]);
    }
}

/// Writes cells over others from an index up.
#[inline(always)]
pub fn copy_up(cells: &mut [SymByte], start: usize, given: &[SymByte])
    requires { start + length given.now ≤ length cells.old }
    ensures len { length cells.new ≡ length cells.old }
    ensures each { AreCellsWritten start given.now cells.old cells.new }
{
    for k in 0..given.len() {
        cells[start + k] = given[k];
    }
}

/// Makes `count` cells from an index on undefined.
pub fn fill_up(cells: &mut [SymByte], start: usize, count: usize)
    requires { start + count ≤ length cells.old }
    ensures len { length cells.new ≡ length cells.old }
    ensures each { (j : ℕ) (d : SymByte) → j < length cells.old
        → slice_index_or cells.new j d ≡ written start count (λ _. Undef) j (slice_index_or cells.old j d) }
{
    for k in 0..count {
        cells[start + k] = SymByte::Undef;
    }
}

/// Makes `count` flags from an index on false.
pub fn end_up(live: &mut [bool], start: usize, count: usize)
    requires { start + count ≤ length live.old }
    ensures len { length live.new ≡ length live.old }
    ensures each { (j : ℕ) (d : Bool) → j < length live.old
        → slice_index_or live.new j d ≡ written start count (λ _. false) j (slice_index_or live.old j d) }
{
    for k in 0..count {
        live[start + k] = false;
    }
}
