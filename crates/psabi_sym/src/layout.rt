// Where sections of data lie.

ghost use Rattle.std.specs.Prelude.{◌≡◌, IfOk, ◌+◌, ◌^◌, ◌<◌, ◌≤◌, ℕ, Some, length, max, slice_get, slice_index, take, if◌then◌else◌};
ghost use Rattle.psabi_sym.specs.Blocks.{aligned_up, end_from, room_of_all};
ghost use Rattle.psabi_sym.specs.Data.{has_class};
ghost use Rattle.psabi_sym.specs.Invariants.Rows.{row_address, row_blocks, row_data_room, AreClassEnds, AreAddressed};
ghost use Rattle.std.specs.List.{sum_by};
ghost use Rattle.psabi_sym.specs.declared.section_row.SectionRow.{SectionRow};

use crate::data_class::DataClass;
use crate::section_row::SectionRow;
use std::alloc::{AllocError, Global};

/// What each class of data begins at a multiple of.
pub const CLASS_ALIGN: u32 = 16;

/// The address, rounded up to a multiple of the alignment, of which 0 counts as 1.
#[tactic(auto, unfolding(crate::specs::Blocks::aligned_up))]
pub fn aligned_up(align: u32, at: u32) -> u32
    requires { at + max 1 align < 2 ^ 32 }
    ensures value { result ≡ aligned_up align at }
    ensures most { result < at + max 1 align }
{
    at.next_multiple_of(align.max(1))
}

/// Places the sections of a class one after another, from an address on: where they end. The table of
/// addresses has one for each section.
#[tactic(auto, using(crate::proofs::RowLaws::fits_here))]
pub fn place_class(rows: &[SectionRow], class: DataClass, from: u32, addresses: &mut [u32]) -> u32
    requires same_length { length addresses.old ≡ length rows.now }
    requires room { from + 16 + room_of_all (row_blocks class rows.now) < 2 ^ 32 }
    ensures end { result ≡ end_from (aligned_up 16 from) (row_blocks class rows.now) }
    ensures placed { (k : ℕ) (r : SectionRow) → slice_get rows.now k ≡ Some r → slice_index addresses.new k
        ≡ (if has_class class r.role then row_address class (aligned_up 16 from) rows.now k r else slice_index addresses.old k) }
{
    let mut at = aligned_up(CLASS_ALIGN, from);
    for (k, row) in rows.iter().enumerate() {
        if row.is_of(class) {
            at = aligned_up(row.align, at);
            addresses[k] = at;
            at += row.size;
        }
    }
    at
}

/// Where classes of data begin and end: where small data begins and ends, where small zeroed data
/// begins, and where all sections end.
#[derive(Clone, Copy)]
pub struct ClassEnds {
    pub small_data: u32,
    pub file_end: u32,
    pub small_zero: u32,
    pub end: u32,
}

/// Where the sections of data lie: the address of each, and where classes begin and end.
#[derive(Drop)]
pub struct DataLayout {
    pub addresses: Vec<u32>,
    pub ends: ClassEnds,
}

/// Places all sections, class after class, from an address on. The table of addresses has one for
/// each section.
pub fn place_classes(rows: &[SectionRow], low: u32, addresses: &mut [u32]) -> ClassEnds
    requires same_length { length addresses.old ≡ length rows.now }
    requires room { low + 96 + sum_by row_data_room rows.now < 2 ^ 32 }
    ensures addresses { AreAddressed rows.now low addresses.new }
    ensures ends { AreClassEnds rows.now low result }
{
    let read_only = place_class(rows, DataClass::ReadOnly, low, addresses);
    let data = place_class(rows, DataClass::Data, read_only, addresses);
    let file_end = place_class(rows, DataClass::SmallData, data, addresses);
    let small_zero_end = place_class(rows, DataClass::SmallZero, file_end, addresses);
    let end = place_class(rows, DataClass::Zero, small_zero_end, addresses);
    ClassEnds {
        small_data: aligned_up(CLASS_ALIGN, data),
        file_end,
        small_zero: aligned_up(CLASS_ALIGN, file_end),
        end,
    }
}

/// The address of each section from an address on, and where classes begin and end.
pub fn lay_out(alloc: Global, rows: &[SectionRow], low: u32) -> Result<DataLayout, AllocError>
    requires { low + 96 + sum_by row_data_room rows.now < 2 ^ 32 }
    ensures addresses { IfOk result (λ layout. AreAddressed rows.now low layout.addresses.items) }
    ensures count { IfOk result (λ layout. length layout.addresses.items ≡ length rows.now) }
    ensures ends { IfOk result (λ layout. AreClassEnds rows.now low layout.ends) }
{
    let mut addresses = vec![in alloc; 0; rows.len()]?;
    let ends = place_classes(rows, low, &mut addresses);
    Ok(DataLayout { addresses, ends })
}
