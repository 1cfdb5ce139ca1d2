// Look-ups in constant time.

ghost use Rattle.std.specs.Prelude.{◌≡◌, pos, ◌+ℤ◌};
ghost use Rattle.psabi_sym.specs.Places.{place_in};
ghost use Rattle.psabi_sym.specs.Resolve.{code_target, number_target, offset_within, undefined_target};
ghost use Rattle.elf32_read.specs.Parts.{SectionParts, SymbolParts};

use crate::symbol_row::SymbolRow;
use crate::target::Target;
use elf32_read::symbol::WEAK;
use zc_base::place::Place;

/// The place among all of what an object has at an index, by where each object's begin, with the end
/// of all at last; none if there is no such object or index.
pub fn place(starts: &[u32], object: u16, index: u32) -> Option<usize>
    ensures { result ≡ place_in starts.now object index }
{
    let o = object as usize;
    if starts.len() <= o + 1 {
        return None;
    }
    let at = starts[o] as usize + index as usize;
    if at < starts[o + 1] as usize {
        return Some(at);
    }
    None
}

/// A number and an addend, modulo 2^32.
pub fn number_target(n: u32, addend: i32) -> Target
    ensures { result ≡ number_target n addend }
{
    Target::Number(n.wrapping_add(addend.cast_unsigned()))
}

/// An offset and an addend, if they stay in a section of this size or at its end.
pub fn offset_within(size: u32, value: u32, addend: i32) -> Option<u32>
    ensures { result ≡ offset_within size (pos value +ℤ addend) }
{
    let offset = i64::from(value) + i64::from(addend);
    if offset < 0 || i64::from(size) < offset {
        return None;
    }
    Some(offset as u32)
}

/// Where a symbol leads whose name stands for nothing.
pub fn undefined(bind: u8, addend: i32) -> Target
    ensures { (s : SymbolParts) → s.bind ≡ bind → result ≡ undefined_target s addend }
{
    if bind == WEAK {
        return Target::Absent(addend.cast_unsigned());
    }
    Target::Nowhere
}

/// A place in a section of code of this size, or at its end, by a symbol's place and an addend.
pub fn code_target(row: &SymbolRow, size: u32, addend: i32) -> Target
    ensures { (section : SectionParts) → section.size ≡ size
        → result ≡ code_target row.now.object row.now.home section (pos row.now.value +ℤ addend) }
{
    match offset_within(size, row.value, addend) {
        None => Target::Nowhere,
        Some(offset) => Target::Code(Place {
            object: row.object,
            section: row.home,
            offset,
        }),
    }
}
