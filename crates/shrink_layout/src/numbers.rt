// The numbers of places: how many pieces come before them.

ghost use Rattle.std.specs.Prelude.{◌≡◌, ◌<◌, ◌+◌, ◌^◌, None, IfOk, length, slice_index};
ghost use Rattle.psabi_sym.specs.Faults.{gather_fault};
ghost use Rattle.psabi_sym.specs.Inputs.{parsed};
ghost use Rattle.shrink_layout.specs.Invariants.Numbers.{AreFirstNumbers};
ghost use Rattle.shrink_layout.specs.Pieces.{piece_number_at};

use block_cut::cut::Cut;
use block_cut::place_number::PlaceNumber;
use std::alloc::{AllocError, Global};
use zc_base::place::Place;

/// The number of the first place of each section, by the section's number among all.
pub fn first_numbers(alloc: Global, cut: &Cut) -> Result<Vec<u32>, AllocError>
    ensures gathered { gather_fault cut.now ≡ None }
    ensures starts { IfOk result (λ starts. AreFirstNumbers (parsed cut.now).objects starts.items) }
{
    let sections = cut.objects().section_count();
    let mut starts = Vec::with_capacity(alloc, sections as usize)?;
    let mut count = 0;
    for section in 0..sections {
        starts.push(1 + count + 1)?;
        count += cut.places(section).len() as u32;
    }
    Ok(starts)
}

/// The number of a place by where the place stands among all.
pub fn piece_number(starts: &[u32], number: PlaceNumber) -> u32
    requires section { number.section < length starts.now }
    requires room { slice_index starts.now number.section + number.index < 2 ^ 32 }
    ensures { result ≡ slice_index starts.now number.section + number.index }
{
    starts[number.section as usize] + number.index
}

/// The number of a place where an item starts or a section of code ends; 0 for any other place.
pub fn piece_number_at(cut: &Cut, starts: &[u32], p: Place) -> u32
    requires faultless { gather_fault cut.now ≡ None }
    requires starts { AreFirstNumbers (parsed cut.now).objects starts.now }
    ensures { result ≡ piece_number_at (parsed cut.now).objects p }
{
    match cut.number(p) {
        None => 0,
        Some(number) => piece_number(starts, number),
    }
}
