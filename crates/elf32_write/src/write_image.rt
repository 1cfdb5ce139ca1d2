// Images.

ghost use Rattle.std.specs.Prelude.{◌≡◌, ◌++◌, IfOk, OnOk};
ghost use Rattle.std.specs.List.{flat_map};
ghost use Rattle.elf32_write.specs.Image.{image_bytes, place_bytes, NumbersFit};
ghost use Rattle.elf32_write.specs.Loadable.{IsLoadable, ReadsBack};
ghost use Rattle.zc_base.specs.declared.mem_map.MemMap.{MemMap};

use crate::fields::push_padded;
use crate::headers::{push_file_header, push_program_headers, push_section_headers};
use crate::image_parts::ImageParts;
use crate::offsets::{NAMES, offsets_of};
use std::alloc::{AllocError, Global};
use zc_base::fields::{put_u16, put_u32};
use zc_base::place::Place;

// The bytes of the section headers.
const SECTION_HEADERS_SIZE: usize = 6 * 40;

// Appends a place and its address.
#[tactic(auto, unfolding(zc_base::specs::Fields::with_half, zc_base::specs::Fields::with_word))]
fn push_place(out: &mut Vec<u8>, place: Place, address: u32) -> Result<(), AllocError>
    ensures { OnOk result (out.new.items ≡ out.old.items ++ place_bytes (place, address)) }
{
    let mut bytes = [0; 12];
    put_u16(&mut bytes, 0, place.object);
    put_u16(&mut bytes, 2, place.section);
    put_u32(&mut bytes, 4, place.offset);
    put_u32(&mut bytes, 8, address);
    out.extend_from_slice(&bytes)
}

// Appends places and their addresses, in order.
fn push_places(out: &mut Vec<u8>, places: &[(Place, u32)]) -> Result<(), AllocError>
    ensures { OnOk result (out.new.items ≡ out.old.items ++ flat_map place_bytes places.now) }
{
    for (place, address) in places {
        push_place(out, *place, *address)?;
    }
    Ok(())
}

/// The file of an image with these parts, in time linear in its length.
#[tactic(auto, unfolding(crate::specs::Image::image_bytes))]
pub fn write_image(alloc: Global, parts: &ImageParts) -> Result<Vec<u8>, AllocError>
    requires { NumbersFit parts.now }
    ensures bytes { IfOk result (λ file. file.items ≡ image_bytes parts.now) }
    // Under a memory map that the parts are made for.
    ensures reads_back { (memory : MemMap) → IsLoadable parts.now memory →
        IfOk result (λ file. ReadsBack parts.now memory file.items) }
{
    let offsets = offsets_of(parts);
    let mut file = Vec::with_capacity(alloc, offsets.sections as usize + SECTION_HEADERS_SIZE)?;
    push_file_header(&mut file, parts, &offsets)?;
    push_program_headers(&mut file, parts, &offsets)?;
    push_padded(&mut file, &parts.text)?;
    push_padded(&mut file, &parts.data_bytes)?;
    push_places(&mut file, &parts.places)?;
    push_padded(&mut file, NAMES)?;
    push_section_headers(&mut file, parts, &offsets)?;
    Ok(file)
}
