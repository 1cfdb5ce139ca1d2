// The parts of the image of a layout: its text, its data, and what the file says of both.

ghost use Rattle.std.specs.Prelude.{◌≡◌, ◌+◌, ◌-◌, ◌<◌, ◌≤◌, ◌^◌, IfOk, length, slice_index, ℕ};
ghost use Rattle.elf32_write.specs.Image.{NumbersFit, image_bytes};
ghost use Rattle.zc_base.specs.MemMap.{data_limit};
ghost use Rattle.psabi_sym.specs.Data.{data_end, data_file_end};
ghost use Rattle.psabi_sym.specs.Inputs.{parsed};
ghost use Rattle.zc_link.specs.ImageParts.{image_data};
ghost use Rattle.zc_link.specs.LaidOut.{text_end};
ghost use Rattle.zc_link.specs.Links.{IsImageOf};
ghost use Rattle.zc_link.specs.Standing.{IsReady};

use crate::item::target_value;
use crate::layout::Layout;
use crate::text::Text;
use elf32_write::image_parts::ImageParts;
use psabi_sym::objects::Objects;
use std::alloc::{AllocError, Global};
use zc_base::fields::put_u32;

/// The parts of the image of a layout, with these e_flags (RISC-V ELF psABI, "File Header"). It takes time near-linear
/// in the code, the data and the places. The layout can be let go before the file is made of them.
pub fn image_parts<L: Layout>(
    alloc: Global,
    layout: &L,
    flags: u32,
) -> Result<ImageParts, AllocError>
    requires { flags ≤ 1 }
    ensures ready { IfOk result (λ _. IsReady (L.layout layout.now).inputs) }
    ensures fit { IfOk result NumbersFit }
    ensures image { IfOk result
        (λ parts. IsImageOf (L.layout layout.now) flags (text_end (L.layout layout.now)) (image_bytes parts)) }
{
    let laid = Text::lay(alloc, layout)?;
    let bytes = data_bytes(alloc, layout)?;
    let objects = layout.cut().objects();
    let map = objects.map();
    let zero = zeros_after(objects, &bytes);
    Ok(ImageParts {
        entry: layout.entry(),
        flags,
        text_at: map.text,
        text: laid.text,
        data_at: map.data_low,
        data_bytes: bytes,
        zero,
        places: laid.places,
    })
}

// The bytes of data that files hold, with each word that holds an address.
fn data_bytes<L: Layout>(alloc: Global, layout: &L) -> Result<Vec<u8>, AllocError>
    ensures { IfOk result (λ bytes. bytes.items
        ≡ image_data (parsed (L.layout layout.now).inputs) (L.layout layout.now).address) }
{
    let objects = layout.cut().objects();
    let start = objects.map().data_low;
    let mut bytes = objects.data_contents(alloc)?;
    for word in layout.cut().data_words() {
        let at = (word.at - start) as usize;
        put_u32(bytes.as_mut_slice(), at, target_value(layout, word.target));
    }
    Ok(bytes)
}

// The number of zeros after the bytes of data that the image holds.
fn zeros_after(objects: &Objects, bytes: &[u8]) -> u32
    requires { length bytes.now ≡ data_file_end (parsed objects.now) - objects.now.map.data_low }
    ensures value { result ≡ data_end (parsed objects.now) - data_file_end (parsed objects.now) }
    ensures most { data_end (parsed objects.now) ≤ objects.now.map.data_low + data_limit objects.now.map }
    ensures range { (k : ℕ) → slice_index bytes.now k < 2 ^ 8 }
{
    objects.data_end() - (objects.map().data_low + bytes.len() as u32)
}
