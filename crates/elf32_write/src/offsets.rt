// Where the parts of an image begin in its file.

ghost use Rattle.elf32_write.specs.Image.{NumbersFit};
ghost use Rattle.elf32_write.specs.Offsets.{AreOffsetsOf};

use crate::fields::padded_len;
use crate::image_parts::ImageParts;

/// Where the text begins.
pub const TEXT_OFFSET: u32 = 116;

/// The names of the sections, each ended by a zero, after the empty name.
pub const NAMES: &[u8; 41] = b"\0.text\0.data\0.bss\0.zcld.places\0.shstrtab\0";

/// Where the parts after the text begin, in bytes from the start of the file.
#[derive(Clone, Copy)]
pub struct Offsets {
    pub data: u32,
    pub places: u32,
    pub names: u32,
    pub sections: u32,
}

/// The offsets in the file of an image with these parts.
pub fn offsets_of(parts: &ImageParts) -> Offsets
    requires { NumbersFit parts.now }
    ensures { AreOffsetsOf parts.now result }
{
    let data = TEXT_OFFSET as usize + padded_len(parts.text.len());
    let places = data + padded_len(parts.data_bytes.len());
    let names = places + 12 * parts.places.len();
    let sections = names + padded_len(NAMES.len());
    Offsets {
        data: data as u32,
        places: places as u32,
        names: names as u32,
        sections: sections as u32,
    }
}
