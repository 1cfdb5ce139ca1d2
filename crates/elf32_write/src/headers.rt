// The file's header and the program headers of an image.

ghost use Rattle.std.specs.Prelude.{◌≡◌, ◌++◌, OnOk};
ghost use Rattle.elf32_write.specs.Image.{data_segment, file_header, program_headers, section_headers, segment_bytes, text_segment, NumbersFit};
ghost use Rattle.elf32_write.specs.Offsets.{AreOffsetsOf};

use crate::fields::{push_halves, push_words};
use crate::image_parts::ImageParts;
use crate::offsets::{Offsets, TEXT_OFFSET};
use crate::section_header::{
    NULL, bss_header, data_header, names_header, places_header, push_headers, text_header,
};
use elf32_read::header::{EXECUTABLE, RISC_V};
use std::alloc::AllocError;

/// How the file begins, e_ident.
pub const IDENTIFICATION: [u8; 16] = [0x7F, b'E', b'L', b'F', 1, 1, 1, 0, 0, 0, 0, 0, 0, 0, 0, 0];

const READ_EXECUTE: u32 = 5;

const READ_WRITE: u32 = 6;

/// Appends the file's header.
pub fn push_file_header(
    out: &mut Vec<u8>,
    parts: &ImageParts,
    offsets: &Offsets,
) -> Result<(), AllocError>
    requires { AreOffsetsOf parts.now offsets.now }
    ensures { OnOk result (out.new.items ≡ out.old.items ++ file_header parts.now) }
{
    out.extend_from_slice(&IDENTIFICATION)?;
    push_halves(out, &[EXECUTABLE, RISC_V])?;
    push_words(out, &[1, parts.entry, 52, offsets.sections, parts.flags])?;
    push_halves(out, &[52, 32, 2, 40, 6, 5])
}

// Appends the program header of the text.
fn push_text_segment(out: &mut Vec<u8>, parts: &ImageParts) -> Result<(), AllocError>
    requires { NumbersFit parts.now }
    ensures { OnOk result
        (out.new.items ≡ out.old.items ++ segment_bytes (text_segment parts.now)) }
{
    let at = parts.text_at;
    let size = parts.text.len() as u32;
    push_words(out, &[1, TEXT_OFFSET, at, at, size, size, READ_EXECUTE, 4])
}

// Appends the program header of the data.
fn push_data_segment(
    out: &mut Vec<u8>,
    parts: &ImageParts,
    offsets: &Offsets,
) -> Result<(), AllocError>
    requires fits { NumbersFit parts.now }
    requires offsets { AreOffsetsOf parts.now offsets.now }
    ensures { OnOk result
        (out.new.items ≡ out.old.items ++ segment_bytes (data_segment parts.now)) }
{
    let at = parts.data_at;
    let size = parts.data_bytes.len() as u32;
    push_words(
        out,
        &[
            1,
            offsets.data,
            at,
            at,
            size,
            size + parts.zero,
            READ_WRITE,
            4,
        ],
    )
}

/// Appends the program headers.
#[tactic(auto, unfolding(crate::specs::Image::program_headers))]
pub fn push_program_headers(
    out: &mut Vec<u8>,
    parts: &ImageParts,
    offsets: &Offsets,
) -> Result<(), AllocError>
    requires fits { NumbersFit parts.now }
    requires offsets { AreOffsetsOf parts.now offsets.now }
    ensures { OnOk result (out.new.items ≡ out.old.items ++ program_headers parts.now) }
{
    push_text_segment(out, parts)?;
    push_data_segment(out, parts, offsets)
}

/// Appends the section headers.
pub fn push_section_headers(
    out: &mut Vec<u8>,
    parts: &ImageParts,
    offsets: &Offsets,
) -> Result<(), AllocError>
    requires fits { NumbersFit parts.now }
    requires offsets { AreOffsetsOf parts.now offsets.now }
    ensures { OnOk result (out.new.items ≡ out.old.items ++ section_headers parts.now) }
{
    let sections = [
        NULL,
        text_header(parts),
        data_header(parts, offsets),
        bss_header(parts, offsets),
        places_header(parts, offsets),
        names_header(parts, offsets),
    ];
    push_headers(out, &sections)
}
