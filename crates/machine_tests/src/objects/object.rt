// An object with code, data and relocations.

use crate::row::bytes_of;
use std::alloc::Global;
use std::test::Fail;
use zc_base::fields::put_u32;

// The object's header. All words in this file are hexadecimal.
const HEADER: &str = "
464C457F 00010101 00000000 00000000
00F30001 00000001 00000000 00000000
00000130 00000000 00000034 00280000
00050008";

// Eight bytes of data. Symbols: 1 is the code's first byte, 2 the data's, 3 the code's second word, 4 `_start`, which is the
// code's first byte, and 5 is weak, and not defined. The strings of these names.
const DATA: &str = "
84030201 08070605
00000000 00000000 00000000 00000000
00000000 00000000 00000000 00010000
00000000 00000000 00000000 00020000
00000000 00000004 00000000 00010000
00000001 00000000 00000000 00010010
00000008 00000000 00000000 00000020
74735F00 00747261 00000077";

// Sections without names: 1 is code of 16 words, 2 the data, and 3 eight zeros; 4 the symbols, 5 their names, and 6 and 7 the
// relocations of code and of data.
const SECTIONS: &str = "
00000000 00000000 00000000 00000000 00000000 00000000 00000000 00000000 00000000 00000000
00000000 00000001 00000006 00000000 00000034 00000040 00000000 00000000 00000004 00000000
00000000 00000001 00000003 00000000 00000074 00000008 00000000 00000000 00000004 00000000
00000000 00000008 00000003 00000000 0000007C 00000008 00000000 00000000 00000004 00000000
00000000 00000002 00000000 00000000 0000007C 00000060 00000005 00000004 00000004 00000010
00000000 00000003 00000000 00000000 000000DC 0000000A 00000000 00000000 00000001 00000000
00000000 00000004 00000000 00000000 000000E8 00000030 00000004 00000001 00000004 0000000C
00000000 00000004 00000000 00000000 00000118 00000018 00000004 00000002 00000004 0000000C";

/// The object with this code, up to four relocations of code, and up to two relocations of data. A relocation of zeros
/// does nothing.
pub fn object_of(
    alloc: Global,
    code: &str,
    relocs: &str,
    data_relocs: &str,
) -> Result<Vec<u8>, Fail> {
    let mut object = bytes_of(alloc, HEADER)?;
    add(alloc, &mut object, code, 116)?;
    add(alloc, &mut object, DATA, 232)?;
    add(alloc, &mut object, relocs, 280)?;
    add(alloc, &mut object, data_relocs, 304)?;
    add(alloc, &mut object, SECTIONS, 624)?;
    Ok(object)
}

/// Adds the bytes of a text, and zeros up to an offset.
pub fn add(alloc: Global, object: &mut Vec<u8>, text: &str, end: usize) -> Result<(), Fail> {
    object.extend_from_slice(bytes_of(alloc, text)?.as_slice())?;
    object.resize(end, 0)?;
    Ok(())
}

/// Makes an object compressed: RVC is the only one of its flags (RISC-V ELF psABI, "File Header").
pub fn set_rvc(object: &mut [u8]) -> Result<(), Fail> {
    if object.len() < 40 {
        return Err("no flags".into());
    }
    put_u32(object, 36, 1);
    Ok(())
}
