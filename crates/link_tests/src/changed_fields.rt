// A small object that is cut short, or has one field changed, and the number of its fault. Expected faults are
// worked out by the System V gABI.

use crate::objects::bytes_of;
use block_cut::cut_code::cut;
use psabi_sym::link_fault::LinkFault;
use psabi_sym::objects::Objects;
use std::alloc::Global;
use std::test::Fail;
use zc_base::fields::{put_u16, put_u32};
use zc_base::link_options::LinkOptions;
use zc_base::mem_map::MemMap;

// `li a0,3`, `li a7,93` and `ecall`, at 52; two symbols, at 64 and 80, of which the second is `_start`; its name,
// in a table at 96; the names of the sections, at 104; and the headers: none at 140, `.text` at 180, `.symtab` at
// 220, `.strtab` at 260 and `.shstrtab` at 300.
const OBJECT: &str = "
7f454c46 01010100 00000000 00000000 0100f300 01000000 00000000 00000000 8c000000 00000000 34000000
00002800 05000400 13053000 9308d005 73000000 00000000 00000000 00000000 00000000 01000000 00000000
00000000 10000100 005f7374 61727400 002e7465 7874002e 73796d74 6162002e 73747274 6162002e 73687374
72746162 00000000 00000000 00000000 00000000 00000000 00000000 00000000 00000000 00000000 00000000
00000000 01000000 01000000 06000000 00000000 34000000 0c000000 00000000 00000000 04000000 00000000
07000000 02000000 00000000 00000000 40000000 20000000 03000000 01000000 04000000 10000000 0f000000
03000000 00000000 00000000 60000000 08000000 00000000 00000000 01000000 00000000 17000000 03000000
00000000 00000000 68000000 21000000 00000000 00000000 01000000 00000000
";

// How many bytes the object has.
const OBJECT_SIZE: usize = 340;

// Each row: how many bytes are left, or the width of a field, its place and its new value; the number of the fault;
// and what it is.
const ROWS: &str = "
first 340 = 0 | the object as it is
first 51 = 1 | a header that is cut off
u16 at 46 is 39 = 1 | section headers of 39 bytes
u32 at 32 is 0xfffffff0 = 2 | section headers far out
u32 at 196 is 0xfffffffc = 2 | code whose end would wrap
first 339 = 2 | section headers that are cut off
u32 at 36 is 0x11 = 0 | compressed code, and total store order
u32 at 36 is 3 = 3 | compressed code that passes floating-point numbers in registers
u32 at 36 is 0x20 = 3 | an unknown flag
u16 at 48 is 0 = 4 | section headers, but no sections
u32 at 184 is 8 = 4 | code of zeros
u32 at 188 is 7 = 4 | code that can be written
u32 at 188 is 0x806 = 4 | a section that is compressed
u32 at 240 is 31 = 4 | a part of a symbol
u32 at 212 is 3 = 5 | code aligned to 3
u32 at 212 is 512 = 5 | code aligned to 512
u32 at 200 is 10 = 6 | a part of a word of code
u8 at 136 is 0x78 = 7 | a last name of sections without its zero
u32 at 80 is 8 = 7 | a symbol's name past its table
u32 at 264 is 1 = 7 | names of symbols in no table of names
u16 at 94 is 0xffff = 8 | a symbol in a section that isn't there
u32 at 84 is 13 = 8 | a symbol past the code
u32 at 84 is 0xffffffff = 8 | a symbol far out
u8 at 92 is 0x30 = 8 | a symbol with an unknown binding
u32 at 84 is 12 = 16 | a start at the end of the code
u32 at 84 is 2 = 16 | a start within a word
u32 at 276 is 104 = 16 | tables of names that overlap, where the start is called `.text`
u16 at 48 is 4097 = 17 | more sections than are read
";

// A number, in hexadecimal digits after `0x`.
fn number_of(text: &str) -> Result<u32, Fail> {
    match text.strip_prefix("0x") {
        Some(digits) => Ok(u32::from_str_radix(digits, 16)?),
        None => Ok(text.parse::<u32>()?),
    }
}

// Writes a field of this width.
fn write_field(file: &mut [u8], width: &str, at: usize, value: u32) -> Result<(), Fail> {
    let length = file.len();
    if at >= length || length - at < 4 {
        return Err("no field".into());
    }
    match width {
        "u8" => file[at] = u8::try_from(value)?,
        "u16" => put_u16(file, at, u16::try_from(value)?),
        "u32" => put_u32(file, at, value),
        _ => return Err("no width".into()),
    }
    Ok(())
}

// The object after the change of a row.
fn changed(alloc: Global, change: &str) -> Result<Vec<u8>, Fail> {
    let mut file = bytes_of(alloc, OBJECT)?;
    if let Some(length) = change.strip_prefix("first ") {
        file.truncate(length.parse::<usize>()?);
        return Ok(file);
    }
    let (field, value) = change.split_once(" is ").ok_or("no value")?;
    let (width, at) = field.split_once(" at ").ok_or("no field")?;
    write_field(&mut file, width, at.parse::<usize>()?, number_of(value)?)?;
    Ok(file)
}

// The number of the fault of an object by itself, or 0.
fn fault_of(alloc: Global, file: Vec<u8>) -> Result<u32, Fail> {
    let mut files = Vec::new(alloc);
    files.push(file)?;
    let options = LinkOptions::of_map(alloc, MemMap::standard());
    let whole = match Objects::gather(alloc, &files, &options) {
        Ok(objects) => cut(alloc, objects),
        Err(fault) => Err(fault),
    };
    match whole {
        Ok(_) => Ok(0),
        Err(LinkFault::Object { fault, .. }) => Ok(fault.number()),
        Err(LinkFault::OutOfMemory) => Err("no memory".into()),
    }
}

#[test]
fn a_changed_field_has_its_fault(rt: HostRuntime) -> Result<(), Fail> {
    assert_eq!(rt; bytes_of(rt.alloc(), OBJECT)?.len(), OBJECT_SIZE);
    for row in ROWS.trim().lines() {
        let (cells, _what) = row.split_once(" | ").ok_or("no words")?;
        let (change, wanted) = cells.split_once(" = ").ok_or("no fault")?;
        let found = fault_of(rt.alloc(), changed(rt.alloc(), change)?)?;
        assert_eq!(rt; found, number_of(wanted)?, "{row}");
    }
    Ok(())
}
