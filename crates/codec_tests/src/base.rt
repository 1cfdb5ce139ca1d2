// Fields of bytes, the memory map, and the order of places.

use crate::rows::{cut, expect, word};
use std::alloc::Global;
use std::test::Fail;
use zc_base::extensions::Extensions;
use zc_base::fields::{put_u16, put_u32, u16_at, u32_at};
use zc_base::mem_map::MemMap;
use zc_base::place::Place;

#[test]
fn fields_have_their_low_byte_first(rt: HostRuntime) {
    let mut bytes = [0x7F, 0x45, 0x4C, 0x46, 1, 2, 3];
    let words = u32_at(&bytes, 0) == 0x464C_457F && u32_at(&bytes, 3) == 0x0302_0146;
    let half = u16_at(&bytes, 5) == 0x0302;
    put_u16(&mut bytes, 1, 0xABCD);
    put_u32(&mut bytes, 3, 0x1122_3344);
    assert!(rt; words && half && bytes == [0x7F, 0xCD, 0xAB, 0x44, 0x33, 0x22, 0x11]);
}

#[test]
fn the_standard_map_has_room_for_text_and_a_stack_of_a_megabyte(rt: HostRuntime) {
    let map = MemMap::standard();
    let (text, stack) = (map.data_low - map.text, map.stack_high - map.stack_low);
    assert!(rt; text == 0xF_0000 && stack == 0x10_0000);
}

/// The addresses of text, data and both ends of the stack in the map of these four, and the most bytes of data; or `none`.
pub fn map_of(alloc: Global, given: &str) -> Result<String, Fail> {
    let (text, rest) = cut(given);
    let (data_low, rest) = cut(rest);
    let (stack_low, stack_high) = cut(rest);
    let given = MemMap {
        text: word(text)?,
        data_low: word(data_low)?,
        stack_low: word(stack_low)?,
        stack_high: word(stack_high)?,
        extensions: Extensions::all(),
    };
    let Some(map) = MemMap::checked(given) else {
        return Ok(String::from_str(alloc, "none")?);
    };
    let code = format!(in alloc; "{:08X} {:08X}", map.text, map.data_low)?;
    let stack = format!(in alloc; "{:08X} {:08X}", map.stack_low, map.stack_high)?;
    Ok(format!(in alloc; "{code} {stack} {}", map.data_limit())?)
}

const MAPS: &str =
    "00010000 00100000 0FF00000 10000000 = 00010000 00100000 0FF00000 10000000 4194304 | the standard map
10000000 20000000 20081000 20082000 = 10000000 20000000 20081000 20082000 528384 | flash, and RAM on the chip
20000000 80000000 80400000 80500000 = 20000000 80000000 80400000 80500000 4194304 | flash, and RAM above 2 GiB
00001000 000F1000 000F1000 000F1010 = 00001000 000F1000 000F1000 000F1010 0 | the lowest, without data
00001000 000F1000 000F1080 000F1090 = 00001000 000F1000 000F1080 000F1090 128 | 128 bytes of data, and the smallest stack
08000000 20000000 203FFFF0 20500000 = 08000000 20000000 203FFFF0 20500000 4194288 | 16 bytes below the most data
08000000 20000000 20400010 20500000 = 08000000 20000000 20400010 20500000 4194304 | and 16 above them
FFB0F000 FFBFF000 FFBFF000 FFFFFFF0 = FFB0F000 FFBFF000 FFBFF000 FFFFFFF0 0 | the highest
00001000 FFBFF000 FFFFFFE0 FFFFFFF0 = 00001000 FFBFF000 FFFFFFE0 FFFFFFF0 4194304 | the most room for code
00001000 000F1000 000F1000 FFFFFFF0 = 00001000 000F1000 000F1000 FFFFFFF0 0 | the largest stack
00000000 000F0000 004F0000 005F0000 = none | text at address 0
00001000 000F0FF0 004F1000 005F1000 = none | 16 bytes too few for code
00001800 000F2000 004F2000 005F2000 = none | text amid a page
00001010 000F2000 004F2000 005F2000 = none | text at a multiple of 16 alone
00001000 000F1008 004F2000 005F2000 = none | data at no multiple of 16
00001000 000F1000 004F1808 005F1800 = none | a stack that begins at none
00001000 000F1000 004F1800 005F1808 = none | a stack that ends at none
FFF20000 00010000 0FF00000 10000000 = none | room for code passes the end of the addresses
FFB0F000 FFBFF010 FFFFFFE0 FFFFFFF0 = none | room for the most data does
00010000 00100010 00100000 10000000 = none | the stack begins below data
00010000 20000000 10000000 20000000 = none | and far below
00010000 00100000 10000000 10000000 = none | a stack of no bytes
00010000 00100000 10000000 0FFFFFF0 = none | a stack that ends below its start
10000000 00100000 0FF00000 20000000 = none | data below text";

#[test]
fn addresses_give_a_map_if_everything_has_room(rt: HostRuntime) -> Result<(), Fail> {
    expect(&rt, "map", MAPS)
}

fn place(object: u16, section: u16, offset: u32) -> Place {
    Place {
        object,
        section,
        offset,
    }
}

#[test]
fn places_stand_by_object_then_section_then_offset(rt: HostRuntime) {
    let by_offset = place(0, 1, 4) < place(0, 1, 8);
    let by_section = place(0, 1, 8) < place(0, 2, 0);
    let by_object = place(0, 9, 9) < place(1, 0, 0);
    assert!(rt; by_offset && by_section && by_object);
}
