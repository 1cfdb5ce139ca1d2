// The code that sets the base of a jump table.

use crate::rows::{cut, expect};
use entry_stub::stub::stub;
use psabi_reloc::reaches::jal_reaches;
use std::alloc::Global;
use std::test::Fail;

// The stub, if the text begins at a page boundary and the distance is in range of a jump.
fn reached(text: u32, distance: i32) -> Option<[u8; 12]> {
    if text % 4096 == 0 && jal_reaches(distance) {
        Some(stub(text, distance))
    } else {
        None
    }
}

// The stub by the address of the text and the distance from the jump to the program's start.
fn code_of(given: &str) -> Result<[u8; 12], Fail> {
    let (text, distance) = cut(given, ' ')?;
    let text = u32::from_str_radix(text, 16)?;
    let distance = distance.parse::<i32>()?;
    Ok(reached(text, distance).ok_or("out of reach")?)
}

/// The bytes of the stub.
pub fn stub_bytes(alloc: Global, given: &str) -> Result<String, Fail> {
    let bytes = code_of(given)?;
    let mut line = String::new(alloc);
    for byte in bytes {
        write!(line, " {byte:02X}")?;
    }
    Ok(line)
}

// `lui t0`, `csrrw x0, 0x17, t0` and `jal x0`, at usual distances and at the farthest ones, by the manual's formats.
const STUBS: &str = "00010000 4414 = B7 02 01 00 73 90 72 01 6F 10 E0 13
FFFFF000 1048574 = B7 F2 FF FF 73 90 72 01 6F F0 FF 7F
00001000 -1048576 = B7 12 00 00 73 90 72 01 6F 00 00 80
80000000 -12 = B7 02 00 80 73 90 72 01 6F F0 5F FF";

#[test]
fn the_base_is_set_and_the_program_entered(rt: HostRuntime) -> Result<(), Fail> {
    expect(&rt, "stub", STUBS)
}
