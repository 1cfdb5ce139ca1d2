// Two objects, each with two sections of code, and a table of programs over them. Words are hexadecimal.

use super::object::add;
use crate::row::{bytes_of, column};
use std::alloc::Global;
use std::test::Fail;

const HEADER: &str = "
464C457F 00010101 00000000 00000000
00F30001 00000001 00000000 00000000
000000F8 00000000 00000034 00280000
00040007";

// Symbols: 1 and 2 are the first bytes of the two sections of code. The strings are `_start` and `g`.
const SECTION_SYMBOLS: &str = "
00000000 00000000 00000000 00000000
00000000 00000000 00000000 00010000
00000000 00000000 00000000 00020000";

// In the first object, symbol 3 is `_start`, where section 1 begins, and 4 is the other object's `g`.
const STARTS: &str = "
00000001 00000000 00000000 00010010
00000008 00000000 00000000 00000010
74735F00 00747261 0067";

// In the second object, symbol 3 is `g`, the second word of section 2, and 4 is `_start`.
const CALLED: &str = "
00000008 00000004 00000000 00020010
00000001 00000000 00000000 00000010
74735F00 00747261 0067";

// Sections without names: 1 is code of five words, 2 of three; 3 the symbols, 4 their names, and 5 and 6 the relocations
// of 1 and 2.
const SECTIONS: &str = "
00000000 00000000 00000000 00000000 00000000 00000000 00000000 00000000 00000000 00000000
00000000 00000001 00000006 00000000 00000034 00000014 00000000 00000000 00000004 00000000
00000000 00000001 00000006 00000000 00000048 0000000C 00000000 00000000 00000004 00000000
00000000 00000002 00000000 00000000 00000054 00000050 00000004 00000003 00000004 00000010
00000000 00000003 00000000 00000000 000000A4 0000000A 00000000 00000000 00000001 00000000
00000000 00000004 00000000 00000000 000000B0 00000024 00000003 00000001 00000004 0000000C
00000000 00000004 00000000 00000000 000000D4 00000024 00000003 00000002 00000004 0000000C";

/// Each program: the sections `a1` and `a2` of the first object, and `b1` and `b2` of the second one, their relocations
/// (`to` before the section), of which each has room for three, and how the run ends within `steps` steps.
pub const PARTS: &str = "
# a1: call g; jal a2; addi a7,x0,93; ecall. a2: addi a0,a0,1; jal a1+12. b2: ebreak; g: addi a0,x0,2; jal b1. b1: addi a0,a0,16; ret
a1 00000097 000080E7 0000006F 05D00893 00000073 | toa1 00000000 00000412 00000000 00000008 00000211 00000000 | a2 00150513 0000006F 00100073 | toa2 00000004 00000111 0000000C | b1 01050513 00008067 00100073 00100073 00100073 | b2 00100073 00200513 0000006F | tob2 00000008 00000111 00000000 | steps 10 | ends exited 13
# the same for a step less, and with g's section left over its end
a1 00000097 000080E7 0000006F 05D00893 00000073 | toa1 00000000 00000412 00000000 00000008 00000211 00000000 | a2 00150513 0000006F 00100073 | toa2 00000004 00000111 0000000C | b1 01050513 00008067 00100073 00100073 00100073 | b2 00100073 00200513 0000006F | tob2 00000008 00000111 00000000 | steps 9 | ends spent
a1 00000097 000080E7 0000006F 05D00893 00000073 | toa1 00000000 00000412 00000000 00000008 00000211 00000000 | a2 00150513 00100073 00100073 | b1 01050513 00008067 00100073 00100073 00100073 | b2 00100073 00200513 00350513 | ends stuck 1:2:c 8 NoInstruction
# a1: addi a0,x0,3; nop; nop; nop; jal a2. a2: addi a0,a0,-1; bne a0,x0,a1+16; jal g. b2: ebreak; g: addi a0,x0,7; jal b1. b1: addi a7,x0,93; ecall
a1 00300513 00000013 00000013 00000013 0000006F | toa1 00000010 00000211 00000000 | a2 FFF50513 00051063 0000006F | toa2 00000004 00000110 00000010 00000008 00000411 00000000 | b1 05D00893 00000073 00100073 00100073 00100073 | b2 00100073 00700513 0000006F | tob2 00000008 00000111 00000000 | steps 18 | ends exited 7
# the same with a branch to the end of a1
a1 00300513 00000013 00000013 00000013 0000006F | toa1 00000010 00000211 00000000 | a2 FFF50513 00051063 0000006F | toa2 00000004 00000110 00000014 | b1 05D00893 00000073 00100073 00100073 00100073 | b2 00100073 00700513 0000006F | ends stuck 0:1:14 8 NoInstruction
# a1: jal a2+8, from where the section is left; another section begins at its end in the image
a1 0000006F 00100073 00100073 00100073 00100073 | toa1 00000000 00000211 00000008 | a2 00100073 00100073 00100513 | b1 00100073 00100073 00100073 00100073 00100073 | b2 00100073 00100073 00100073 | ends stuck 0:2:c 8 NoInstruction";

/// The first object of a row, or the second one.
pub fn part_of(alloc: Global, row: &str, is_first: bool) -> Result<Vec<u8>, Fail> {
    let mut object = bytes_of(alloc, HEADER)?;
    if is_first {
        add(alloc, &mut object, column(row, "a1"), 72)?;
        add(alloc, &mut object, column(row, "a2"), 84)?;
        add(alloc, &mut object, SECTION_SYMBOLS, 132)?;
        add(alloc, &mut object, STARTS, 176)?;
        add(alloc, &mut object, column(row, "toa1"), 212)?;
        add(alloc, &mut object, column(row, "toa2"), 248)?;
    } else {
        add(alloc, &mut object, column(row, "b1"), 72)?;
        add(alloc, &mut object, column(row, "b2"), 84)?;
        add(alloc, &mut object, SECTION_SYMBOLS, 132)?;
        add(alloc, &mut object, CALLED, 176)?;
        add(alloc, &mut object, column(row, "tob1"), 212)?;
        add(alloc, &mut object, column(row, "tob2"), 248)?;
    }
    add(alloc, &mut object, SECTIONS, 528)?;
    Ok(object)
}
