// Relocations by the psABI's table, and words as binutils' assembler writes them, before and after an immediate
// is put into them.

use crate::rows::{cut, expect, word};
use psabi_reloc::kind::RelocKind;
use psabi_reloc::parts::{hi20, lo12};
use psabi_reloc::put::{put_branch, put_call, put_hi20, put_jal, put_lo12_i, put_lo12_s};
use psabi_reloc::reaches::{branch_reaches, jal_reaches, short_branch_reaches, short_jump_reaches};
use rv_decode::decode::decode;
use std::alloc::Global;
use std::test::Fail;

// The kinds, in the order of the crate's type.
const KINDS: &str =
    "Ignored Word Branch Jal Call PcrelHi20 PcrelLo12I PcrelLo12S Hi20 Lo12I Lo12S RvcBranch RvcJump Align";

/// The kind of a type, and how many bytes it changes with an addend.
pub fn kind(alloc: Global, given: &str) -> Result<String, Fail> {
    let (number, addend) = cut(given);
    let kind = RelocKind::of(number.parse::<u8>()?).ok_or("no kind")?;
    let name = KINDS.split(' ').nth(kind as usize).ok_or("no name")?;
    let length = kind.field_length(addend.parse::<i32>()?);
    Ok(format!(in alloc; "{name} {length}")?)
}

// The types of the psABI's table, each with an addend.
const TYPES: &str = "0 6 = Ignored 0
1 6 = Word 4
16 6 = Branch 4
17 6 = Jal 4
18 -4 = Call 8
19 6 = Call 8
23 6 = PcrelHi20 4
24 6 = PcrelLo12I 4
25 6 = PcrelLo12S 4
26 6 = Hi20 4
27 6 = Lo12I 4
28 6 = Lo12S 4
43 6 = Align 6
44 6 = RvcBranch 2
45 -4 = RvcJump 2
51 6 = Ignored 0
43 0 = Align 0
43 -4 = Align 0";

// The number of bytes depends on the addend only for an alignment.
#[test]
fn sixteen_of_all_types_are_known(rt: HostRuntime) -> Result<(), Fail> {
    let mut count = 0_u32;
    for number in 0..=255 {
        count = count.wrapping_add(u32::from(RelocKind::of(number).is_some()));
    }
    assert_eq!(rt; count, 16);
    expect(&rt, "kind", TYPES)
}

/// The types of relocations that are allowed at two words, among those that need certain instructions.
pub fn fitting(alloc: Global, given: &str) -> Result<String, Fail> {
    let (first, second) = cut(given);
    let (first, second) = (decode(word(first)?), decode(word(second)?));
    let mut fitting = String::new(alloc);
    for number in 16..29 {
        if let Some(kind) = RelocKind::of(number) {
            if kind.fits(first, second) {
                fitting.push_str(format!(in alloc; " {number}")?.as_str())?;
            }
        }
    }
    Ok(fitting)
}

const FITTING: &str = "12345537 00000000 = 26 | lui a0, 0x12345
00000317 00000000 = 23 | auipc t1, 0
00B50063 00000000 = 16 | beq a0, a1, .
000000EF 00000000 = 17 | jal ra, .
00558513 00000000 = 24 27 | addi a0, a1, 5
0055F513 00000000 = | andi a0, a1, 5
00559513 00000000 = | slli a0, a1, 5
00C58533 00000000 = | add a0, a1, a2
000FA403 00000000 = 24 27 | lw s0, 0(t6)
000300E7 00000000 = 24 27 | jalr ra, 0(t1)
00F42023 00000000 = 25 28 | sw a5, 0(s0)
00000000 00000000 = | no instruction
00000317 000300E7 = 18 19 23 | auipc t1 and jalr ra, (t1)
12345297 06728067 = 18 19 23 | auipc t0 and jalr zero, (t0)
00000317 06728067 = 23 | auipc t1 and jalr zero, (t0)
00000317 00558513 = 23 | auipc t1 and addi
12345537 000300E7 = 26 | lui and jalr
000300E7 00000317 = 24 27 | jalr and auipc";

#[test]
fn words_fit_by_their_instructions(rt: HostRuntime) -> Result<(), Fail> {
    expect(&rt, "fits", FITTING)
}

/// The upper and the lower part of an address.
pub fn parts(alloc: Global, digits: &str) -> Result<String, Fail> {
    let x = word(digits)?;
    Ok(format!(in alloc; "{:05x} {}", hi20(x), lo12(x))?)
}

// Addresses below and above the rounding of the upper part.
const PARTS: &str = "00100000 = 00100 0
001007FF = 00100 2047
00100800 = 00101 -2048
00100FFC = 00101 -4
FFFFF800 = 00000 -2048";

#[test]
fn the_upper_part_rounds_up_where_the_lower_is_negative(rt: HostRuntime) -> Result<(), Fail> {
    expect(&rt, "parts", PARTS)
}

/// Whether a distance is in range of `jal`, a branch, `c.j` and `c.beqz`, as four digits.
pub fn reaching(alloc: Global, distance: &str) -> Result<String, Fail> {
    let d = distance.parse::<i32>()?;
    let long = (u8::from(jal_reaches(d)), u8::from(branch_reaches(d)));
    let short = (
        u8::from(short_jump_reaches(d)),
        u8::from(short_branch_reaches(d)),
    );
    Ok(format!(in alloc; "{}{}{}{}", long.0, long.1, short.0, short.1)?)
}

// The ends of each range, and the next number beyond each end.
const REACHES: &str = "-1048578 = 0000
-1048576 = 1000
-4098 = 1000
-4096 = 1100
-2050 = 1100
-2048 = 1110
-258 = 1110
-256 = 1111
-1 = 0000
254 = 1111
255 = 0000
256 = 1110
2046 = 1110
2048 = 1100
4094 = 1100
4096 = 1000
1048574 = 1000
1048576 = 0000";

#[test]
fn each_reaches_as_far_as_its_bits(rt: HostRuntime) -> Result<(), Fail> {
    expect(&rt, "reaches", REACHES)
}

/// A word with a part of an address in it.
pub fn put(alloc: Global, call: &str, given: &str) -> Result<String, Fail> {
    let (digits, x) = cut(given);
    let (old, x) = (word(digits)?, word(x)?);
    let new = match call {
        "put_hi20" => put_hi20(old, x),
        "put_lo12_i" => put_lo12_i(old, x),
        _ => put_lo12_s(old, x),
    };
    Ok(format!(in alloc; "{new:08X}")?)
}

/// The two words of a call with a distance in them.
pub fn call_with(alloc: Global, given: &str) -> Result<String, Fail> {
    let (upper, rest) = cut(given);
    let (lower, distance) = cut(rest);
    let words = [word(upper)?, word(lower)?];
    let [upper, lower] = put_call(words, distance.parse::<i32>()?);
    Ok(format!(in alloc; "{upper:08X} {lower:08X}")?)
}

// `lui a0` and `auipc t6`, at addresses below and above the rounding.
const UPPER: &str = "12345537 001007FF = 00100537
12345537 00100800 = 00101537
12345537 FFFFF800 = 00000537
FFFFFF97 00100FFC = 00101F97
00101F97 FFFFF7FF = FFFFFF97
00101F97 7FFFF800 = 80000F97";

// `addi a0, a1`, `lbu s11, (sp)`, `lw s0, (t6)` and `jalr ra, (t1)`.
const SUMS: &str = "00558513 001007FF = 7FF58513
00558513 00100800 = 80058513
FFF14D83 00100FFC = FFC14D83
FFC14D83 FFFFFFFF = FFF14D83
000FA403 00100800 = 800FA403
800FA403 00101000 = 000FA403
004300E7 000107FF = 7FF300E7";

// `sw a5, (s0)`, `sb t6, (a0)` and `sh zero, (sp)`.
const STORES: &str = "00F42023 001007FF = 7EF42FA3
7EF42FA3 00100800 = 80F42023
80F42023 00100000 = 00F42023
FFF50FA3 0010001F = 01F50FA3
01F50FA3 FFFFFFFF = FFF50FA3
02011023 00100FFC = FE011E23";

#[test]
fn words_get_the_parts_of_an_address(rt: HostRuntime) -> Result<(), Fail> {
    expect(&rt, "put_hi20", UPPER)?;
    expect(&rt, "put_lo12_i", SUMS)?;
    expect(&rt, "put_lo12_s", STORES)
}

/// The word of a branch with a distance in it.
pub fn branch_with(alloc: Global, given: &str) -> Result<String, Fail> {
    let (digits, distance) = cut(given);
    let (old, distance) = (word(digits)?, distance.parse::<i32>()?);
    if !branch_reaches(distance) {
        return Err("is out of range".into());
    }
    Ok(format!(in alloc; "{:08X}", put_branch(old, distance))?)
}

/// The word of a `jal` with a distance in it.
pub fn jal_with(alloc: Global, given: &str) -> Result<String, Fail> {
    let (digits, distance) = cut(given);
    let (old, distance) = (word(digits)?, distance.parse::<i32>()?);
    if !jal_reaches(distance) {
        return Err("is out of range".into());
    }
    Ok(format!(in alloc; "{:08X}", put_jal(old, distance))?)
}

// `beq a0, a1`, `bgeu t6, zero` and `bltu s0, s1`.
const BRANCHES: &str = "00B50063 8 = 00B50463
00B50463 4094 = 7EB50FE3
7EB50FE3 -4096 = 80B50063
80B50063 -2 = FEB50FE3
FE0FFFE3 2048 = 000FF0E3
000FF0E3 -2050 = FE0FFF63
00946063 -2732 = D4946A63
D4946A63 2730 = 2A9465E3";

// `jal ra`, `jal zero` and `jal t6`.
const JUMPS: &str = "000000EF 4 = 004000EF
004000EF 1048574 = 7FFFF0EF
7FFFF0EF -1048576 = 800000EF
800000EF -2 = FFFFF0EF
0000006F 2048 = 0010006F
0010006F -2050 = FFEFF06F
FFFFFFEF 699050 = 2ABAAFEF
2ABAAFEF -699052 = D5455FEF";

#[test]
fn branches_and_jumps_get_their_distance(rt: HostRuntime) -> Result<(), Fail> {
    expect(&rt, "put_branch", BRANCHES)?;
    expect(&rt, "put_jal", JUMPS)
}

// `auipc t1` with `jalr ra, (t1)`, and `auipc t0` with `jalr zero, (t0)`.
const CALLS: &str = "00000317 000300E7 2048 = 00001317 800300E7
00001317 800300E7 -2 = 00000317 FFE300E7
00000317 FFE300E7 -2050 = FFFFF317 7FE300E7
FFFFF317 7FE300E7 -2147483648 = 80000317 000300E7
12345297 06728067 2147481599 = 7FFFF297 7FF28067
12345297 06728067 2147481600 = 80000297 80028067";

#[test]
fn calls_get_their_distance(rt: HostRuntime) -> Result<(), Fail> {
    expect(&rt, "put_call", CALLS)
}
