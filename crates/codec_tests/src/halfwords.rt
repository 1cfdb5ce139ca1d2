// Halfwords as the assemblers of GNU and LLVM write them, and as LLVM's disassembler reads them.

use crate::instrs::{fields, text};
use crate::rows::{cut, expect, word};
use rv_decode::decode::decode;
use rv_decode::instr::Instr;
use rv_decode::normal::normal;
use std::alloc::Global;
use std::test::Fail;
use zc_decode::decode16::decode16;
use zc_decode::row::row;
use zc_decode::short::Short;
use zc_encode::encode16::encode16;
use zca_zcb_pass::short::{short_branch, short_jump, short_of};

// The instruction that a halfword expands to.
fn instr_of(half: u16) -> Option<Instr> {
    match decode16(half) {
        Some(Short::Base(i)) => Some(i),
        _ => None,
    }
}

/// The instruction that a halfword expands to.
pub fn spelled(alloc: Global, digits: &str) -> Result<String, Fail> {
    text(alloc, instr_of(u16::from_str_radix(digits, 16)?))
}

/// The halfword of what a word spells, by its four digits or `none`: as it is, or a branch or a jump at another
/// distance.
pub fn halfword(alloc: Global, call: &str, given: &str) -> Result<String, Fail> {
    let (digits, distance) = cut(given);
    let Some(i) = decode(word(digits)?) else {
        return Err("no instruction".into());
    };
    let found = match call {
        "short_of" => short_of(i),
        "short_branch" => short_branch(i, distance.parse::<i32>()?),
        "short_jump" => short_jump(i, distance.parse::<i32>()?),
        _ => encode16(Short::Base(i)),
    };
    match found {
        Some(half) => Ok(format!(in alloc; "{half:04x}")?),
        None => Ok(String::from_str(alloc, "none")?),
    }
}

// Each form at its least and its greatest immediate, and at the next ones beyond.
const WITH_IMMEDIATE: &str = "00010513 = 850a | addi a0,sp,0
00410513 = 0048 | addi a0,sp,4
3FC10513 = 1fe8 | addi a0,sp,1020
40010513 = none | addi a0,sp,1024
00610513 = none | addi a0,sp,6
00410293 = none | addi t0,sp,4
00000013 = 0001 | addi x0,x0,0
00100013 = none | addi x0,x0,1
01F50513 = 057d | addi a0,a0,31
02050513 = none | addi a0,a0,32
FE050513 = 1501 | addi a0,a0,-32
FDF50513 = none | addi a0,a0,-33
01F00513 = 457d | addi a0,x0,31
02000513 = none | addi a0,x0,32
FE000513 = 5501 | addi a0,x0,-32
FDF00513 = none | addi a0,x0,-33
FFF00013 = none | addi x0,x0,-1
1F010113 = 617d | addi sp,sp,496
20010113 = none | addi sp,sp,512
E0010113 = 7101 | addi sp,sp,-512
DF010113 = none | addi sp,sp,-528
01010113 = 0141 | addi sp,sp,16
02810113 = none | addi sp,sp,40
0001F537 = 657d | lui a0,31
00020537 = none | lui a0,32
FFFE0537 = 7501 | lui a0,0xfffe0
FFFDF537 = none | lui a0,0xfffdf
00000537 = none | lui a0,0
00001137 = none | lui sp,1
00001037 = none | lui x0,1
00001517 = none | auipc a0,1
00055513 = none | srli a0,a0,0
00155513 = 8105 | srli a0,a0,1
01F55513 = 817d | srli a0,a0,31
01F2D293 = none | srli t0,t0,31
40055513 = none | srai a0,a0,0
40155513 = 8505 | srai a0,a0,1
41F55513 = 857d | srai a0,a0,31
0015D513 = none | srli a0,a1,1
01F57513 = 897d | andi a0,a0,31
02057513 = none | andi a0,a0,32
FE057513 = 9901 | andi a0,a0,-32
FDF57513 = none | andi a0,a0,-33
0FF57513 = 9d61 | andi a0,a0,255
10057513 = none | andi a0,a0,256
FFF54513 = 9d75 | xori a0,a0,-1
FFE54513 = none | xori a0,a0,-2
00156513 = none | ori a0,a0,1
00051513 = none | slli a0,a0,0
01F51513 = 057e | slli a0,a0,31
00151513 = 0506 | slli a0,a0,1
00159513 = none | slli a0,a1,1
00058513 = 852e | addi a0,a1,0";

const ON_REGISTERS: &str = "40B50533 = 8d0d | sub a0,a0,a1
40A58533 = none | sub a0,a1,a0
00A5C533 = 8d2d | xor a0,a1,a0
00F56533 = 8d5d | or a0,a0,a5
0087F433 = 8c7d | and s0,a5,s0
02A58533 = 9d4d | mul a0,a1,a0
02C58533 = none | mul a0,a1,a2
02B53533 = none | mulhu a0,a0,a1
00B51533 = none | sll a0,a0,a1
00B00533 = 852e | add a0,x0,a1
00058533 = 852e | add a0,a1,x0
00000533 = 4501 | add a0,x0,x0
00A58533 = 952e | add a0,a1,a0
00B50533 = 952e | add a0,a0,a1
00C58533 = none | add a0,a1,a2";

const MEMORY: &str = "0005A503 = 4188 | lw a0,0(a1)
FFC5A503 = none | lw a0,-4(a1)
07C5A503 = 5de8 | lw a0,124(a1)
0805A503 = none | lw a0,128(a1)
0025A503 = none | lw a0,2(a1)
0005A283 = none | lw t0,0(a1)
00F42023 = c01c | sw a5,0(s0)
FEF42E23 = none | sw a5,-4(s0)
06F42E23 = dc7c | sw a5,124(s0)
08F42023 = none | sw a5,128(s0)
0005C503 = 8188 | lbu a0,0(a1)
FFF5C503 = none | lbu a0,-1(a1)
0035C503 = 81e8 | lbu a0,3(a1)
0045C503 = none | lbu a0,4(a1)
0005D503 = 8588 | lhu a0,0(a1)
FFE5D503 = none | lhu a0,-2(a1)
0025D503 = 85a8 | lhu a0,2(a1)
0045D503 = none | lhu a0,4(a1)
00059503 = 85c8 | lh a0,0(a1)
FFE59503 = none | lh a0,-2(a1)
00259503 = 85e8 | lh a0,2(a1)
00459503 = none | lh a0,4(a1)
00159503 = none | lh a0,1(a1)
00A58023 = 8988 | sb a0,0(a1)
FEA58FA3 = none | sb a0,-1(a1)
00A581A3 = 89e8 | sb a0,3(a1)
00A58223 = none | sb a0,4(a1)
00A59023 = 8d88 | sh a0,0(a1)
FEA59F23 = none | sh a0,-2(a1)
00A59123 = 8da8 | sh a0,2(a1)
00A59223 = none | sh a0,4(a1)
00058503 = none | lb a0,0(a1)
00012283 = 4282 | lw t0,0(sp)
FFC12283 = none | lw t0,-4(sp)
0FC12283 = 52fe | lw t0,252(sp)
10012283 = none | lw t0,256(sp)
00012003 = none | lw x0,0(sp)
07C12503 = 5576 | lw a0,124(sp)
00012023 = c002 | sw x0,0(sp)
FE012E23 = none | sw x0,-4(sp)
0E012E23 = df82 | sw x0,252(sp)
10012023 = none | sw x0,256(sp)";

const JUMPS: &str = "7FE000EF = 2ffd | jal ra,.+2046
001000EF = none | jal ra,.+2048
801FF0EF = 3001 | jal ra,.-2048
FFEFF0EF = none | jal ra,.-2050
7FE0006F = affd | jal x0,.+2046
0010006F = none | jal x0,.+2048
801FF06F = b001 | jal x0,.-2048
FFEFF06F = none | jal x0,.-2050
008002EF = none | jal t0,.+8
0E040F63 = cc7d | beq s0,x0,.+254
10040063 = none | beq s0,x0,.+256
F0F000E3 = d381 | beq x0,a5,.-256
EE040FE3 = none | beq s0,x0,.-258
0E041F63 = ec7d | bne s0,x0,.+254
10041063 = none | bne s0,x0,.+256
F00410E3 = f001 | bne s0,x0,.-256
EE041FE3 = none | bne s0,x0,.-258
00A41463 = none | bne s0,a0,.+8
00029463 = none | bne t0,x0,.+8
00044463 = none | blt s0,x0,.+8
00028067 = 8282 | jalr x0,0(t0)
000280E7 = 9282 | jalr ra,0(t0)
004280E7 = none | jalr ra,4(t0)
000282E7 = none | jalr t0,0(t0)
00100073 = 9002 | ebreak
00000073 = none | ecall
0FF0000F = none | fence";

#[test]
fn instructions_have_their_halfwords(rt: HostRuntime) -> Result<(), Fail> {
    for rows in [WITH_IMMEDIATE, ON_REGISTERS, MEMORY, JUMPS] {
        expect(&rt, "encode16", rows)?;
    }
    Ok(())
}

// Rows of Zcb. The other rows are zero, a shift by 32, operations and stores of Zcb that aren't defined, and the low
// half of a word.
const HALFWORDS: &str = "81C8 = lbu 10 11 1
9D4D = mul 10 10 11
9D75 = xori 10 10 -1
9D61 = andi 10 10 255
0000 = none
9D65 = none
8D48 = none
1502 = none
6101 = none
6501 = none
4002 = none
8002 = none
0513 = none";

#[test]
fn halfwords_of_zcb_decode_and_others_do_not(rt: HostRuntime) -> Result<(), Fail> {
    expect(&rt, "decode16", HALFWORDS)
}

/// The number of a halfword's row.
pub fn numbered(alloc: Global, digits: &str) -> Result<String, Fail> {
    match row(u16::from_str_radix(digits, 16)?) {
        Some(number) => Ok(format!(in alloc; "{number}")?),
        None => Ok(String::from_str(alloc, "none")?),
    }
}

// A halfword of each row, in the tables' order, and halfwords of none.
const ROWS: &str = "0048 = 0 | c.addi4spn a0,sp,4
4188 = 1 | c.lw a0,0(a1)
C01C = 2 | c.sw a5,0(s0)
8188 = 3 | c.lbu a0,0(a1)
8588 = 4 | c.lhu a0,0(a1)
85C8 = 5 | c.lh a0,0(a1)
8988 = 6 | c.sb a0,0(a1)
8D88 = 7 | c.sh a0,0(a1)
0001 = 8 | c.nop
0005 = 8 | a hint: c.nop 1
057D = 9 | c.addi a0,31
0501 = 9 | a hint: c.addi a0,0
2FFD = 10 | c.jal .+2046
457D = 11 | c.li a0,31
617D = 12 | c.addi16sp sp,496
657D = 13 | c.lui a0,31
8105 = 14 | c.srli a0,1
8505 = 15 | c.srai a0,1
897D = 16 | c.andi a0,31
8D0D = 17 | c.sub a0,a1
8D2D = 18 | c.xor a0,a1
8D5D = 19 | c.or a0,a5
8C7D = 20 | c.and s0,a5
9D4D = 21 | c.mul a0,a1
9D61 = 22 | c.zext.b a0
9D75 = 23 | c.not a0
AFFD = 24 | c.j .+2046
CC7D = 25 | c.beqz s0,.+254
EC7D = 26 | c.bnez s0,.+254
057E = 27 | c.slli a0,31
4282 = 28 | c.lwsp t0,0(sp)
8282 = 29 | c.jr t0
852E = 30 | c.mv a0,a1
9002 = 31 | c.ebreak
9282 = 32 | c.jalr t0
952E = 33 | c.add a0,a1
C002 = 34 | c.swsp x0,0(sp)
B842 = 35 | cm.push {ra}, -16
BA42 = 36 | cm.pop {ra}, 16
BC42 = 37 | cm.popretz {ra}, 16
BE42 = 38 | cm.popret {ra}, 16
ACA2 = 39 | cm.mvsa01 s1,s0
ACE2 = 40 | cm.mva01s s1,s0
A006 = 41 | cm.jt 1
A202 = 42 | cm.jalt 128
0000 = none
8002 = none | c.jr x0
B832 = none | cm.push with list 3
AC22 = none | cm.mvsa01 s0,s0
0513 = none | half of a word";

#[test]
fn rows_have_numbers_in_their_order(rt: HostRuntime) -> Result<(), Fail> {
    expect(&rt, "row", ROWS)
}

/// A hash with one more value mixed in.
pub fn mix(sum: u32, value: u32) -> u32 {
    (sum ^ value).wrapping_mul(0x0100_0193)
}

// Mixes a halfword and its instruction into a hash; a halfword that decodes to nothing leaves the hash as it is.
fn mixed(sum: u32, half: u16) -> u32 {
    let Some(i) = instr_of(half) else {
        return sum;
    };
    let (code, first, second, number) = fields(i);
    let registers = mix(mix(mix(mix(sum, u32::from(half)), code), first), second);
    mix(registers, number)
}

// The fields of the normal form of what a halfword expands to.
fn normal_fields(half: u16) -> Option<(u32, u32, u32, u32)> {
    let i = instr_of(half)?;
    Some(fields(normal(i)))
}

// The halfword that encodes what a halfword expands to.
fn found_for(half: u16) -> Option<u16> {
    match instr_of(half) {
        Some(i) => encode16(Short::Base(i)),
        None => None,
    }
}

// `scripts/halfwords_of_llvm` prints how many of these halfwords LLVM decodes, and the hash. Of them, 330 are hints
// whose normal form no other halfword has; every other one is encoded again with the same normal form.
#[test]
fn all_halfwords_are_read_as_llvm_reads_them_and_come_back(rt: HostRuntime) {
    let (mut count, mut found, mut same, mut sum) = (0_u32, 0_u32, 0_u32, 0);
    for half in 0..=u16::MAX {
        count = count.wrapping_add(u32::from(instr_of(half).is_some()));
        sum = mixed(sum, half);
        if let Some(back) = found_for(half) {
            let is_same = normal_fields(back) == normal_fields(half);
            found = found.wrapping_add(1);
            same = same.wrapping_add(u32::from(is_same));
        }
    }
    assert_eq!(rt;
        (count, sum, found, same),
        (29799, 0xF4FA_3007, 29469, 29469)
    );
}
