// Halfwords that expand to several instructions (Zcmp), on both machines: the symbolic one runs the code of an object,
// and the machine for images runs the same bytes as an image's text. Expected results are worked out by the Zc
// specification 1.0, and the halfwords come from LLVM's assembler (19, `-triple=riscv32 -mattr=+zca,+zcb,+zcmp`).

use crate::row::column;
use crate::{images, objects};
use std::alloc::Global;
use std::test::Fail;

// Each program, how its run on the symbolic machine ends, and how its run on the machine for images ends, with pc and
// a0; the input, the output, and the limit of steps of both. Where both exit, the output and a0 show that registers
// and memory were the same. The stack has 1 MiB, and sp is its end at first, 0x10000000.
const PROGRAMS: &str = "
# all registers of a list, the highest number at the highest address: c.li s0,1; c.li s1,2; c.li s2,3; c.li s3,4; c.li s4,5; c.li s5,6; c.li s6,7; c.li s7,8; c.li s8,9; c.li s9,10; c.li s10,11; c.li s11,12; c.li ra,13; cm.push {ra, s0-s11},-64; c.addi4spn a1,sp,12; c.li a0,1; addi a2,x0,52; addi a7,x0,64; ecall; addi a7,x0,93; ecall
4405 4489 490D 4991 4A15 4A99 4B1D 4BA1 4C25 4CA9 4D2D 4DB1 40B5 B8F2 006C 4505 03400613 04000893 00000073 05D00893 00000073 | out 0000000D 00000001 00000002 00000003 00000004 00000005 00000006 00000007 00000008 00000009 0000000A 0000000B 0000000C | ends exited 34 | image exited 52 10030 34
# the same registers from 52 bytes that are read, and to a frame of 112: c.addi16sp sp,-64; c.li a0,0; c.addi4spn a1,sp,12; addi a2,x0,52; addi a7,x0,63; ecall; cm.pop {ra, s0-s11},64; cm.push {ra, s0-s11},-112; c.addi4spn a1,sp,60; c.li a0,1; addi a7,x0,64; ecall; addi a7,x0,93; ecall
7139 4501 006C 03400613 03F00893 00000073 BAF2 B8FE 186C 4505 04000893 00000073 05D00893 00000073 | in 03020100 13121110 23222120 33323130 43424140 53525150 63626160 73727170 83828180 93929190 A3A2A1A0 B3B2B1B0 C3C2C1C0 | out 03020100 13121110 23222120 33323130 43424140 53525150 63626160 73727170 83828180 93929190 A3A2A1A0 B3B2B1B0 C3C2C1C0 | ends exited 34 | image exited 52 10026 34
# over a page's end: lui sp,0xFFFF; c.addi sp,8; c.li s0,9; c.li s1,7; cm.push {ra, s0-s4},-48; c.li s0,0; c.li s1,0; cm.pop {ra, s0-s4},48; c.mv a0,s0; c.add a0,s1; addi a7,x0,93; ecall
0FFFF137 0121 4425 449D B896 4401 4481 BA96 8522 9526 05D00893 00000073 | ends exited 10 | image exited 16 1001a 10
# each is one step: cm.push {ra},-16; cm.pop {ra},16; c.li a0,1; addi a7,x0,93; ecall
B842 BA42 4505 05D00893 00000073 | steps 5 | ends exited 1 | image exited 1 1000a 1
B842 BA42 4505 05D00893 00000073 | steps 4 | ends spent | image spent 1000a 1
# sp is back behind a pop: c.addi sp,-16; c.li a0,5; c.swsp a0,12(sp); cm.push {ra},-16; c.li a0,6; cm.pop {ra},16; c.lwsp a0,12(sp); addi a7,x0,93; ecall
1141 4515 C62A B842 4519 BA42 4532 05D00893 00000073 | ends exited 5 | image exited 5 10012 5
# a function that returns a sum: c.addi sp,-16; c.li a0,3; c.li s0,5; c.swsp a0,12(sp); c.jal .+16; c.lwsp a1,12(sp); c.add a0,s0; c.add a0,a1; addi a7,x0,93; ecall; cm.push {ra, s0},-32; c.li s0,1; c.add a0,s0; cm.popret {ra, s0},32
1141 450D 4415 C62A 2801 45B2 9522 952E 05D00893 00000073 B856 4405 9522 BE56 | ends exited c | image exited 12 10014 c
# one that returns 0: c.addi sp,-16; c.li a0,3; c.li s0,5; c.swsp a0,12(sp); c.jal .+16; c.lwsp a1,12(sp); c.add a0,s0; c.add a0,a1; addi a7,x0,93; ecall; cm.push {ra, s0},-16; c.li s0,1; cm.popretz {ra, s0},16
1141 450D 4415 C62A 2801 45B2 9522 952E 05D00893 00000073 B852 4405 BC52 | ends exited 8 | image exited 8 10014 8
# one that returns by a jump: c.li a0,7; c.jal .+10; addi a7,x0,93; ecall; cm.push {ra},-16; c.li ra,0; cm.pop {ra},16; c.jr ra
451D 2029 05D00893 00000073 B842 4081 BA42 8082 | ends exited 7 | image exited 7 10008 7
# one with a branch to its pop: c.li a0,2; c.jal .+10; addi a7,x0,93; ecall; cm.push {ra},-16; c.bnez a0,.+4; c.li a0,9; cm.popret {ra},16
4509 2029 05D00893 00000073 B842 E111 4525 BE42 | ends exited 2 | image exited 2 10008 2
# moves: c.li a0,3; c.li a1,4; cm.mvsa01 s1,s0; cm.mva01s s0,s1; c.slli a0,4; c.add a0,a1; addi a7,x0,93; ecall
450D 4591 ACA2 AC66 0512 952E 05D00893 00000073 | ends exited 43 | image exited 67 10010 43
# c.li a0,5; c.li a1,6; cm.mvsa01 s7,s2; cm.mva01s s2,s7; c.slli a0,4; c.add a0,a1; addi a7,x0,93; ecall
4515 4599 AFAA AD7E 0512 952E 05D00893 00000073 | ends exited 65 | image exited 101 10010 65
# c.li s3,9; cm.mva01s s3,s3; c.slli a0,4; c.add a0,a1; addi a7,x0,93; ecall
49A5 ADEE 0512 952E 05D00893 00000073 | ends exited 99 | image exited 153 1000c 99
# moves of a place's address and of an undefined word: c.jal .+12; c.li a0,6; addi a7,x0,93; ecall; c.mv a0,ra; cm.mvsa01 s0,s1; c.jr s0
2031 4519 05D00893 00000073 8506 AC26 8402 | ends exited 6 | image exited 6 10008 6
# a frame's bytes that are no register's are undefined: c.li ra,1; cm.push {ra},-16; c.lwsp a0,8(sp); addi a7,x0,93; ecall
4085 B842 4522 05D00893 00000073 | ends stuck 0:1:a 4 ArgumentUnknown | image exited 0 1000a 0
# and all are behind a pop: c.li ra,1; cm.push {ra},-16; cm.pop {ra},16; c.addi sp,-16; c.lwsp a0,12(sp); addi a7,x0,93; ecall
4085 B842 BA42 1141 4532 05D00893 00000073 | ends stuck 0:1:e 4 ArgumentUnknown | image exited 1 1000e 1
# a pop of undefined words: c.addi sp,-16; cm.pop {ra, s0},16; c.beqz s0,.
1141 BA52 C001 | ends stuck 0:1:4 2 ConditionUnknown | image spent 10004 0
# a push below the stack: lui t0,0xFF00; c.mv sp,t0; cm.push {ra},-16
0FF002B7 8116 B842 | ends stuck 0:1:6 7 StackPointer | image stopped 2 BadAccess 10006 0
# also from an sp that isn't aligned: lui t0,0xFF00; addi sp,t0,2; cm.push {ra},-16
0FF002B7 00228113 B842 | ends stuck 0:1:8 7 StackPointer | image stopped 3 Misaligned 10008 0
# at such an sp: c.addi sp,-2; cm.push {ra},-16
1179 B842 | ends stuck 0:1:2 6 Misaligned | image stopped 3 Misaligned 10002 0
# a pop, which is also above the stack: c.addi sp,-2; cm.pop {ra},16; or cm.popretz {ra},16
1179 BA42 | ends stuck 0:1:2 6 Misaligned | image stopped 3 Misaligned 10002 0
1179 BC42 | ends stuck 0:1:2 6 Misaligned | image stopped 3 Misaligned 10002 0
# a pop above the stack: cm.pop {ra},16; or cm.popret {ra},16
BA42 | ends stuck 0:1:0 5 BadAddress | image stopped 2 BadAccess 10000 0
BE42 | ends stuck 0:1:0 5 BadAddress | image stopped 2 BadAccess 10000 0
# a part of it: c.addi16sp sp,-48; cm.pop {ra, s0-s11},64
7179 BAF2 | ends stuck 0:1:2 5 BadAddress | image stopped 2 BadAccess 10002 0
# a return to a number: c.li ra,0; cm.push {ra},-16; cm.popret {ra},16
4081 B842 BE42 | ends stuck 0:1:4 3 TargetUnknown | image stopped 2 BadAccess 0 0
# to an undefined word: cm.push {ra},-16; cm.popretz {ra},16
B842 BC42 | ends stuck 0:1:2 3 TargetUnknown | image stopped 2 BadAccess 0 0
# to an address with a number in one byte: c.jal .+2; cm.push {ra},-16; sb x0,12(sp); cm.popret {ra},16
2009 B842 00010623 BE42 | steps 4 | ends stuck 0:1:8 3 TargetUnknown | image spent 10000 0
# cm.mvsa01 s0,s0
AC22 | ends stuck 0:1:0 8 NoInstruction | image stopped 1 Illegal 10000 0
# cm.push and cm.pop with the lists 3 and 0
B832 | ends stuck 0:1:0 8 NoInstruction | image stopped 1 Illegal 10000 0
BA02 | ends stuck 0:1:0 8 NoInstruction | image stopped 1 Illegal 10000 0
# table jumps, which lead to where jvt has entries: cm.jt 0; cm.jalt 32
A002 | ends stuck 0:1:0 8 NoInstruction | image stopped 2 BadAccess 10000 0
A082 | ends stuck 0:1:0 8 NoInstruction | image stopped 2 BadAccess 10000 0";

// The row of the image of a program: its text, and how its run ends, before the columns that both machines have.
fn image_row(alloc: Global, row: &str) -> Result<String, Fail> {
    let (code, rest) = row.split_once('|').ok_or("no columns")?;
    Ok(format!(in alloc; "{code} | ends {} | {rest}", column(rest, "image"))?)
}

#[test]
fn a_push_a_pop_or_two_moves_are_one_step_of_both_machines(rt: HostRuntime) -> Result<(), Fail> {
    for row in PROGRAMS.trim().lines() {
        if !row.starts_with('#') {
            objects::expect_runs(&rt, "", row, "| flags 1")?;
            images::expect_runs(&rt, image_row(rt.alloc(), row)?.as_str(), "")?;
        }
    }
    Ok(())
}
