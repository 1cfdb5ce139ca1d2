// Words as binutils' assembler writes them for RV32IM, and words that aren't in the table.

use crate::instrs::text;
use crate::rows::{expect, word};
use rv_decode::decode::decode;
use rv_decode::normal::normal;
use rv_encode::encode::encode;
use std::alloc::Global;
use std::test::Fail;

// The word that encodes what a word decodes to.
#[tactic(auto, using(crate::proofs::Ranges::in_range))]
fn encoded(word: u32) -> u32 {
    match decode(word) {
        Some(i) => encode(i),
        None => word,
    }
}

/// The instruction that a word decodes to, if that is encoded as the same word.
pub fn instr(alloc: Global, digits: &str) -> Result<String, Fail> {
    let word = word(digits)?;
    if encoded(word) == word {
        text(alloc, decode(word))
    } else {
        Err("another word".into())
    }
}

/// The normal form of what a word decodes to.
pub fn normal_form(alloc: Global, digits: &str) -> Result<String, Fail> {
    text(alloc, decode(word(digits)?).map(normal))
}

// Each word, and the instruction that it decodes to. Encoding that gives the word back.
const WORDS: &str = "00C58533 = add 10 11 12
40C58533 = sub 10 11 12
00C59533 = sll 10 11 12
00C5A533 = slt 10 11 12
00C5B533 = sltu 10 11 12
00C5C533 = xor 10 11 12
00C5D533 = srl 10 11 12
40C5D533 = sra 10 11 12
00C5E533 = or 10 11 12
00C5F533 = and 10 11 12
02C58533 = mul 10 11 12
02C59533 = mulh 10 11 12
02C5A533 = mulhsu 10 11 12
02C5B533 = mulhu 10 11 12
02C5C533 = div 10 11 12
02C5D533 = divu 10 11 12
02C5E533 = rem 10 11 12
02C5F533 = remu 10 11 12
80058513 = addi 10 11 -2048
8005A513 = slti 10 11 -2048
8005B513 = sltiu 10 11 -2048
8005C513 = xori 10 11 -2048
8005E513 = ori 10 11 -2048
8005F513 = andi 10 11 -2048
7FF58513 = addi 10 11 2047
01F59513 = slli 10 11 31
01F5D513 = srli 10 11 31
41F5D513 = srai 10 11 31
00059513 = slli 10 11 0
FFF58503 = lb 10 11 -1
FFF59503 = lh 10 11 -1
FFF5A503 = lw 10 11 -1
FFF5C503 = lbu 10 11 -1
FFF5D503 = lhu 10 11 -1
7FF5A503 = lw 10 11 2047
FEA58FA3 = sb 10 11 -1
FEA59FA3 = sh 10 11 -1
FEA5AFA3 = sw 10 11 -1
7EA5AFA3 = sw 10 11 2047
80A5A023 = sw 10 11 -2048
80A58023 = sb 10 11 -2048
80A59023 = sh 10 11 -2048
80B50063 = beq 10 11 -4096
7EB51FE3 = bne 10 11 4094
00B54463 = blt 10 11 8
FEB55FE3 = bge 10 11 -2
00B560E3 = bltu 10 11 2048
54B57B63 = bgeu 10 11 1366
7FE0056F = jal 10 0 2046
8000056F = jal 10 0 -1048576
7FFFF56F = jal 10 0 1048574
0010056F = jal 10 0 2048
3450156F = jal 10 0 6980
FFFFF537 = lui 10 0 1048575
12345297 = auipc 5 0 74565
80058567 = jalr 10 11 -2048
00008067 = jalr 0 1 0
0FF0000F = fence 0 0 261120
F3F5850F = fence 0 0 3997034
00000073 = ecall 0 0 0
00100073 = ebreak 0 0 0
01759573 = csrrw 10 11 0
01729073 = csrrw 0 5 0";

#[test]
fn words_are_decoded_and_encoded(rt: HostRuntime) -> Result<(), Fail> {
    expect(&rt, "decode", WORDS)
}

// Each of these words has one field that no row of the table has.
const OTHERS: &str = "00000000 = none
FFFFFFFF = none
00C58532 = none | the low two bits, and an opcode of floating point
00052507 = none
80059567 = none | funct3 of jalr, of branches, of loads and of stores
80B52063 = none
80B53063 = none
FFF5B503 = none
FFF5E503 = none
FFF5F503 = none
FEA5BFA3 = none
FEA5CFA3 = none
FEA5FFA3 = none
02059513 = none | a shift's amount of 32, and funct7 of shifts
41F59513 = none
05F5D513 = none
43F5D513 = none
04C58533 = none | funct7 of operations on registers
40C59533 = none
42C58533 = none
0000100F = none | fence.i, mret, ecall with a register, csrrs on jvt, and csrrw on another
30200073 = none
00000573 = none
0175A573 = none
34059573 = none";

#[test]
fn words_outside_the_table_are_none(rt: HostRuntime) -> Result<(), Fail> {
    expect(&rt, "decode", OTHERS)
}

const NORMAL: &str = "003100B3 = add 1 3 2 | add x1,x2,x3
022180B3 = mul 1 3 2 | mul x1,x3,x2
003120B3 = slt 1 2 3 | slt x1,x2,x3
000100B3 = addi 1 2 0 | add x1,x2,x0
002000B3 = addi 1 2 0 | add x1,x0,x2
00400463 = beq 4 0 8 | beq x0,x4,.+8
00020463 = beq 4 0 8 | beq x4,x0,.+8";

#[test]
fn what_differs_in_order_alone_has_one_normal_form(rt: HostRuntime) -> Result<(), Fail> {
    expect(&rt, "normal", NORMAL)
}
