// Texts of instructions, written by hand from the manuals' tables, and back.

use crate::rows::{expect, word};
use instruction_text::machine_code::MachineCode;
use instruction_text::push::push_code;
use instruction_text::read::read_code;
use std::alloc::{AllocError, Global};
use std::test::Fail;

// The code with these digits: four of a halfword, or eight of a word.
fn code(digits: &str) -> Result<MachineCode, Fail> {
    if digits.len() == 4 {
        Ok(MachineCode::Half(u16::from_str_radix(digits, 16)?))
    } else {
        Ok(MachineCode::Word(word(digits)?))
    }
}

/// The digits of the code that a text spells, or `none`.
pub fn spelled_code(alloc: Global, text: &str) -> Result<String, Fail> {
    let mut scratch = Vec::new(alloc);
    match read_code(&mut scratch, text.as_bytes())? {
        Some(MachineCode::Half(half)) => Ok(format!(in alloc; "{half:04x}")?),
        Some(MachineCode::Word(word)) => Ok(format!(in alloc; "{word:08x}")?),
        None => Ok(String::from_str(alloc, "none")?),
    }
}

/// The text of a code, if it spells that code.
pub fn text_of(alloc: Global, digits: &str) -> Result<String, Fail> {
    let mut bytes = Vec::new(alloc);
    push_code(&mut bytes, code(digits)?)?;
    let text = String::from_utf8(bytes).map_err(|_| "no text")?;
    if spelled_code(alloc, text.as_str())?.as_str() == digits {
        Ok(text)
    } else {
        Err("another code".into())
    }
}

// Each operation of words.
const WORD_TEXTS: &str = "00c58533 = add x10 x11 x12
40c58533 = sub x10 x11 x12
00c59533 = sll x10 x11 x12
00c5a533 = slt x10 x11 x12
00c5b533 = sltu x10 x11 x12
00c5c533 = xor x10 x11 x12
00c5d533 = srl x10 x11 x12
40c5d533 = sra x10 x11 x12
00c5e533 = or x10 x11 x12
00c5f533 = and x10 x11 x12
02c58533 = mul x10 x11 x12
02c59533 = mulh x10 x11 x12
02c5a533 = mulhsu x10 x11 x12
02c5b533 = mulhu x10 x11 x12
02c5c533 = div x10 x11 x12
02c5d533 = divu x10 x11 x12
02c5e533 = rem x10 x11 x12
02c5f533 = remu x10 x11 x12
80058513 = addi x10 x11 -2048
8005a513 = slti x10 x11 -2048
8005b513 = sltiu x10 x11 -2048
8005c513 = xori x10 x11 -2048
8005e513 = ori x10 x11 -2048
8005f513 = andi x10 x11 -2048
7ff58513 = addi x10 x11 2047
01f59513 = slli x10 x11 31
01f5d513 = srli x10 x11 31
41f5d513 = srai x10 x11 31
00059513 = slli x10 x11 0
fff58503 = lb x10 x11 -1
fff59503 = lh x10 x11 -1
fff5a503 = lw x10 x11 -1
fff5c503 = lbu x10 x11 -1
fff5d503 = lhu x10 x11 -1
7ff5a503 = lw x10 x11 2047
fea58fa3 = sb x11 x10 -1
fea59fa3 = sh x11 x10 -1
fea5afa3 = sw x11 x10 -1
7ea5afa3 = sw x11 x10 2047
80a5a023 = sw x11 x10 -2048
80a58023 = sb x11 x10 -2048
80a59023 = sh x11 x10 -2048
80b50063 = beq x10 x11 -4096
7eb51fe3 = bne x10 x11 4094
00b54463 = blt x10 x11 8
feb55fe3 = bge x10 x11 -2
00b560e3 = bltu x10 x11 2048
54b57b63 = bgeu x10 x11 1366
7fe0056f = jal x10 2046
8000056f = jal x10 -1048576
7ffff56f = jal x10 1048574
0010056f = jal x10 2048
3450156f = jal x10 6980
fffff537 = lui x10 1048575
12345297 = auipc x5 74565
80058567 = jalr x10 x11 -2048
00008067 = jalr x0 x1 0
0ff0000f = fence 261120
f3f5850f = fence 3997034
00000073 = ecall
00100073 = ebreak
01759573 = csrrw x10 x11
01729073 = csrrw x0 x5
ffffffff = .word ffffffff | all bits
0000100f = .word 0000100f | fence.i
80059567 = .word 80059567 | funct3 of jalr";

// Each row of halfwords, in the tables' order.
const HALF_TEXTS: &str = "0048 = c.addi4spn x10 x2 4
4188 = c.lw x10 x11 0
dc7c = c.sw x8 x15 124
81e8 = c.lbu x10 x11 3
85a8 = c.lhu x10 x11 2
85c8 = c.lh x10 x11 0
89e8 = c.sb x11 x10 3
8da8 = c.sh x11 x10 2
0001 = c.addi x0 x0 0 | c.nop
1501 = c.addi x10 x10 -32
2ffd = c.jal x1 2046
3001 = c.jal x1 -2048
450d = c.li x10 x0 3
7101 = c.addi16sp x2 x2 -512
6141 = c.addi16sp x2 x2 16
0141 = c.addi x2 x2 16
657d = c.lui x10 31
7501 = c.lui x10 1048544
8105 = c.srli x10 x10 1
857d = c.srai x10 x10 31
9901 = c.andi x10 x10 -32
8d0d = c.sub x10 x10 x11
8d2d = c.xor x10 x10 x11
8d5d = c.or x10 x10 x15
8c7d = c.and x8 x8 x15
9d4d = c.mul x10 x10 x11
9d61 = c.zext.b x10 x10 255
9d75 = c.not x10 x10 -1
b001 = c.j x0 -2048
d381 = c.beqz x15 x0 -256
ec7d = c.bnez x8 x0 254
057e = c.slli x10 x10 31
52fe = c.lwsp x5 x2 252
8282 = c.jr x0 x5 0
852e = c.mv x10 x0 x11
9002 = c.ebreak
9282 = c.jalr x1 x5 0
952e = c.add x10 x10 x11
df82 = c.swsp x2 x0 252
b8fe = cm.push 15 112
ba66 = cm.pop 6 32
bcfe = cm.popretz 15 112
be42 = cm.popret 4 16
aca2 = cm.mvsa01 x9 x8
ace2 = cm.mva01s x9 x8
a07e = cm.jt 31
a082 = cm.jalt 32
a3fe = cm.jalt 255
0005 = c.addi x0 x0 1 | hints
0501 = c.addi x10 x10 0
4005 = c.li x0 x0 1
6005 = c.lui x0 1
8101 = c.srli x10 x10 0
0502 = c.slli x10 x10 0
0006 = c.slli x0 x0 1
802e = c.mv x0 x0 x11
902e = c.add x0 x0 x11
0000 = .half 0000 | of no row
8002 = .half 8002
b832 = .half b832
ac22 = .half ac22";

#[test]
fn instructions_have_their_texts_and_texts_spell_them(rt: HostRuntime) -> Result<(), Fail> {
    for rows in [WORD_TEXTS, HALF_TEXTS] {
        expect(&rt, "text", rows)?;
    }
    Ok(())
}

// Texts that are almost an instruction's.
const SPELLED: &str = "addi x17 x0 93 = 05d00893
addi x17 x0 093 = none
addi x17 x0 +93 = none
addi x17 x0 -0 = none
addi x17  x0 93 = none | two spaces
addi x17 x0 93  = none | a space at the end
 addi x17 x0 93 = none | and at the start
addi x32 x0 93 = none
addi x017 x0 93 = none
addi a7 x0 93 = none
addi X17 x0 93 = none
ADDI x17 x0 93 = none
addi x17 x0 2048 = none
addi x17 x0 -2049 = none
addi x17 x0 x93 = none
addi x17 x0 = none
addi x17 x0 93 0 = none
addi 17 0 93 = none
slli x10 x11 32 = none
slli x10 x11 -1 = none
lui x10 1048576 = none
lui x10 -1 = none
jal x1 1 = none
jal x1 1048576 = none
beq x1 x2 4096 = none
beq x1 x2 3 = none
fence 4194304 = none
ecall x0 = none
addi x1 x2 99999999999999999999 = none
mret = none
c.nop = none
c.li x10 x10 3 = none
c.addi4spn x10 x2 0 = none
c.lw x7 x8 0 = none
c.lw x10 x2 0 = none | c.lwsp has this
c.addi16sp x2 x2 0 = none
c.lui x2 1 = none
c.lui x10 32 = none
c.srli x10 x10 32 = none
c.mv x10 x0 x0 = none
c.jr x0 x0 0 = none
c.jr x1 x5 0 = none | c.jalr has this
c.jal x0 4 = none
c.j x1 4 = none
cm.push 15 64 = b8f2
cm.push 3 16 = none
cm.push 4 24 = none
cm.push 4 80 = none
cm.push 260 16 = none
cm.mvsa01 x9 x9 = none
cm.mva01s x9 x9 = ace6
cm.jt 32 = none
cm.jalt 31 = none
cm.jalt 256 = none
.half 0000 = 0000
.half 0001 = none | c.addi x0 x0 0
.half 0003 = none | the low bits of a word
.half 000 = none
.half 00000 = none
.half 0000 0 = none
.half B832 = none
.half = none
.word ffffffff = ffffffff
.word 00000013 = none | addi x0 x0 0
.word fffffffe = none | the low bits of a halfword
.byte 00 = none
 = none | an empty text";

#[test]
fn other_texts_spell_nothing(rt: HostRuntime) -> Result<(), Fail> {
    expect(&rt, "spelled", SPELLED)
}

// Whether a halfword's text spells it.
fn comes_back(text: &mut Vec<u8>, scratch: &mut Vec<u8>, half: u16) -> Result<bool, AllocError> {
    text.clear();
    push_code(text, MachineCode::Half(half))?;
    match read_code(scratch, text)? {
        Some(MachineCode::Half(found)) => Ok(found == half),
        _ => Ok(false),
    }
}

// All but the low halves of words.
#[test]
fn all_halfwords_come_back(rt: HostRuntime) -> Result<(), Fail> {
    let (mut text, mut scratch) = (Vec::new(rt.alloc()), Vec::new(rt.alloc()));
    let mut count = 0_u32;
    for half in 0..=u16::MAX {
        let is_same = comes_back(&mut text, &mut scratch, half)?;
        count = count.wrapping_add(u32::from(is_same));
    }
    assert_eq!(rt; count, 49152);
    Ok(())
}
