// Halfwords of Zcmp and Zcmt, as LLVM's disassembler reads them.

use crate::halfwords::mix;
use crate::rows::expect;
use std::alloc::Global;
use std::test::Fail;
use zc_decode::decode16::decode16;
use zc_decode::short::Short;
use zc_encode::encode16::encode16;

// The names of the variants of what a halfword spells, in their order.
const NAMES: &str = "base push pop popret popretz mvsa01 mva01s table";

// The number of the variant, and its two numbers; an instruction of 32 bits has none here.
fn fields(s: Short) -> (u32, u8, u8) {
    match s {
        Short::Base(_) => (0, 0, 0),
        Short::Push { list, adjust } => (1, list, adjust),
        Short::Pop { list, adjust } => (2, list, adjust),
        Short::PopRet { list, adjust } => (3, list, adjust),
        Short::PopRetz { list, adjust } => (4, list, adjust),
        Short::MoveSa { first, second } => (5, first.number(), second.number()),
        Short::MoveAs { first, second } => (6, first.number(), second.number()),
        Short::TableJump { index } => (7, index, 0),
    }
}

/// What a halfword spells, by the name of its variant and its two numbers.
pub fn short(alloc: Global, digits: &str) -> Result<String, Fail> {
    let Some(s) = decode16(u16::from_str_radix(digits, 16)?) else {
        return Ok(String::from_str(alloc, "none")?);
    };
    let (kind, first, second) = fields(s);
    let name = NAMES.split(' ').nth(kind as usize).ok_or("no name")?;
    Ok(format!(in alloc; "{name} {first} {second}")?)
}

// The last three are a list and two registers that the standard reserves, and a halfword that a word spells too.
const ZCMP: &str = "B842 = push 4 16 | cm.push {ra}, -16
B8FE = push 15 112 | cm.push {ra, s0-s11}, -112
BA42 = pop 4 16 | cm.pop {ra}, 16
BA66 = pop 6 32 | cm.pop {ra, s0-s1}, 32
BE42 = popret 4 16 | cm.popret {ra}, 16
BEFE = popret 15 112 | cm.popret {ra, s0-s11}, 112
BC42 = popretz 4 16 | cm.popretz {ra}, 16
BCFE = popretz 15 112 | cm.popretz {ra, s0-s11}, 112
ACA2 = mvsa01 9 8 | cm.mvsa01 s1, s0
ACE2 = mva01s 9 8 | cm.mva01s s1, s0
A006 = table 1 0 | cm.jt 1
A202 = table 128 0 | cm.jalt 128
B832 = none | list 3
AC22 = none | cm.mvsa01 s0, s0
450D = base 0 0 | c.li a0, 3";

#[test]
fn halfwords_of_zcmp_and_zcmt_decode(rt: HostRuntime) -> Result<(), Fail> {
    expect(&rt, "short", ZCMP)
}

// The number of the variant of what a halfword of Zcmp or Zcmt spells, and its two numbers.
fn added(half: u16) -> Option<(u32, u8, u8)> {
    match decode16(half) {
        None | Some(Short::Base(_)) => None,
        Some(s) => Some(fields(s)),
    }
}

// The halfword for what a halfword spells.
fn back(half: u16) -> Option<u16> {
    match decode16(half) {
        Some(s) => encode16(s),
        None => None,
    }
}

// `scripts/halfwords_of_llvm` prints how many of these halfwords LLVM decodes, and the hash.
#[test]
fn all_halfwords_of_zcmp_and_zcmt_are_read_as_llvm_reads_them_and_come_back(rt: HostRuntime) {
    let (mut count, mut same, mut sum) = (0_u32, 0_u32, 0);
    for half in 0..=u16::MAX {
        if let Some((kind, first, second)) = added(half) {
            sum = mix(mix(sum, u32::from(half)), kind);
            sum = mix(mix(sum, u32::from(first)), u32::from(second));
            count = count.wrapping_add(1);
            same = same.wrapping_add(u32::from(back(half) == Some(half)));
        }
    }
    assert_eq!(rt; (count, sum, same), (568, 0xC831_4710, 568));
}
