// Short and long forms, at the distances where they begin and end.

use crate::rows::expect;
use psabi_reloc::reaches::jal_reaches;
use rv_decode::instr::{BranchOp, Instr};
use std::alloc::Global;
use std::test::Fail;
use zc_base::reg::Reg;
use zca_zcb_pass::long::long_branch;

// The long form of `beq a0, a1`, if a jump reaches so far.
fn long(distance: i32) -> Option<[u32; 2]> {
    let i = Instr::Branch {
        op: BranchOp::Beq,
        first: Reg::new(10).unwrap(),
        second: Reg::new(11).unwrap(),
        distance: 0,
    };
    if jal_reaches(distance.checked_sub(4)?) {
        Some(long_branch(i, distance))
    } else {
        None
    }
}

/// The long form of `beq a0, a1`.
pub fn long_form(alloc: Global, distance: &str) -> Result<String, Fail> {
    let [over, jump] = long(distance.parse::<i32>()?).ok_or("out of reach")?;
    Ok(format!(in alloc; "{over:08X} {jump:08X}")?)
}

const SHORT: &str = "00A58533 = 952e | add a0,a1,a0
02050513 = none | addi a0,a0,32
00300513 = 450d | li a0,3
00000073 = none | ecall";

#[test]
fn instructions_have_their_short_forms(rt: HostRuntime) -> Result<(), Fail> {
    expect(&rt, "short_of", SHORT)
}

const BRANCHES: &str = "00050063 254 = cd7d | beqz a0
00050063 256 = none
00050063 -256 = d101
00050063 -258 = none
00B50063 254 = none | beq a0,a1
00B50063 -256 = none";

const JUMPS: &str = "0000006F 2046 = affd | j
0000006F 2048 = none
0000006F -2048 = b001
0000006F -2050 = none
000002EF 2046 = none | jal t0
000002EF -2048 = none";

// `bne a0, a1` over a jump: the first that a branch doesn't reach, and the farthest that a jump does.
const LONG: &str = "4096 = 00B51463 7FD0006F
1048578 = 00B51463 7FFFF06F
-1048572 = 00B51463 8000006F";

#[test]
fn distances_decide(rt: HostRuntime) -> Result<(), Fail> {
    expect(&rt, "short_branch", BRANCHES)?;
    expect(&rt, "short_jump", JUMPS)?;
    expect(&rt, "long_branch", LONG)
}
