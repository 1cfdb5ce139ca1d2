// The generated plans: a hash of their interrupts (FNV-1a of 64 bits, a number at a time). The hashes were computed by
// a program in another language.

ghost use Rattle.std.specs.Prelude.{◌≤◌};

use interrupt_plan::make_plan::make_plan;
use interrupt_plan::plan::PlanCut;
use std::alloc::{AllocError, Global};
use std::test::Fail;

const OFFSET_BASIS: u64 = 0xcbf2_9ce4_8422_2325;

const PRIME: u64 = 0x100_0000_01b3;

fn mixed(hash: u64, value: u64) -> u64 {
    (hash ^ value).wrapping_mul(PRIME)
}

// A hash with one more interrupt mixed in: its commit, the count of accesses, each access, and each byte with its
// address.
fn mixed_cut(hash: u64, cut: &PlanCut) -> u64 {
    let mut mixed_so_far = mixed(mixed(hash, cut.at), cut.done.len() as u64);
    for access in &cut.done {
        mixed_so_far = mixed(mixed_so_far, u64::from(*access));
    }
    for byte in &cut.dirt {
        mixed_so_far = mixed(mixed(mixed_so_far, u64::from(byte.0)), u64::from(byte.1));
    }
    mixed_so_far
}

fn hash_of(alloc: Global, number: u64, count: u32) -> Result<u64, AllocError>
    requires { count ≤ 10000 }
{
    let plan = make_plan(alloc, number, count)?;
    let mut hash = OFFSET_BASIS;
    for i in 0..plan.cut_count() {
        hash = mixed_cut(hash, plan.cut(i));
    }
    Ok(hash)
}

#[test]
fn plans_are_those_of_their_number(rt: HostRuntime) -> Result<(), Fail> {
    assert_eq!(rt; hash_of(rt.alloc(), 5, 1)?, 0x51d0_be1f_fcbe_e0d1);
    assert_eq!(rt; hash_of(rt.alloc(), 7, 200)?, 0x4639_9619_8568_fe1b);
    assert_eq!(rt; hash_of(rt.alloc(), 0, 50)?, 0x625b_42a1_95a5_ba1b);
    assert_eq!(rt;
        hash_of(rt.alloc(), 18_446_744_073_709_551_615, 200)?,
        0xe58b_956a_b516_5b95
    );
    Ok(())
}
