// Groups of items, linked. Expected instructions of Zcmp were worked out by its tables, and the others are those of LLVM's
// assembler (14, `-triple=riscv32 -mattr=+c`).

use crate::answers::expect;
use crate::group_rows::{ENDS, FRAMES, FUSED, LEADS, PAIRS, PROGRAM, SPLIT};
use std::test::Fail;

#[test]
fn groups_are_written_as_pushes_pops_and_moves(rt: HostRuntime) -> Result<(), Fail> {
    for rows in [FUSED, SPLIT] {
        expect(&rt, rows)?;
    }
    Ok(())
}

#[test]
fn what_is_near_to_a_group_is_written_item_by_item(rt: HostRuntime) -> Result<(), Fail> {
    for rows in [FRAMES, ENDS, PAIRS, LEADS] {
        expect(&rt, rows)?;
    }
    Ok(())
}

#[test]
fn a_program_of_two_objects_has_its_text_places_and_counts(rt: HostRuntime) -> Result<(), Fail> {
    expect(&rt, PROGRAM)
}
