// Links for chips with some of the extensions.

use crate::answers::expect_on;
use crate::chip_rows::{
    ALL, ALL_ROWS, FORMS, FORMS_ROWS, GROUPS, GROUPS_ROWS, HALFWORDS, HALFWORDS_ROWS, JUMPS,
    JUMPS_ROWS, LARGE_FRAME, LARGE_FRAME_ROWS, LOWER_PART, LOWER_PART_ROWS,
};
use std::test::Fail;

#[test]
fn forms_of_zcb_need_zcb(rt: HostRuntime) -> Result<(), Fail> {
    expect_on(&rt, FORMS, FORMS_ROWS)?;
    expect_on(&rt, LOWER_PART, LOWER_PART_ROWS)?;
    expect_on(&rt, HALFWORDS, HALFWORDS_ROWS)
}

#[test]
fn groups_need_zcmp(rt: HostRuntime) -> Result<(), Fail> {
    expect_on(&rt, GROUPS, GROUPS_ROWS)?;
    expect_on(&rt, LARGE_FRAME, LARGE_FRAME_ROWS)
}

#[test]
fn a_table_needs_zcmt(rt: HostRuntime) -> Result<(), Fail> {
    expect_on(&rt, JUMPS, JUMPS_ROWS)
}

#[test]
fn each_chip_has_its_own_layout(rt: HostRuntime) -> Result<(), Fail> {
    expect_on(&rt, ALL, ALL_ROWS)
}
