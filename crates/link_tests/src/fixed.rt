// Sections that stay as they were compiled.

use crate::answers::expect;
use crate::fixed_rows::{KEPT, LEAVING};
use std::test::Fail;

#[test]
fn branches_and_short_jumps_leave_no_fixed_section(rt: HostRuntime) -> Result<(), Fail> {
    expect(&rt, LEAVING)
}

#[test]
fn code_of_fixed_sections_keeps_its_sizes_and_distances(rt: HostRuntime) -> Result<(), Fail> {
    expect(&rt, KEPT)
}
