// What the command `merge` puts, writes and says.

use crate::fixture::expect;
use std::test::Fail;

#[test]
fn an_equal_end_becomes_a_jump_unless_a_block_begins_in_it(rt: HostRuntime) -> Result<(), Fail> {
    let lines = r#"merge --out p ends => +- 0 5 "tails 1\nbytes 4\n" ""
merge --out p inner => +- 0 5 "tails 0\nbytes 0\n" ""
merge --out p start main => ++ 0 5 "tails 0\nbytes 0\n" """#;
    expect(&rt, lines)
}

// The first calls of the store read the objects, and its next calls put the results. The console's call 0 writes how much
// was removed, or else the outcome's line.
#[test]
fn the_results_are_put_in_turn_and_then_the_lines_are_written(rt: HostRuntime) -> Result<(), Fail> {
    let lines = r#"merge --out p ends with s2 c2 => +- 0 5 "tails 1\nbytes 4\n" ""
merge --out p start main with s4 c2 => ++ 0 5 "tails 0\nbytes 0\n" ""
merge --out p start main with s0 => -- 122 5 "" "read fault\n"
merge --out p start main with s1 => -- 122 5 "" "read fault\n"
merge --out p start main with s2 => -- 123 5 "" "write fault\n"
merge --out p start main with s3 => +- 123 5 "" "write fault\n"
merge --out p start main with c0 => ++ 123 5 "" "write fault\n"
merge --out p start main with s0 c0 => -- 122 5 "" ""
merge --out p start main with s2 c0 => -- 123 5 "" ""
merge --out p start main with s3 c0 => +- 123 5 "" ""
merge --out p start main with c0 c1 => ++ 123 5 "" """#;
    expect(&rt, lines)
}

#[test]
fn nothing_is_put_of_objects_that_have_a_fault_before_or_after(
    rt: HostRuntime,
) -> Result<(), Fail> {
    let lines = r#"merge --out p wide => -- 119 5 "" "broken 0 15 Range\n"
merge --out p wide with c0 => -- 119 5 "" ""
merge --out p start => -- 121 5 "" "refused 0 10 Undefined main\n"
merge --out p start with c0 => -- 121 5 "" ""
merge --out p main => -- 121 5 "" "refused 0 16 NoEntry\n"
merge --out p ends inner => -- 121 5 "" "refused 1 9 Duplicate _start\n"
merge --out p bad => -- 121 5 "" "refused 0 1 NotElf\n"
merge --out p y => -- 122 5 "" "read fault\n"
merge --out p zeros with f4194305 => -- 122 5 "" "read fault\n"
merge --out p => -- 120 5 "" "usage\n"
merge ends => -- 120 5 "" "usage\n"
merge --out p --text 00011000 ends => -- 120 5 "" "usage\n"
merge --out p --out p ends => -- 120 5 "" "usage\n""#;
    expect(&rt, lines)
}
