// What the command `gc` puts, writes and says.

use crate::fixture::expect;
use std::test::Fail;

#[test]
fn code_that_nothing_reaches_goes_and_other_code_stays(rt: HostRuntime) -> Result<(), Fail> {
    let lines = r#"gc --out p unnamed => +- 0 5 "sections 1 of 2\ncode 12 of 20\n" ""
gc --out p named => +- 0 5 "sections 2 of 2\ncode 20 of 20\n" ""
gc --out p start main => ++ 0 5 "sections 2 of 2\ncode 64 of 64\n" """#;
    expect(&rt, lines)
}

// The first calls of the store read the objects, and its next calls put the results. The console's call 0 writes how much
// code is kept, or else the outcome's line.
#[test]
fn the_results_are_put_in_turn_and_then_the_lines_are_written(rt: HostRuntime) -> Result<(), Fail> {
    let lines = r#"gc --out p unnamed with s2 c2 => +- 0 5 "sections 1 of 2\ncode 12 of 20\n" ""
gc --out p start main with s4 c2 => ++ 0 5 "sections 2 of 2\ncode 64 of 64\n" ""
gc --out p start main with s0 => -- 122 5 "" "read fault\n"
gc --out p start main with s1 => -- 122 5 "" "read fault\n"
gc --out p start main with s2 => -- 123 5 "" "write fault\n"
gc --out p start main with s3 => +- 123 5 "" "write fault\n"
gc --out p start main with c0 => ++ 123 5 "" "write fault\n"
gc --out p start main with s0 c0 => -- 122 5 "" ""
gc --out p start main with s2 c0 => -- 123 5 "" ""
gc --out p start main with s3 c0 => +- 123 5 "" ""
gc --out p start main with c0 c1 => ++ 123 5 "" """#;
    expect(&rt, lines)
}

#[test]
fn nothing_is_put_of_objects_that_have_a_fault_before_or_after(
    rt: HostRuntime,
) -> Result<(), Fail> {
    let lines = r#"gc --out p far => -- 119 5 "" "broken 0 15 Range\n"
gc --out p far with c0 => -- 119 5 "" ""
gc --out p start => -- 121 5 "" "refused 0 10 Undefined main\n"
gc --out p start with c0 => -- 121 5 "" ""
gc --out p main => -- 121 5 "" "refused 0 16 NoEntry\n"
gc --out p unnamed named => -- 121 5 "" "refused 1 9 Duplicate _start\n"
gc --out p bad => -- 121 5 "" "refused 0 1 NotElf\n"
gc --out p y => -- 122 5 "" "read fault\n"
gc --out p zeros with f4194305 => -- 122 5 "" "read fault\n"
gc --out p => -- 120 5 "" "usage\n"
gc unnamed => -- 120 5 "" "usage\n"
gc --out p --text 00011000 unnamed => -- 120 5 "" "usage\n"
gc --out p --out p unnamed => -- 120 5 "" "usage\n""#;
    expect(&rt, lines)
}
