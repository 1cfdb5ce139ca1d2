// What the command `share` reads, takes, puts, writes and says.

use crate::fixture::expect;
use std::test::Fail;

// The store's call 0 reads the object, call 1 the plan, and call 2 puts the image. The console's calls 0 and 1 take the
// input and find its end, and call 2 writes the line.
#[test]
fn cells_are_written_before_the_commits_that_the_plan_names(rt: HostRuntime) -> Result<(), Fail> {
    let lines = r#"share --out o --plan cells cell => +- 7 0 "" "exited 7\n"
share --out o --plan late cell => +- 0 0 "" "exited 0\n"
share --out o --plan beside cell => +- 0 0 "" "exited 0\n"
share --steps 3 --plan cells --out o cell => +- 127 0 "" "spent\n"
share --out o --plan cells cell with i0 => +- 7 0 "" "exited 7\n"
share --out o --plan cells cell with i16777216 => +- 7 0 "" "exited 7\n"
share --out o --plan cells cell with i16777217 => -- 122 0 "" "read fault\n"
share --out o --plan cells cell with s0 => -- 122 5 "" "read fault\n"
share --out o --plan cells cell with s1 => -- 122 5 "" "read fault\n"
share --out o --plan cells cell with s2 => -- 123 0 "" "write fault\n"
share --out o --plan cells cell with c0 => -- 122 5 "" "read fault\n"
share --out o --plan cells cell with c1 => -- 122 0 "" "read fault\n"
share --out o --plan cells cell with c2 => +- 7 0 "" ""
share --out o --plan cells cell with s2 c2 => -- 123 0 "" ""
share --out o cell => -- 120 5 "" "usage\n""#;
    expect(&rt, lines)
}

// The image stands under OUT before the program's first write, which is the console's call 2.
#[test]
fn the_image_is_put_before_it_runs(rt: HostRuntime) -> Result<(), Fail> {
    let lines = r#"share --out o --plan cells echo => +- 0 0 "inpu" "texited 0\n"
share --out o --plan cells echo with s2 => -- 123 0 "" "write fault\n"
share --out o --plan cells echo with c2 => +- 123 0 "" "write fault\n"
share --out o --plan cells echo with c3 => +- 123 0 "inpu" "write fault\n"
share --out o --plan cells echo with c4 => +- 0 0 "inpu" "t""#;
    expect(&rt, lines)
}

// The plan is read before an object is judged, and judged after all of them.
#[test]
fn objects_are_judged_before_the_plan(rt: HostRuntime) -> Result<(), Fail> {
    let lines = r#"share --out o --plan below cell => -- 125 5 "" "bad plan line 1\n"
share --out o --plan below bad => -- 121 5 "" "refused 0 1 NotElf\n"
share --out o --plan below x z => -- 121 5 "" "refused 1 9 Duplicate _start\n"
share --out o --plan y bad => -- 122 5 "" "read fault\n"
share --out o --plan below cell with c0 => -- 125 5 "" ""
share --out o --plan zeros cell with f8388608 => -- 125 5 "" "bad plan line 1\n"
share --out o --plan zeros cell with f8388609 => -- 122 5 "" "read fault\n""#;
    expect(&rt, lines)
}
