// What the command `trace` takes, writes and says.

use crate::fixture::expect;
use std::test::Fail;

// The store's call 0 reads the object. The console's calls 0 and 1 take the input and find its end. Then come the
// program's writes, to standard output and to standard error, and the line.
#[test]
fn what_an_object_writes_goes_out_before_the_line(rt: HostRuntime) -> Result<(), Fail> {
    let lines = r#"trace x => -- 3 0 "" "exited 3\n"
trace --steps 2 x => -- 127 0 "" "spent\n"
trace y => -- 122 5 "" "read fault\n"
trace x z => -- 121 5 "" "refused 1 9 Duplicate _start\n"
trace x with s0 => -- 122 5 "" "read fault\n"
trace x with c0 => -- 122 5 "" "read fault\n"
trace x with c1 => -- 122 0 "" "read fault\n"
trace x with s0 c0 => -- 122 5 "" ""
trace x with c0 c1 => -- 122 5 "" ""
trace x with c1 c2 => -- 122 0 "" ""
trace x with c2 => -- 3 0 "" ""
trace --steps 2 x with c2 => -- 127 0 "" ""
trace x with s1 c4 => -- 3 0 "" "exited 3\n"
trace x with i5000 c1 => -- 122 8 "" "read fault\n"
trace x with i16777216 => -- 3 0 "" "exited 3\n"
trace x with i16777217 => -- 122 0 "" "read fault\n"
trace bad with c0 => -- 121 5 "" ""
trace echo => -- 0 0 "inpu" "texited 0\n"
trace echo with c2 => -- 123 0 "" "write fault\n"
trace echo with c3 => -- 123 0 "inpu" "write fault\n"
trace echo with c4 => -- 0 0 "inpu" "t"
trace echo with c2 c3 => -- 123 0 "" ""
trace echo with c3 c4 => -- 123 0 "inpu" """#;
    expect(&rt, lines)
}
