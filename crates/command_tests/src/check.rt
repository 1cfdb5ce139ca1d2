// What the command `check` reads, writes and says.

use crate::fixture::expect;
use std::test::Fail;

// The store's call 0 reads the certificate. The console's call 0 writes what the slots save, or else a line.
#[test]
fn what_the_slots_of_an_accepted_certificate_save_is_written(rt: HostRuntime) -> Result<(), Fail> {
    let lines = r#"check single => -- 0 5 "net 0\n" ""
check calls => -- 0 5 "net 16\n" ""
check dear => -- 125 5 "" "rejected\n"
check zero => -- 125 5 "" "bad certificate line 2\n"
check cut => -- 125 5 "" "bad certificate line 5\n"
check x => -- 125 5 "" "bad certificate line 1\n"
check y => -- 122 5 "" "read fault\n"
check single with s1 c2 => -- 0 5 "net 0\n" ""
check zeros with f8388608 => -- 125 5 "" "bad certificate line 1\n"
check zeros with f8388609 => -- 122 5 "" "read fault\n"
check single with s0 => -- 122 5 "" "read fault\n"
check single with c0 => -- 123 5 "" "write fault\n"
check single with s0 c0 => -- 122 5 "" ""
check zero with c0 => -- 125 5 "" ""
check dear with c0 => -- 125 5 "" ""
check single with c0 c1 => -- 123 5 "" ""
check single calls => -- 120 5 "" "usage\n"
check => -- 120 5 "" "usage\n""#;
    expect(&rt, lines)
}
