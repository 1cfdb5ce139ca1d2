// What the command `plain` puts, writes and says.

use crate::fixture::expect;
use std::test::Fail;

// The store's call 0 reads the object, and call 1 puts the image. The console's call 0 writes the text's length,
// or else a line.
#[test]
fn the_image_is_put_and_then_the_length_written(rt: HostRuntime) -> Result<(), Fail> {
    let lines = r#"plain --out o x => +- 0 5 "plain text 12\n" ""
plain --out o x with s2 c2 => +- 0 5 "plain text 12\n" ""
plain --out o y => -- 122 5 "" "read fault\n"
plain --out o x with s0 => -- 122 5 "" "read fault\n"
plain --out o x with s1 => -- 123 5 "" "write fault\n"
plain --out o x with c0 => +- 123 5 "" "write fault\n"
plain --out o bad with c0 => -- 121 5 "" ""
plain --out o x with s0 c0 => -- 122 5 "" ""
plain --out o x with s1 c0 => -- 123 5 "" ""
plain --out o x with c0 c1 => +- 123 5 "" """#;
    expect(&rt, lines)
}
