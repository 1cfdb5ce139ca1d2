// What the command `list` reads, writes and says.

use crate::fixture::expect;
use std::test::Fail;

// The store's call 0 reads the image. The console's call 0 writes the listing, or else a line.
#[test]
fn the_listing_of_an_image_is_written(rt: HostRuntime) -> Result<(), Fail> {
    let lines =
        r#"list image => -- 0 5 "zcld list 1\nsegment 00010000 10 code\n00010000 c.li x10 x0 3\n00010002 addi x17 x0 93\n00010006 ecall\nsegment 00100000 0 data\nend\n" ""
list y => -- 122 5 "" "read fault\n"
list x => -- 125 5 "" "bad image 1\n"
list elsewhere.elf => -- 125 5 "" "bad image 3\n"
list zeros with f8388608 => -- 125 5 "" "bad image 1\n"
list zeros with f8388609 => -- 122 5 "" "read fault\n"
list image with s0 => -- 122 5 "" "read fault\n"
list image with c0 => -- 123 5 "" "write fault\n"
list image with s0 c0 => -- 122 5 "" ""
list image with c0 c1 => -- 123 5 "" ""
list x with c0 => -- 125 5 "" ""
list image image => -- 120 5 "" "usage\n"
list => -- 120 5 "" "usage\n""#;
    expect(&rt, lines)
}
