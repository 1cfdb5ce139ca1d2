// What the command `zc` puts and says.

use crate::fixture::expect;
use std::test::Fail;

// The store's call 0 reads the object, call 1 puts the image, and call 2 the certificate. The console's call 0
// writes the report, or else a line.
#[test]
fn files_are_put_in_turn_and_then_the_report_is_written(rt: HostRuntime) -> Result<(), Fail> {
    let lines = r#"zc --out o --cert o x => -- 120 5 "" "usage\n"
zc --out o --cert o x with c0 => -- 120 5 "" ""
zc --out o --cert c x => ++ 0 5 "report" ""
zc --cert c --out o x with s3 c2 => ++ 0 5 "report" ""
zc --out o --cert c y => -- 122 5 "" "read fault\n"
zc --out o --cert c x with s0 => -- 122 5 "" "read fault\n"
zc --out o --cert c x with s1 => -- 123 5 "" "write fault\n"
zc --out o --cert c x with s2 => +- 123 5 "" "write fault\n"
zc --out o --cert c x with c0 => ++ 123 5 "" "write fault\n"
zc --out o --cert c x with s0 c0 => -- 122 5 "" ""
zc --out o --cert c x with s1 c0 => -- 123 5 "" ""
zc --out o --cert c x with s2 c0 => +- 123 5 "" ""
zc --out o --cert c x with c0 c1 => ++ 123 5 "" """#;
    expect(&rt, lines)
}

// Of the addresses that spell no command, text is at 0, data begins too near to it, and one has a single digit.
#[test]
fn an_image_lies_in_the_map_of_the_words(rt: HostRuntime) -> Result<(), Fail> {
    let lines = r#"plain --text 00000000 --out o x => -- 120 5 "" "usage\n"
plain --text 08000000 --data 20000000 --stack 20600000 --out o x => +- 0 5 "plain text 12\n" ""
zc --text 08000000 --data 20000000 --stack 20600000 --out o --cert c start main => ++ 0 5 "report of two" ""
trace --text 08000000 --data 20000000 --stack 20600000 start main => -- 0 0 "hi\n" "exited 0\n"
zc --text 08000000 --data 080e0000 --out o --cert c x => -- 120 5 "" "usage\n"
trace --stack 1 x => -- 120 5 "" "usage\n""#;
    expect(&rt, lines)
}

#[test]
fn compressed_objects_are_linked_and_other_flags_refused(rt: HostRuntime) -> Result<(), Fail> {
    let lines = r#"plain --out o short => +- 0 5 "plain text 10\n" ""
zc --out o --cert c short => ++ 0 5 "report of short" ""
trace short => -- 3 0 "" "exited 3\n"
run short.elf => -- 3 0 "" "exited 3\n"
plain --out o blank => ?- 0 5 "plain text 2\n" ""
trace blank => -- 126 0 "" "stuck 0 1 0 8 NoInstruction\n"
plain --out o floats => -- 121 5 "" "refused 0 3 Flags\n"
zc --out o --cert c floats => -- 121 5 "" "refused 0 3 Flags\n"
trace short floats => -- 121 5 "" "refused 1 3 Flags\n""#;
    expect(&rt, lines)
}

// What is traced of an object with pushes and pops is what its image does, whether or not they are interrupted.
#[test]
fn code_of_zcmp_is_traced_and_run_alike(rt: HostRuntime) -> Result<(), Fail> {
    let lines = r#"trace frames => -- 66 0 "A" "exited 66\n"
plain --out o frames => +- 0 5 "plain text 36\n" ""
zc --out o --cert c frames => ++ 0 5 "plain text 36\nzc text 36\nitems 13\nshort 8\nlong 0\npush 0\npop 0\nmove 0\ntable 0\nslots 0\nnet 0\n" ""
run frames.elf => -- 66 0 "A" "exited 66\n"
run --plan frames.plan frames.elf => -- 66 0 "A" "exited 66\n""#;
    expect(&rt, lines)
}

// The line is written in three pieces, of which the second is the symbol's name.
#[test]
fn all_objects_are_read_and_then_judged(rt: HostRuntime) -> Result<(), Fail> {
    let lines = r#"zc --out o --cert c bad x with s1 => -- 122 5 "" "read fault\n"
plain --out o bad x with s1 => -- 122 5 "" "read fault\n"
trace bad x with s1 => -- 122 5 "" "read fault\n"
zc --out o --cert c zeros with f4194304 => -- 121 5 "" "refused 0 1 NotElf\n"
zc --out o --cert c zeros with f4194305 => -- 122 5 "" "read fault\n"
plain --out o zeros with f4194304 => -- 121 5 "" "refused 0 1 NotElf\n"
plain --out o zeros with f4194305 => -- 122 5 "" "read fault\n"
trace zeros with f4194304 => -- 121 5 "" "refused 0 1 NotElf\n"
trace zeros with f4194305 => -- 122 5 "" "read fault\n"
zc --out o --cert c x bad => -- 121 5 "" "refused 1 1 NotElf\n"
zc --out o --cert c x bad with c0 => -- 121 5 "" ""
zc --out o --cert c x z => -- 121 5 "" "refused 1 9 Duplicate _start\n"
zc --out o --cert c x z with c0 => -- 121 5 "" ""
zc --out o --cert c x z with c1 => -- 121 5 "" "refused 1 9 Duplicate "
zc --out o --cert c x z with c2 => -- 121 5 "" "refused 1 9 Duplicate _start""#;
    expect(&rt, lines)
}
