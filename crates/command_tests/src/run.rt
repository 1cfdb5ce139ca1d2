// What the command `run` takes, writes and says.

use crate::fixture::expect;
use std::test::Fail;

// The store's call 0 reads the image. The console's calls 0 and 1 take the input and find its end. Then come the
// program's writes, to standard output and to standard error, and the line.
#[test]
fn what_an_image_writes_goes_out_before_the_line(rt: HostRuntime) -> Result<(), Fail> {
    let lines = r#"run image => -- 3 0 "" "exited 3\n"
run --steps 2 image => -- 127 0 "" "spent\n"
run y => -- 122 5 "" "read fault\n"
run x => -- 125 5 "" "bad image 1\n"
run image with s0 => -- 122 5 "" "read fault\n"
run image with c0 => -- 122 5 "" "read fault\n"
run image with c1 => -- 122 0 "" "read fault\n"
run image with s0 c0 => -- 122 5 "" ""
run image with c0 c1 => -- 122 5 "" ""
run image with c1 c2 => -- 122 0 "" ""
run image with c2 => -- 3 0 "" ""
run --steps 2 image with c2 => -- 127 0 "" ""
run image with s1 c4 => -- 3 0 "" "exited 3\n"
run image with i5000 c1 => -- 122 8 "" "read fault\n"
run image with i16777216 => -- 3 0 "" "exited 3\n"
run image with i16777217 => -- 122 0 "" "read fault\n"
run zeros with f8388608 => -- 125 5 "" "bad image 1\n"
run zeros with f8388609 => -- 122 5 "" "read fault\n"
run x with c0 => -- 125 5 "" ""
run echo.elf => -- 0 0 "inpu" "texited 0\n"
run echo.elf with c2 => -- 123 0 "" "write fault\n"
run echo.elf with c3 => -- 123 0 "inpu" "write fault\n"
run echo.elf with c4 => -- 0 0 "inpu" "t"
run echo.elf with c2 c3 => -- 123 0 "" ""
run echo.elf with c3 c4 => -- 123 0 "inpu" """#;
    expect(&rt, lines)
}

// Without an input the console's call 0 finds its end, call 1 writes what the program does, and call 2 the line.
#[test]
fn without_an_input_each_call_fails_in_turn(rt: HostRuntime) -> Result<(), Fail> {
    let lines = r#"run hello.elf with i0 => -- 0 0 "hi\n" "exited 0\n"
run hello.elf with i0 c0 => -- 122 0 "" "read fault\n"
run hello.elf with i0 c1 => -- 123 0 "" "write fault\n"
run hello.elf with i0 c2 => -- 0 0 "hi\n" ""
run hello.elf with i0 c0 c1 => -- 122 0 "" ""
run hello.elf with i0 c1 c2 => -- 123 0 "" ""
run hello.elf with c2 => -- 123 0 "" "write fault\n"
run hello.elf with c3 => -- 0 0 "hi\n" """#;
    expect(&rt, lines)
}

// An image that lies elsewhere has a segment out of its place in the standard map. The plan's byte lies below sp in the
// standard map alone.
#[test]
fn an_image_runs_in_the_map_of_the_words(rt: HostRuntime) -> Result<(), Fail> {
    let lines = r#"run elsewhere.elf => -- 125 5 "" "bad image 3\n"
run --text 08000000 --data 20000000 --stack 20600000 elsewhere.elf => -- 0 0 "hi\n" "exited 0\n"
run --text 08000000 --data 20000000 --stack 20600000 hello.elf => -- 125 5 "" "bad image 3\n"
run --data 00200000 hello.elf => -- 125 5 "" "bad image 3\n"
run --stack 10500000 hello.elf => -- 0 0 "hi\n" "exited 0\n"
run --stack 10500000 --plan below load.elf => -- 0 0 "" "exited 0\n"
run --text 00000000 image => -- 120 5 "" "usage\n"
run --stack 1 image => -- 120 5 "" "usage\n""#;
    expect(&rt, lines)
}

// The store's call 0 reads the image, and call 1 the plan.
#[test]
fn an_image_runs_under_a_plan_that_is_judged_after_it(rt: HostRuntime) -> Result<(), Fail> {
    let lines = r#"run load.elf => -- 0 0 "" "exited 0\n"
run --plan below load.elf => -- 42 0 "" "exited 42\n"
run --plan below --steps 3 load.elf => -- 42 0 "" "exited 42\n"
run --steps 2 --plan below load.elf => -- 127 0 "" "spent\n"
run --plan outside image => -- 3 0 "" "exited 3\n"
run --plan number image => -- 125 5 "" "bad plan line 2\n"
run --plan order image => -- 125 5 "" "bad plan order 3\n"
run --plan order bad => -- 125 5 "" "bad image 1\n"
run --plan y bad => -- 122 5 "" "read fault\n"
run --plan zeros image with f8388608 => -- 125 5 "" "bad plan line 1\n"
run --plan zeros image with f8388609 => -- 122 5 "" "read fault\n"
run --plan below load.elf with s0 => -- 122 5 "" "read fault\n"
run --plan below load.elf with s1 => -- 122 5 "" "read fault\n"
run --plan below load.elf with s1 c0 => -- 122 5 "" ""
run --plan below load.elf with c2 => -- 42 0 "" ""
run --plan number image with c0 => -- 125 5 "" ""
run --plan below --plan below image => -- 120 5 "" "usage\n"
run --plan => -- 120 5 "" "usage\n""#;
    expect(&rt, lines)
}
