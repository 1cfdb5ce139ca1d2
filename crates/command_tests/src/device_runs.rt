// What the commands `run` and `trace` do with devices.

use crate::fixture::expect;
use std::test::Fail;

// A run of the image and a trace of the object have the same answers, and what is stored for output is written.
#[test]
fn a_run_and_a_trace_meet_the_same_devices(rt: HostRuntime) -> Result<(), Fail> {
    let lines = r#"run poll.elf => -- 126 0 "" "stopped 2 BadAccess 00010004\n"
trace poll => -- 126 0 "" "stuck 0 1 4 5 BadAddress\n"
run --devices open poll.elf => -- 105 0 "i" "exited 105\n"
trace --devices open poll => -- 105 0 "i" "exited 105\n"
run --devices told poll.elf => -- 65 5 "A" "exited 65\n"
trace --devices told poll => -- 65 5 "A" "exited 65\n"
run --devices small poll.elf => -- 126 0 "" "stopped 2 BadAccess 00010008\n"
trace --devices small poll => -- 126 0 "" "stuck 0 1 8 5 BadAddress\n"
run --devices told --steps 2 poll.elf => -- 127 5 "" "spent\n"
trace --devices told --steps 2 poll => -- 127 5 "" "spent\n"
run --devices told --steps 3 poll.elf => -- 127 5 "A" "spent\n"
trace --devices told --steps 3 poll => -- 127 5 "A" "spent\n"
run --devices told image => -- 3 5 "" "exited 3\n"
trace --devices told x => -- 3 5 "" "exited 3\n"
run --devices told echo.elf => -- 0 5 "ABBB" "BBBBexited 0\n"
trace --devices told echo => -- 0 5 "ABBB" "BBBBexited 0\n"
run --devices told --plan below load.elf => -- 42 5 "" "exited 42\n""#;
    expect(&rt, lines)
}

// A start after a reset shows where sp is read or leaves the stack, and the registers where they are named.
#[test]
fn a_run_and_a_trace_start_as_after_a_reset(rt: HostRuntime) -> Result<(), Fail> {
    let lines = r#"run woken.elf => -- 126 0 "" "stopped 1 Illegal 00010004\n"
trace woken => -- 126 0 "" "stuck 0 1 0 7 StackPointer\n"
run --devices awake woken.elf => -- 42 5 "" "exited 42\n"
trace --devices awake woken => -- 42 5 "" "exited 42\n"
run --devices awake --steps 4 woken.elf => -- 127 5 "" "spent\n"
trace --devices awake --steps 4 woken => -- 127 5 "" "spent\n"
run --devices registers woken.elf => -- 105 0 "" "exited 105\n"
trace --devices registers woken => -- 126 0 "" "stuck 0 1 0 7 StackPointer\n"
run --devices reset woken.elf => -- 126 0 "" "stopped 1 Illegal 00010004\n"
trace --devices reset woken => -- 126 0 "" "stuck 0 1 4 8 NoInstruction\n"
run --devices registers load.elf => -- 0 0 "" "exited 0\n"
run --devices reset load.elf => -- 126 0 "" "stopped 2 BadAccess 00010004\n"
run --devices awake --plan below load.elf => -- 126 5 "" "stopped 2 BadAccess 00010004\n"
trace --devices reset x => -- 3 0 "" "exited 3\n"
run --devices again woken.elf => -- 125 5 "" "bad devices line 4\n"
trace --devices again woken => -- 125 5 "" "bad devices line 4\n""#;
    expect(&rt, lines)
}

// Without answers the whole input is taken, as without devices.
#[test]
fn input_is_taken_if_devices_have_no_answers(rt: HostRuntime) -> Result<(), Fail> {
    let lines = r#"run --devices open poll.elf with i16777217 => -- 122 0 "" "read fault\n"
trace --devices open poll with i16777217 => -- 122 0 "" "read fault\n"
run --devices told poll.elf with i16777217 => -- 65 8 "A" "exited 65\n"
trace --devices told poll with i16777217 => -- 65 8 "A" "exited 65\n"
run --devices open poll.elf with c0 => -- 122 5 "" "read fault\n"
run --devices open poll.elf with c1 => -- 122 0 "" "read fault\n"
run --devices open poll.elf with c2 => -- 123 0 "" "write fault\n"
run --devices open poll.elf with c3 => -- 105 0 "i" ""
trace --devices open poll with c0 => -- 122 5 "" "read fault\n"
trace --devices open poll with c1 => -- 122 0 "" "read fault\n"
trace --devices open poll with c2 => -- 123 0 "" "write fault\n"
trace --devices open poll with c3 => -- 105 0 "i" """#;
    expect(&rt, lines)
}

// The console's call 0 writes what the device shows, and call 1 the line.
#[test]
fn with_answers_each_call_fails_in_turn(rt: HostRuntime) -> Result<(), Fail> {
    let lines = r#"run --devices told poll.elf with c0 => -- 123 5 "" "write fault\n"
run --devices told poll.elf with c1 => -- 65 5 "A" ""
run --devices told poll.elf with c0 c1 => -- 123 5 "" ""
trace --devices told poll with c0 => -- 123 5 "" "write fault\n"
trace --devices told poll with c1 => -- 65 5 "A" ""
trace --devices told poll with c0 c1 => -- 123 5 "" ""
run --devices told --plan below poll.elf with s0 => -- 122 5 "" "read fault\n"
run --devices told --plan below poll.elf with s1 => -- 122 5 "" "read fault\n"
run --devices told --plan below poll.elf with s2 => -- 122 5 "" "read fault\n"
run --devices told --plan below poll.elf with s3 => -- 65 5 "A" "exited 65\n"
run --devices told poll.elf with s2 => -- 65 5 "A" "exited 65\n"
trace --devices told start main with s1 => -- 122 5 "" "read fault\n"
trace --devices told start main with s2 => -- 122 5 "" "read fault\n"
trace --devices told start main with s3 => -- 0 5 "hi\n" "exited 0\n""#;
    expect(&rt, lines)
}

// All files are read first. Then the image or the objects are judged, after them the devices, and then the plan.
#[test]
fn devices_are_judged_between_the_image_and_the_plan(rt: HostRuntime) -> Result<(), Fail> {
    let lines = r#"run --devices apart poll.elf => -- 125 5 "" "bad devices line 3\n"
run --devices apart bad => -- 125 5 "" "bad image 1\n"
run --devices apart --plan order poll.elf => -- 125 5 "" "bad devices line 3\n"
run --devices apart --plan order bad => -- 125 5 "" "bad image 1\n"
run --devices told --plan order poll.elf => -- 125 5 "" "bad plan order 3\n"
run --devices below --plan told poll.elf => -- 125 5 "" "bad devices line 1\n"
run --devices y bad => -- 122 5 "" "read fault\n"
run --devices apart --plan y bad => -- 122 5 "" "read fault\n"
run --devices apart poll.elf with c0 => -- 125 5 "" ""
run --devices low poll.elf => -- 125 5 "" "bad devices line 2\n"
run --text 08000000 --data 20000000 --stack 20600000 --devices low elsewhere.elf => -- 0 0 "hi\n" "exited 0\n"
trace --text 08000000 --data 20000000 --stack 20600000 --devices low x => -- 3 0 "" "exited 3\n"
trace --devices low x => -- 125 5 "" "bad devices line 2\n"
trace --devices apart poll => -- 125 5 "" "bad devices line 3\n"
trace --devices apart x z => -- 121 5 "" "refused 1 9 Duplicate _start\n"
trace --devices y x z => -- 122 5 "" "read fault\n"
trace --devices told x z => -- 121 5 "" "refused 1 9 Duplicate _start\n""#;
    expect(&rt, lines)
}

#[test]
fn a_text_of_devices_is_read_up_to_its_limit(rt: HostRuntime) -> Result<(), Fail> {
    let lines = r#"run --devices zeros image with f8388608 => -- 125 5 "" "bad devices line 1\n"
run --devices zeros image with f8388609 => -- 122 5 "" "read fault\n"
trace --devices zeros x with f8388608 => -- 125 5 "" "bad devices line 1\n"
trace --devices zeros x with f8388609 => -- 122 5 "" "read fault\n"
run --devices told --devices told image => -- 120 5 "" "usage\n"
run --devices => -- 120 5 "" "usage\n"
trace --devices told --devices told x => -- 120 5 "" "usage\n"
trace --devices told => -- 120 5 "" "usage\n""#;
    expect(&rt, lines)
}
