// What commands do with names of sections of code that stay as they are.

use crate::fixture::expect;
use std::test::Fail;

// The second section is named `.trap.v`.
#[test]
fn a_named_section_keeps_its_sizes_and_is_counted(rt: HostRuntime) -> Result<(), Fail> {
    let lines =
        r#"zc --fixed .trap --out o --cert c traps => ++ 0 5 "plain text 32\nzc text 28\nitems 8\nshort 2\nlong 0\npush 0\npop 0\nmove 0\ntable 0\nslots 0\nnet 0\nfixed 1\n" ""
zc --fixed .trap.v --out o --cert c traps => ++ 0 5 "plain text 32\nzc text 28\nitems 8\nshort 2\nlong 0\npush 0\npop 0\nmove 0\ntable 0\nslots 0\nnet 0\nfixed 1\n" ""
zc --out o --cert c traps => ?+ 0 5 "plain text 32\nzc text 20\nitems 8\nshort 6\nlong 0\npush 0\npop 0\nmove 0\ntable 0\nslots 0\nnet 0\n" ""
zc --fixed .tra,.trap.v. --out o --cert c traps => ?+ 0 5 "plain text 32\nzc text 20\nitems 8\nshort 6\nlong 0\npush 0\npop 0\nmove 0\ntable 0\nslots 0\nnet 0\nfixed 0\n" ""
zc --fixed .text --out o --cert c traps => ?+ 0 5 "plain text 32\nzc text 24\nitems 8\nshort 4\nlong 0\npush 0\npop 0\nmove 0\ntable 0\nslots 0\nnet 0\nfixed 1\n" ""
zc --fixed=.text,.trap --out o --cert c traps => ?+ 0 5 "plain text 32\nzc text 32\nitems 8\nshort 0\nlong 0\npush 0\npop 0\nmove 0\ntable 0\nslots 0\nnet 0\nfixed 2\n" ""
zc --fixed .text --out o --cert c x => ?+ 0 5 "plain text 12\nzc text 12\nitems 3\nshort 0\nlong 0\npush 0\npop 0\nmove 0\ntable 0\nslots 0\nnet 0\nfixed 1\n" """#;
    expect(&rt, lines)
}

#[test]
fn other_commands_take_names_too(rt: HostRuntime) -> Result<(), Fail> {
    let lines = r#"share --fixed .text --out o --plan cells cell => +- 7 0 "" "exited 7\n"
plain --fixed .trap --out o traps => ?- 0 5 "plain text 32\n" ""
trace --fixed .trap traps => -- 3 0 "" "exited 3\n"
run --fixed .text image => -- 3 0 "" "exited 3\n"
list --fixed .text,.trap image => -- 0 5 "zcld list 1\nsegment 00010000 10 code\n00010000 c.li x10 x0 3\n00010002 addi x17 x0 93\n00010006 ecall\nsegment 00100000 0 data\nend\n" """#;
    expect(&rt, lines)
}

// The branch out of `.text.b` and the jump out of `.text`, of two bytes each, lead to another section.
#[test]
fn no_short_branch_leaves_a_named_section(rt: HostRuntime) -> Result<(), Fail> {
    let lines = r#"plain --fixed .text.b --out o far => -- 121 5 "" "refused 0 15 Range\n"
plain --fixed .text --out o far => -- 121 5 "" "refused 0 15 Range\n"
plain --fixed .text.b --out o main far => -- 121 5 "" "refused 1 15 Range\n"
zc --fixed .text.b --out o --cert c far => -- 121 5 "" "refused 0 15 Range\n"
trace --fixed .text.b far => -- 121 5 "" "refused 0 15 Range\n"
gc --fixed .text.b --out p far => -- 121 5 "" "refused 0 15 Range\n"
merge --fixed .text.b --out p far => -- 121 5 "" "refused 0 15 Range\n"
share --fixed .text.b --out o --plan cells far => -- 121 5 "" "refused 0 15 Range\n"
plain --fixed .text.u --out o far => ?- 0 5 "plain text 260\n" """#;
    expect(&rt, lines)
}

#[test]
fn gc_keeps_a_named_section_and_merge_leaves_it(rt: HostRuntime) -> Result<(), Fail> {
    let lines =
        r#"gc --fixed .text.f --out p unnamed => ?- 0 5 "sections 2 of 2\ncode 20 of 20\n" ""
gc --fixed .text.u --out p far => ?- 0 5 "sections 3 of 3\ncode 258 of 258\n" ""
merge --fixed .text --out p ends => +- 0 5 "tails 0\nbytes 0\n" ""
merge --fixed .front --out p wide => ?- 0 5 "tails 0\nbytes 0\n" """#;
    expect(&rt, lines)
}

#[test]
fn names_are_neither_empty_nor_given_twice(rt: HostRuntime) -> Result<(), Fail> {
    let lines = r#"plain --fixed a,,b --out o x => -- 120 5 "" "usage\n"
plain --fixed  --out o x => -- 120 5 "" "usage\n"
plain --out o x --fixed => -- 120 5 "" "usage\n"
zc --fixed= --out o --cert c x => -- 120 5 "" "usage\n"
run --fixed a,b,a image => -- 120 5 "" "usage\n"
trace --fixed , x => -- 120 5 "" "usage\n"
gc --fixed a --fixed b --out p unnamed => -- 120 5 "" "usage\n"
merge --fixed .text,.text --out p ends => -- 120 5 "" "usage\n"
share --fixed ,a --out o --plan cells cell => -- 120 5 "" "usage\n"
list --fixed a, image => -- 120 5 "" "usage\n"
check --fixed a single => -- 120 5 "" "usage\n"
make --fixed a 5 0 => -- 120 5 "" "usage\n""#;
    expect(&rt, lines)
}
