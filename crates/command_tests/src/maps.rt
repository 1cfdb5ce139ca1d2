// What the commands do in the maps of their words, and for the chips that these name.

use crate::fixture::expect;
use std::test::Fail;

// The code has two items that Zcb makes shorter, and a push.
#[test]
fn an_image_has_only_what_the_word_names(rt: HostRuntime) -> Result<(), Fail> {
    let lines =
        r#"zc --extensions zca --out o --cert c room16 => ?+ 0 5 "plain text 36\nzc text 28\nitems 9\nshort 4\nlong 0\npush 0\npop 0\nmove 0\ntable 0\nslots 0\nnet 0\n" ""
zc --extensions zca_zcb --out o --cert c room16 => ?+ 0 5 "plain text 36\nzc text 24\nitems 9\nshort 6\nlong 0\npush 0\npop 0\nmove 0\ntable 0\nslots 0\nnet 0\n" ""
zc --extensions zca_zcmp --out o --cert c room16 => ?+ 0 5 "plain text 36\nzc text 26\nitems 9\nshort 2\nlong 0\npush 1\npop 0\nmove 0\ntable 0\nslots 0\nnet 0\n" ""
zc --extensions zca_zcmt --out o --cert c room16 => ?+ 0 5 "plain text 36\nzc text 28\nitems 9\nshort 4\nlong 0\npush 0\npop 0\nmove 0\ntable 0\nslots 0\nnet 0\n" ""
zc --extensions zca_zcb_zcmp --out o --cert c room16 => ?+ 0 5 "plain text 36\nzc text 22\nitems 9\nshort 4\nlong 0\npush 1\npop 0\nmove 0\ntable 0\nslots 0\nnet 0\n" ""
zc --extensions zca_zcb_zcmt --out o --cert c room16 => ?+ 0 5 "plain text 36\nzc text 24\nitems 9\nshort 6\nlong 0\npush 0\npop 0\nmove 0\ntable 0\nslots 0\nnet 0\n" ""
zc --extensions zca_zcmp_zcmt --out o --cert c room16 => ?+ 0 5 "plain text 36\nzc text 26\nitems 9\nshort 2\nlong 0\npush 1\npop 0\nmove 0\ntable 0\nslots 0\nnet 0\n" ""
zc --extensions zca_zcb_zcmp_zcmt --out o --cert c room16 => ?+ 0 5 "plain text 36\nzc text 22\nitems 9\nshort 4\nlong 0\npush 1\npop 0\nmove 0\ntable 0\nslots 0\nnet 0\n" ""
zc --out o --cert c room16 => ?+ 0 5 "plain text 36\nzc text 22\nitems 9\nshort 4\nlong 0\npush 1\npop 0\nmove 0\ntable 0\nslots 0\nnet 0\n" """#;
    expect(&rt, lines)
}

#[test]
fn other_commands_do_the_same_for_each_chip(rt: HostRuntime) -> Result<(), Fail> {
    let lines = r#"plain --extensions zca --out o x => +- 0 5 "plain text 12\n" ""
run --extensions zca frames.elf => -- 66 0 "A" "exited 66\n"
trace --extensions zca frames => -- 66 0 "A" "exited 66\n"
gc --extensions zca --out p unnamed => +- 0 5 "sections 1 of 2\ncode 12 of 20\n" ""
merge --extensions zca --out p ends => +- 0 5 "tails 1\nbytes 4\n" ""
share --extensions zca --out o --plan cells cell => +- 7 0 "" "exited 7\n"
list --extensions zca image => -- 0 5 "zcld list 1\nsegment 00010000 10 code\n00010000 c.li x10 x0 3\n00010002 addi x17 x0 93\n00010006 ecall\nsegment 00100000 0 data\nend\n" """#;
    expect(&rt, lines)
}

#[test]
fn no_other_word_names_a_chip(rt: HostRuntime) -> Result<(), Fail> {
    let lines = r#"plain --extensions zcb --out o x => -- 120 5 "" "usage\n"
zc --extensions zca_zcmp_zcb --out o --cert c x => -- 120 5 "" "usage\n"
run --extensions= image => -- 120 5 "" "usage\n"
trace --extensions zca_ x => -- 120 5 "" "usage\n"
gc --extensions zca --extensions zca --out p unnamed => -- 120 5 "" "usage\n"
merge --extensions Zca --out p ends => -- 120 5 "" "usage\n"
share --extensions zca_zcb_zcb --out o --plan cells cell => -- 120 5 "" "usage\n"
list --extensions rv32imac image => -- 120 5 "" "usage\n"
check --extensions zca single => -- 120 5 "" "usage\n"
make --extensions zca 5 0 => -- 120 5 "" "usage\n""#;
    expect(&rt, lines)
}

// The cells of the plan lie among the shared data in one map, and outside them in the other.
#[test]
fn gc_merge_share_and_list_work_in_the_map_of_the_words(rt: HostRuntime) -> Result<(), Fail> {
    let lines =
        r#"gc --text 08000000 --data 20000000 --stack 20600000 --out p unnamed => +- 0 5 "sections 1 of 2\ncode 12 of 20\n" ""
merge --text 08000000 --data 20000000 --stack 20600000 --out p ends => +- 0 5 "tails 1\nbytes 4\n" ""
share --text 08000000 --data 20000000 --stack 20600000 --out o --plan late start main => +- 0 0 "hi\n" "exited 0\n"
share --out o --plan elsewhere cell => +- 0 0 "" "exited 0\n"
share --data 20000000 --stack 20600000 --out o --plan elsewhere cell => ?- 7 0 "" "exited 7\n"
list --text 08000000 --data 20000000 --stack 20600000 elsewhere.elf => -- 0 5 "zcld list 1\nsegment 08000000 32 code\n08000000 c.jal x1 10\n08000002 addi x17 x0 93\n08000006 ecall\n0800000a cm.push 4 16\n0800000c c.li x10 x0 1\n0800000e lui x11 131072\n08000012 c.mv x11 x0 x11\n08000014 c.li x12 x0 3\n08000016 addi x17 x0 64\n0800001a ecall\n0800001e cm.popretz 4 16\nsegment 20000000 16 data\n20000000 .byte 68 69 0a 00 00 00 00 00 00 00 00 00 00 00 00 00\nend\n" ""
list --text 08000000 --data 20000000 --stack 20600000 image => -- 125 5 "" "bad image 3\n"
gc --text 00011000 --out p unnamed => -- 120 5 "" "usage\n"
merge --stack-low 10000000 --out p ends => -- 120 5 "" "usage\n"
share --stack 001ffff0 --out o --plan cells cell => -- 120 5 "" "usage\n"
list --data 00100008 image => -- 120 5 "" "usage\n"
check --stack-low 0ff00000 single => -- 120 5 "" "usage\n"
make --stack-low 0ff00000 5 0 => -- 120 5 "" "usage\n""#;
    expect(&rt, lines)
}

// Data of the three objects end a byte below the stack, where it begins, and a byte above. Their fault is named after those
// of names, and before the plan's.
#[test]
fn data_end_where_the_stack_begins_at_the_latest(rt: HostRuntime) -> Result<(), Fail> {
    let lines =
        r#"plain --text 10000000 --data 20000000 --stack-low 20000010 --stack 20000020 --out o room15 => ?- 0 5 "plain text 36\n" ""
plain --text 10000000 --data 20000000 --stack-low 20000010 --stack 20000020 --out o room16 => ?- 0 5 "plain text 36\n" ""
plain --text 10000000 --data 20000000 --stack-low 20000010 --stack 20000020 --out o room17 => -- 121 5 "" "refused 0 17 TooLarge\n"
zc --text 10000000 --data 20000000 --stack-low 20000010 --stack 20000020 --out o --cert c room16 => ?+ 0 5 "plain text 36\nzc text 22\nitems 9\nshort 4\nlong 0\npush 1\npop 0\nmove 0\ntable 0\nslots 0\nnet 0\n" ""
zc --text 10000000 --data 20000000 --stack-low 20000010 --stack 20000020 --out o --cert c room17 => -- 121 5 "" "refused 0 17 TooLarge\n"
trace --text 10000000 --data 20000000 --stack-low 20000010 --stack 20000020 room15 => -- 3 0 "" "exited 3\n"
trace --text 10000000 --data 20000000 --stack-low 20000010 --stack 20000020 room16 => -- 3 0 "" "exited 3\n"
trace --text 10000000 --data 20000000 --stack-low 20000010 --stack 20000020 room17 => -- 121 5 "" "refused 0 17 TooLarge\n"
gc --text 10000000 --data 20000000 --stack-low 20000010 --stack 20000020 --out p room16 => ?- 0 5 "sections 1 of 1\ncode 36 of 36\n" ""
gc --text 10000000 --data 20000000 --stack-low 20000010 --stack 20000020 --out p room17 => -- 121 5 "" "refused 0 17 TooLarge\n"
merge --text 10000000 --data 20000000 --stack-low 20000010 --stack 20000020 --out p room16 => ?- 0 5 "tails 0\nbytes 0\n" ""
merge --text 10000000 --data 20000000 --stack-low 20000010 --stack 20000020 --out p room17 => -- 121 5 "" "refused 0 17 TooLarge\n"
share --text 10000000 --data 20000000 --stack-low 20000010 --stack 20000020 --out o --plan cells room16 => ?- 3 0 "" "exited 3\n"
share --text 10000000 --data 20000000 --stack-low 20000010 --stack 20000020 --out o --plan cells room17 => -- 121 5 "" "refused 0 17 TooLarge\n"
plain --text 10000000 --data 20000000 --stack-low 20000010 --stack 20000020 --out o room17 x => -- 121 5 "" "refused 1 9 Duplicate _start\n"
plain --text 10000000 --data 20000000 --stack-low 20000010 --stack 20000020 --out o x room17 => -- 121 5 "" "refused 1 9 Duplicate _start\n"
share --text 10000000 --data 20000000 --stack-low 20000010 --stack 20000020 --out o --plan below room17 => -- 121 5 "" "refused 0 17 TooLarge\n""#;
    expect(&rt, lines)
}

// The stack has 16 bytes, and between it and the first byte of data there are 16, or none.
#[test]
fn programs_run_in_little_memory(rt: HostRuntime) -> Result<(), Fail> {
    let lines = r#"run --stack-low 00100010 --stack 00100020 hello.elf => -- 0 0 "hi\n" "exited 0\n"
run --stack-low 00100000 --stack 00100010 hello.elf => -- 125 5 "" "bad image 3\n"
list --stack-low 00100000 --stack 00100010 hello.elf => -- 125 5 "" "bad image 3\n"
trace --stack-low 00100010 --stack 00100020 start main => -- 0 0 "hi\n" "exited 0\n"
trace --stack-low 00100000 --stack 00100010 start main => -- 121 5 "" "refused 0 17 TooLarge\n"
run --stack-low 00100000 --stack 00100010 echo.elf => -- 0 0 "inpu" "texited 0\n"
trace --stack-low 00100000 --stack 00100010 echo => -- 0 0 "inpu" "texited 0\n"
run --stack-low 00100000 --stack 00100010 load.elf => -- 0 0 "" "exited 0\n""#;
    expect(&rt, lines)
}
