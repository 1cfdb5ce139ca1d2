// What the command `make` puts, writes and says.

use crate::fixture::{SUMMARY, bytes_of, expect, status_of};
use std::alloc::{AllocError, Global};
use std::test::Fail;
use zc_outside::mem_console::MemConsole;
use zc_outside::mem_store::MemStore;

fn expect_status(alloc: Global, words: &str, wanted: u8, store: &mut MemStore) -> Result<(), Fail> {
    let mut console = MemConsole::new(alloc, &[], &[])?;
    if status_of(alloc, words, store, &mut console)? == wanted {
        Ok(())
    } else {
        Err(Fail::new("another status"))
    }
}

// What a call writes to standard output, if its status is 0.
fn output(alloc: Global, words: &str, store: &mut MemStore) -> Result<Vec<u8>, Fail> {
    let mut console = MemConsole::new(alloc, &[], &[])?;
    if status_of(alloc, words, store, &mut console)? == 0 {
        Ok(Vec::from_slice(alloc, console.out_bytes())?)
    } else {
        Err(Fail::new("a status that isn't 0"))
    }
}

fn expect_output(
    alloc: Global,
    words: &str,
    wanted: &[u8],
    store: &mut MemStore,
) -> Result<(), Fail> {
    let out = output(alloc, words, store)?;
    if out.as_slice() == wanted {
        Ok(())
    } else {
        Err(Fail::new("another output"))
    }
}

#[test]
fn the_objects_are_put_and_can_be_linked_and_run(rt: HostRuntime) -> Result<(), Fail> {
    let alloc = rt.alloc();
    let mut store = MemStore::new(alloc, &[])?;
    expect_output(alloc, "make 5 0", SUMMARY.as_bytes(), &mut store)?;
    assert!(rt; store.file("p0.o").is_none());
    expect_output(alloc, "make --out p 5 0", SUMMARY.as_bytes(), &mut store)?;
    assert!(rt; store.file("p1.o").is_none());
    expect_status(alloc, "zc --out o --cert c p0.o", 0, &mut store)?;
    expect_output(alloc, "run --steps 12 o", &[5, 0, 0, 0], &mut store)?;
    expect_status(alloc, "run --steps 11 o", 127, &mut store)
}

// The 39 objects of 300 functions: the printed exit is that of the image that `zc` makes of them, after the printed
// number of commits.
#[test]
fn many_functions_exit_alike_on_each_machine(rt: HostRuntime) -> Result<(), Fail> {
    let alloc = rt.alloc();
    let mut store = MemStore::new(alloc, &[])?;
    let summary = output(alloc, "make --out p 7 300", &mut store)?;
    expect_output(alloc, "make 7 300", summary.as_slice(), &mut store)?;
    link_all(alloc, &mut store)?;
    expect_run(alloc, str::from_utf8(summary.as_slice())?, &mut store)
}

fn link_all(alloc: Global, store: &mut MemStore) -> Result<(), Fail> {
    let mut zc = String::from_str(alloc, "zc --out o --cert c")?;
    for i in 0..39 {
        write!(zc, " p{i}.o")?;
    }
    expect_status(alloc, zc.as_str(), 0, store)
}

// The image ends as the summary says, and not after one commit less.
fn expect_run(alloc: Global, summary: &str, store: &mut MemStore) -> Result<(), Fail> {
    let (commits, bytes) = said_of(alloc, summary)?;
    let run = run_for(alloc, commits)?;
    expect_output(alloc, run.as_str(), bytes.as_slice(), store)?;
    let run = run_for(alloc, commits.saturating_sub(1))?;
    expect_status(alloc, run.as_str(), 127, store)
}

fn run_for(alloc: Global, commits: u64) -> Result<String, AllocError> {
    format!(in alloc; "run --steps {commits} o")
}

// The commits of a summary of 300 functions, and the four bytes that they write before they exit with 0.
fn said_of(alloc: Global, summary: &str) -> Result<(u64, Vec<u8>), Fail> {
    if !summary.starts_with("functions 300\nobjects 39\n") {
        return Err(Fail::new("another number of functions or objects"));
    }
    let (commits, exit) = last_lines(summary).ok_or("no lines")?;
    let digits = exit.strip_suffix(" 0").ok_or("no exit with 0")?;
    let bytes = bytes_of(alloc, digits)?;
    if bytes.len() == 4 {
        Ok((commits, bytes))
    } else {
        Err(Fail::new("no four bytes"))
    }
}

// The commits of a summary, and the exit that its last four lines say, if they all say the same.
fn last_lines(summary: &str) -> Option<(u64, &str)> {
    let mut commits = None;
    let mut exit = None;
    for line in summary.lines() {
        let (name, rest) = line.split_once(' ')?;
        match name {
            "commits" => commits = rest.parse::<u64>().ok(),
            "trace" => exit = Some(rest),
            "zc" | "plain" if commits.is_none() => {}
            "plain" | "zc" | "cuts" if exit != Some(rest) => return None,
            _ => {}
        }
    }
    Some((commits?, exit?))
}

// The store's calls put the objects, one each, and the console's call 0 writes the summary, or else a line.
#[test]
fn the_objects_are_put_in_turn_and_then_the_summary_is_written(
    rt: HostRuntime,
) -> Result<(), Fail> {
    let lines = r#"make --out p 5 0 => +- 0 5 "summary" ""
make --out p 5 0 with s1 c2 => +- 0 5 "summary" ""
make --out p 5 0 with s0 => -- 123 5 "" "write fault\n"
make --out p 5 0 with c0 => +- 123 5 "" "write fault\n"
make --out p 5 0 with s0 c0 => -- 123 5 "" ""
make --out p 5 0 with c0 c1 => +- 123 5 "" ""
make --out p 5 1 with s2 c2 => ++ 0 5 "summary of two" ""
make --out p 5 1 with s0 => -- 123 5 "" "write fault\n"
make --out p 5 1 with s1 => +- 123 5 "" "write fault\n"
make --out p 5 1 with c0 => ++ 123 5 "" "write fault\n"
make --out p 5 1 with s1 c0 => +- 123 5 "" ""
make 5 0 with s0 => -- 0 5 "summary" ""
make 5 0 with c0 => -- 123 5 "" "write fault\n"
make 5 0 with c0 c1 => -- 123 5 "" ""
make 5 1601 with c0 => -- 120 5 "" """#;
    expect(&rt, lines)
}
