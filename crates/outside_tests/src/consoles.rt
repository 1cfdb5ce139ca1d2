// What consoles take and write.
//
// These wrong bodies fail here: a `take` that returns 0, reads to the buffer's end instead of its start, or gives up
// when it is interrupted; an `out` that stops after a short write, takes a refusal for the end, or writes to the other
// stream; and each of them if it reports running out of memory as a fault, or a fault as running out of memory.

use crate::drip::Drip;
use std::alloc::Global;
use std::io;
use std::io::ErrorKind;
use std::process::Abort;
use std::test::Fail;
use zc_outside::console::{Console, ConsoleFault};
use zc_outside::mem_console::MemConsole;
use zc_outside::std_console::StdConsole;

fn fault_text(alloc: Global, fault: ConsoleFault) -> Result<String, Fail> {
    Ok(format!(in alloc; "{fault}")?)
}

// Takes input into the first `room` bytes of a buffer of four: the number of bytes that came, and the buffer.
fn taken<C: Console>(alloc: Global, console: &mut C, room: &str) -> Result<String, Fail> {
    let mut buf = *b"....";
    match console.take(&mut buf[..room.parse::<usize>()?.min(4)]) {
        Ok(count) => Ok(format!(in alloc; "{count} {}", str::from_utf8(&buf)?)?),
        Err(fault) => fault_text(alloc, fault),
    }
}

fn written(alloc: Global, answer: Result<(), ConsoleFault>) -> Result<String, Fail> {
    match answer {
        Ok(()) => Ok(String::from_str(alloc, "written")?),
        Err(fault) => fault_text(alloc, fault),
    }
}

// What a console returns for `take ROOM`, `out BYTES` or `err BYTES`.
fn answer<C: Console>(alloc: Global, console: &mut C, call: &str) -> Result<String, Fail> {
    let (kind, value) = call.split_once(" ").ok_or("no call")?;
    match kind {
        "take" => taken(alloc, console, value),
        "out" => written(alloc, console.out(value.as_bytes())),
        "err" => written(alloc, console.err(value.as_bytes())),
        _ => Err("no call".into()),
    }
}

// Makes the calls of the lines, each of which should have the answer after its arrow.
fn expect_calls<R: Abort + AllocGlobal, C: Console>(
    rt: &R,
    console: &mut C,
    lines: &str,
) -> Result<(), Fail> {
    for line in lines.lines() {
        let (call, want) = line.split_once(" => ").ok_or("no arrow")?;
        let found = answer(rt.alloc(), console, call)?;
        assert_eq!(rt; found.as_str(), want, "{call}");
    }
    Ok(())
}

// The calls are numbered from 0, except those with an empty piece. The fourth is to fail.
#[test]
fn a_console_in_memory_moves_bytes_but_for_the_listed_calls(rt: HostRuntime) -> Result<(), Fail> {
    let mut console = MemConsole::new(rt.alloc(), b"hello", &[3])?;
    let lines = "take 2 => 2 he..
take 0 => 0 ....
out to out => written
out  => written
err  => written
err lost => the console can't be read or written
take 4 => 3 llo.
take 4 => 0 ....
err to err => written";
    expect_calls(&rt, &mut console, lines)?;
    let written = (console.out_bytes(), console.err_bytes());
    assert!(rt; written == (b"to out".as_slice(), b"to err".as_slice()));
    Ok(())
}

// Both ways in which a stream's call may be refused.
const ENDS: [(ErrorKind, &str); 2] = [
    (ErrorKind::Other, "the console can't be read or written"),
    (ErrorKind::OutOfMemory, "out of memory"),
];

#[test]
fn short_reads_and_writes_are_whole_or_refused(rt: HostRuntime) -> Result<(), Fail> {
    let alloc = rt.alloc();
    for (end, fault) in ENDS {
        let end = Some(end);
        let (mut out, mut err) = (Drip::new(alloc, 5, end), Drip::new(alloc, 0, end));
        let mut console = StdConsole::new(Drip::new(alloc, 2, end), &mut out, &mut err);
        let lines = format!(in alloc;
            "take 4 => 1 a...
take 4 => 1 a...
take 4 => {fault}
out abc => written
out def => {fault}
err  => written
err to err => {fault}"
        )?;
        expect_calls(&rt, &mut console, lines.as_str())?;
        drop(console);
        let moved = (out.moved.as_slice(), err.moved.as_slice());
        assert!(rt; moved == (b"abcde".as_slice(), b"".as_slice()));
    }
    Ok(())
}

// A test has no input.
#[test]
fn a_write_that_takes_nothing_is_a_fault(rt: HostRuntime) -> Result<(), Fail> {
    let full = Drip::new(rt.alloc(), 0, None);
    let mut console = StdConsole::new(rt.stdin(), rt.stdout(), full);
    let lines = "err err => the console can't be read or written
out out => written
take 4 => 0 ....";
    expect_calls(&rt, &mut console, lines)
}
