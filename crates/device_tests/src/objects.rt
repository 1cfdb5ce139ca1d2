// Objects with devices, run by the symbolic machine.

use crate::row::{bytes_of, column, devices_of, map_of, number_of, object_end, shown};
use crate::rows::{
    AFTER_LOAD, AFTER_SYSTEM, BEFORE_LOAD, BEFORE_STORE, BEFORE_SYSTEM, EXIT, LOADS, OBJECTS,
    PROGRAMS, STARTS, STORES, SYSTEM,
};
use block_cut::cut::Cut;
use devices::environment::DeviceMap;
use psabi_sym::objects::Objects;
use std::alloc::{AllocError, Global};
use std::process::Abort;
use std::test::Fail;
use sym_machine::run::{TraceEnd, run_with};
use sym_machine::sym::Sym;
use zc_base::link_options::LinkOptions;
use zc_outside::mem_console::MemConsole;

// The header of an object up to its flags, and what follows them.
const HEADER: &str = "
464C457F 00010101 00000000 00000000
00F30001 00000001 00000000 00000000
00000100";

const SIZES: &str = "00000034 00280000 00030005";

// Symbols: 1 is the code's first byte, 2 `_start`, which is the same, and 3, `w`, is weak, and not defined. The strings
// of these names.
const SYMBOLS: &str = "
00000000 00000000 00000000 00000000
00000000 00000000 00000000 00010000
00000001 00000000 00000000 00010010
00000008 00000000 00000000 00000020
74735F00 00747261 00000077";

// Sections without names: 1 is code of 20 words, 2 the symbols, 3 their names, and 4 the relocations of code.
const SECTIONS: &str = "
00000000 00000000 00000000 00000000 00000000 00000000 00000000 00000000 00000000 00000000
00000000 00000001 00000006 00000000 00000034 00000050 00000000 00000000 00000004 00000000
00000000 00000002 00000000 00000000 00000084 00000040 00000003 00000002 00000004 00000010
00000000 00000003 00000000 00000000 000000C4 0000000A 00000000 00000000 00000001 00000000
00000000 00000004 00000000 00000000 000000D0 00000030 00000002 00000001 00000004 0000000C";

// Adds the bytes of a text, and zeros up to an offset.
fn add(alloc: Global, object: &mut Vec<u8>, text: &str, end: usize) -> Result<(), Fail> {
    object.extend_from_slice(bytes_of(alloc, text)?.as_slice())?;
    object.resize(end, 0)?;
    Ok(())
}

// The object of a row, cut into items. It is compressed if its flags are 1.
fn cut_of(alloc: Global, row: &str) -> Result<Cut, Fail> {
    let flags = if column(row, "flags").is_empty() {
        "00000000"
    } else {
        "00000001"
    };
    let words = format!(in alloc;
        "{HEADER} {flags} {SIZES} {} {}",
        column(row, "words"),
        column(row, "then")
    )?;
    let mut object = Vec::new(alloc);
    add(alloc, &mut object, words.as_str(), 132)?;
    add(alloc, &mut object, SYMBOLS, 208)?;
    add(alloc, &mut object, column(row, "relocs"), 256)?;
    add(alloc, &mut object, SECTIONS, 456)?;
    let mut files = Vec::new(alloc);
    files.push(object)?;
    let options = LinkOptions::of_map(alloc, map_of(row)?);
    let objects = Objects::gather(alloc, &files, &options)?;
    Ok(Cut::new(alloc, objects)?)
}

// Runs the object of a row with its devices, and returns how the run ended and what it wrote.
fn ran(alloc: Global, row: &str) -> Result<String, Fail> {
    let steps = u64::from(number_of(row, "steps")?);
    let fails = [number_of(row, "fails")?];
    let input = bytes_of(alloc, column(row, "in"))?;
    let devices = devices_of(alloc, row)?;
    let mut console = MemConsole::new(alloc, b"", &fails)?;
    let cut = cut_of(alloc, row)?;
    let answers = devices.answers(steps, input.as_slice());
    let mut sym = Sym::start_with(alloc, &cut, answers, !devices.starts_reset())?;
    let (end, _made) = run_with(
        &mut sym,
        &cut,
        DeviceMap::new(&devices),
        steps,
        &mut console,
    );
    let end = end_text(alloc, end)?;
    Ok(shown(alloc, end.as_str(), &console)?)
}

fn end_text(alloc: Global, end: TraceEnd) -> Result<String, AllocError> {
    match end {
        TraceEnd::Exited(status) => format!(in alloc; "exited {status}"),
        TraceEnd::Stuck(_place, why) => format!(in alloc; "stuck {}", why.name()),
        TraceEnd::Spent => String::from_str(alloc, "spent"),
        TraceEnd::Console(_) => String::from_str(alloc, "fault"),
        TraceEnd::OutOfMemory => String::from_str(alloc, "out of memory"),
    }
}

// Runs the object of each row, between texts before and after it, which should end and write as the row says.
fn expect_runs<R: Abort + AllocGlobal>(
    rt: &R,
    before: &str,
    rows: &str,
    after: &str,
) -> Result<(), Fail> {
    for row in rows.trim().lines() {
        if !row.starts_with('#') {
            let row = format!(in rt.alloc(); "words {before} {row} {after}")?;
            let want = object_end(rt.alloc(), row.as_str())?;
            assert_eq!(rt; ran(rt.alloc(), row.as_str())?, want, "{row}");
        }
    }
    Ok(())
}

#[test]
fn devices_answer_objects(rt: HostRuntime) -> Result<(), Fail> {
    expect_runs(&rt, BEFORE_LOAD, LOADS, AFTER_LOAD)?;
    expect_runs(&rt, BEFORE_STORE, STORES, EXIT)?;
    expect_runs(&rt, BEFORE_SYSTEM, SYSTEM, AFTER_SYSTEM)?;
    expect_runs(&rt, "", PROGRAMS, "")?;
    expect_runs(&rt, "", STARTS, "")?;
    expect_runs(&rt, "", OBJECTS, "")
}
