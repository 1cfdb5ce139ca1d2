// Images with devices, run by the machine.

ghost use Rattle.std.specs.Prelude.{◌≡◌, IfOk, None};

use crate::row::{bytes_of, column, devices_of, image_end, lines_of, map_of, number_of, shown};
use crate::rows::{
    AFTER_LOAD, AFTER_SYSTEM, BEFORE_LOAD, BEFORE_STORE, BEFORE_SYSTEM, EXIT, IMAGES, LOADS,
    PROGRAMS, STARTS, STORES, SYSTEM,
};
use devices::environment::Environment;
use elf32_read::image::Image;
use interrupt_plan::read_plan::read_plan;
use std::alloc::{AllocError, Global};
use std::process::Abort;
use std::test::Fail;
use zc_machine::machine::Machine;
use zc_machine::run::{RunEnd, run_with};
use zc_machine::schedule_cursor::ScheduleCursor;
use zc_outside::mem_console::MemConsole;

// A file's header and that of its only segment, which is code at 0x10000, up to the segment's size.
const HEADERS: &str = "
464C457F 00010101 00000000 00000000 00F30002 00000001 00010000
00000034 00000000 00000001 00200034 00280001 00000000
00000001 00000054 00010000 00010000";

// The machine with the code of a row, as it starts or as after a reset.
#[tactic(auto, unfolding(zc_machine::specs::Load::first_core))]
fn load(alloc: Global, row: &str, reset: bool) -> Result<Machine, Fail>
    ensures { IfOk result (λ machine. (machine.exit ≡ None) × (machine.commits ≡ 0)) }
{
    let words = format!(in alloc; "{} {}", column(row, "words"), column(row, "then"))?;
    let code = bytes_of(alloc, words.as_str())?;
    let size = u32::try_from(code.len())?;
    let headers = format!(in alloc; "{HEADERS} {size:08x} {size:08x} 00000005 00000004")?;
    let mut file = bytes_of(alloc, headers.as_str())?;
    file.extend_from_slice(code.as_slice())?;
    let image = Image::read(file.as_slice(), map_of(row)?)?;
    let mut machine = Machine::load(alloc, &image)?;
    if reset {
        machine.reset();
    }
    Ok(machine)
}

// Runs the image of a row, with its devices and its plan, and returns how the run ended and what it wrote.
fn ran(alloc: Global, row: &str) -> Result<String, Fail> {
    let steps = u64::from(number_of(row, "steps")?);
    let fails = [number_of(row, "fails")?];
    let input = bytes_of(alloc, column(row, "in"))?;
    let devices = devices_of(alloc, row)?;
    let entries = lines_of(alloc, "zcld plan 1", column(row, "plan"))?;
    let plan = read_plan(alloc, entries.as_slice())?;
    let mut console = MemConsole::new(alloc, b"", &fails)?;
    let mut machine = load(alloc, row, devices.starts_reset())?;
    let environment = Environment::new(&devices, steps, input.as_slice());
    let between = ScheduleCursor::new(&plan);
    let end = run_with(&mut machine, between, environment, steps, &mut console);
    let end = end_text(alloc, end)?;
    Ok(shown(alloc, end.as_str(), &console)?)
}

fn end_text(alloc: Global, end: RunEnd) -> Result<String, AllocError> {
    match end {
        RunEnd::Exit(status) => format!(in alloc; "exited {status}"),
        RunEnd::Stopped(reason) => format!(in alloc; "stopped {}", reason.name()),
        RunEnd::Spent => String::from_str(alloc, "spent"),
        RunEnd::Console(_) => String::from_str(alloc, "fault"),
    }
}

// Runs the image of each row, between texts before and after it, which should end and write as the row says.
fn expect_runs<R: Abort + AllocGlobal>(
    rt: &R,
    before: &str,
    rows: &str,
    after: &str,
) -> Result<(), Fail> {
    for row in rows.trim().lines() {
        if !row.starts_with('#') {
            let row = format!(in rt.alloc(); "words {before} {row} {after}")?;
            let want = image_end(rt.alloc(), row.as_str())?;
            assert_eq!(rt; ran(rt.alloc(), row.as_str())?, want, "{row}");
        }
    }
    Ok(())
}

#[test]
fn devices_answer_images(rt: HostRuntime) -> Result<(), Fail> {
    expect_runs(&rt, BEFORE_LOAD, LOADS, AFTER_LOAD)?;
    expect_runs(&rt, BEFORE_STORE, STORES, EXIT)?;
    expect_runs(&rt, BEFORE_SYSTEM, SYSTEM, AFTER_SYSTEM)?;
    expect_runs(&rt, "", PROGRAMS, "")?;
    expect_runs(&rt, "", STARTS, "")?;
    expect_runs(&rt, "", IMAGES, "")
}
