// The symbolic machine: small objects, from their bytes to the ends of their runs. Expected results are worked out by
// the manual.

ghost use Rattle.psabi_sym.specs.Inputs.{parsed};
ghost use Rattle.sym_machine.specs.Kept.{IsOf};
ghost use Rattle.sym_machine.specs.Objects.{program_of};

pub mod object;
pub mod parts;
mod relocated;
mod rows;

use crate::row::{bytes_of, column, end_of, map_of, number_of, shown};
use block_cut::cut::Cut;
use object::{object_of, set_rvc};
use parts::{PARTS, part_of};
use psabi_sym::link_fault::LinkFault;
use psabi_sym::objects::Objects;
use relocated::RELOCATED;
use rows::{
    ACROSS, BRANCHES, CALLS, COMPRESSED, DATA_ENDS, MAPS, PAGES, PROGRAMS, RESULTS, STACKS, STEPS,
};
use std::alloc::{AllocError, Global};
use std::process::Abort;
use std::test::Fail;
use sym_machine::answer::SymStep;
use sym_machine::run::{TraceEnd, run};
use sym_machine::sym::Sym;
use sym_machine::why::Why;
use zc_base::link_options::LinkOptions;
use zc_base::mem_map::MemMap;
use zc_base::place::Place;
use zc_outside::mem_console::MemConsole;

// The object of a row, which is compressed if its flags are 1, cut into items.
fn cut_of(alloc: Global, row: &str) -> Result<Cut, Fail> {
    let words = format!(in alloc; "{} {}", column(row, "words"), column(row, "then"))?;
    let mut object = object_of(
        alloc,
        words.as_str(),
        column(row, "relocs"),
        column(row, "data"),
    )?;
    if column(row, "flags") == "1" {
        set_rvc(object.as_mut_slice())?;
    }
    let mut files = Vec::new(alloc);
    files.push(object)?;
    let options = LinkOptions::of_map(alloc, map_of(row)?);
    let objects = Objects::gather(alloc, &files, &options)?;
    Ok(Cut::new(alloc, objects)?)
}

// Runs a cut as a row says, and returns how the run ended and what it wrote.
fn ran(alloc: Global, cut: &Cut, row: &str) -> Result<String, Fail> {
    let steps = u64::from(number_of(row, "steps")?);
    let fails = [number_of(row, "fails")?];
    let mut console = MemConsole::new(alloc, b"", &fails)?;
    let input = bytes_of(alloc, column(row, "in"))?;
    let mut sym = Sym::start(alloc, cut, input.as_slice())?;
    let end = run(&mut sym, cut, steps, &mut console);
    ended(alloc, end, &console)
}

fn ended(alloc: Global, end: TraceEnd, console: &MemConsole) -> Result<String, Fail> {
    let end = end_text(alloc, end)?;
    shown(alloc, end.as_str(), console)
}

fn end_text(alloc: Global, end: TraceEnd) -> Result<String, AllocError> {
    match end {
        TraceEnd::Exited(status) => format!(in alloc; "exited {status:x}"),
        TraceEnd::Stuck(place, why) => stuck_text(alloc, place, why),
        TraceEnd::Spent => String::from_str(alloc, "spent"),
        TraceEnd::Console(_) => String::from_str(alloc, "fault"),
        TraceEnd::OutOfMemory => String::from_str(alloc, "out of memory"),
    }
}

// The object, section and offset of a place, and why the machine is stuck there.
fn stuck_text(alloc: Global, place: Place, why: Why) -> Result<String, AllocError> {
    let (object, section, offset) = (place.object, place.section, place.offset);
    let (number, name) = (why.number(), why.name());
    format!(in alloc; "stuck {object}:{section}:{offset:x} {number} {name}")
}

// Runs the program of a row, which should end and write as the row says.
fn expect_run<R: Abort + AllocGlobal>(rt: &R, row: &str) -> Result<(), Fail> {
    let cut = cut_of(rt.alloc(), row)?;
    let ended = ran(rt.alloc(), &cut, row)?;
    assert_eq!(rt; ended, end_of(rt.alloc(), row)?, "{row}");
    Ok(())
}

/// Runs the program of each row, between texts before and after it, which should end and write as the row says.
pub fn expect_runs<R: Abort + AllocGlobal>(
    rt: &R,
    before: &str,
    rows: &str,
    after: &str,
) -> Result<(), Fail> {
    for row in rows.trim().lines() {
        if !row.starts_with('#') {
            let row = format!(in rt.alloc(); "words {before} {row} {after}")?;
            expect_run(rt, row.as_str())?;
        }
    }
    Ok(())
}

// lui t0,0x100; addi a1,t0,16; addi a0,x0,0; addi a2,x0,8; addi a7,x0,63; ecall; lw a1,16(t0); lw a2,20(t0)
const READ_TWO: &str = "001002B7 01028593 00000513 00800613 03F00893 00000073 0102A583 0142A603";

// sw a0,16(t0); addi a0,x0,1; addi a1,t0,16; addi a2,x0,4; addi a7,x0,64; ecall, and no instruction after it
const SHOW_A0: &str = "| then 00A2A823 00100513 01028593 00400613 04000893 00000073
| ends stuck 0:1:3c 8 NoInstruction";

#[test]
fn instructions_give_their_results(rt: HostRuntime) -> Result<(), Fail> {
    expect_runs(&rt, READ_TWO, RESULTS, SHOW_A0)
}

// addi a0,x0,0; addi a7,x0,93; ecall: if the branch before them is taken, a0 is still 8, what was read
const EXIT_0: &str = "| then 00000513 05D00893 00000073";

#[test]
fn branches_are_taken_by_their_conditions(rt: HostRuntime) -> Result<(), Fail> {
    expect_runs(&rt, READ_TWO, BRANCHES, EXIT_0)
}

#[test]
fn programs_end_with_their_status_or_cause(rt: HostRuntime) -> Result<(), Fail> {
    expect_runs(&rt, "", PROGRAMS, "")
}

#[test]
fn pages_keep_each_kind_of_byte_until_sp_rises(rt: HostRuntime) -> Result<(), Fail> {
    expect_runs(&rt, "", PAGES, "")
}

#[test]
fn a_stack_is_undefined_where_sp_rose_until_it_is_written(rt: HostRuntime) -> Result<(), Fail> {
    expect_runs(&rt, "", STACKS, "")
}

#[test]
fn memory_lies_where_the_map_says(rt: HostRuntime) -> Result<(), Fail> {
    expect_runs(&rt, "", MAPS, "")
}

// Whether the objects of a row fit its map.
fn fit_text(alloc: Global, row: &str) -> Result<String, Fail> {
    let mut files = Vec::new(alloc);
    files.push(object_of(alloc, "", "", "")?)?;
    let options = LinkOptions::of_map(alloc, map_of(row)?);
    match Objects::gather(alloc, &files, &options) {
        Ok(_) => Ok(String::from_str(alloc, "fit")?),
        Err(LinkFault::Object { index, fault }) => {
            Ok(format!(in alloc; "object {index} {fault}")?)
        }
        Err(LinkFault::OutOfMemory) => Err("no memory".into()),
    }
}

#[test]
fn data_end_at_the_stack_at_the_latest(rt: HostRuntime) -> Result<(), Fail> {
    for row in DATA_ENDS.trim().lines() {
        let fit = fit_text(rt.alloc(), row)?;
        assert_eq!(rt; fit.as_str(), column(row, "ends"), "{row}");
    }
    Ok(())
}

// lui t1,1; sub sp,sp,t1; addi sp,sp,-64; addi a0,x0,0; addi a1,sp,28; addi a2,x0,40; addi a7,x0,63; ecall
const READ_FORTY: &str = "00001337 40610133 FC010113 00000513 01C10593 02800613 03F00893 00000073";

// What is read.
const FORTY: &str = "| in 61 62 63 64 65 66 67 68 69 6A 6B 6C 6D 6E 6F 70 71 72 73 74
75 76 77 78 79 7A 41 42 43 44 45 46 47 48 49 4A 4B 4C 4D 4E";

#[test]
fn input_is_read_across_the_pages_of_a_stack(rt: HostRuntime) -> Result<(), Fail> {
    expect_runs(&rt, READ_FORTY, ACROSS, FORTY)
}

#[test]
fn calls_read_and_write(rt: HostRuntime) -> Result<(), Fail> {
    expect_runs(&rt, "", CALLS, "")
}

#[test]
fn relocations_say_what_items_do(rt: HostRuntime) -> Result<(), Fail> {
    expect_runs(&rt, "", RELOCATED, "")
}

#[test]
fn compressed_code_runs_until_the_machine_is_stuck(rt: HostRuntime) -> Result<(), Fail> {
    expect_runs(&rt, "", COMPRESSED, "| flags 1")
}

// The two objects of a row, cut into items.
fn parts_cut(alloc: Global, row: &str) -> Result<Cut, Fail> {
    let mut files = Vec::new(alloc);
    files.push(part_of(alloc, row, true)?)?;
    files.push(part_of(alloc, row, false)?)?;
    let options = LinkOptions::of_map(alloc, MemMap::standard());
    let objects = Objects::gather(alloc, &files, &options)?;
    Ok(Cut::new(alloc, objects)?)
}

#[test]
fn runs_go_from_section_to_section(rt: HostRuntime) -> Result<(), Fail> {
    for row in PARTS.trim().lines() {
        if !row.starts_with('#') {
            let cut = parts_cut(rt.alloc(), row)?;
            let ended = ran(rt.alloc(), &cut, row)?;
            assert_eq!(rt; ended, end_of(rt.alloc(), row)?, "{row}");
        }
    }
    Ok(())
}

// Makes a step, and returns its result as text.
fn step_text(alloc: Global, sym: &mut Sym<'_>, cut: &Cut) -> Result<String, AllocError>
    requires { IsOf (program_of (parsed cut.now)) sym.old }
    ensures { IsOf (program_of (parsed cut.now)) sym.new }
{
    match sym.step(cut)? {
        SymStep::Done => String::from_str(alloc, "done"),
        SymStep::Read { count } => format!(in alloc; "read {count}"),
        SymStep::Wrote { fd, bytes } => format!(in alloc; "wrote {fd} {bytes:?}"),
        SymStep::Loaded { at, .. } => format!(in alloc; "loaded {at:x}"),
        SymStep::Stored(sent) => format!(in alloc; "stored {:x} {:x}", sent.at, sent.word),
        SymStep::StoredCode { at, .. } => format!(in alloc; "stored {at:x} code"),
        SymStep::System { word, .. } => format!(in alloc; "system {word:x}"),
        SymStep::Exited(status) => format!(in alloc; "exited {status:x}"),
        SymStep::Stuck(place, why) => stuck_text(alloc, place, why),
    }
}

// Makes the steps of a row: their results should be as the row says.
fn expect_steps<R: Abort + AllocGlobal>(rt: &R, cut: &Cut, row: &str) -> Result<(), Fail> {
    let input = bytes_of(rt.alloc(), column(row, "in"))?;
    let mut sym = Sym::start(rt.alloc(), cut, input.as_slice())?;
    for want in column(row, "answers").split(';') {
        let answer = step_text(rt.alloc(), &mut sym, cut)?;
        assert_eq!(rt; answer.as_str(), want.trim(), "{row}");
    }
    Ok(())
}

#[test]
fn each_step_answers_and_the_last_stays(rt: HostRuntime) -> Result<(), Fail> {
    for row in STEPS.trim().lines() {
        if !row.starts_with('#') {
            expect_steps(&rt, &cut_of(rt.alloc(), row)?, row)?;
        }
    }
    Ok(())
}
