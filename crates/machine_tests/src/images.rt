// The machine that runs images: small texts, run and stepped. Expected results are worked out by the manual, or come
// from LLVM's assembler.

ghost use Rattle.std.specs.Prelude.{◌≡◌, IfOk, None};

mod file;
mod frames;
mod rows;

use crate::row::{bytes_of, column, end_of, map_of, number_of, shown};
use elf32_read::image::Image;
use file::file_of;
use interrupt_plan::plan::empty_plan;
use rows::{AGAIN, DATA_ENDS, HALFWORDS, MAPS, PAGES, PROGRAMS, STEPS};
use rv_decode::device_access::DeviceAccess;
use std::alloc::{AllocError, Global};
use std::process::Abort;
use std::test::Fail;
use zc_base::reg::Reg;
use zc_machine::answer::{EnvCall, Step};
use zc_machine::machine::Machine;
use zc_machine::reason::Reason;
use zc_machine::run::{RunEnd, run};
use zc_outside::mem_console::MemConsole;

// The machine with this text and these segments of data, as `file_of` takes them, and with the map of a row.
#[tactic(auto, unfolding(zc_machine::specs::Load::first_core))]
fn load_in(alloc: Global, row: &str, text: &str, data: &str) -> Result<Machine, Fail>
    ensures { IfOk result (λ machine. (machine.exit ≡ None) × (machine.commits ≡ 0)) }
{
    let file = file_of(alloc, text, data)?;
    let image = Image::read(file.as_slice(), map_of(row)?)?;
    Ok(Machine::load(alloc, &image)?)
}

// The machine with this text and these segments of data.
fn load_with(alloc: Global, text: &str, data: &str) -> Result<Machine, Fail>
    ensures { IfOk result (λ machine. (machine.exit ≡ None) × (machine.commits ≡ 0)) }
{
    load_in(alloc, "", text, data)
}

// Loads an image without data.
fn load(alloc: Global, text: &str) -> Result<Machine, Fail>
    ensures { IfOk result (λ machine. (machine.exit ≡ None) × (machine.commits ≡ 0)) }
{
    load_with(alloc, text, "")
}

// Loads and runs the text of a row, and returns how the run ended and what it left.
fn ran(alloc: Global, row: &str) -> Result<String, Fail> {
    let steps = u64::from(number_of(row, "steps")?);
    let fails = [number_of(row, "fails")?];
    let input = bytes_of(alloc, column(row, "in"))?;
    let mut console = MemConsole::new(alloc, b"", &fails)?;
    let mut machine = load_in(alloc, row, column(row, "text"), column(row, "data"))?;
    let plan = empty_plan(alloc);
    let end = run(&mut machine, &plan, input.as_slice(), steps, &mut console);
    let a0 = machine.register(Reg::new(10).ok_or("no register")?);
    let ended = end_text(alloc, end, machine.pc(), a0)?;
    shown(alloc, ended.as_str(), &console)
}

fn end_text(alloc: Global, end: RunEnd, pc: u32, a0: u32) -> Result<String, AllocError> {
    match end {
        RunEnd::Exit(status) => format!(in alloc; "exited {status} {pc:x} {a0:x}"),
        RunEnd::Stopped(reason) => {
            let (number, name) = (reason.number(), reason.name());
            format!(in alloc; "stopped {number} {name} {pc:x} {a0:x}")
        }
        RunEnd::Spent => format!(in alloc; "spent {pc:x} {a0:x}"),
        RunEnd::Console(_) => format!(in alloc; "fault {pc:x} {a0:x}"),
    }
}

/// Runs each row, with this text after it: the run should end and write as the row says.
pub fn expect_runs<R: Abort + AllocGlobal>(rt: &R, rows: &str, after: &str) -> Result<(), Fail> {
    for row in rows.trim().lines() {
        if !row.starts_with('#') {
            let row = format!(in rt.alloc(); "text {row} {after}")?;
            let want = end_of(rt.alloc(), row.as_str())?;
            assert_eq!(rt; ran(rt.alloc(), row.as_str())?, want, "{row}");
        }
    }
    Ok(())
}

#[test]
fn halfwords_do_what_they_stand_for(rt: HostRuntime) -> Result<(), Fail> {
    expect_runs(&rt, HALFWORDS, "| steps 3")
}

#[test]
fn programs_end_with_their_status_or_reason(rt: HostRuntime) -> Result<(), Fail> {
    expect_runs(&rt, PROGRAMS, "")
}

#[test]
fn memory_in_pages_is_that_of_its_addresses(rt: HostRuntime) -> Result<(), Fail> {
    expect_runs(&rt, PAGES, "")
}

#[test]
fn memory_lies_where_the_map_says(rt: HostRuntime) -> Result<(), Fail> {
    expect_runs(&rt, MAPS, "")
}

// Whether the image of a row fits its map.
fn fit_text(alloc: Global, row: &str) -> Result<String, Fail> {
    let file = file_of(alloc, "0001", column(row, "data"))?;
    match Image::read(file.as_slice(), map_of(row)?) {
        Ok(_) => Ok(String::from_str(alloc, "fit")?),
        Err(fault) => Ok(format!(in alloc; "{fault}")?),
    }
}

#[test]
fn data_end_at_the_stack_at_the_latest(rt: HostRuntime) -> Result<(), Fail> {
    for row in DATA_ENDS.trim().lines() {
        let fit = fit_text(rt.alloc(), row)?;
        assert_eq!(rt; fit.as_str(), column(row, "ends"), "{row}");
    }
    Ok(())
}

#[test]
fn an_instruction_is_decoded_at_its_own_address(rt: HostRuntime) -> Result<(), Fail> {
    expect_runs(&rt, AGAIN, "")
}

#[test]
fn a_piece_ends_with_its_page(rt: HostRuntime) -> Result<(), Fail> {
    let machine = load_with(rt.alloc(), "0001", "00100000 00002000 0FFE 61 62 63 64;")?;
    assert_eq!(rt;
        machine.piece(0x0010_0FFE, 4).ok_or("no memory")?,
        b"ab".as_slice()
    );
    Ok(())
}

// `fuzz/frames.py` prints these numbers.
#[test]
fn pushes_and_pops_leave_what_the_model_says(rt: HostRuntime) -> Result<(), Fail> {
    assert_eq!(rt; frames::all_lists(rt.alloc())?, 0x6A4C_6C09);
    assert_eq!(rt; frames::all_ends(rt.alloc())?, 0x21B7_06AB);
    Ok(())
}

// Makes `steps` steps.
fn go(machine: &mut Machine, steps: u32) {
    for _k in 0..steps {
        if machine.commits() < 99 {
            machine.step();
        }
    }
}

// pc, sp, ra, s0 and a0, and the eight bytes below the stack's end.
fn frame_text(alloc: Global, machine: &Machine) -> Result<String, Fail> {
    let mut text = format!(in alloc; "{:x}", machine.pc())?;
    for number in [2, 1, 8, 10] {
        let word = machine.register(Reg::new(number).ok_or("no register")?);
        text.push_str(format!(in alloc; " {word:x}")?.as_str())?;
    }
    let bytes = machine.piece(0x0FFF_FFF8, 8).ok_or("no memory")?;
    Ok(format!(in alloc; "{text} {bytes:?}")?)
}

// The push and the pop, with what they save and load: lui ra,0x10; addi ra,ra,16; lui s0,0x11223; addi s0,s0,0x344; cm.push
// {ra, s0}, -16; c.li a0,9; c.li ra,0; c.li s0,0; cm.popretz {ra, s0}, 16.
const FRAME: &str = "000100B7 01008093 11223437 34440413 B852 4525 4081 4401 BC52";

// After `steps` steps, and if an access is done, after an interrupt that then writes these bytes from 0FFFFFFC on: a
// push is interrupted after its first access, by what then overwrites that word; and then a pop is, once after each
// access.
const CUTS: &str = "
steps 4 | done 00 | dirt EEEEEEEE | left 10010 10000000 10010 11223344 0 [0, 0, 0, 0, 238, 238, 238, 238]
steps 1 | left 10012 ffffff0 10010 11223344 0 [16, 0, 1, 0, 68, 51, 34, 17]
steps 3 | done 00 | left 10018 ffffff0 0 11223344 9 [16, 0, 1, 0, 68, 51, 34, 17]
steps 0 | done 01 | left 10018 ffffff0 10010 11223344 9 [16, 0, 1, 0, 68, 51, 34, 17]
steps 1 | left 10010 10000000 10010 11223344 0 [16, 0, 1, 0, 68, 51, 34, 17]";

// Bytes for the last word of the stack.
fn last_word(alloc: Global, text: &str) -> Result<Vec<(u32, u8)>, Fail> {
    let (mut dirt, mut at) = (Vec::new(alloc), 0x0FFF_FFFC_u32);
    for byte in bytes_of(alloc, text)? {
        dirt.push((at, byte))?;
        at = at.wrapping_add(1);
    }
    Ok(dirt)
}

// Makes the steps and the interrupt of a row, and returns what they leave.
fn left_by(alloc: Global, machine: &mut Machine, row: &str) -> Result<String, Fail> {
    go(machine, number_of(row, "steps")?);
    let done = bytes_of(alloc, column(row, "done"))?;
    if !done.is_empty() {
        let dirt = last_word(alloc, column(row, "dirt"))?;
        machine.cut(done.as_slice(), dirt.as_slice());
    }
    frame_text(alloc, machine)
}

#[test]
fn an_interrupted_push_or_pop_starts_again(rt: HostRuntime) -> Result<(), Fail> {
    let mut machine = load(rt.alloc(), FRAME)?;
    for row in CUTS.trim().lines() {
        let left = left_by(rt.alloc(), &mut machine, row)?;
        assert_eq!(rt; left.as_str(), column(row, "left"), "{row}");
    }
    Ok(())
}

// What is left by a byte that is written from outside, by its address: in and beside four bytes of data, in code, and at
// the ends of the stack. First the data, and then the first and last byte of the stack.
const POKES: &str = "
at 000FFFFF | left [1, 2, 3, 4] [0] [0]
at 00100000 | left [238, 2, 3, 4] [0] [0]
at 00100003 | left [238, 2, 3, 238] [0] [0]
at 00100004 | left [238, 2, 3, 238] [0] [0]
at 00010000 | left [238, 2, 3, 238] [0] [0]
at 0FF00000 | left [238, 2, 3, 238] [0] [0]
at 0FFFFFFF | left [238, 2, 3, 238] [0] [0]
at FFFFFFFF | left [238, 2, 3, 238] [0] [0]";

// Writes the byte of a row, and returns what is left.
fn poked(alloc: Global, machine: &mut Machine, row: &str) -> Result<String, Fail> {
    machine.poke(u32::from_str_radix(column(row, "at"), 16)?, 0xEE);
    let data = machine.piece(0x0010_0000, 4).ok_or("no data")?;
    let first = machine.piece(0x0FF0_0000, 1).ok_or("no stack")?;
    let last = machine.piece(0x0FFF_FFFF, 1).ok_or("no stack")?;
    Ok(format!(in alloc; "{data:?} {first:?} {last:?}")?)
}

#[test]
fn a_byte_from_outside_is_written_to_data_alone(rt: HostRuntime) -> Result<(), Fail> {
    let mut machine = load_with(rt.alloc(), "4525", "00100000 00000004 0 01 02 03 04;")?;
    for row in POKES.trim().lines() {
        let left = poked(rt.alloc(), &mut machine, row)?;
        assert_eq!(rt; left.as_str(), column(row, "left"), "{row}");
    }
    // The text is still c.li a0,9.
    go(&mut machine, 1);
    assert_eq!(rt; machine.register(Reg::new(10).ok_or("no register")?), 9);
    Ok(())
}

// Makes a step, and returns its result as text.
fn step_text(alloc: Global, machine: &mut Machine) -> Result<String, AllocError> {
    if machine.commits() >= 9 {
        return String::from_str(alloc, "no step");
    }
    match machine.step() {
        Step::Committed => String::from_str(alloc, "committed"),
        Step::Wants(EnvCall::Read { at, len }) => format!(in alloc; "wants read {at:x} {len}"),
        Step::Wants(EnvCall::Write { fd, at, len }) => {
            format!(in alloc; "wants write {fd} {at:x} {len}")
        }
        Step::Wants(EnvCall::Exit(status)) => format!(in alloc; "wants exit {status}"),
        Step::Ended(status) => format!(in alloc; "ended {status}"),
        Step::Stopped(reason) => {
            format!(in alloc; "stopped {} {}", reason.number(), reason.name())
        }
        Step::Asks(access) => access_text(alloc, &access),
    }
}

fn access_text(alloc: Global, access: &DeviceAccess) -> Result<String, AllocError> {
    match access {
        DeviceAccess::Load { op, at, rd, size } => {
            format!(in alloc; "asks {op:?} {at:x} {} {size}", rd.number())
        }
        DeviceAccess::Store { op, at, word, size } => {
            format!(in alloc; "asks {op:?} {at:x} {word:x} {size}")
        }
        DeviceAccess::System { word, operand } => {
            format!(in alloc; "asks system {word:x} {operand:x}")
        }
    }
}

// Makes the steps of a row after an interrupt that writes these bytes: their results should be as the row says.
fn expect_steps<R: Abort + AllocGlobal>(rt: &R, row: &str, dirt: &[(u32, u8)]) -> Result<(), Fail> {
    let mut machine = load_with(rt.alloc(), column(row, "text"), column(row, "data"))?;
    machine.cut(&[], dirt);
    for want in column(row, "answers").split(';') {
        let answer = step_text(rt.alloc(), &mut machine)?;
        assert_eq!(rt; answer.as_str(), want.trim(), "{row}");
    }
    Ok(())
}

// The last byte of the stack, the one after it, and the first of text.
const DIRT: [(u32, u8); 3] = [(0x0FFF_FFFF, 0xEE), (0x1000_0000, 0xEE), (0x10000, 0xEE)];

#[test]
fn each_step_answers_as_its_instruction_asks(rt: HostRuntime) -> Result<(), Fail> {
    for row in STEPS.trim().lines() {
        if !row.starts_with('#') {
            expect_steps(&rt, row, &[])?;
            expect_steps(&rt, row, &DIRT)?;
        }
    }
    Ok(())
}
