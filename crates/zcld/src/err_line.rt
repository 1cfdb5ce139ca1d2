// The line that names an outcome on standard error, made without memory.

ghost use Rattle.std.specs.Prelude.{◌≡◌, ◌≤◌, ◌<◌, ◌+◌, ◌++◌, [], None, decimal, length};
ghost use Rattle.elf32_read.specs.Object.{object_fault};
ghost use Rattle.std.specs.Option.{option_map};
ghost use Rattle.std.specs.List.{flat_map};
ghost use Rattle.psabi_sym.specs.Objects.{contents_of};
ghost use Rattle.text_lines.specs.Hex.{hex_at, hex_word};
ghost use Rattle.zc_outside.specs.Desk.{OnlyWrites};
ghost use Rattle.zc_outside.specs.Streams.{KeepsBytes};
ghost use Rattle.zcld.specs.Call.{WritesLine};
ghost use Rattle.zcld.specs.ErrLine.{certificate_fault_text, devices_fault_text, err_line, fault_symbol_name, fault_text, line as with_line_feed, name_in, plan_fault_text, stop_text, stuck_text};
ghost use Rattle.zcld.specs.declared.outcome.Outcome.TheVariants.{Refused};

use crate::outcome::{FileFault, Outcome};
use arrayvec::ArrayString;
use devices::fault::DevicesFault;
use elf32_read::fault::Fault;
use elf32_read::object::Object;
use interrupt_plan::fault::PlanFault;
use itoa::Buffer;
use pick_check::fault::CertFault;
use sym_machine::why::Why;
use zc_base::place::Place;
use zc_machine::reason::Reason;
use zc_outside::console::Console;

/// Writes the line of an outcome to standard error. A line that can't be written changes no outcome.
/// The files are those that were read: a line may end with a name in one of them, which is written
/// from there.
pub fn write_line<C: Console>(files: &[Vec<u8>], outcome: &Outcome, console: &mut C)
    ensures line { WritesLine (err_line (contents_of files.now) outcome.now)
        (C.shown console.old) (C.shown console.new) }
    ensures out { KeepsBytes (C.shown console.old).out (C.shown console.new).out }
    ensures only { OnlyWrites (C.shown console.old) (C.shown console.new) }
{
    match outcome {
        Outcome::Refused(object, fault) => write_refusal(files, *object, *fault, console),
        _ => {
            let line = line_of(outcome);
            write_pieces(&[line.as_str().as_bytes()], console);
        }
    }
}

// Writes the line of a refusal.
fn write_refusal<C: Console>(files: &[Vec<u8>], object: u32, fault: Fault, console: &mut C)
    ensures line { WritesLine (err_line (contents_of files.now) (Refused object fault))
        (C.shown console.old) (C.shown console.new) }
    ensures out { KeepsBytes (C.shown console.old).out (C.shown console.new).out }
    ensures only { OnlyWrites (C.shown console.old) (C.shown console.new) }
{
    match fault_symbol_name(files, object, fault) {
        Some(name) => {
            let head = named_fault("refused", object, fault, " ");
            write_pieces(&[head.as_str().as_bytes(), name, b"\n"], console);
        }
        None => {
            let line = named_fault("refused", object, fault, "\n");
            write_pieces(&[line.as_str().as_bytes()], console);
        }
    }
}

// The name of the symbol that a fault names, if it names one that the files have.
fn fault_symbol_name(files: &[Vec<u8>], object: u32, fault: Fault) -> Option<&[u8]>
    ensures { option_map (λ name. name.now) result ≡ fault_symbol_name (contents_of files.now) object fault }
{
    symbol_name(files.get(object as usize)?, fault.symbol()?)
}

// The name of a symbol of a file, if it can be read and has the symbol.
fn symbol_name(file: &[u8], symbol: u32) -> Option<&[u8]>
    ensures { option_map (λ name. name.now) result ≡ name_in symbol file.now }
{
    match Object::read(file) {
        Ok(object) => symbol_name_of(&object, symbol),
        Err(_) => None,
    }
}

// The name of an object's symbol, if it has it.
fn symbol_name_of<'a>(object: &Object<'a>, symbol: u32) -> Option<&'a [u8]>
    requires { object_fault object.now ≡ None }
    ensures { option_map (λ name. name.now) result ≡ name_in symbol object.now }
{
    if symbol < object.symbol_count() {
        Some(object.symbol(symbol).name)
    } else {
        None
    }
}

// Writes pieces to standard error one after another, until one is refused.
fn write_pieces<C: Console>(pieces: &[&[u8]], console: &mut C)
    ensures line { WritesLine (flat_map (λ piece. piece.now) pieces.now)
        (C.shown console.old) (C.shown console.new) }
    ensures out { KeepsBytes (C.shown console.old).out (C.shown console.new).out }
    ensures only { OnlyWrites (C.shown console.old) (C.shown console.new) }
{
    for piece in pieces {
        if console.err(piece).is_err() {
            return;
        }
    }
}

/// Room for the longest line: `stuck`, a place, and a reason's number and name.
pub const ROOM: usize = 64;

/// The line of an outcome without a symbol's name, with its line feed; empty if there is none.
pub fn line_of(outcome: &Outcome) -> ArrayString<ROOM>
    ensures { result.bytes ≡ err_line [] outcome.now }
{
    match outcome {
        Outcome::Done => ArrayString::new(),
        Outcome::Exited(code) => numbered_line("exited ", u64::from(*code)),
        Outcome::Usage => line("usage"),
        Outcome::Refused(object, fault) => named_fault("refused", *object, *fault, "\n"),
        Outcome::Broken(object, fault) => named_fault("broken", *object, *fault, "\n"),
        Outcome::ReadFault => line("read fault"),
        Outcome::WriteFault => line("write fault"),
        Outcome::OutOfMemory => line("out of memory"),
        Outcome::BadFile(FileFault::Image(fault)) => {
            numbered_line("bad image ", u64::from(fault.number()))
        }
        Outcome::BadFile(FileFault::Devices(fault)) => bad_devices(*fault),
        Outcome::BadFile(FileFault::Plan(fault)) => bad_plan(*fault),
        Outcome::BadFile(FileFault::Certificate(fault)) => bad_certificate(*fault),
        Outcome::BadFile(FileFault::Rejected) => line("rejected"),
        Outcome::Stopped(reason, pc) => stop(*reason, *pc),
        Outcome::Stuck(place, why) => stuck(*place, *why),
        Outcome::Spent => line("spent"),
    }
}

// A text with a line feed after it.
fn line(text: &str) -> ArrayString<ROOM>
    requires { length text.now ≤ 63 }
    ensures { result.bytes ≡ with_line_feed text.now }
{
    let mut line = ArrayString::new();
    line.push_str(text);
    line.push_str("\n");
    line
}

// A word with an object and its fault, and an end: a line feed, or a space that a name follows.
fn named_fault(word: &str, object: u32, fault: Fault, end: &str) -> ArrayString<ROOM>
    requires word { length word.now ≤ 7 }
    requires end { length end.now ≤ 1 }
    ensures { result.bytes ≡ fault_text word.now object fault ++ end.now }
{
    let mut digits = Buffer::new();
    let mut line = ArrayString::new();
    line.push_str(word);
    line.push_str(" ");
    line.push_str(digits.format(object));
    line.push_str(" ");
    line.push_str(digits.format(fault.number()));
    line.push_str(" ");
    line.push_str(fault.name());
    line.push_str(end);
    line
}

/// A text, a number and a line feed.
pub fn numbered_line(text: &str, number: u64) -> ArrayString<ROOM>
    requires { length text.now ≤ 43 }
    ensures { result.bytes ≡ with_line_feed (text.now ++ decimal number) }
{
    let mut digits = Buffer::new();
    let mut line = ArrayString::new();
    line.push_str(text);
    line.push_str(digits.format(number));
    line.push_str("\n");
    line
}

// The line of a fault of a text of devices.
fn bad_devices(fault: DevicesFault) -> ArrayString<ROOM>
    ensures { result.bytes ≡ with_line_feed (devices_fault_text fault) }
{
    match fault {
        DevicesFault::Line(number) => numbered_line("bad devices line ", u64::from(number)),
        DevicesFault::Size => line("bad devices size"),
        DevicesFault::OutOfMemory => line("out of memory"),
    }
}

// The line of a fault of a plan.
fn bad_plan(fault: PlanFault) -> ArrayString<ROOM>
    ensures { result.bytes ≡ with_line_feed (plan_fault_text fault) }
{
    match fault {
        PlanFault::BadLine { number } => numbered_line("bad plan line ", u64::from(number)),
        PlanFault::OutOfOrder { number } => numbered_line("bad plan order ", u64::from(number)),
        PlanFault::TooLarge => line("bad plan size"),
        PlanFault::OutOfMemory => line("out of memory"),
    }
}

// The line of a fault of a certificate.
fn bad_certificate(fault: CertFault) -> ArrayString<ROOM>
    ensures { result.bytes ≡ with_line_feed (certificate_fault_text fault) }
{
    match fault {
        CertFault::BadLine { number } => {
            numbered_line("bad certificate line ", u64::from(number))
        }
        CertFault::TooLarge => line("bad certificate size"),
        CertFault::OutOfMemory => line("out of memory"),
    }
}

// The line of a stop.
fn stop(reason: Reason, pc: u32) -> ArrayString<ROOM>
    ensures { result.bytes ≡ with_line_feed (stop_text reason pc) }
{
    let mut digits = Buffer::new();
    let mut line = ArrayString::new();
    line.push_str("stopped ");
    line.push_str(digits.format(reason.number()));
    line.push_str(" ");
    line.push_str(reason.name());
    line.push_str(" ");
    push_hex(&mut line, pc);
    line.push_str("\n");
    line
}

// The line of a program that is stuck.
fn stuck(place: Place, why: Why) -> ArrayString<ROOM>
    ensures { result.bytes ≡ with_line_feed (stuck_text place why) }
{
    let mut digits = Buffer::new();
    let mut line = ArrayString::new();
    line.push_str("stuck ");
    line.push_str(digits.format(place.object));
    line.push_str(" ");
    line.push_str(digits.format(place.section));
    line.push_str(" ");
    line.push_str(digits.format(place.offset));
    line.push_str(" ");
    line.push_str(digits.format(why.number()));
    line.push_str(" ");
    line.push_str(why.name());
    line.push_str("\n");
    line
}

// Adds a number as eight hexadecimal digits.
fn push_hex(line: &mut ArrayString<ROOM>, number: u32)
    requires { length line.old.bytes + 8 ≤ 64 }
    ensures { line.new.bytes ≡ line.old.bytes ++ hex_word number }
{
    line.push(hex_digit(number, 28));
    line.push(hex_digit(number, 24));
    line.push(hex_digit(number, 20));
    line.push(hex_digit(number, 16));
    line.push(hex_digit(number, 12));
    line.push(hex_digit(number, 8));
    line.push(hex_digit(number, 4));
    line.push(hex_digit(number, 0));
}

// The hexadecimal digit of the four bits from bit `shift` up.
fn hex_digit(number: u32, shift: u32) -> char
    requires { shift < 32 }
    ensures digit { result ≡ hex_at number shift }
    ensures ascii { result < 128 }
{
    let digit = ((number >> shift) % 16) as u8;
    if digit < 10 {
        char::from(b'0' + digit)
    } else {
        char::from(b'a' - 10 + digit)
    }
}
