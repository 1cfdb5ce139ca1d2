// Texts of devices, and what is read from them. A `/` means a line feed.

use crate::row::map_of;
use devices::answers::Answers;
use devices::device_list::Devices;
use devices::read_devices::read_devices;
use rv_decode::instr::LoadOp;
use std::alloc::{AllocError, Global};
use std::process::Abort;
use std::test::Fail;
use zc_base::mem_map::MemMap;

// Whole texts, and behind `+` lines that follow the title: the number of lines, or the first fault. Memory lies from
// 0x00010000 to below 0x10000000.
const TEXTS: &str = " = line 1 isn't one of devices
zcld devices 1 = line 1 isn't one of devices
zcld devices 1/ = 0
zcld devices 2/ = line 1 isn't one of devices
zcld devices 1 / = line 1 isn't one of devices
zcld  devices 1/ = line 1 isn't one of devices
/zcld devices 1/ = line 1 isn't one of devices
zcld plan 1/ = line 1 isn't one of devices
device 00000000 00000004/ = line 1 isn't one of devices
+/ = line 2 isn't one of devices
+device 00000000 00000004 = line 2 isn't one of devices
+device 00000000 00000004//output 00000000/ = line 3 isn't one of devices
+device 00000000 00000004/end/ = line 3 isn't one of devices
+device 00000000 00000004/ = 1
+device 00000000 00000000/ = line 2 isn't one of devices
+device 00000000 00010000/ = 1
+device 00000000 00010001/ = line 2 isn't one of devices
+device 0000ffff 00000001/ = 1
+device 0000ffff 00000002/ = line 2 isn't one of devices
+device 00010000 00000001/ = line 2 isn't one of devices
+device 00000000 ffffffff/ = line 2 isn't one of devices
+device 0fffffff 00000001/ = line 2 isn't one of devices
+device 0ffffffc 00000008/ = line 2 isn't one of devices
+device 10000000 00000001/ = 1
+device 10000000 f0000000/ = 1
+device 10000000 f0000001/ = line 2 isn't one of devices
+device ffffffff 00000001/ = 1
+device ffffffff 00000002/ = line 2 isn't one of devices
+device fffffffc ffffffff/ = line 2 isn't one of devices
+device 10000010 00000010/device 10000000 00000010/device 10000020 00000010/ = 3
+device 10000010 00000010/device 10000000 00000011/ = line 3 isn't one of devices
+device 10000010 00000010/device 1000001f 00000001/ = line 3 isn't one of devices
+device 10000010 00000010/device 10000014 00000004/ = line 3 isn't one of devices
+device 10000010 00000010/device 10000010 00000010/ = line 3 isn't one of devices
+device 10000010 00000010/device 10000000 00000100/ = line 3 isn't one of devices
+device 10000020 00000010/device 10000000 00000010/device 1000000f 00000012/ = line 4 isn't one of devices
+device 10000000 0000000g/ = line 2 isn't one of devices
+device 1000000 00000001/ = line 2 isn't one of devices
+device 010000000 00000001/ = line 2 isn't one of devices
+device 0x100000 00000001/ = line 2 isn't one of devices
+device F0000000 00000001/ = line 2 isn't one of devices
+device  10000000 00000001/ = line 2 isn't one of devices
+device 10000000  00000001/ = line 2 isn't one of devices
+ device 10000000 00000001/ = line 2 isn't one of devices
+device 10000000 00000001 / = line 2 isn't one of devices
+device 10000000 00000001 00000001/ = line 2 isn't one of devices
+device 10000000/ = line 2 isn't one of devices
+device/ = line 2 isn't one of devices
+Device 10000000 00000001/ = line 2 isn't one of devices
+devices 10000000 00000001/ = line 2 isn't one of devices
+output 10000000/ = line 2 isn't one of devices
+output 10000000/device 10000000 00000004/ = line 2 isn't one of devices
+device 10000000 00000004/output 0fffffff/ = line 3 isn't one of devices
+device 10000000 00000004/output 10000000/output 10000003/output 10000000/ = 4
+device 10000000 00000004/output 10000004/ = line 3 isn't one of devices
+device ffffffff 00000001/output ffffffff/ = 2
+device 10000000 00000004/output 10000000 10000001/ = line 3 isn't one of devices
+device 10000000 00000004/output 1000000/ = line 3 isn't one of devices
+device 10000000 00000004/output/ = line 3 isn't one of devices
+registers/ = 1
+reset/ = 1
+reset/registers/ = 2
+registers/registers/ = line 3 isn't one of devices
+reset/reset/ = line 3 isn't one of devices
+registers/reset/answer 00/registers/ = line 5 isn't one of devices
+reset/registers/device 10000000 00000004/reset/ = line 5 isn't one of devices
+registers / = line 2 isn't one of devices
+registers 00/ = line 2 isn't one of devices
+registers registers/ = line 2 isn't one of devices
+ registers/ = line 2 isn't one of devices
+Registers/ = line 2 isn't one of devices
+register/ = line 2 isn't one of devices
+registers1/ = line 2 isn't one of devices
+reset / = line 2 isn't one of devices
+reset 00000000/ = line 2 isn't one of devices
+ reset/ = line 2 isn't one of devices
+Reset/ = line 2 isn't one of devices
+rese/ = line 2 isn't one of devices
+resets/ = line 2 isn't one of devices
+output 10000000/registers/ = line 2 isn't one of devices
+answer/answer 00/answer ff 7f/ = 3
+answer / = line 2 isn't one of devices
+answer 0/ = line 2 isn't one of devices
+answer 000/ = line 2 isn't one of devices
+answer 0A/ = line 2 isn't one of devices
+answer 00  01/ = line 2 isn't one of devices
+answer 00 01 / = line 2 isn't one of devices
+answer 0001/ = line 2 isn't one of devices
+then 00 01/ = 1
+then/ = line 2 isn't one of devices
+then 100/ = line 2 isn't one of devices
+then 00/then 00/ = line 3 isn't one of devices
+then 00/answer 00/ = line 3 isn't one of devices
+then 00/device 10000000 00000004/ = line 3 isn't one of devices
+then 00/registers/ = line 3 isn't one of devices
+then 00/reset/ = line 3 isn't one of devices
+device 10000000 00000004/then 00/output 10000000/ = line 4 isn't one of devices
+then 00// = line 3 isn't one of devices
+answer 00/device 10000000 00000004/answer 01/output 10000000/then 02/ = 5
+answer 00/registers/device 10000000 00000004/answer 01/reset/output 10000000/then 02/ = 7";

// A text with a line of each kind.
const DEVICES: &str =
    "+device 10000010 00000010/device fffffffc 00000004/output 10000013/output ffffffff\
/registers/reset/answer 01 02/answer 83/then 04 85/";

// What the devices of this text say: whether `n` bytes from an address on lie in one, and whether a byte that is stored
// at an address appears; whether they have registers, and runs start as after a reset (`says`; `silent` asks no devices);
// and what is taken from the answers of a run of one step (`take`) or of none (`once`), as bytes
// or as the numbers that loads get. `read` takes from the input 01 02 83, with devices that answer nothing.
const QUESTIONS: &str = "has 1000000f 1 = false
has 1000000f 2 = false
has 10000010 1 = true
has 10000010 16 = true
has 10000010 17 = false
has 1000001f 1 = true
has 1000001f 2 = false
has 10000020 1 = false
has fffffffb 4 = false
has fffffffc 4 = true
has ffffffff 1 = true
has ffffffff 2 = false
has 00000000 1 = false
output 10000012 = false
output 10000013 = true
output 10000014 = false
output fffffffe = false
output ffffffff = true
says registers = true
says reset = true
silent registers = false
silent reset = false
take 2 2 2 0 9 = [1, 2] [131, 4] [133, 4] [] [133, 4, 133, 4, 133, 4, 133, 4, 133]
take lb lbu lh lhu = 1 2 1155 1157
take lw 1 lw lw = 75694593 [133] 2231665924 2231665924
take lh 1 lw = 513 [131] 2231665924
once 2 9 9 = [1, 2] [131] []
once lw lb = 8585729 0
once 2 lh lhu = [1, 2] 131 0
read lw 1 = 8585729 []
read lb 9 lw = 1 [2, 131] 0";

// Texts as above. Memory lies from 0x00010000 to below 0x20000080, and the stack has its last 16 bytes.
const AROUND: &str = "+device 00000000 00010000/ = 1
+device 0000ffff 00000002/ = line 2 isn't one of devices
+device 10000000 00000010/ = line 2 isn't one of devices
+device 20000070 00000010/ = line 2 isn't one of devices
+device 2000007f 00000001/ = line 2 isn't one of devices
+device 20000080 00000001/ = 1
+device 20000080 dfffff80/ = 1";

// The bytes of a text, behind the title if it begins with `+`.
fn bytes_of(alloc: Global, text: &str) -> Result<Vec<u8>, AllocError> {
    let (title, rest) = match text.strip_prefix("+") {
        Some(lines) => ("zcld devices 1/", lines),
        None => ("", text),
    };
    let mut bytes = Vec::new(alloc);
    for byte in title.bytes().chain(rest.bytes()) {
        bytes.push(if byte == b'/' { b'\n' } else { byte })?;
    }
    Ok(bytes)
}

// The number of lines of a text, or its fault.
fn told(alloc: Global, text: &[u8], map: MemMap) -> Result<String, AllocError> {
    match read_devices(alloc, text, map) {
        Ok(devices) => format!(in alloc; "{}", devices.len()),
        Err(fault) => format!(in alloc; "{fault}"),
    }
}

// The load of a name, or a word.
fn load_of(name: &str) -> LoadOp {
    match name {
        "lb" => LoadOp::Lb,
        "lbu" => LoadOp::Lbu,
        "lh" => LoadOp::Lh,
        "lhu" => LoadOp::Lhu,
        _ => LoadOp::Lw,
    }
}

// The next `count` bytes, or all that are left.
fn next_bytes(
    alloc: Global,
    answers: &mut Answers<'_>,
    count: usize,
) -> Result<Vec<u8>, AllocError> {
    let mut bytes = Vec::new(alloc);
    for _ in 0..count {
        bytes.extend_from_slice(answers.take_piece(count.saturating_sub(bytes.len())))?;
    }
    Ok(bytes)
}

// What is taken by words, each a number of bytes or a load.
fn taken(alloc: Global, mut answers: Answers<'_>, words: &str) -> Result<String, Fail> {
    let mut text = String::new(alloc);
    for word in words.split(' ') {
        let part = match usize::from_str_radix(word, 10) {
            Ok(count) => format!(in alloc; " {:?}", next_bytes(alloc, &mut answers, count)?)?,
            Err(_) => format!(in alloc; " {}", answers.take_number(load_of(word)))?,
        };
        text.push_str(part.as_str())?;
    }
    Ok(text)
}

// Whether `n` bytes from an address on lie in one device.
fn has(devices: &Devices, words: &str) -> Result<bool, Fail> {
    let (at, count) = words.split_once(' ').ok_or("no count")?;
    let (at, count) = (u32::from_str_radix(at, 16)?, count.parse::<u32>()?);
    Ok(count > 0 && devices.has(at, count))
}

// Whether devices have registers, or runs start as after a reset.
fn says(devices: &Devices, word: &str) -> bool {
    match word {
        "registers" => devices.has_registers(),
        _ => devices.starts_reset(),
    }
}

// The answer to a question.
fn answer(
    alloc: Global,
    devices: &Devices,
    silent: &Devices,
    question: &str,
) -> Result<String, Fail> {
    let (call, words) = question.split_once(' ').ok_or("no words")?;
    match call {
        "has" => Ok(format!(in alloc; " {}", has(devices, words)?)?),
        "output" => {
            let at = u32::from_str_radix(words, 16)?;
            Ok(format!(in alloc; " {}", devices.is_output(at))?)
        }
        "says" => Ok(format!(in alloc; " {}", says(devices, words))?),
        "silent" => Ok(format!(in alloc; " {}", says(silent, words))?),
        "take" => taken(alloc, devices.answers(1, b"ab"), words),
        "once" => taken(alloc, devices.answers(0, b"ab"), words),
        _ => taken(alloc, silent.answers(1, b"\x01\x02\x83"), words),
    }
}

#[test]
fn a_text_is_read_or_its_first_fault_is_named(rt: HostRuntime) -> Result<(), Fail> {
    for row in TEXTS.lines() {
        let (text, want) = row.split_once(" = ").ok_or("no answer")?;
        let bytes = bytes_of(rt.alloc(), text)?;
        let told = told(rt.alloc(), bytes.as_slice(), MemMap::standard())?;
        assert_eq!(rt; told.as_str(), want, "{row}");
    }
    Ok(())
}

#[test]
fn a_device_lies_outside_memory(rt: HostRuntime) -> Result<(), Fail> {
    let map = map_of("map 20000000 20000070 20000080")?;
    for row in AROUND.lines() {
        let (text, want) = row.split_once(" = ").ok_or("no answer")?;
        let bytes = bytes_of(rt.alloc(), text)?;
        let told = told(rt.alloc(), bytes.as_slice(), map)?;
        assert_eq!(rt; told.as_str(), want, "{row}");
    }
    Ok(())
}

#[test]
fn devices_say_what_their_lines_say(rt: HostRuntime) -> Result<(), Fail> {
    let text = bytes_of(rt.alloc(), DEVICES)?;
    let devices = read_devices(rt.alloc(), text.as_slice(), MemMap::standard())?;
    let silent = Devices::new(rt.alloc());
    for row in QUESTIONS.lines() {
        let (question, want) = row.split_once(" =").ok_or("no answer")?;
        let found = answer(rt.alloc(), &devices, &silent, question)?;
        assert_eq!(rt; found.as_str(), want, "{row}");
    }
    Ok(())
}

// The longest text has two lines of answers.
#[test]
fn a_text_has_at_most_8_mib(rt: HostRuntime) -> Result<(), Fail> {
    let mut text = bytes_of(rt.alloc(), "+answer/answer")?;
    for _ in 0..2_796_193_u32 {
        text.extend_from_slice(b" 00")?;
    }
    text.push(b'\n')?;
    let map = MemMap::standard();
    assert_eq!(rt; told(rt.alloc(), text.as_slice(), map)?.as_str(), "2");
    text.push(b'\n')?;
    assert_eq!(rt;
        told(rt.alloc(), text.as_slice(), map)?.as_str(),
        "the devices are too large"
    );
    Ok(())
}
