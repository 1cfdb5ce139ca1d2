// Rows of tables: a row is a line of a text, with columns between `|`. A column begins with its key, and may be
// missing.

ghost use Rattle.std.specs.Prelude.{IfOk};
ghost use Rattle.zc_base.specs.MemMap.{IsMap};

use devices::device_list::Devices;
use devices::read_devices::read_devices;
use std::alloc::{AllocError, Global};
use std::test::Fail;
use zc_base::extensions::Extensions;
use zc_base::mem_map::MemMap;
use zc_outside::mem_console::MemConsole;

/// The column with a key, or an empty text.
pub fn column<'a>(row: &'a str, key: &str) -> &'a str {
    for text in row.split('|') {
        if let Some(rest) = text.trim().strip_prefix(key) {
            return rest.trim();
        }
    }
    ""
}

/// The decimal number in a column, or 99.
pub fn number_of(row: &str, key: &str) -> Result<u32, Fail> {
    let text = column(row, key);
    if text.is_empty() {
        return Ok(99);
    }
    Ok(u32::from_str_radix(text, 10)?)
}

// Where data lie, and where the stack begins and ends, in the standard map.
const STANDARD: &str = "00100000 0FF00000 10000000";

/// The map of a row, or the standard one.
pub fn map_of(row: &str) -> Result<MemMap, Fail>
    ensures { IfOk result IsMap }
{
    let text = column(row, "map");
    let text = if text.is_empty() { STANDARD } else { text };
    let (data, stack) = text.split_once(' ').ok_or("no stack")?;
    let (low, high) = stack.split_once(' ').ok_or("no end")?;
    let map = MemMap {
        text: 0x0001_0000,
        data_low: u32::from_str_radix(data, 16)?,
        stack_low: u32::from_str_radix(low, 16)?,
        stack_high: u32::from_str_radix(high, 16)?,
        extensions: Extensions::all(),
    };
    match MemMap::checked(map) {
        Some(map) => Ok(map),
        None => Err("no map".into()),
    }
}

/// The bytes of hexadecimal numbers of two digits, four or eight, the low byte of each first.
pub fn bytes_of(alloc: Global, text: &str) -> Result<Vec<u8>, Fail> {
    let mut bytes = Vec::new(alloc);
    for digits in text.split_whitespace() {
        let mut number = u32::from_str_radix(digits, 16)?;
        for _ in 0..digits.len() / 2 {
            bytes.push((number % 256) as u8)?;
            number /= 256;
        }
    }
    Ok(bytes)
}

/// A text of lines behind a title, where each line begins with `/`.
pub fn lines_of(alloc: Global, title: &str, lines: &str) -> Result<Vec<u8>, AllocError> {
    let mut bytes = Vec::from_slice(alloc, title.as_bytes())?;
    for byte in lines.bytes() {
        bytes.push(if byte == b'/' { b'\n' } else { byte })?;
    }
    bytes.push(b'\n')?;
    Ok(bytes)
}

// The device that `+` and `*` stand for, and the outputs that `*` stands for besides.
const DEVICE: &str = "/device 10000000 00000010";

const OUTPUTS: &str = "/output 10000008/output 10000009/output 1000000a/output 1000000b";

/// The devices of a row.
pub fn devices_of(alloc: Global, row: &str) -> Result<Devices, Fail> {
    let text = column(row, "devices");
    let lines = match (text.strip_prefix("+"), text.strip_prefix("*")) {
        (Some(rest), _) => format!(in alloc; "{DEVICE}{rest}")?,
        (None, Some(rest)) => format!(in alloc; "{DEVICE}{OUTPUTS}{rest}")?,
        (None, None) => String::from_str(alloc, text)?,
    };
    let text = lines_of(alloc, "zcld devices 1", lines.as_str())?;
    Ok(read_devices(alloc, text.as_slice(), map_of(row)?)?)
}

/// The end of a run, with the bytes of the output.
pub fn shown(alloc: Global, end: &str, console: &MemConsole) -> Result<String, AllocError> {
    format!(in alloc; "{end} {:?}", console.out_bytes())
}

/// The end of a run of an image as a row expects it, with the same text.
pub fn image_end(alloc: Global, row: &str) -> Result<String, Fail> {
    let out = bytes_of(alloc, column(row, "out"))?;
    Ok(format!(in alloc; "{} {:?}", column(row, "ends"), out.as_slice())?)
}

/// The end of a run of an object as a row expects it: that of an image, but where the row says why the object is stuck,
/// before it writes anything.
pub fn object_end(alloc: Global, row: &str) -> Result<String, Fail> {
    let why = column(row, "stuck");
    if why.is_empty() {
        return image_end(alloc, row);
    }
    Ok(format!(in alloc; "stuck {why} []")?)
}
