// Rows of tables. `rt check` proves each test, which takes time for each statement and each element of an array; so a
// table is a text, and a row one of its lines, with columns between `|`. A column begins with its key, and may be
// missing.

ghost use Rattle.std.specs.Prelude.{IfOk};
ghost use Rattle.zc_base.specs.MemMap.{IsMap};

use std::alloc::Global;
use std::test::Fail;
use zc_base::extensions::Extensions;
use zc_base::mem_map::MemMap;
use zc_outside::mem_console::MemConsole;

/// The column with a key, or an empty text.
pub fn column<'a>(row: &'a str, key: &str) -> &'a str {
    for text in row.split('|') {
        if let Some(rest) = text.trim().strip_prefix(key) {
            return rest.trim();
        }
    }
    ""
}

/// The decimal number in a column, or 99.
pub fn number_of(row: &str, key: &str) -> Result<u32, Fail> {
    let text = column(row, key);
    if text.is_empty() {
        return Ok(99);
    }
    Ok(u32::from_str_radix(text, 10)?)
}

// Where data lie, and where the stack begins and ends, in the standard map.
const STANDARD: &str = "00100000 0FF00000 10000000";

/// The map of a row, or the standard one.
pub fn map_of(row: &str) -> Result<MemMap, Fail>
    ensures { IfOk result IsMap }
{
    let text = column(row, "map");
    let text = if text.is_empty() { STANDARD } else { text };
    let (data, stack) = text.split_once(' ').ok_or("no stack")?;
    let (low, high) = stack.split_once(' ').ok_or("no end")?;
    let map = MemMap {
        text: 0x0001_0000,
        data_low: u32::from_str_radix(data, 16)?,
        stack_low: u32::from_str_radix(low, 16)?,
        stack_high: u32::from_str_radix(high, 16)?,
        extensions: Extensions::all(),
    };
    match MemMap::checked(map) {
        Some(map) => Ok(map),
        None => Err("no map".into()),
    }
}

/// The bytes of hexadecimal numbers of two digits, four or eight, the low byte of each first.
pub fn bytes_of(alloc: Global, text: &str) -> Result<Vec<u8>, Fail> {
    let mut bytes = Vec::new(alloc);
    for digits in text.split_whitespace() {
        let mut number = u32::from_str_radix(digits, 16)?;
        for _ in 0..digits.len() / 2 {
            bytes.push((number % 256) as u8)?;
            number /= 256;
        }
    }
    Ok(bytes)
}

/// The end of a run, with the bytes of the output and of the output for errors.
pub fn shown(alloc: Global, end: &str, console: &MemConsole) -> Result<String, Fail> {
    let (out, err) = (console.out_bytes(), console.err_bytes());
    Ok(format!(in alloc; "{end} {out:?} {err:?}")?)
}

/// The end of a run as a row expects it, with the same text.
pub fn end_of(alloc: Global, row: &str) -> Result<String, Fail> {
    let out = bytes_of(alloc, column(row, "out"))?;
    let err = bytes_of(alloc, column(row, "err"))?;
    let (out, err) = (out.as_slice(), err.as_slice());
    Ok(format!(in alloc; "{} {out:?} {err:?}", column(row, "ends"))?)
}
