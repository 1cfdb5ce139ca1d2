// Files as text.

use std::alloc::Global;
use std::test::Fail;
use zc_base::fields::put_u32;

/// The bytes that words of a text spell: `0a1b` is two bytes, `00*28` is 28 zeros, and `=.text` is `.text` and a zero.
pub fn bytes_of(alloc: Global, words: &str) -> Result<Vec<u8>, Fail> {
    let mut bytes = Vec::new(alloc);
    for word in words.split_whitespace() {
        if let Some(name) = word.strip_prefix("=") {
            bytes.extend_from_slice(name.as_bytes())?;
            bytes.push(0)?;
        } else {
            let (digits, count) = word.split_once("*").unwrap_or((word, "1"));
            let part = hex::decode(alloc, digits.as_bytes())?;
            for _ in 0..count.parse::<u32>()? {
                bytes.extend_from_slice(&part)?;
            }
        }
    }
    Ok(bytes)
}

// An offset: a number, or the sum of two numbers with `+` between them.
fn place_of(text: &str) -> Result<usize, Fail> {
    let (start, field) = text.split_once("+").unwrap_or((text, "0"));
    Ok(
        start
            .parse::<usize>()?
            .saturating_add(field.parse::<usize>()?),
    )
}

/// A file after the changes of a line. Each of its words is a change: one with a colon writes a word of the file, so
/// `408+4:11` writes 0x11 at 412, and `<51` leaves only the first 51 bytes.
pub fn changed(alloc: Global, file: &str, line: &str) -> Result<Vec<u8>, Fail> {
    let mut bytes = bytes_of(alloc, file)?;
    for word in line.split_whitespace() {
        if let Some((at, value)) = word.split_once(":") {
            let at = place_of(at)?;
            let value = u32::from_str_radix(value, 16)?;
            if bytes.len() <= at || bytes.len() - at < 4 {
                return Err(Fail::new("no word"));
            }
            put_u32(&mut bytes, at, value);
        } else if let Some(length) = word.strip_prefix("<") {
            bytes.truncate(length.parse::<usize>()?);
        }
    }
    Ok(bytes)
}
