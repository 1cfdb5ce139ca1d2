// Objects that the tests change.
//
// `rt check` proves each test, which takes time for each assertion and each element of a table. So files are
// hexadecimal digits, and rows are lines of a text.

use std::alloc::{AllocError, Global};
use std::test::Fail;
use zc_base::fields::put_u32;

// Sections without names: 1 is code of twelve words, 2 code of two, 3 twelve bytes of data, 4 eight zeros,
// 5 code of 304 bytes, those that the file begins with, and 6 is dropped. Section 1 is
//
//    0  auipc a0,0      12  lw a1,0(a1)       24  jal ra,0        36  nop
//    4  addi a0,a0,0    16  sw a1,0(a0)       28  auipc ra,0      40  ecall
//    8  lui a1,0        20  beq a0,a1,0       32  jalr ra,0(ra)   44  nop
//
// and section 2 is `auipc a0,0` and `nop`. Ten relocations follow each other, all of them NONE: 0 to 3
// are of section 1, 4 of 2, 5 and 6 of 3, 7 of 4, and 8 and 9 of 5. Symbols: 1 is the start of section 1,
// 2 its end, 3 the start of 2, 4 of 3, 5 the number 16, 6 in the dropped section, 7 at 8 in section 1, 8 is
// `_start`, the start of section 1 as well, and 9 weak and undefined.
const OBJECT: &str = "
7f454c46 01010100 00000000 00000000 0100f300 01000000 00000000 00000000 a0010000 00000000 34000000
00002800 0e000d00 17050000 13050500 b7050000 83a50500 2320b500 6300b500 ef000000 97000000 e7800000
13000000 73000000 13000000 17050000 13000000 00000000 00000000 00000000 00000000 00000000 00000000
00000000 00000000 00000000 00000000 00000000 00000000 00000000 00000000 00000000 00000000 00000000
00000000 00000000 00000000 00000000 00000000 00000000 00000000 00000000 00000000 00000000 00000000
00000000 00000000 00000000 00000000 00000000 00000000 00000000 00000000 00000000 00000000 00000000
00000000 00000100 00000000 30000000 00000000 00000100 00000000 00000000 00000000 00000200 00000000
00000000 00000000 00000300 00000000 10000000 00000000 0000f1ff 00000000 00000000 00000000 00000600
00000000 08000000 00000000 00000100 01000000 00000000 00000000 10000100 08000000 00000000 00000000
20000000 005f7374 61727400 7765616b 00000000 00000000 00000000 00000000 00000000 00000000 00000000
00000000 00000000 00000000 00000000 00000000 01000000 06000000 00000000 34000000 30000000 00000000
00000000 04000000 00000000 00000000 01000000 06000000 00000000 64000000 08000000 00000000 00000000
04000000 00000000 00000000 01000000 03000000 00000000 6c000000 0c000000 00000000 00000000 04000000
00000000 00000000 08000000 03000000 00000000 6c000000 08000000 00000000 00000000 04000000 00000000
00000000 01000000 06000000 00000000 00000000 30010000 00000000 00000000 04000000 00000000 00000000
01000000 00000000 00000000 00000000 04000000 00000000 00000000 04000000 00000000 00000000 04000000
00000000 00000000 78000000 30000000 0c000000 01000000 04000000 0c000000 00000000 04000000 00000000
00000000 a8000000 0c000000 0c000000 02000000 04000000 0c000000 00000000 04000000 00000000 00000000
b4000000 18000000 0c000000 03000000 04000000 0c000000 00000000 04000000 00000000 00000000 cc000000
0c000000 0c000000 04000000 04000000 0c000000 00000000 04000000 00000000 00000000 d8000000 18000000
0c000000 05000000 04000000 0c000000 00000000 02000000 00000000 00000000 f0000000 a0000000 0d000000
08000000 04000000 10000000 00000000 03000000 00000000 00000000 90010000 0d000000 00000000 00000000
01000000 00000000
";

// How many bytes the object has, where in it the relocations begin, and where st_name of symbols 8 and 9 is.
const OBJECT_SIZE: usize = 976;

const RELOCS: usize = 120;

const START_NAME: usize = 368;

const WEAK_NAME: usize = 384;

/// The bytes of words of hexadecimal digits.
pub fn bytes_of(alloc: Global, words: &str) -> Result<Vec<u8>, Fail> {
    let mut bytes = Vec::new(alloc);
    for word in words.split_whitespace() {
        let number = u32::from_str_radix(word, 16)?;
        for k in 0..4_u32 {
            bytes.push(((number >> (24 - 8 * k)) % 256) as u8)?;
        }
    }
    Ok(bytes)
}

/// Numbers with a colon between.
pub fn numbers_of(alloc: Global, text: &str) -> Result<Vec<i64>, Fail> {
    let mut numbers = Vec::new(alloc);
    for digits in text.trim().split(':') {
        numbers.push(digits.parse::<i64>()?)?;
    }
    Ok(numbers)
}

// Writes a word, if the file has it.
fn write_word(file: &mut [u8], at: usize, word: u32) -> Result<(), Fail> {
    let length = file.len();
    if at < length && length - at >= 4 {
        put_u32(file, at, word);
        Ok(())
    } else {
        Err(Fail::new("no word"))
    }
}

// Replaces a relocation: its number, offset, symbol, type and addend.
fn put_reloc(file: &mut [u8], numbers: &[i64]) -> Result<(), Fail> {
    let [number, offset, symbol, kind, addend] = numbers else {
        return Err("no relocation".into());
    };
    let at = RELOCS + 12 * usize::from(u8::try_from(*number)?);
    let info = u32::from(u8::try_from(*symbol)?) << 8 | u32::from(u8::try_from(*kind)?);
    let addend = i32::try_from(*addend)?.cast_unsigned();
    write_word(file, at, u32::try_from(*offset)?)?;
    write_word(file, at + 4, info)?;
    write_word(file, at + 8, addend)
}

// Adds `count` bytes of a number, the low one first.
fn add_number(file: &mut Vec<u8>, number: u32, count: usize) -> Result<(), AllocError> {
    let mut rest = number;
    for _ in 0..count {
        file.push((rest % 256) as u8)?;
        rest /= 256;
    }
    Ok(())
}

// Makes a change: `19*3` appends the word 19 to the file three times, eight hexadecimal digits append a word, and four
// a halfword; `528:64` writes the word 64 at 528, and five numbers are a relocation.
fn change(alloc: Global, file: &mut Vec<u8>, text: &str) -> Result<(), Fail> {
    if let Some((word, times)) = text.split_once('*') {
        let word = word.parse::<u32>()?;
        for _ in 0..times.parse::<u32>()? {
            add_number(file, word, 4)?;
        }
        return Ok(());
    }
    if !text.contains(':') {
        let number = u32::from_str_radix(text, 16)?;
        return Ok(add_number(file, number, text.len() / 2)?);
    }
    let numbers = numbers_of(alloc, text)?;
    match numbers.as_slice() {
        [at, word] => write_word(
            file,
            usize::from(u16::try_from(*at)?),
            u32::try_from(*word)?,
        ),
        _ => put_reloc(file, &numbers),
    }
}

// Makes section 1 of the words that were appended, and drops all other code. Symbols 2 and 7 are then at its start.
fn leave_added(file: &mut [u8]) -> Result<(), Fail> {
    let size = u32::try_from(file.len().saturating_sub(OBJECT_SIZE))?;
    write_word(file, 472, OBJECT_SIZE as u32)?;
    write_word(file, 476, size)?;
    write_word(file, 504, 0)?;
    write_word(file, 624, 0)?;
    write_word(file, 276, 0)?;
    write_word(file, 356, 0)
}

/// Two of these objects with these changes; a change of the second object has `|` before it. In the second object
/// symbol 8 has another name, and 9 is the first object's `_start`. With `bare` the code of each is what was appended;
/// with `alone` there is only the first object, also bare. `36:1` makes an object compressed.
pub fn files_of(alloc: Global, changes: &str) -> Result<Vec<Vec<u8>>, Fail> {
    let mut first = bytes_of(alloc, OBJECT)?;
    let mut second = bytes_of(alloc, OBJECT)?;
    write_word(&mut second, START_NAME, 2)?;
    write_word(&mut second, WEAK_NAME, 1)?;
    let mut alone = false;
    let mut bare = false;
    for text in changes.split_whitespace() {
        if text == "alone" {
            alone = true;
        } else if text == "bare" {
            bare = true;
        } else if let Some(text) = text.strip_prefix("/") {
            change(alloc, &mut second, text)?;
        } else {
            change(alloc, &mut first, text)?;
        }
    }
    if alone || bare {
        leave_added(&mut first)?;
        leave_added(&mut second)?;
    }
    let mut files = Vec::new(alloc);
    files.push(first)?;
    if !alone {
        files.push(second)?;
    }
    Ok(files)
}
