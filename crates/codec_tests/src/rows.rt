// Rows of a table, and numbers in them.
//
// `rt check` proves each test, which takes time for each assertion and each element of a table. So rows are lines of
// a text, and the assertions about them are here.

use crate::base::map_of;
use crate::forms::long_form;
use crate::halfwords::{halfword, numbered, spelled};
use crate::relocs::{branch_with, call_with, fitting, jal_with, kind, parts, put, reaching};
use crate::texts::{spelled_code, text_of};
use crate::words::{instr, normal_form};
use crate::zcmp::short;
use std::alloc::Global;
use std::process::Abort;
use std::test::Fail;

/// A word by its eight hexadecimal digits.
pub fn word(digits: &str) -> Result<u32, Fail> {
    Ok(u32::from_str_radix(digits, 16)?)
}

/// What comes before the first space of a text, and what comes after it.
pub fn cut(text: &str) -> (&str, &str) {
    text.split_once(' ').unwrap_or((text, ""))
}

// What a call returns for a row.
fn answer(alloc: Global, call: &str, given: &str) -> Result<String, Fail> {
    match call {
        "decode" => instr(alloc, given),
        "normal" => normal_form(alloc, given),
        "decode16" => spelled(alloc, given),
        "row" => numbered(alloc, given),
        "short" => short(alloc, given),
        "text" => text_of(alloc, given),
        "spelled" => spelled_code(alloc, given),
        "encode16" | "short_of" | "short_branch" | "short_jump" => halfword(alloc, call, given),
        "long_branch" => long_form(alloc, given),
        "kind" => kind(alloc, given),
        "fits" => fitting(alloc, given),
        "parts" => parts(alloc, given),
        "reaches" => reaching(alloc, given),
        "put_branch" => branch_with(alloc, given),
        "put_jal" => jal_with(alloc, given),
        "put_call" => call_with(alloc, given),
        "map" => map_of(alloc, given),
        _ => put(alloc, call, given),
    }
}

/// Checks that the call returns for each row what follows `=`. What follows `|` says what the row shows.
pub fn expect<R: Abort + AllocGlobal>(rt: &R, call: &str, rows: &str) -> Result<(), Fail> {
    for row in rows.lines() {
        let (cells, _what) = row.split_once(" | ").unwrap_or((row, ""));
        let (given, want) = cells.split_once(" =").ok_or("no answer")?;
        let found = answer(rt.alloc(), call, given)?;
        assert_eq!(rt; found.as_str().trim(), want.trim(), "{call} {row}");
    }
    Ok(())
}
