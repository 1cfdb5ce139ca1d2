// Rows of a table: a question, and the expected answer.
//
// `rt check` proves each test, which takes time for each assertion and each element of a table. So rows are lines of
// a text, and the assertions about them are here.

use crate::certificates;
use crate::picks::{certificate, places};
use crate::stubs::stub_bytes;
use crate::sums::steps;
use std::alloc::Global;
use std::process::Abort;
use std::test::Fail;

// What a call returns for a row.
fn answer(alloc: Global, call: &str, given: &str) -> Result<String, Fail> {
    match call {
        "pick" => certificate(alloc, given),
        "slot_places" => places(alloc, given),
        "stub" => stub_bytes(alloc, given),
        "sums" => steps(alloc, given),
        _ => Ok(certificates::answer(alloc, call, given)?),
    }
}

/// What comes before a character of a text, and what comes after it.
pub fn cut(text: &str, sign: char) -> Result<(&str, &str), Fail> {
    Ok(text.split_once(sign).ok_or("a part is missing")?)
}

/// A decimal number.
pub fn number(text: &str) -> Result<u32, Fail> {
    Ok(text.parse::<u32>()?)
}

/// Checks that what was found is what is expected.
pub fn same<R: Abort>(rt: &R, found: &str, want: &str, call: &str, row: &str) {
    assert_eq!(rt; found, want, "{call} {row}");
}

// Checks that the call returns for a row what follows `=`.
fn expect_row<R: Abort + AllocGlobal>(rt: &R, call: &str, row: &str) -> Result<(), Fail> {
    let (given, want) = row.split_once(" =").ok_or("no answer")?;
    let found = answer(rt.alloc(), call, given)?;
    same(rt, found.as_str().trim(), want.trim(), call, row);
    Ok(())
}

/// Checks that the call returns for each row what follows `=`.
pub fn expect<R: Abort + AllocGlobal>(rt: &R, call: &str, rows: &str) -> Result<(), Fail> {
    for row in rows.lines() {
        expect_row(rt, call, row)?;
    }
    Ok(())
}
