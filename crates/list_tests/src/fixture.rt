// Rows of tables.

use crate::texts::{changed, spelled};
use std::alloc::Global;
use std::process::Abort;
use std::test::Fail;

// What a call returns for a row.
fn answer(alloc: Global, call: &str, given: &str) -> Result<String, Fail> {
    match call {
        "changed" => changed(alloc, given),
        _ => spelled(alloc, given),
    }
}

/// Checks that the call returns for each row what follows `=`. What follows `|` says what the row shows.
pub fn expect<R: Abort + AllocGlobal>(rt: &R, call: &str, rows: &str) -> Result<(), Fail> {
    for row in rows.lines() {
        let (cells, _what) = row.split_once(" | ").unwrap_or((row, ""));
        let (given, want) = cells.split_once(" = ").ok_or("no answer")?;
        let found = answer(rt.alloc(), call, given)?;
        assert_eq!(rt; found.as_str().trim(), want.trim(), "{call} {row}");
    }
    Ok(())
}
