// Objects with compressed code, by themselves and together with others. Expected answers were worked out by hand.

use crate::answers::expect;
use crate::compressed_rows::{BOTH, FAULTS, HINTS, ITEMS, LINKS, REACHES};
use std::test::Fail;

#[test]
fn compressed_code_is_cut_by_the_bits_of_its_halfwords(rt: HostRuntime) -> Result<(), Fail> {
    expect(&rt, ITEMS)
}

#[test]
fn the_first_fault_of_compressed_code_is_told(rt: HostRuntime) -> Result<(), Fail> {
    for rows in [FAULTS, REACHES] {
        expect(&rt, rows)?;
    }
    Ok(())
}

#[test]
fn compressed_code_is_copied_or_has_its_shortest_form(rt: HostRuntime) -> Result<(), Fail> {
    for rows in [LINKS, HINTS, BOTH] {
        expect(&rt, rows)?;
    }
    Ok(())
}
