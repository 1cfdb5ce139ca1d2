// The first fault of objects. Expected faults are worked out by the psABI.

use crate::answers::expect;
use crate::fault_rows::{FIELDS, KINDS, ORDER, PAIRS, REACHES, TARGETS};
use std::test::Fail;

#[test]
fn the_first_fault_is_told(rt: HostRuntime) -> Result<(), Fail> {
    for rows in [KINDS, FIELDS, PAIRS, TARGETS, ORDER, REACHES] {
        expect(&rt, rows)?;
    }
    Ok(())
}
