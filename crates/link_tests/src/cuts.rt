// Objects that are cut and laid out. Expected answers were worked out by hand.

use crate::answers::expect;
use crate::cut_rows::{BLOCKS, DATA, ITEMS, LAYOUTS, SETTLED};
use std::test::Fail;

#[test]
fn objects_are_cut_into_items_blocks_and_layouts(rt: HostRuntime) -> Result<(), Fail> {
    for rows in [ITEMS, LAYOUTS, BLOCKS, DATA, SETTLED] {
        expect(&rt, rows)?;
    }
    Ok(())
}
