// Texts of plans with cells, and what is read from them: `|` means a line feed.

use crate::plans::bytes_of;
use interrupt_plan::read_shared::read_shared;
use interrupt_plan::shared_plan::SharedPlan;
use std::alloc::{AllocError, Global};
use std::test::Fail;

const TEXTS: &str = "zcld shared 1| =
zcld plan 1| = line 1 isn't one of a plan
zcld shared 2| = line 1 isn't one of a plan
zcld shared 1 = line 1 isn't one of a plan
zcld shared 1|cut 1 s00100000:07| = 1 [] [] [(1048576, 7)];
zcld shared 1|cut 3 a0 a2 d0ffff000:0a s00100004:ff s00100000:00| = 3 [0, 2] [(268431360, 10)] [(1048580, 255), (1048576, 0)];
zcld shared 1|cut 2|cut 2 a1 d0ffff000:0a| = 2 [] [] []; 2 [1] [(268431360, 10)] [];
zcld shared 1|cut 3 s00100000:07 d0ffff000:0a| = line 2 isn't one of a plan
zcld shared 1|cut 3 s00100000:07 a1| = line 2 isn't one of a plan
zcld shared 1|cut 3 s00100000:07 | = line 2 isn't one of a plan
zcld shared 1|cut 3 S00100000:07| = line 2 isn't one of a plan
zcld shared 1|cut 3 s100000:07| = line 2 isn't one of a plan
zcld shared 1|cut 3 s00100000:7| = line 2 isn't one of a plan
zcld shared 1|cut 3|cut 2 s00100000:07| = line 3 comes before the line above it
zcld shared 1|cut 3|cut 3 s00100000:07 = line 3 isn't one of a plan";

// The interrupts of a plan, each with its commit, its accesses, its bytes and its cells.
fn told(alloc: Global, plan: &SharedPlan) -> Result<String, AllocError> {
    let mut text = String::new(alloc);
    for i in 0..plan.cut_count() {
        let cut = plan.cut(i);
        let at = cut.at;
        let done = cut.done.as_slice();
        let dirt = cut.dirt.as_slice();
        let cells = cut.cells.as_slice();
        text.push_str(format!(in alloc; " {at} {done:?} {dirt:?} {cells:?};")?.as_str())?;
    }
    Ok(text)
}

// What is read from a text.
fn read(alloc: Global, text: &[u8]) -> Result<String, AllocError> {
    match read_shared(alloc, text) {
        Ok(plan) => told(alloc, &plan),
        Err(fault) => format!(in alloc; " {fault}"),
    }
}

#[test]
fn a_line_may_have_cells_behind_its_bytes(rt: HostRuntime) -> Result<(), Fail> {
    for row in TEXTS.split('\n') {
        let (text, wanted) = row.split_once(" =").ok_or("no answer")?;
        let bytes = bytes_of(rt.alloc(), text)?;
        assert_eq!(rt;
            read(rt.alloc(), bytes.as_slice())?.as_str(),
            wanted,
            "{text}"
        );
    }
    Ok(())
}
