// Ranges of addresses.

use crate::row::column;
use shared_cells::ranges::Ranges;
use std::alloc::Global;
use std::process::Abort;
use std::test::Fail;

// Ranges, each a first address and a size; addresses that lie in one of them; and addresses that lie in none.
const RANGES: &str = "
ranges | out 00000000 FFFFFFFF
ranges 00100000:0 | out 000FFFFF 00100000
ranges 00100000:4 | in 00100000 00100003 | out 000FFFFF 00100004
ranges 00100000:0 00100000:2 00100002:0 00100004:2 | in 00100000 00100001 00100004 00100005 | out 00100002 00100003 00100006
ranges 00100004:2 00100000:2 | in 00100000 00100001 00100004 00100005 | out 000FFFFF 00100002 00100003 00100006
ranges 00100000:8 00100002:2 | in 00100000 00100003 00100004 00100007 | out 000FFFFF 00100008
ranges 00000000:1 FFFFFFFE:2 | in 00000000 FFFFFFFE FFFFFFFF | out 00000001 FFFFFFFD
ranges FFFFFFFF:FFFFFFFF 00000000:0 | in FFFFFFFF | out 00000000 FFFFFFFE";

fn ranges_of(alloc: Global, text: &str) -> Result<Vec<(u32, u32)>, Fail> {
    let mut ranges = Vec::new(alloc);
    for range in text.split_whitespace() {
        let (at, size) = range.split_once(':').ok_or("no size")?;
        ranges.push((u32::from_str_radix(at, 16)?, u32::from_str_radix(size, 16)?))?;
    }
    Ok(ranges)
}

fn expect_each<R: Abort>(rt: &R, ranges: &Ranges, text: &str, want: bool) -> Result<(), Fail> {
    for address in text.split_whitespace() {
        let contains = ranges.contains(u32::from_str_radix(address, 16)?);
        assert_eq!(rt; contains, want, "{address}");
    }
    Ok(())
}

#[test]
fn a_range_has_the_addresses_before_its_end(rt: HostRuntime) -> Result<(), Fail> {
    for row in RANGES.trim().lines() {
        let ranges = ranges_of(rt.alloc(), column(row, "ranges"))?;
        let ranges = Ranges::new(ranges.as_slice());
        expect_each(&rt, &ranges, column(row, "in"), true)?;
        expect_each(&rt, &ranges, column(row, "out"), false)?;
    }
    Ok(())
}
