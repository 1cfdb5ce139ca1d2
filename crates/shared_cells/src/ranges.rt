// Ranges of addresses.

ghost use Rattle.std.specs.Prelude.{◌≡◌, true};
ghost use Rattle.shared_cells.specs.SharedRun.{in_range, in_ranges};
ghost use Rattle.shared_cells.specs.Ascending.{AscendFrom};

use std::marker::Model;

/// Ranges of addresses, each a first address and a size. If they ascend, and no two have a common address, the range
/// of an address is found without a look at each.
#[derive(Drop)]
pub struct Ranges<'a> {
    ranges: &'a [(u32, u32)],
    ascend: bool,
}

impl<'a> Model for Ranges<'a> {
    ghost use Rattle.std.specs.Prelude.{◌≡◌, ℕ, List, true};
    ghost use Rattle.shared_cells.specs.Ascending.{AscendFrom};

    ghost Value = { List (ℕ × ℕ) };

    ghost view = { λ r. r.ranges.now };

    ghost invariant = { λ r. r.ascend ≡ true → AscendFrom 0 r.ranges.now };
}

impl<'a> Ranges<'a> {
    /// These ranges, in any order.
    pub fn new(ranges: &'a [(u32, u32)]) -> Self
        ensures { result ≡ ranges.now }
    {
        let ascend = ascend(ranges);
        Ranges { ranges, ascend }
    }

    /// Whether an address lies in one of the ranges.
    pub fn contains(&self, address: u32) -> bool
        ensures { result ≡ in_ranges self.now address }
    {
        if self.ascend {
            found(self.ranges, address)
        } else {
            scanned(self.ranges, address)
        }
    }
}

// Whether each range ends where the next one begins, or before.
fn ascend(ranges: &[(u32, u32)]) -> bool
    ensures { result ≡ true → AscendFrom 0 ranges.now }
{
    let mut end = 0;
    for (at, size) in ranges {
        if u64::from(*at) < end {
            return false;
        }
        end = u64::from(*at) + u64::from(*size);
    }
    true
}

// Whether an address lies in a range.
fn lies_in(range: (u32, u32), address: u32) -> bool
    ensures { result ≡ in_range range address }
{
    let (at, size) = range;
    at <= address && u64::from(address) < u64::from(at) + u64::from(size)
}

// Whether an address lies in one of these ranges, by a look at each.
fn scanned(ranges: &[(u32, u32)], address: u32) -> bool
    ensures { result ≡ in_ranges ranges.now address }
{
    ranges.iter().any(|range| lies_in(*range, address))
}

// Whether an address lies in one of these ranges, by the last one that begins there or before.
fn found(ranges: &[(u32, u32)], address: u32) -> bool
    requires { AscendFrom 0 ranges.now }
    ensures { result ≡ in_ranges ranges.now address }
{
    let begun = ranges.partition_point(|range| range.0 <= address);
    begun > 0 && lies_in(ranges[begun - 1], address)
}
