// Ranges of devices, found by their first addresses.

ghost use Rattle.std.specs.Prelude.{◌≡◌, ◌<◌, ◌+◌, not, List};
ghost use Rattle.std.specs.BTreeMap.{get};
ghost use Rattle.std.specs.List.{list_any};
ghost use Rattle.std.specs.Ordering.{nat_cmp};
ghost use Rattle.rv_decode.specs.Devices.{DeviceRange, in_devices};
ghost use Rattle.devices.specs.Lines.{DevicesLine, devices_of, ranges_of};
ghost use Rattle.devices.specs.Text.{have_common};
ghost use Rattle.devices.specs.Invariants.Kept.{IsLastBegun, IsTable};

use std::collections::BTreeMap;

// The last entry below an address: the first address of a range, and the one behind it.
fn last_begun(ends: &BTreeMap<u64, u64>, below: u64) -> Option<(u64, u64)>
    ensures { IsLastBegun (get nat_cmp ends.now) below result }
{
    let (at, end) = ends.range(..below).next_back()?;
    Some((*at, *end))
}

/// Whether a range that isn't empty has no address in common with those of the table.
pub fn is_free(ends: &BTreeMap<u64, u64>, at: u32, size: u32) -> bool
    ensures { (ds : List DeviceRange) → IsTable (get nat_cmp ends.now) ds
        → result ≡ not (list_any (have_common (record { at = at; size = size })) ds) }
{
    match last_begun(ends, u64::from(at) + u64::from(size)) {
        None => true,
        Some((_, end)) => end <= u64::from(at),
    }
}

/// Whether `count` bytes from an address on lie in one range of the table, which has those of some lines.
pub fn lie_in_one(ends: &BTreeMap<u64, u64>, at: u32, count: u32) -> bool
    requires { 0 < count }
    ensures { (lines : List DevicesLine) → IsTable (get nat_cmp ends.now) (ranges_of lines)
        → result ≡ in_devices (devices_of lines) at count }
{
    match last_begun(ends, u64::from(at) + 1) {
        None => false,
        Some((_, end)) => u64::from(at) + u64::from(count) <= end,
    }
}
