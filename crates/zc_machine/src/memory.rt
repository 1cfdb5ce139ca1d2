// The machine's memory.

ghost use Rattle.std.specs.Prelude.{◌≡◌, ℕ, ◌+◌, ◌<◌, ◌≤◌, ◌^◌, if◌then◌else◌, Bool, IfSome, false, true, length, slice_index};
ghost use Rattle.rv_decode.specs.Memory.{Kind, Text, changed, extents_of, lies_in, written};
ghost use Rattle.zc_machine.specs.Answer.{fetched_as};
ghost use Rattle.zc_machine.specs.Fetch.{Found};
ghost use Rattle.zc_machine.specs.Memory.{AreApart, Fetches, Reaches};
ghost use Rattle.zc_machine.specs.Region.{allowed};

use crate::code::Kept;
use crate::reason::Reason;
use crate::region::{AccessKind, Region};
use std::marker::Model;
use zc_decode::short::Short;

/// Regions without a common address.
#[derive(Drop)]
pub struct Memory {
    regions: Vec<Region>,
    // The number of the region in which an instruction was last searched for: most often the next one is in it too.
    last: usize,
}

impl Model for Memory {
    ghost use Rattle.std.specs.Prelude.{ℕ, List};
    ghost use Rattle.rv_decode.specs.Memory.{Region as RegionOf, extents_of};
    ghost use Rattle.zc_machine.specs.Memory.{AreApart};

    ghost Value = { List (RegionOf ℕ) };

    ghost view = { λ m. m.regions.items };

    ghost invariant = { λ m. AreApart (extents_of m.regions.items) };
}

impl Memory {
    /// The memory of these regions.
    pub fn new(regions: Vec<Region>) -> Memory
        requires { AreApart (extents_of regions.items) }
        ensures { result ≡ regions.items }
    {
        Memory { regions, last: 0 }
    }

    /// Says where cells lie, for the proof of a caller that needs none of them. Nothing runs.
    #[inline]
    pub fn recall_invariant(&self)
        ensures { (fits : Kind → Bool) → (a : ℕ) → (n : ℕ) → lies_in fits (extents_of self.now) a n ≡ true
            → a + n ≤ 2 ^ 32 }
    {
        let _count = self.regions.len();
    }

    /// Whether `count` cells from an address on lie in one region, and an access may reach them.
    #[inline(always)]
    pub fn holds(&self, access: AccessKind, address: u32, count: usize) -> bool
        requires { count < 2 ^ 63 }
        ensures is { result ≡ lies_in (allowed access) (extents_of self.now) address count }
        ensures below { result ≡ true → address + count ≤ 2 ^ 32 }
    {
        holds(self.regions.as_slice(), access, address, count)
    }

    /// The cells from an address on that an access may reach at once: of data none beyond a page.
    #[inline(always)]
    pub fn reach(&self, access: AccessKind, address: u32) -> &[u8]
        ensures { Reaches access self.now address result.now }
    {
        reach(self.regions.as_slice(), access, address)
    }

    /// The instruction at an address of code and its size in bytes, or why there is none.
    #[inline(always)]
    pub fn fetch(&mut self, address: u32) -> Result<(Short, u8), Reason>
        ensures found { Fetches self.old address (fetched_as result) }
        ensures same { self.new ≡ self.old }
    {
        match known(self.regions.as_slice(), self.last, address) {
            Some(found) => Ok(found),
            None => self.search(address),
        }
    }

    // The instruction at an address, when it isn't cached in the region of the last one.
    #[cold]
    #[inline(never)]
    fn search(&mut self, address: u32) -> Result<(Short, u8), Reason>
        ensures found { Fetches self.old address (fetched_as result) }
        ensures same { self.new ≡ self.old }
    {
        search(self.regions.as_mut_slice(), &mut self.last, address)
    }

    /// Writes bytes from an address on, if an access may reach them, and says whether it may.
    #[inline(always)]
    pub fn write(&mut self, access: AccessKind, address: u32, bytes: &[u8]) -> bool
        requires { allowed access Text ≡ false }
        ensures reached { result ≡ lies_in (allowed access) (extents_of self.old) address (length bytes.now) }
        ensures after { self.new ≡ (if result then changed (written address (length bytes.now)
            (slice_index bytes.now)) self.old else self.old) }
    {
        write(self.regions.as_mut_slice(), access, address, bytes)
    }
}

#[inline(always)]
fn holds(regions: &[Region], access: AccessKind, address: u32, count: usize) -> bool
    requires { count < 2 ^ 63 }
    ensures { result ≡ lies_in (allowed access) (extents_of regions.now) address count }
{
    for region in regions {
        if region.holds(access, address, count) {
            return true;
        }
    }
    false
}

#[inline(always)]
fn reach(regions: &[Region], access: AccessKind, address: u32) -> &[u8]
    requires { AreApart (extents_of regions.now) }
    ensures { Reaches access regions.now address result.now }
{
    for region in regions {
        if region.has(access, address) {
            return region.cells_from(address);
        }
    }
    &[]
}

// The instruction at an address and its size in bytes, if the region with this number keeps them.
#[inline(always)]
fn known(regions: &[Region], last: usize, address: u32) -> Option<(Short, u8)>
    requires { AreApart (extents_of regions.now) }
    ensures { IfSome result (λ found. Fetches regions.now address (Found found.0 found.1)) }
{
    match regions.get(last)?.entry(address)? {
        Kept::Known { size, short } => Some((*short, *size)),
        Kept::Unknown => None,
    }
}

fn search(regions: &mut [Region], last: &mut usize, address: u32) -> Result<(Short, u8), Reason>
    requires { AreApart (extents_of regions.old) }
    ensures found { Fetches regions.old address (fetched_as result) }
    ensures same { regions.new ≡ regions.old }
{
    for i in 0..regions.len() {
        if regions[i].has(AccessKind::Fetch, address) {
            *last = i;
            return regions[i].fetch(address);
        }
    }
    Err(Reason::BadAccess)
}

#[inline(always)]
fn write(regions: &mut [Region], access: AccessKind, address: u32, bytes: &[u8]) -> bool
    requires apart { AreApart (extents_of regions.old) }
    requires data { allowed access Text ≡ false }
    ensures reached { result ≡ lies_in (allowed access) (extents_of regions.old) address (length bytes.now) }
    ensures after { regions.new ≡ (if result then changed (written address (length bytes.now)
        (slice_index bytes.now)) regions.old else regions.old) }
{
    for region in regions.iter_mut() {
        if region.holds(access, address, bytes.len()) {
            region.write(address, bytes);
            return true;
        }
    }
    false
}
