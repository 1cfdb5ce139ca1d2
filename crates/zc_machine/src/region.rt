// The regions of the machine's memory.

ghost use Rattle.std.specs.Prelude.{◌≡◌, ◌+◌, ◌-◌, ◌^◌, ◌<◌, ◌≤◌, ◌&&◌, ◌++◌, IfOk, IfSome, true, drop, length, slice_index};
ghost use Rattle.rv_decode.specs.Memory.{Text, blank, cells_changed, extent_of, is_data, spans, written};
ghost use Rattle.zc_machine.specs.Answer.{fetched_as};
ghost use Rattle.zc_machine.specs.Cells.{instruction};
ghost use Rattle.zc_machine.specs.Invariants.Kept.{IsEntry};
ghost use Rattle.zc_machine.specs.Region.{allowed, has_code, kind_of_region, part_from};

use crate::code::{Code, Kept};
use crate::pages::Pages;
use crate::reason::Reason;
use elf32_read::segment::Segment;
use std::alloc::{AllocError, Global};
use std::marker::Model;
use zc_decode::short::Short;

/// What a region is for.
#[derive(Clone, Copy)]
pub enum RegionKind {
    Text,
    Data,
    Stack,
}

/// What reaches memory: the fetch of an instruction or of an entry of the jump table, a load, a store
/// or a call's buffer, an interrupt that writes, or a write from outside to a segment of data.
#[derive(Clone, Copy)]
pub enum AccessKind {
    Fetch,
    Data,
    Interrupt,
    Poke,
}

impl RegionKind {
    // Whether an access may reach such a region.
    fn allows(self, access: AccessKind) -> bool
        ensures { result ≡ allowed access (kind_of_region self) }
    {
        match access {
            AccessKind::Fetch => match self {
                RegionKind::Text => true,
                RegionKind::Data | RegionKind::Stack => false,
            },
            AccessKind::Data => match self {
                RegionKind::Data | RegionKind::Stack => true,
                RegionKind::Text => false,
            },
            AccessKind::Interrupt => match self {
                RegionKind::Stack => true,
                RegionKind::Text | RegionKind::Data => false,
            },
            AccessKind::Poke => match self {
                RegionKind::Data => true,
                RegionKind::Text | RegionKind::Stack => false,
            },
        }
    }
}

/// Bytes at consecutive addresses.
#[derive(Drop)]
pub struct Region {
    kind: RegionKind,
    at: u32,
    // The cells of a region of code, and those of any other.
    code: Code,
    pages: Pages,
}

impl Model for Region {
    ghost use Rattle.std.specs.Prelude.{◌≡◌, ℕ, ◌%◌, [], true};
    ghost use Rattle.rv_decode.specs.Memory.{Region as RegionOf, is_data};
    ghost use Rattle.zc_machine.specs.Region.{cells_by, kind_of_region};

    ghost Value = { RegionOf ℕ };

    ghost view = { λ r. record {
      kind = kind_of_region r.kind;
      at = r.at;
      cells = cells_by r.kind r.code r.pages.cells;
    } };

    // A region of data or of the stack has no code, so that no instruction is kept of it.
    ghost invariant = { λ r. (r.pages.skip ≡ r.at % 4096) × (is_data (kind_of_region r.kind) ≡ true → r.code ≡ []) };
}

impl Region {
    /// The region of code with these cells.
    pub fn of_code(alloc: Global, at: u32, code: Vec<u8>) -> Result<Region, AllocError>
        ensures { IfOk result (λ region. region ≡ record { kind = Text; at = at; cells = code.items }) }
    {
        let code = Code::new(alloc, code)?;
        let pages = Pages::new(alloc, at, &[], 0)?;
        Ok(Region {
            kind: RegionKind::Text,
            at,
            code,
            pages,
        })
    }

    /// The region of data or of the stack that a segment describes.
    pub fn of_data(alloc: Global, kind: RegionKind, segment: &Segment) -> Result<Region, AllocError>
        requires { is_data (kind_of_region kind) ≡ true }
        ensures { IfOk result (λ region. region ≡ record {
          kind = kind_of_region kind;
          at = segment.now.at;
          cells = segment.now.bytes.now ++ blank (segment.now.size - length segment.now.bytes.now) 0;
        }) }
    {
        let code = Code::new(alloc, Vec::new(alloc))?;
        let pages = Pages::new(alloc, segment.at, segment.bytes, segment.size)?;
        Ok(Region {
            kind,
            at: segment.at,
            code,
            pages,
        })
    }

    // The number of cells.
    #[inline(always)]
    fn size(&self) -> usize
        ensures { result ≡ length self.now.cells }
    {
        match self.kind {
            RegionKind::Text => self.code.len(),
            RegionKind::Data | RegionKind::Stack => self.pages.len(),
        }
    }

    /// Whether the cell at an address lies in the region, and an access may reach it.
    #[inline(always)]
    pub fn has(&self, access: AccessKind, address: u32) -> bool
        ensures { result ≡ (allowed access self.now.kind && spans (extent_of self.now) address 1) }
    {
        self.kind.allows(access)
            && self.at <= address
            && ((address - self.at) as usize) < self.size()
    }

    /// Whether `count` cells from an address on lie in the region, and an access may reach them.
    #[inline(always)]
    pub fn holds(&self, access: AccessKind, address: u32, count: usize) -> bool
        requires { count < 2 ^ 63 }
        ensures { result ≡ (allowed access self.now.kind && spans (extent_of self.now) address count) }
    {
        self.kind.allows(access) && self.spans(address, count)
    }

    // Whether `count` cells from an address on lie in the region.
    #[inline(always)]
    fn spans(&self, address: u32, count: usize) -> bool
        requires { count < 2 ^ 63 }
        ensures { result ≡ spans (extent_of self.now) address count }
    {
        self.at <= address && (address - self.at) as usize + count <= self.size()
    }

    /// The cells from an address of the region on: of code all, and of data those up to the page's end.
    #[inline(always)]
    pub fn cells_from(&self, address: u32) -> &[u8]
        requires { spans (extent_of self.now) address 1 ≡ true }
        ensures { result.now ≡ part_from self.now.kind address (drop (address - self.now.at) self.now.cells) }
    {
        match self.kind {
            RegionKind::Text => self.code.bytes_from(address - self.at),
            RegionKind::Data | RegionKind::Stack => self.pages.cells_from(address - self.at),
        }
    }

    /// What is kept of the halfword at an address, if there is an entry for it.
    #[inline(always)]
    pub fn entry(&self, address: u32) -> Option<&Kept>
        requires below { self.now.at + length self.now.cells ≤ 2 ^ 32 }
        ensures { IfSome result (λ entry. IsEntry self.now address entry.now) }
    {
        self.code.entry(address.wrapping_sub(self.at))
    }

    /// The instruction at an address of code, and its size in bytes. Both are kept.
    pub fn fetch(&mut self, address: u32) -> Result<(Short, u8), Reason>
        requires { has_code self.old address ≡ true }
        ensures found { fetched_as result ≡ instruction (drop (address - self.old.at) self.old.cells) }
        ensures same { self.new ≡ self.old }
    {
        self.code.fetch(address - self.at)
    }

    /// Writes bytes from an address on, in a region of data or of the stack.
    #[inline(always)]
    pub fn write(&mut self, address: u32, bytes: &[u8])
        requires data { is_data self.old.kind ≡ true }
        requires within { spans (extent_of self.old) address (length bytes.now) ≡ true }
        ensures { self.new ≡ record self.old {
          cells = cells_changed (written address (length bytes.now)
              (slice_index bytes.now)) self.old.at self.old.cells;
        } }
    {
        self.pages.write(address - self.at, bytes);
    }
}
