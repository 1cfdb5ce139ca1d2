// The memory of the symbolic machine.

ghost use Rattle.std.specs.Prelude.{◌≡◌, ◌≤◌, ◌+◌, ◌-◌, ◌<◌, ◌^◌, ◌&&◌, nat_le, IfOk, length};
ghost use Rattle.rv_decode.specs.Memory.{Kind, blank, cell_at, changed, extents_of, is_data, lies_in, spans};
ghost use Rattle.sym_machine.specs.Kept.{IsKept, IsSpan, kept_from, regions_of};
ghost use Rattle.sym_machine.specs.Step.{undefined_below};
ghost use Rattle.sym_machine.specs.declared.word.SymByte.TheVariants.{Undef};

mod reads;
mod writes;

use crate::pages::Pages;
use crate::span::Span;
use crate::stack::Stack;
use crate::word::SymByte;
use std::alloc::{AllocError, Global};
use std::marker::Model;
use zc_base::mem_map::MemMap;

/// The bytes of data and of the stack. Those of the stack below an address are undefined.
#[derive(Drop)]
pub struct SymMemory {
    map: MemMap,
    bytes: Pages,
    stack: Stack,
    from: u32,
}

impl Model for SymMemory {
    ghost use Rattle.sym_machine.specs.Kept.{IsKept, Kept};
    ghost use Rattle.sym_machine.specs.Stack.{stack_cells};

    ghost Value = { Kept };

    ghost view = { λ m. record { map = m.map; bytes = m.bytes; stack = stack_cells m.stack; from = m.from } };

    ghost invariant = { λ m. IsKept (record { map = m.map; bytes = m.bytes; stack = stack_cells m.stack; from = m.from }) };
}

impl SymMemory {
    /// Memory with these bytes of data, and a stack that nothing was written to. No frame that begins in the stack and
    /// goes on at address 0 comes to data.
    pub fn new(alloc: Global, map: MemMap, bytes: Pages) -> Result<SymMemory, AllocError>
        requires some { map.stack_low < map.stack_high }
        requires clear { 112 ≤ map.data_low }
        requires apart { map.data_low + length bytes ≤ map.stack_low }
        ensures { IfOk result (λ m. m ≡ record {
          map = map;
          bytes = bytes;
          stack = blank (map.stack_high - map.stack_low) Undef;
          from = map.stack_high;
        }) }
    {
        let stack = Stack::undefined(alloc, (map.stack_high - map.stack_low) as usize)?;
        Ok(SymMemory {
            map,
            bytes,
            stack,
            from: map.stack_high,
        })
    }

    /// Whether `n` bytes from an address on lie in data, or in the stack.
    pub fn reaches(&self, a: u32, n: u32) -> bool
        ensures { result ≡ lies_in is_data (extents_of (regions_of self.now)) a n }
    {
        let map = &self.map;
        let data = self.bytes.len() as u64;
        let stack = self.stack.len() as u64;
        spans(map.data_low, data, a, n) || spans(map.stack_low, stack, a, n)
    }

    /// Whether a number is an address of the stack, or its end.
    pub fn has_sp(&self, sp: u32) -> bool
        ensures { result ≡ (nat_le self.now.map.stack_low sp && nat_le sp self.now.map.stack_high) }
    {
        self.map.stack_low <= sp && sp <= self.map.stack_high
    }

    /// The lowest address of the stack whose byte is kept.
    pub fn kept_from(&self) -> u32
        ensures { result ≡ kept_from self.now }
    {
        self.from
    }

    /// The byte at an address.
    pub fn byte(&self, a: u64) -> SymByte
        requires { a < 2 ^ 33 }
        ensures { result ≡ cell_at Undef (regions_of self.now) a }
    {
        let map = &self.map;
        if u64::from(map.stack_low) <= a {
            return self.stack.cell((a - u64::from(map.stack_low)) as usize);
        }
        if u64::from(map.data_low) <= a {
            return self.bytes.cell((a - u64::from(map.data_low)) as usize);
        }
        SymByte::Undef
    }

    // Where `n` bytes from an address on are kept.
    #[inline(always)]
    fn span(&self, a: u32, n: usize) -> Span
        requires { n < 2 ^ 63 }
        ensures { IsSpan self.now a n result }
    {
        let map = &self.map;
        if self.from <= a {
            let i = (a - map.stack_low) as usize;
            if i + n <= self.stack.len() {
                return Span::Stack(i);
            }
            return Span::Elsewhere;
        }
        if map.data_low <= a {
            let i = (a - map.data_low) as usize;
            if i + n <= self.bytes.len() {
                return Span::Data(i);
            }
            if map.stack_low <= a && n <= (self.from - a) as usize {
                return Span::Below;
            }
        }
        Span::Elsewhere
    }

    /// Makes the bytes of the stack below an address undefined, and keeps those from it up.
    pub fn settle(&mut self, sp: u32)
        requires low { self.old.map.stack_low ≤ sp }
        requires high { sp ≤ self.old.map.stack_high }
        ensures kept { IsKept self.new }
        ensures map { self.new.map ≡ self.old.map }
        ensures from { kept_from self.new ≡ sp }
        ensures regions { regions_of self.new ≡ changed (undefined_below self.old.map sp) (regions_of self.old) }
    {
        self.stack.clear_below((sp - self.map.stack_low) as usize);
        self.from = sp;
    }
}

// Whether `n` bytes from `a` on lie in a region of `size` bytes at `at`.
fn spans(at: u32, size: u64, a: u32, n: u32) -> bool
    requires { size < 2 ^ 63 }
    ensures { (kind : Kind) → result ≡ spans (record { kind = kind; at = at; size = size }) a n }
{
    let (at, first, end) = (u64::from(at), u64::from(a), u64::from(a) + u64::from(n));
    at <= first && end <= at + size
}
