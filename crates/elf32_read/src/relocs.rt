// The relocations of a section.

ghost use Rattle.std.specs.Prelude.{◌≡◌, ◌^◌, ◌<◌, [], Some, length, slice_get};
ghost use Rattle.elf32_read.specs.Relocs.{relocs_in};

use crate::relas::{RELA_SIZE, reloc};
use crate::reloc::Reloc;
use std::marker::Model;

/// The relocations of a section, in the order of its table (System V gABI, "Relocation"). Clauses see
/// them as a list.
#[derive(Drop)]
pub struct Relocs<'a> {
    content: &'a [u8],
}

impl<'a> Model for Relocs<'a> {
    ghost use Rattle.std.specs.Prelude.{◌^◌, ◌<◌, List, length};
    ghost use Rattle.elf32_read.specs.declared.reloc.Reloc.{Reloc};
    ghost use Rattle.elf32_read.specs.Relocs.{relocs_in};

    ghost Value = { List Reloc };

    ghost view = { λ relocs. relocs_in relocs.content.now };

    ghost invariant = { λ relocs. length relocs.content.now < 2 ^ 32 };
}

impl<'a> Relocs<'a> {
    /// The relocations in the content of a section.
    pub(crate) fn new(content: &'a [u8]) -> Relocs<'a>
        requires { length content.now < 2 ^ 32 }
        ensures { result ≡ relocs_in content.entry.now }
    {
        Relocs { content }
    }

    /// No relocations.
    pub fn none() -> Relocs<'a>
        ensures { result ≡ [] }
    {
        Relocs { content: &[] }
    }

    /// The number of relocations.
    pub fn len(&self) -> u32
        ensures { result ≡ length self.now }
    {
        self.content.len() as u32 / RELA_SIZE
    }

    /// A relocation, by its index. It takes constant time.
    pub fn get(&self, k: u32) -> Reloc
        requires { k < length self.now }
        ensures { slice_get self.now k ≡ Some result }
    {
        reloc(self.content, k as usize)
    }
}
