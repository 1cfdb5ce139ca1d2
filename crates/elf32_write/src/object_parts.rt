// What an object is made of.

use elf32_read::reloc::Reloc;
use std::marker::Model;

/// What an object is made of.
///
/// `flags` goes into e_flags. The given sections have the indices from 1 on in the file, in order, and so do the given symbols:
/// section 0 and symbol 0 are not among them.
#[derive(Drop)]
pub struct ObjectParts {
    pub flags: u32,
    pub sections: Vec<PartSection>,
    pub symbols: Vec<PartSymbol>,
}

/// A section of an object: sh_type, sh_flags, sh_addralign and sh_size (System V gABI, "Sections"), its content, and
/// the relocations that change it. `bytes` is empty for the kinds NULL and NOBITS. As clauses see it, `compressed` is
/// always false: only the object's `flags` say whether the object is compressed.
#[derive(Drop)]
pub struct PartSection {
    pub name: Vec<u8>,
    pub kind: u32,
    pub flags: u32,
    pub align: u32,
    pub size: u32,
    pub bytes: Vec<u8>,
    pub relocs: Vec<Reloc>,
}

/// A symbol of an object: st_value and st_size, the halves of st_info, and st_shndx (System V gABI, "Symbol Table").
#[derive(Drop)]
pub struct PartSymbol {
    pub name: Vec<u8>,
    pub value: u32,
    pub size: u32,
    pub bind: u8,
    pub kind: u8,
    pub home: u16,
}

impl Model for PartSection {
    ghost use Rattle.std.specs.Prelude.{false};
    ghost use Rattle.elf32_read.specs.Parts.{SectionParts};

    ghost Value = { SectionParts };

    ghost view = { λ s. record {
      name = s.name.items;
      kind = s.kind;
      flags = s.flags;
      align = s.align;
      size = s.size;
      bytes = s.bytes.items;
      relocs = s.relocs.items;
      compressed = false;
    } };
}

impl Model for PartSymbol {
    ghost use Rattle.elf32_read.specs.Parts.{SymbolParts};

    ghost Value = { SymbolParts };

    ghost view = { λ s. record {
      name = s.name.items;
      value = s.value;
      size = s.size;
      bind = s.bind;
      kind = s.kind;
      home = s.home;
    } };
}

impl Model for ObjectParts {
    ghost use Rattle.elf32_read.specs.Parts.{ObjectParts as Parts};

    ghost Value = { Parts };

    ghost view = { λ parts. record {
      flags = parts.flags;
      sections = parts.sections.items;
      symbols = parts.symbols.items;
    } };
}
