// Objects in memory.

ghost use Rattle.std.specs.Prelude.{◌≡◌, ◌<◌, ◌≤◌, IfOk, List, ℕ, None, length};
ghost use Rattle.elf32_read.specs.Header.{section_count};
ghost use Rattle.elf32_read.specs.Object.{object_fault};
ghost use Rattle.elf32_read.specs.Parts.{relocs_of};
ghost use Rattle.elf32_read.specs.Relas.{IsRelaOf};

use elf32_read::object::Object;
use elf32_read::relocs::Relocs;
use std::alloc::{AllocError, Global};
use std::marker::Model;

/// An object that was read without a fault: its bytes, with what it takes long to look for. Clauses
/// see it as its bytes.
#[derive(Drop)]
pub struct Loaded {
    bytes: Vec<u8>,
    symbol_section: Option<u32>,
    relas: Vec<Option<u32>>,
}

impl Model for Loaded {
    ghost use Rattle.std.specs.Prelude.{List, ℕ};
    ghost use Rattle.psabi_sym.specs.Invariants.Loaded.{IsLoaded};

    ghost Value = { List ℕ };

    ghost view = { λ loaded. loaded.bytes.items };

    ghost invariant = { λ loaded. IsLoaded loaded.bytes.items loaded.symbol_section loaded.relas.items };
}

impl Loaded {
    /// A copy of an object without a fault.
    pub fn new(alloc: Global, bytes: &[u8]) -> Result<Loaded, AllocError>
        requires { object_fault bytes.now ≡ None }
        ensures { IfOk result (λ loaded. loaded ≡ bytes.now) }
    {
        let object = Object::known(bytes);
        let mut relas = vec![in alloc; None; object.section_count() as usize]?;
        object.relas(&mut relas);
        let symbol_section = object.symbol_section();
        let bytes = Vec::from_slice(alloc, bytes)?;
        Ok(Loaded {
            bytes,
            symbol_section,
            relas,
        })
    }

    /// The object.
    pub fn object(&self) -> Object<'_>
        ensures object { result ≡ self.now }
        ensures faultless { object_fault self.now ≡ None }
    {
        Object::known_with(&self.bytes, self.symbol_section)
    }

    /// The number of the file's bytes.
    pub fn len(&self) -> usize
        ensures count { result ≡ length self.now }
        ensures most { result ≤ 0x40_0000 }
    {
        self.bytes.len()
    }

    /// The section with the relocations of a section, by its index; none if there are none.
    pub fn rela_of(&self, section: u32) -> Option<u32>
        requires { section < section_count self.now }
        ensures { IsRelaOf self.now section result }
    {
        self.relas[section as usize]
    }

    /// The relocations of a section of this object, by its index. It takes constant time.
    pub fn relocs_of<'a>(&self, object: &Object<'a>, section: u32) -> Relocs<'a>
        requires object { object.now ≡ self.now }
        requires section { section < section_count self.now }
        ensures { result ≡ relocs_of self.now section }
    {
        match self.rela_of(section) {
            None => Relocs::none(),
            Some(rela) => object.relocs_held(rela),
        }
    }
}

/// An object with its index among those of a link.
#[derive(Clone, Copy)]
pub struct IndexedObject<'a> {
    pub index: u16,
    pub loaded: &'a Loaded,
}
