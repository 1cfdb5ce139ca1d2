// What a link is told beside its objects.

ghost use Rattle.std.specs.Prelude.{◌≡◌, IfOk};
ghost use Rattle.zc_base.specs.Options.{listed_names, options_in};

use crate::mem_map::MemMap;
use std::alloc::{AllocError, Global};
use std::marker::Model;

/// What a link is told beside its objects: the memory map, and the names of sections of code that stay as they were
/// compiled. A name stands for the sections that have it, and for those that have it with a dot behind and more.
#[derive(Drop)]
pub struct LinkOptions {
    map: MemMap,
    fixed: Vec<Vec<u8>>,
}

impl Model for LinkOptions {
    ghost use Rattle.zc_base.specs.Options.{Options, listed_names};

    ghost Value = { Options };

    ghost view = { λ options. record { map = options.map; fixed = listed_names options.fixed.items } };
}

impl LinkOptions {
    /// These options.
    pub fn new(map: MemMap, fixed: Vec<Vec<u8>>) -> LinkOptions
        ensures { result ≡ record { map = map; fixed = listed_names fixed.items } }
    {
        LinkOptions { map, fixed }
    }

    /// The options of a map alone, with no names. It allocates nothing.
    pub fn of_map(alloc: Global, map: MemMap) -> LinkOptions
        ensures { result ≡ options_in map }
    {
        LinkOptions {
            map,
            fixed: Vec::new(alloc),
        }
    }

    /// The memory map.
    pub fn map(&self) -> MemMap
        ensures { result ≡ self.now.map }
    {
        self.map
    }

    /// The names of sections of code that stay as they were compiled.
    pub fn fixed(&self) -> &[Vec<u8>]
        ensures { listed_names result.now ≡ self.now.fixed }
    {
        &self.fixed
    }

    /// A copy of these options.
    pub fn try_clone(&self, alloc: Global) -> Result<LinkOptions, AllocError>
        ensures { IfOk result (λ options. options ≡ self.now) }
    {
        Ok(LinkOptions {
            map: self.map,
            fixed: copied(alloc, &self.fixed)?,
        })
    }
}

// A copy of each name.
fn copied(alloc: Global, names: &[Vec<u8>]) -> Result<Vec<Vec<u8>>, AllocError>
    ensures { IfOk result (λ copies. listed_names copies.items ≡ listed_names names.now) }
{
    let mut copies = Vec::with_capacity(alloc, names.len())?;
    for name in names {
        copies.push(Vec::from_slice(alloc, name)?)?;
    }
    Ok(copies)
}
