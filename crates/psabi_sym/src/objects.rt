// The objects of a link.

ghost use Rattle.std.specs.Prelude.{◌≡◌, ◌+◌, ◌≤◌, ◌<◌, List, ℕ, length, map, None, Some, IfOk, IfErr, IsSome, Option, [], slice_get, slice_index_or};
ghost use Rattle.zc_base.specs.MemMap.{IsMap, data_limit};
ghost use Rattle.psabi_sym.specs.Data.{data_address, data_end, data_file_end, is_code_at};
ghost use Rattle.psabi_sym.specs.Resolve.{Definition, definition_target, home_target, name_target, resolved, undefined_target};
ghost use Rattle.psabi_sym.specs.Invariants.Meanings.{meaning_row};
ghost use Rattle.std.specs.Option.{option_map_or};
ghost use Rattle.elf32_read.specs.Compressed.{has_rvc};
ghost use Rattle.elf32_read.specs.Header.{file_flags, section_count};
ghost use Rattle.elf32_read.specs.Parts.{SymbolParts};
ghost use Rattle.elf32_read.specs.Relas.{IsRelaOf};
ghost use Rattle.psabi_sym.specs.Faults.{fault_from, gather_fault};
ghost use Rattle.psabi_sym.specs.Fixed.{is_fixed_at};
ghost use Rattle.psabi_sym.specs.Inputs.{Inputs, inputs_in, parsed};
ghost use Rattle.psabi_sym.specs.LinkFault.{IsRefusal};
ghost use Rattle.psabi_sym.specs.Indexed.{IndexedSection, IsSectionNumber, all_sections};
ghost use Rattle.psabi_sym.specs.Invariants.Rows.{section_row};
ghost use Rattle.psabi_sym.specs.Objects.{contents_of};
ghost use Rattle.psabi_sym.specs.Start.{start_name};

use crate::definitions::Definitions;
use crate::link_fault::LinkFault;
use crate::loaded::Loaded;
use crate::lookups::{code_target, number_target, place, undefined};
use crate::meaning::Meaning;
use crate::named::name_objects;
use crate::section_ref::SectionRef;
use crate::section_row::{SectionRole, SectionRow};
use crate::sections::SectionRows;
use crate::sums::first_too_large;
use crate::symbol_row::SymbolRow;
use crate::symbols::Symbols;
use crate::target::Target;
use elf32_read::fault::Fault;
use elf32_read::object::Object;
use elf32_read::symbol::{ABS, LOCAL};
use std::alloc::{AllocError, Global};
use std::marker::Model;
use zc_base::link_options::LinkOptions;
use zc_base::mem_map::MemMap;

/// The most objects of a link.
pub const MOST_OBJECTS: usize = 256;

/// The objects of a link, in their order, and its options. They have no fault of their own, and none between them.
#[derive(Drop)]
pub struct Objects {
    objects: Vec<Loaded>,
    options: LinkOptions,
    sections: SectionRows,
    symbols: Symbols,
    definitions: Definitions,
}

impl Model for Objects {
    ghost use Rattle.psabi_sym.specs.Invariants.Gathered.{IsGathered};
    ghost use Rattle.psabi_sym.specs.Inputs.{Inputs, inputs_in};

    ghost Value = { Inputs };

    ghost view = { λ objects. inputs_in objects.options objects.objects.items };

    ghost invariant = { λ objects.
        IsGathered (inputs_in objects.options objects.objects.items) objects.sections objects.symbols objects.definitions };
}

impl Objects {
    /// The objects with these bytes, which are copied, as are the options, or why they aren't linked.
    pub fn gather(
        alloc: Global,
        bytes: &[Vec<u8>],
        options: &LinkOptions,
    ) -> Result<Objects, LinkFault>
        requires { IsMap options.now.map }
        ensures ok { IfOk result (λ objects.
            (objects ≡ inputs_in options.now (contents_of bytes.now)) × (gather_fault objects ≡ None)) }
        ensures err { IfErr result (λ fault.
            IsRefusal (gather_fault (inputs_in options.now (contents_of bytes.now))) fault) }
    {
        if MOST_OBJECTS < bytes.len() {
            return Err(LinkFault::Object {
                index: MOST_OBJECTS as u32,
                fault: Fault::TooLarge,
            });
        }
        if let Some((index, fault)) = first_unreadable(bytes) {
            return Err(LinkFault::Object { index, fault });
        }
        Objects::index(alloc, load(alloc, bytes)?, options.try_clone(alloc)?)
    }

    // Objects that can be read, with their tables, or the first fault between them.
    #[tactic(auto, unfolding(crate::specs::Faults::gather_fault, crate::specs::Faults::room_fault, crate::specs::Faults::sum_fault))]
    fn index(
        alloc: Global,
        objects: Vec<Loaded>,
        options: LinkOptions,
    ) -> Result<Objects, LinkFault>
        requires few { length objects.items ≤ 256 }
        requires readable { fault_from 0 objects.items ≡ None }
        requires is_map { IsMap options.map }
        ensures ok { IfOk result (λ gathered. gathered ≡ inputs_in options objects.items) }
        ensures err { IfErr result (IsRefusal (gather_fault (inputs_in options objects.items))) }
    {
        if let Some(index) = first_too_large(&objects) {
            return Err(LinkFault::Object {
                index,
                fault: Fault::TooLarge,
            });
        }
        let sections = SectionRows::new(alloc, &objects, options.fixed())?;
        match name_objects(alloc, &objects, &options, &sections.rows) {
            Err(fault) => Err(fault),
            Ok(named) => {
                if options.map().stack_low < named.definitions.end {
                    return Err(LinkFault::Object {
                        index: 0,
                        fault: Fault::TooLarge,
                    });
                }
                Ok(Objects {
                    objects,
                    options,
                    sections,
                    symbols: named.symbols,
                    definitions: named.definitions,
                })
            }
        }
    }

    /// Says what holds of all objects that are gathered, for the proof of a caller that needs no value of them. Nothing
    /// runs.
    #[inline]
    pub fn recall_invariant(&self)
        ensures faultless { gather_fault self.now ≡ None }
        ensures is_map { IsMap self.now.map }
        ensures data { data_end (parsed self.now) ≤ self.now.map.data_low + data_limit self.now.map }
    {
        let _definitions = &self.definitions;
    }

    /// The number of objects.
    pub fn object_count(&self) -> u32
        ensures count { result ≡ length self.now.files }
        ensures most { result ≤ 256 }
        ensures faultless { gather_fault self.now ≡ None }
        ensures is_map { IsMap self.now.map }
    {
        self.objects.len() as u32
    }

    /// An object, by its index.
    pub fn object(&self, i: u16) -> Object<'_>
        requires { i < length self.now.files }
        ensures { slice_get self.now.files i ≡ Some result }
    {
        self.objects[i as usize].object()
    }

    /// Whether an object is compressed, by its index: its code may have instructions of 2 bytes.
    pub fn compressed(&self, object: u16) -> bool
        requires { object < length self.now.files }
        ensures { result ≡ has_rvc (file_flags (slice_index_or self.now.files object [])) }
    {
        self.object(object).is_compressed()
    }

    /// The number of sections of all objects, with those that are dropped.
    pub fn section_count(&self) -> u32
        ensures count { result ≡ length (all_sections (parsed self.now).objects) }
        ensures most { result ≤ 0x10_0000 }
        ensures faultless { gather_fault self.now ≡ None }
        ensures is_map { IsMap self.now.map }
    {
        self.sections.rows.len() as u32
    }

    /// A section, by its number among all: one object after another, each by index. It takes constant
    /// time.
    pub fn section(&self, k: u32) -> SectionRef<'_>
        requires { k < length (all_sections (parsed self.now).objects) }
        ensures { slice_get (all_sections (parsed self.now).objects) k ≡ Some result }
    {
        let row = self.sections.rows[k as usize];
        SectionRef::new(&self.objects[row.object as usize], row)
    }

    /// What a link keeps of a section, by its number among all: it looks at no header of the file.
    pub fn section_row(&self, k: u32) -> SectionRow
        requires { k < length (all_sections (parsed self.now).objects) }
        ensures { (l : IndexedSection) × (slice_get (all_sections (parsed self.now).objects) k ≡ Some l)
            × (result ≡ section_row self.now.fixed l) }
    {
        self.sections.rows[k as usize]
    }

    /// The number of a section among all, by its object's index and its own; none if there is no such
    /// section. It takes constant time.
    pub fn section_number(&self, object: u16, section: u16) -> Option<u32>
        ensures { IsSectionNumber (parsed self.now).objects object section result }
    {
        match place(&self.sections.starts, object, u32::from(section)) {
            None => None,
            Some(k) => Some(k as u32),
        }
    }

    /// The memory map.
    pub fn map(&self) -> MemMap
        ensures value { result ≡ self.now.map }
        ensures is_map { IsMap result }
    {
        self.options.map()
    }

    /// The names of sections of code that stay as they were compiled.
    pub fn fixed_names(&self) -> &[Vec<u8>]
        ensures { contents_of result.now ≡ self.now.fixed }
    {
        self.options.fixed()
    }

    /// Where the data ends whose bytes a file holds.
    pub fn data_file_end(&self) -> u32
        ensures { result ≡ data_file_end (parsed self.now) }
    {
        self.definitions.file_end
    }

    /// Where all data ends in memory.
    pub fn data_end(&self) -> u32
        ensures value { result ≡ data_end (parsed self.now) }
        ensures most { result ≤ self.now.map.data_low + data_limit self.now.map }
    {
        self.definitions.end
    }
}

impl Objects {
    /// Whether a section is code, by its object's index and its own.
    pub fn is_code(&self, object: u16, section: u16) -> bool
        ensures { result ≡ is_code_at (parsed self.now).objects object section }
    {
        match place(&self.sections.starts, object, u32::from(section)) {
            None => false,
            Some(k) => self.sections.rows[k].is_code(),
        }
    }

    /// Whether a section is code that stays as it was compiled, by its object's index and its own. It takes constant
    /// time.
    pub fn is_fixed(&self, object: u16, section: u16) -> bool
        ensures { result ≡ is_fixed_at (parsed self.now) object section }
    {
        match place(&self.sections.starts, object, u32::from(section)) {
            None => false,
            Some(k) => self.sections.rows[k].fixed,
        }
    }

    /// The address of a section of data, by its object's index and its own.
    #[tactic(auto, unfolding(crate::specs::Data::data_address))]
    pub fn data_address(&self, object: u16, section: u16) -> u32
        requires { IsSome (data_address (parsed self.now) object section) }
        ensures { data_address (parsed self.now) object section ≡ Some result }
    {
        match place(&self.sections.starts, object, u32::from(section)) {
            None => 0,
            Some(k) => self.definitions.addresses[k],
        }
    }

    /// The section with the relocations of a section, by its object's index and its own; none if it
    /// has none.
    pub fn rela_of(&self, object: u16, section: u16) -> Option<u32>
        requires object { object < length self.now.files }
        requires section { section < section_count (slice_index_or self.now.files object []) }
        ensures { IsRelaOf (slice_index_or self.now.files object []) section result }
    {
        self.objects[object as usize].rela_of(u32::from(section))
    }

    // Where a symbol that is defined in a section leads; if it is ABS, it is a number by itself.
    fn home_target(&self, row: &SymbolRow, addend: i32) -> Target
        ensures { (s : SymbolParts) → s.home ≡ row.now.home → s.value ≡ row.now.value
            → result ≡ home_target (parsed self.now) row.now.object s addend }
    {
        if row.home == ABS {
            return number_target(row.value, addend);
        }
        let Some(k) = place(&self.sections.starts, row.object, u32::from(row.home)) else {
            return Target::Nowhere;
        };
        match self.sections.rows[k].role {
            SectionRole::Code => code_target(row, self.sections.rows[k].size, addend),
            SectionRole::InClass(_) => {
                number_target(
                    self.definitions.addresses[k].wrapping_add(row.value),
                    addend,
                )
            }
            SectionRole::Dropped => Target::Nowhere,
        }
    }

    // Where a name leads, by what it stands for and the binding of the symbol that has it.
    fn meaning_target(&self, meaning: Meaning, bind: u8, addend: i32) -> Target
        ensures { (names : List (List ℕ)) (o : Option Definition) (s : SymbolParts) → meaning ≡ meaning_row names o
            → s.bind ≡ bind → result ≡ option_map_or (definition_target (parsed self.now) addend) o (undefined_target s addend) }
    {
        match meaning {
            Meaning::Symbol(row) => self.home_target(&row, addend),
            Meaning::Number(n) => number_target(n, addend),
            Meaning::Nothing => undefined(bind, addend),
        }
    }

    /// What a symbol with an addend resolves to, by its object's index and its own.
    #[inline(always)]
    pub fn resolve(&self, object: u16, symbol: u32, addend: i32) -> Target
        ensures { result ≡ resolved (parsed self.now) object symbol addend }
    {
        if symbol == 0 {
            return number_target(0, addend);
        }
        let Some(k) = place(&self.symbols.starts, object, symbol - 1) else {
            return Target::Nowhere;
        };
        let row = self.symbols.rows[k];
        if !row.is_common() && row.bind == LOCAL {
            return self.home_target(&row, addend);
        }
        let meaning = self.definitions.meanings[row.name as usize];
        self.meaning_target(meaning, row.bind, addend)
    }

    /// Where `_start` leads, at which a program starts; nowhere if nothing defines it.
    pub fn start(&self) -> Target
        ensures { result ≡ name_target (parsed self.now) start_name }
    {
        self.meaning_target(self.definitions.start, LOCAL, 0)
    }
}

/// The first object that can't be read, with its first fault.
pub(crate) fn first_unreadable(files: &[Vec<u8>]) -> Option<(u32, Fault)>
    requires { length files.now ≤ 256 }
    ensures { result ≡ fault_from 0 (contents_of files.now) }
{
    for (i, file) in files.iter().enumerate() {
        if let Err(fault) = Object::read(file) {
            return Some((i as u32, fault));
        }
    }
    None
}

/// A copy of each object.
pub(crate) fn load(alloc: Global, files: &[Vec<u8>]) -> Result<Vec<Loaded>, AllocError>
    requires { fault_from 0 (contents_of files.now) ≡ None }
    ensures { IfOk result (λ objects. objects.items ≡ contents_of files.now) }
{
    let mut objects = Vec::with_capacity(alloc, files.len())?;
    for file in files {
        objects.push(Loaded::new(alloc, file)?)?;
    }
    Ok(objects)
}
