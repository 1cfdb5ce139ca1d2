// Objects.

ghost use Rattle.std.specs.Prelude.{◌≡◌, ◌≤◌, ◌<◌, List, ℕ, [], length, replicate, slice_get, slice_index_or, None, Some, MatchOption, MatchResult};
ghost use Rattle.elf32_read.specs.Compressed.{has_rvc};
ghost use Rattle.elf32_read.specs.Header.{file_flags, header_of, section_count};
ghost use Rattle.elf32_read.specs.Lent.{IsSection, IsSectionEntry, IsSymbol};
ghost use Rattle.elf32_read.specs.Object.{has_other_flags, not_elf, object_fault, IsReadObject};
ghost use Rattle.elf32_read.specs.Parts.{relocs_held, relocs_of, section_parts, symbol_parts};
ghost use Rattle.elf32_read.specs.Relas.{IsRelaOf};
ghost use Rattle.elf32_read.specs.Symbols.{symbol_count, symbol_entry_of, symbol_names, IsSymbolSection};

use crate::alignments::{has_bad_alignment, has_cut_code};
use crate::bounds::is_truncated;
use crate::fault::Fault;
use crate::header::{
    RELOCATABLE, are_known_flags, begins_as, file_flags, has_other_section_headers, has_rvc,
    section_count,
};
use crate::kinds::has_unlinked_sections;
use crate::names::{name_at, names_from};
use crate::rela_table::fill_relas;
use crate::relas::{MOST_SECTIONS, rela_for};
use crate::reloc::Reloc;
use crate::relocs::Relocs;
use crate::section::Section;
use crate::section_entry::SectionEntry;
use crate::section_flags::SectionFlags;
use crate::sections::Sections;
use crate::symbol::Symbol;
use crate::symbol_entry::SymbolEntry;
use crate::symbols::{
    SYMBOL_SIZE, SymbolTable, has_bad_symbol, symbol_entry, symbol_section, symbol_table,
};
use crate::unnamed::has_bad_name;
use std::marker::Model;

const MOST_BYTES: usize = 0x40_0000;

fn is_no_object(bytes: &[u8]) -> bool
    ensures { result ≡ not_elf bytes.now }
{
    bytes.len() < 52 || !begins_as(RELOCATABLE, bytes) || has_other_section_headers(bytes)
}

fn has_other_flags(bytes: &[u8]) -> bool
    requires { 52 ≤ length bytes.now }
    ensures { result ≡ has_other_flags bytes.now }
{
    !are_known_flags(file_flags(bytes))
}

/// A relocatable object without a fault. Clauses see it as its bytes.
#[derive(Drop)]
pub struct Object<'a> {
    sections: Sections<'a>,
    symbol_section: Option<u32>,
    symbols: SymbolTable<'a>,
}

impl<'a> Model for Object<'a> {
    ghost Value = { List ℕ };

    ghost view = { λ object. object.sections };

    ghost invariant = { λ object.
        IsReadObject object.sections object.symbol_section object.symbols.entries.now object.symbols.names.now };
}

impl<'a> Object<'a> {
    /// Reads an object, or returns the first fault of its bytes. It looks at each header, symbol,
    /// relocation and byte of a name table a fixed number of times.
    #[tactic(auto, unfolding(crate::specs::Object::object_fault))]
    pub fn read(bytes: &'a [u8]) -> Result<Object<'a>, Fault>
        ensures { MatchResult result
            (λ object. (object ≡ bytes.entry.now) × (object_fault bytes.entry.now ≡ None))
            (λ fault. object_fault bytes.entry.now ≡ Some fault) }
    {
        if MOST_BYTES < bytes.len() {
            return Err(Fault::TooLarge);
        }
        if is_no_object(bytes) {
            return Err(Fault::NotElf);
        }
        if MOST_SECTIONS < section_count(bytes) as usize {
            return Err(Fault::TooLarge);
        }
        if is_truncated(bytes) {
            return Err(Fault::Truncated);
        }
        if has_other_flags(bytes) {
            return Err(Fault::Flags);
        }
        let sections = Sections::new(bytes);
        if has_unlinked_sections(&sections) {
            return Err(Fault::SectionKind);
        }
        let symbol_section = symbol_section(&sections);
        let symbols = symbol_table(&sections, symbol_section);
        if has_bad_alignment(&sections, symbols.entries) {
            return Err(Fault::Alignment);
        }
        if has_cut_code(&sections) {
            return Err(Fault::CodeSize);
        }
        if has_bad_name(&sections, symbol_section, &symbols) {
            return Err(Fault::BadName);
        }
        if has_bad_symbol(&sections, symbols.entries) {
            return Err(Fault::BadSymbol);
        }
        Ok(Object {
            sections,
            symbol_section,
            symbols,
        })
    }

    /// The object of bytes that `read` accepted before. It looks for the symbol table in the headers,
    /// and checks nothing again.
    pub fn known(bytes: &'a [u8]) -> Object<'a>
        requires { object_fault bytes.now ≡ None }
        ensures { result ≡ bytes.entry.now }
    {
        let section = symbol_section(&Sections::new(bytes));
        Object::known_with(bytes, section)
    }

    /// The object of bytes that `read` accepted before, with what `symbol_section` returned then. It
    /// looks at a fixed number of headers.
    pub fn known_with(bytes: &'a [u8], symbol_section: Option<u32>) -> Object<'a>
        requires faultless { object_fault bytes.now ≡ None }
        requires symbols { IsSymbolSection bytes.now symbol_section }
        ensures { result ≡ bytes.entry.now }
    {
        let sections = Sections::new(bytes);
        let symbols = symbol_table(&sections, symbol_section);
        Object {
            sections,
            symbol_section,
            symbols,
        }
    }

    /// The flags of the file, e_flags (RISC-V ELF psABI, "File Header").
    pub fn flags(&self) -> u32
        ensures { result ≡ file_flags self.now }
    {
        file_flags(self.sections.bytes())
    }

    /// Whether it is compressed: RVC is among its flags, so its code may have 2-byte instructions.
    pub fn is_compressed(&self) -> bool
        ensures { result ≡ has_rvc (file_flags self.now) }
    {
        has_rvc(self.flags())
    }

    /// The number of sections, including section 0, which is NULL in most files.
    pub fn section_count(&self) -> u32
        ensures count { result ≡ section_count self.now }
        ensures most { result ≤ 4096 }
        ensures faultless { object_fault self.now ≡ None }
    {
        self.sections.count()
    }

    /// A section, by its index. It looks at each byte of its name.
    pub fn section(&self, i: u32) -> Section<'a>
        requires { i < section_count self.now }
        ensures { IsSection result (section_parts self.now i) }
    {
        let header = self.sections.header(i);
        Section {
            name: name_at(self.sections.names(), header.name),
            kind: header.kind,
            flags: SectionFlags { bits: header.flags },
            size: header.size,
            align: header.align,
            bytes: self.sections.content(&header),
        }
    }

    /// A section, by its index, without its name. It looks at no byte of its name.
    pub fn section_entry(&self, i: u32) -> SectionEntry<'a>
        requires { i < section_count self.now }
        ensures { IsSectionEntry result (section_parts self.now i) }
    {
        let header = self.sections.header(i);
        SectionEntry {
            names: names_from(self.sections.names(), header.name),
            kind: header.kind,
            flags: SectionFlags { bits: header.flags },
            size: header.size,
            align: header.align,
            bytes: self.sections.content(&header),
        }
    }

    /// The section that holds the symbols, by its index, if there is one.
    pub fn symbol_section(&self) -> Option<u32>
        ensures { IsSymbolSection self.now result }
    {
        self.symbol_section
    }

    /// The number of symbols, including symbol 0.
    pub fn symbol_count(&self) -> u32
        ensures { result ≡ symbol_count self.now }
    {
        self.symbols.entries.len() as u32 / SYMBOL_SIZE
    }

    /// A symbol, by its index. It looks at each byte of its name.
    pub fn symbol(&self, i: u32) -> Symbol<'a>
        requires { i < symbol_count self.now }
        ensures { IsSymbol result (symbol_parts self.now (symbol_entry_of self.now i)) }
    {
        let entry = symbol_entry(self.symbols.entries, i as usize);
        Symbol {
            name: name_at(self.symbols.names, entry.name),
            value: entry.value,
            size: entry.size,
            bind: entry.bind,
            kind: entry.kind,
            home: entry.home,
        }
    }

    /// The symbol table's entry for a symbol, by its index. It looks at no byte of the symbol's name.
    pub fn symbol_entry(&self, i: u32) -> SymbolEntry
        requires { i < symbol_count self.now }
        ensures { result ≡ symbol_entry_of self.now i }
    {
        symbol_entry(self.symbols.entries, i as usize)
    }

    /// The table of the symbols' names.
    pub fn symbol_names(&self) -> &'a [u8]
        ensures { result.now ≡ symbol_names self.now }
    {
        self.symbols.names
    }

    /// The index of the section with the relocations of a section; `None` if the section is dropped
    /// or has no relocations. It looks through all headers.
    pub fn rela_of(&self, section: u32) -> Option<u32>
        requires { section < section_count self.now }
        ensures { MatchOption result
            (relocs_of self.now section ≡ [])
            (λ rela. (rela < section_count self.now)
            × (relocs_of self.now section ≡ relocs_held self.now (header_of self.now rela))) }
    {
        rela_for(&self.sections, section)
    }

    /// Fills a table: for each section, by its index, the section that holds its relocations. It looks
    /// at each header twice.
    pub fn relas(&self, table: &mut [Option<u32>])
        requires { table.old ≡ replicate (section_count self.now) None }
        ensures { (s : ℕ) → s < section_count self.now → IsRelaOf self.now s (slice_index_or table.new s None) }
    {
        fill_relas(&self.sections, table);
    }

    /// The relocations that are the content of the section with this index.
    pub fn relocs_held(&self, rela: u32) -> Relocs<'a>
        requires { rela < section_count self.now }
        ensures { result ≡ relocs_held self.now (header_of self.now rela) }
    {
        let header = self.sections.header(rela);
        Relocs::new(self.sections.content(&header))
    }

    /// The number of relocations that are the content of the section with this index.
    pub fn rela_count(&self, rela: u32) -> u32
        requires { rela < section_count self.now }
        ensures { result ≡ length (relocs_held self.now (header_of self.now rela)) }
    {
        self.relocs_held(rela).len()
    }

    /// A relocation, by the index of the section that holds it and its index there.
    pub fn rela(&self, rela: u32, k: u32) -> Reloc
        requires rela { rela < section_count self.now }
        requires k { k < length (relocs_held self.now (header_of self.now rela)) }
        ensures { slice_get (relocs_held self.now (header_of self.now rela)) k ≡ Some result }
    {
        self.relocs_held(rela).get(k)
    }

    /// The number of a section's relocations; 0 if the section is dropped. It looks through all headers.
    pub fn reloc_count(&self, section: u32) -> u32
        requires { section < section_count self.now }
        ensures { result ≡ length (relocs_of self.now section) }
    {
        match self.rela_of(section) {
            None => 0,
            Some(rela) => self.rela_count(rela),
        }
    }

    /// A relocation of a section, by its index there. It looks through all headers.
    pub fn reloc(&self, section: u32, k: u32) -> Reloc
        requires section { section < section_count self.now }
        requires k { k < length (relocs_of self.now section) }
        ensures { slice_get (relocs_of self.now section) k ≡ Some result }
    {
        match self.rela_of(section) {
            None => unreachable!(),
            Some(rela) => self.rela(rela, k),
        }
    }
}
