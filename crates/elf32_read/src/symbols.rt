// The symbols of an object.

ghost use Rattle.std.specs.Prelude.{◌≡◌, ◌≤◌, ◌<◌, ◌+◌, ◌*◌, ◌/◌, false, drop, length};
ghost use Rattle.std.specs.List.{list_any};
ghost use Rattle.elf32_read.specs.Header.{headers_of, section_count};
ghost use Rattle.elf32_read.specs.Object.{has_bad_symbol, has_other_binding, has_other_kind, has_second_symbol_table, is_bad_symbol, is_homeless, is_of_no_symbol, is_undefined_local, passes_end, passes_section};
ghost use Rattle.elf32_read.specs.Symbols.{entries_in, symbol_content, symbol_entry_at, symbol_names, IsSymbolSection};

use crate::header::{SYMTAB, SectionHeader};
use crate::relas::{has_symbol_from, is_kept_rela};
use crate::sections::Sections;
use crate::symbol::{ABS, COMMON, LOCAL, UNDEF, WEAK};
use crate::symbol_entry::SymbolEntry;
use zc_base::fields::{u16_at, u32_at};

/// The size of a symbol's entry in bytes.
pub const SYMBOL_SIZE: u32 = 16;

const TLS: u8 = 6;

const GNU_IFUNC: u8 = 10;

/// The entries of the symbols, and the table of their names; both are empty if there are no symbols.
#[derive(Clone, Copy)]
pub struct SymbolTable<'a> {
    pub entries: &'a [u8],
    pub names: &'a [u8],
}

/// An entry of a symbol table, by its index.
#[tactic(auto, unfolding(crate::specs::Symbols::symbol_entry_at))]
pub fn symbol_entry(entries: &[u8], i: usize) -> SymbolEntry
    requires { 16 * i + 16 ≤ length entries.now }
    ensures { result ≡ symbol_entry_at entries.now i }
{
    let at = 16 * i;
    let info = entries[at + 12];
    SymbolEntry {
        name: u32_at(entries, at),
        value: u32_at(entries, at + 4),
        size: u32_at(entries, at + 8),
        bind: info / 16,
        kind: info % 16,
        home: u16_at(entries, at + 14),
    }
}

/// The index of the symbol table's section, if there is one. It looks through all headers.
pub fn symbol_section(sections: &Sections) -> Option<u32>
    requires { has_second_symbol_table sections.now ≡ false }
    ensures { IsSymbolSection sections.now result }
{
    let mut found = None;
    for i in 0..sections.count() {
        if sections.header(i).kind == SYMTAB {
            found = Some(i);
        }
    }
    found
}

/// The symbols of the section with this index.
pub fn symbol_table<'a>(sections: &Sections<'a>, section: Option<u32>) -> SymbolTable<'a>
    requires { IsSymbolSection sections.now section }
    ensures entries { result.entries.now ≡ symbol_content sections.now }
    ensures names { result.names.now ≡ symbol_names sections.now }
{
    match section {
        None => SymbolTable {
            entries: &[],
            names: &[],
        },
        Some(i) => {
            let header = sections.header(i);
            SymbolTable {
                entries: sections.content(&header),
                names: sections.strings(header.link),
            }
        }
    }
}

fn has_other_binding(entry: &SymbolEntry) -> bool
    ensures { result ≡ has_other_binding entry.now }
{
    WEAK < entry.bind
}

fn has_other_kind(entry: &SymbolEntry) -> bool
    ensures { result ≡ has_other_kind entry.now }
{
    matches!(entry.kind, TLS | GNU_IFUNC)
}

fn is_undefined_local(entry: &SymbolEntry) -> bool
    ensures { result ≡ is_undefined_local entry.now }
{
    entry.bind == LOCAL && entry.home == UNDEF
}

fn is_homeless(sections: &Sections, entry: &SymbolEntry) -> bool
    ensures { result ≡ is_homeless sections.now entry.now }
{
    sections.count() <= u32::from(entry.home) && entry.home != ABS && entry.home != COMMON
}

// Whether a symbol lies past the end of the kept section that it is in.
fn passes_section(sections: &Sections, entry: &SymbolEntry) -> bool
    ensures { result ≡ passes_section sections.now entry.now }
{
    let home = u32::from(entry.home);
    if entry.home == UNDEF || sections.count() <= home {
        return false;
    }
    let header = sections.header(home);
    header.size < entry.value && sections.is_kept(&header)
}

fn is_bad_symbol(sections: &Sections, entry: &SymbolEntry) -> bool
    ensures { result ≡ is_bad_symbol sections.now entry.now }
{
    has_other_binding(entry)
        || has_other_kind(entry)
        || is_undefined_local(entry)
        || is_homeless(sections, entry)
        || passes_section(sections, entry)
}

// Whether a symbol other than 0 is bad.
fn has_bad_entry(sections: &Sections, entries: &[u8]) -> bool
    ensures { result ≡ list_any (is_bad_symbol sections.now) (drop 1 (entries_in entries.now)) }
{
    for i in 1..entries.len() / SYMBOL_SIZE as usize {
        if is_bad_symbol(sections, &symbol_entry(entries, i)) {
            return true;
        }
    }
    false
}

// Whether a section is a RELA for a kept section, and one of its relocations names no symbol.
fn is_of_no_symbol(sections: &Sections, header: &SectionHeader, entries: &[u8]) -> bool
    requires whole { passes_end sections.now header.now ≡ false }
    requires entries { entries.now ≡ symbol_content sections.now }
    ensures { result ≡ is_of_no_symbol sections.now header.now }
{
    is_kept_rela(sections, header)
        && has_symbol_from(
            entries.len() / SYMBOL_SIZE as usize,
            sections.content(header),
        )
}

// Whether some relocation of a kept section names no symbol.
#[tactic(auto, using(crate::proofs::Listed::none_listed_more))]
fn has_reloc_of_none(sections: &Sections, entries: &[u8]) -> bool
    requires { entries.now ≡ symbol_content sections.now }
    ensures { result ≡ list_any (is_of_no_symbol sections.now) (headers_of sections.now) }
{
    for i in 0..sections.count() {
        if is_of_no_symbol(sections, &sections.header(i), entries) {
            return true;
        }
    }
    false
}

/// Whether a symbol other than 0 is bad, or a relocation of a kept section names no symbol.
pub fn has_bad_symbol(sections: &Sections, entries: &[u8]) -> bool
    requires { entries.now ≡ symbol_content sections.now }
    ensures { result ≡ has_bad_symbol sections.now }
{
    has_bad_entry(sections, entries) || has_reloc_of_none(sections, entries)
}
