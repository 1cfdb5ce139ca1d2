// Whether the names of an object are terminated.

ghost use Rattle.std.specs.Prelude.{◌≡◌, not};
ghost use Rattle.std.specs.List.{list_any};
ghost use Rattle.elf32_read.specs.Header.{headers_of};
ghost use Rattle.elf32_read.specs.Names.{has_end, is_unnamed_section};
ghost use Rattle.elf32_read.specs.Object.{has_bad_name, lacks_section_names, lacks_symbol_names};
ghost use Rattle.elf32_read.specs.Symbols.{entries_in, symbol_content, symbol_names, symbol_tables, IsSymbolSection};

use crate::header::name_section;
use crate::names::names_end;
use crate::sections::Sections;
use crate::symbols::{SYMBOL_SIZE, SymbolTable, symbol_entry};

// Whether there are sections, but no table of their names.
fn lacks_section_names(sections: &Sections) -> bool
    ensures { result ≡ lacks_section_names sections.now }
{
    sections.count() != 0 && sections.lacks_strings(u32::from(name_section(sections.bytes())))
}

// Whether there are symbols, but no table of their names.
fn lacks_symbol_names(sections: &Sections, section: Option<u32>) -> bool
    requires { IsSymbolSection sections.now section }
    ensures { result ≡ list_any (lacks_symbol_names sections.now) (symbol_tables sections.now) }
{
    match section {
        None => false,
        Some(i) => sections.lacks_strings(sections.header(i).link),
    }
}

/// Whether the name of some section isn't terminated.
#[tactic(auto, using(crate::proofs::Listed::none_listed_more))]
pub fn has_unnamed_section(sections: &Sections) -> bool
    ensures { result ≡ list_any (is_unnamed_section sections.now) (headers_of sections.now) }
{
    let end = names_end(sections.names());
    for i in 0..sections.count() {
        if end <= sections.header(i).name as usize {
            return true;
        }
    }
    false
}

// Whether the name of some symbol isn't terminated.
#[tactic(auto, using(crate::proofs::Listed::none_listed_more))]
fn has_unnamed_symbol(symbols: &SymbolTable) -> bool
    ensures { result
        ≡ list_any (λ e. not (has_end symbols.now.names.now e.name)) (entries_in symbols.now.entries.now) }
{
    let end = names_end(symbols.names);
    for i in 0..symbols.entries.len() / SYMBOL_SIZE as usize {
        if end <= symbol_entry(symbols.entries, i).name as usize {
            return true;
        }
    }
    false
}

/// Whether a table of names is missing, or a name isn't terminated.
pub fn has_bad_name(sections: &Sections, section: Option<u32>, symbols: &SymbolTable) -> bool
    requires section { IsSymbolSection sections.now section }
    requires entries { symbols.now.entries.now ≡ symbol_content sections.now }
    requires names { symbols.now.names.now ≡ symbol_names sections.now }
    ensures { result ≡ has_bad_name sections.now }
{
    lacks_section_names(sections)
        || lacks_symbol_names(sections, section)
        || has_unnamed_section(sections)
        || has_unnamed_symbol(symbols)
}
